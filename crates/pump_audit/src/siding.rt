// Reading low's side of a record.
ghost use Rattle.std.specs.Prelude.{◌≡◌, ◌≢◌, ◌⊎◌, List, [], Option, IfOk, OnOk, MatchOption, true, false};
ghost use Rattle.pump_audit.specs.Places.{ends_at};
ghost use Rattle.pump_audit.specs.Comparing.{separator, ItemTold, SideTold, with_entry};
ghost use Rattle.pump_audit.specs.Siding.{LooksTell, Stands, form_of_side, BeginsAs, GoesOnBy, IsSound};

use crate::entry::Entry;
use crate::form::{Form, RecordPlace};
use crate::reading::{Room, read_entry};
use crate::side::{Looks, Opened, Side};
use pump_frame::OutOfMemory;
use std::alloc::Global;

impl Side {
    /// The side that begins with this line, if one does. It takes its looks so, of which none came.
    pub fn begin(text: &[u8], looks: Looks, room: &mut Room) -> Option<Side>
        ensures { (first : Option (List ItemTold)) → LooksTell first looks [] → BeginsAs first text.now result }
    {
        match read_entry(text, room) {
            Some(Entry::Opening { row, next, is_held }) => Some(Side {
                opened: Opened { row, next, is_held },
                place: RecordPlace::Opening,
                looks,
            }),
            _ => None,
        }
    }

    fn form(&self) -> Form
        ensures { result ≡ form_of_side self.now }
    {
        Form {
            session: self.opened.row.id,
            place: self.place,
        }
    }

    // A line behind which the record stands there.
    fn add_entry(
        &mut self,
        alloc: Global,
        entry: &Entry,
        place: RecordPlace,
    ) -> Result<(), OutOfMemory>
        requires { IsSound entry.now }
        ensures { OnOk result ((first : Option (List ItemTold)) (s : SideTold) → Stands first self.old s
            → Stands first self.new (with_entry s entry.now place)) }
    {
        match entry {
            Entry::Look(line) => self.looks.add(alloc, line)?,
            Entry::Coarse { .. } => self.opened.row.coarse = true,
            Entry::Opening { .. } | Entry::Comment(_) => {}
        }
        self.place = place;
        Ok(())
    }

    /// One more line, without its end; false where it is none of a record in its place.
    pub fn add(&mut self, alloc: Global, text: &[u8], room: &mut Room) -> Result<bool, OutOfMemory>
        ensures { IfOk result (λ went. (first : Option (List ItemTold)) (s : SideTold) → Stands first self.old s
            → GoesOnBy first s text.now self.new went) }
    {
        let Some(entry) = read_entry(text, room) else {
            return Ok(false);
        };
        match self.form().behind_line(&entry) {
            Some(form) => {
                self.add_entry(alloc, &entry, form.place)?;
                Ok(true)
            }
            None => Ok(false),
        }
    }

    /// Whether this text may end the first of two records here.
    pub fn is_separator(&self, is_first: bool, text: &[u8]) -> bool
        ensures yes { result ≡ true → (is_first ≡ true) × (ends_at self.now.place ≡ true) × (text.now ≡ separator) }
        ensures no { result ≡ false → is_first ≡ true → ends_at self.now.place ≡ true → text.now ≢ separator }
    {
        is_first && self.place.may_end() && text == b"# compare".as_slice()
    }

    /// The side at the end of the bytes, if it may end there.
    pub fn ended(self, is_first: bool) -> Option<Side>
        ensures { MatchOption result ((is_first ≡ true) ⊎ (ends_at self.place ≡ false)) (λ v. (v ≡ self)
            × (is_first ≡ false) × (ends_at self.place ≡ true)) }
    {
        if is_first || !self.place.may_end() {
            return None;
        }
        Some(self)
    }
}
