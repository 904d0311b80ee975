// Comparing the two records that a tape gives.
ghost use Rattle.std.specs.Prelude.{◌≡◌, ℕ, ◌+◌, ◌≤◌, List, [], Option, Some, Err, IfOk, IfSome};
ghost use Rattle.std.specs.Io.KnownBytes.{prepend_known};
ghost use Rattle.pump_frame.specs.Counts.{Rose};
ghost use Rattle.pump_audit.specs.Comparing.{IsCompared, ItemTold};
ghost use Rattle.pump_audit.specs.Siding.{LooksTell, SideComes, SideGoes};

use crate::compared::Compared;
use crate::reading::Room;
use crate::side::{Looks, Side};
use crate::texts::{Texted, Texts};
use crate::verdict::AuditFault;
use arrayvec::ArrayVec;
use pump_link::Source;
use std::alloc::Global;

/// The lines of two records, and how many came.
#[derive(Drop)]
struct Both {
    alloc: Global,
    texts: Texts,
    text: ArrayVec<u8, 2400>,
    room: Room,
    lines: u32,
}

impl Both {
    fn lines(&self) -> u32
        ensures { result ≡ self.now.lines }
    {
        self.lines
    }

    // The next line is none of a record.
    fn not_record(&self) -> Compared
        ensures { result ≡ Compared.NotRecord (self.now.lines + 1) }
    {
        Compared::NotRecord {
            line: u64::from(self.lines()) + 1,
        }
    }

    // The lines of a side up to its end, behind those that came. `None` where the next line is none of a
    // record in its place.
    fn follow<I: Source>(
        &mut self,
        mut side: Side,
        is_first: bool,
        tape: &mut I,
    ) -> Result<Option<Side>, AuditFault>
        ensures side { (first : Option (List ItemTold)) (bytes : List ℕ) (before : ℕ)
            → SideGoes first is_first before bytes side self.old.lines (prepend_known self.old.texts (I.left tape.old))
            → IfOk result (λ o. SideComes first is_first before bytes o self.new.lines
            (prepend_known self.new.texts (I.left tape.new))) }
        ensures read { result ≡ Err AuditFault.Read → Rose (I.faults tape.old) (I.faults tape.new) }
        ensures later { I.faults tape.old ≤ I.faults tape.new }
    {
        'lines: loop {
            match self.texts.next(tape, &mut self.text) {
                Texted::Text => {}
                Texted::Cut => return Ok(None),
                Texted::End => return Ok(side.ended(is_first)),
                Texted::Failed => return Err(AuditFault::Read),
            }
            let lines = self.lines();
            if lines == u32::MAX {
                return Ok(None);
            }
            if side.is_separator(is_first, self.text.as_slice()) {
                self.lines = lines + 1;
                return Ok(Some(side));
            }
            match side.add(self.alloc, self.text.as_slice(), &mut self.room) {
                Ok(true) => self.lines = lines + 1,
                Ok(false) => return Ok(None),
                Err(_) => return Err(AuditFault::Memory),
            }
        }
    }

    // The lines of a side up to its end. `None` where the next line is none of a record in its place.
    fn side<I: Source>(
        &mut self,
        looks: Looks,
        is_first: bool,
        tape: &mut I,
    ) -> Result<Option<Side>, AuditFault>
        ensures side { (first : Option (List ItemTold)) (bytes : List ℕ) → LooksTell first looks []
            → prepend_known self.old.texts (I.left tape.old) ≡ Some bytes
            → IfOk result (λ o. SideComes first is_first self.old.lines bytes o self.new.lines
            (prepend_known self.new.texts (I.left tape.new))) }
        ensures read { result ≡ Err AuditFault.Read → Rose (I.faults tape.old) (I.faults tape.new) }
        ensures later { I.faults tape.old ≤ I.faults tape.new }
    {
        match self.texts.next(tape, &mut self.text) {
            Texted::Text => {}
            Texted::Cut | Texted::End => return Ok(None),
            Texted::Failed => return Err(AuditFault::Read),
        }
        let lines = self.lines();
        if lines == u32::MAX {
            return Ok(None);
        }
        match Side::begin(self.text.as_slice(), looks, &mut self.room) {
            Some(side) => {
                self.lines = lines + 1;
                self.follow(side, is_first, tape)
            }
            None => Ok(None),
        }
    }
}

/// Compares low's sides of the two records that the tape gives, with a line `# compare` between them
/// (`docs/formats.md`, "Audits"): the rows with what was found at the opening, and the looks. Comments and
/// counts are no part of it. The looks of the first record are kept, and those of the second one compared
/// with them as they come. The answer is `NotRecord` exactly where a line is none of a record, or out of
/// its place, or the line between is missing. `Read` comes only where the tape's count of faults rose.
pub fn compare<I: Source>(alloc: Global, both: &mut I) -> Result<Compared, AuditFault>
    ensures compared { IfSome (I.left both.old) (λ bytes. IfOk result (IsCompared bytes)) }
    ensures read { result ≡ Err AuditFault.Read → Rose (I.faults both.old) (I.faults both.new) }
    ensures later { I.faults both.old ≤ I.faults both.new }
{
    let mut lines = Both {
        alloc,
        texts: Texts::new(),
        text: ArrayVec::new(),
        room: Room::new(),
        lines: 0,
    };
    let kept = Looks::Kept(Vec::new(alloc));
    let Some(first) = lines.side(kept, true, both)? else {
        return Ok(lines.not_record());
    };
    let Side { opened, looks, .. } = first;
    let Some(second) = lines.side(looks.to_match(), false, both)? else {
        return Ok(lines.not_record());
    };
    Ok(second.compared(&opened))
}
