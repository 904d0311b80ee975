// Which line may stand where in a record.
ghost use Rattle.std.specs.Prelude.{◌≡◌};
ghost use Rattle.pump_audit.specs.Places.{at_place, behind_note, behind_line, takes_looks, takes_times, ends_at};
ghost use Rattle.pump_audit.specs.Places.{has_end_at};

use crate::entry::{Entry, Note};

/// Where a record stands behind its last line.
#[derive(Clone, Copy)]
pub(crate) enum RecordPlace {
    Opening,
    /// Behind a look, its comment, or the line that makes the session coarse.
    Looks,
    Times,
    /// Behind the line that says how many messages were taken.
    Taken,
    End,
}

impl RecordPlace {
    fn takes_looks(&self) -> bool
        ensures { result ≡ takes_looks self.now }
    {
        matches!(self, RecordPlace::Opening | RecordPlace::Looks)
    }

    fn takes_times(&self) -> bool
        ensures { result ≡ takes_times self.now }
    {
        matches!(
            self,
            RecordPlace::Opening | RecordPlace::Looks | RecordPlace::Times
        )
    }

    /// Whether the record has told how it ended.
    pub fn is_end(&self) -> bool
        ensures { result ≡ has_end_at self.now }
    {
        matches!(self, RecordPlace::End)
    }

    /// Whether a record may end here.
    pub fn may_end(&self) -> bool
        ensures { result ≡ ends_at self.now }
    {
        matches!(
            self,
            RecordPlace::Opening | RecordPlace::Looks | RecordPlace::End
        )
    }
}

/// The session of a record, and where it stands.
#[derive(Clone, Copy)]
pub(crate) struct Form {
    pub session: u32,
    pub place: RecordPlace,
}

impl Form {
    // The form behind a line that may stand here or not.
    fn moved(&self, may: bool, place: RecordPlace) -> Option<Form>
        ensures { result ≡ at_place self.now may place }
    {
        if !may {
            return None;
        }
        Some(Form {
            session: self.session,
            place,
        })
    }

    fn behind_note(&self, note: &Note) -> Option<Form>
        ensures { result ≡ behind_note self.now note.now }
    {
        match note {
            Note::Low { .. } => self.moved(self.place.takes_looks(), RecordPlace::Looks),
            Note::Time { .. } => self.moved(self.place.takes_times(), RecordPlace::Times),
            Note::Took { .. } => self.moved(self.place.takes_times(), RecordPlace::Taken),
            Note::End { .. } => self.moved(
                matches!(self.place, RecordPlace::Taken),
                RecordPlace::End,
            ),
        }
    }

    /// The form behind one more line; `None` where the line is out of its place or tells of another
    /// session.
    pub fn behind_line(&self, entry: &Entry) -> Option<Form>
        ensures { result ≡ behind_line self.now entry.now }
    {
        match entry {
            Entry::Opening { .. } => None,
            Entry::Coarse { session } => {
                let may = *session == self.session && matches!(self.place, RecordPlace::Opening);
                self.moved(may, RecordPlace::Looks)
            }
            Entry::Look(line) => {
                let may = line.session == self.session && self.place.takes_looks();
                self.moved(may, RecordPlace::Looks)
            }
            Entry::Comment(note) => self.behind_note(note),
        }
    }
}
