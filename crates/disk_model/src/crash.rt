// What a crash makes of a disk in memory.
ghost use Rattle.std.specs.Prelude.{◌≡◌};
ghost use Rattle.disk_model.specs.Record.{replay, put_as, crashed};

use crate::contents::Contents;
use crate::record::{Entry, Outcome};
use std::collections::VecDeque;

fn put_by(made: &mut Contents, outcome: Outcome, at: u64, bytes: &[u8])
    ensures room { made.new.room ≡ made.old.room }
    ensures bytes { made.new.bytes ≡ put_as outcome made.old.room bytes.now made.old.bytes at }
{
    match outcome {
        Outcome::Old => {}
        Outcome::New => made.put_within(at, bytes),
        Outcome::Fill(byte) => made.fill_within(at, bytes.len(), byte),
    }
}

// Makes what a crash leaves out of the bytes before the record; `plain` becomes what a read gives.
pub fn crash_into(
    made: &mut Contents,
    plain: &mut Contents,
    log: &VecDeque<Entry>,
    outcome: Outcome,
)
    requires { made.old ≡ plain.old }
    ensures made { made.new ≡ record
        { room = plain.old.room; bytes = crashed outcome plain.old log.now.items } }
    ensures plain { plain.new ≡ record
        { room = plain.old.room; bytes = replay plain.old log.now.items } }
{
    for i in (0..log.len()).rev() {
        match &log[i] {
            Entry::Write { at, bytes } => {
                put_by(made, outcome, *at, bytes.as_slice());
                plain.put_within(*at, bytes.as_slice());
            }
            Entry::Missed { at, bytes } => put_by(made, outcome, *at, bytes.as_slice()),
            Entry::Sync => made.set(plain),
        }
    }
}
