// Checking the record that a tape gives.
ghost use Rattle.std.specs.Prelude.{◌≡◌, ℕ, ◌<◌, ◌≤◌, List, Some, Err, IfOk, IfSome};
ghost use Rattle.std.specs.Io.KnownBytes.{prepend_known};
ghost use Rattle.pump_frame.specs.Counts.{Rose};
ghost use Rattle.pump_audit.specs.Auditing.{Reads};
ghost use Rattle.pump_audit.specs.Verdicts.{IsVerdict};
ghost use Rattle.pump_audit.specs.Auditing.{OpensAs};

use crate::entry::Entry;
use crate::reading::{Room, read_entry};
use crate::state::Audit;
use crate::texts::{Texted, Texts};
use crate::verdict::{AuditFault, Verdict};
use arrayvec::ArrayVec;
use pump_frame::OutOfMemory;
use pump_link::Source;
use std::alloc::Global;

/// A line that is wrong by itself.
fn misplaced(line: u64) -> Verdict
    ensures { result ≡ Verdict.No line 1 }
{
    Verdict::No { line, cause: 1 }
}

/// The record that begins with this line, if one does.
fn open(alloc: Global, text: &[u8], room: &mut Room) -> Result<Option<Audit>, OutOfMemory>
    ensures { IfOk result (λ opened. OpensAs text.now opened) }
{
    match read_entry(text, room) {
        Some(Entry::Opening { row, next, is_held }) => {
            Ok(Some(Audit::begin(alloc, &row, next, is_held)?))
        }
        _ => Ok(None),
    }
}

/// The verdict on the lines that are left behind those that came.
fn follow<I: Source>(
    mut audit: Audit,
    texts: &mut Texts,
    text: &mut ArrayVec<u8, 2400>,
    room: &mut Room,
    tape: &mut I,
) -> Result<Verdict, AuditFault>
    ensures verdict { (bytes : List ℕ) → Reads bytes audit (prepend_known texts.old (I.left tape.old))
        → IfOk result (IsVerdict bytes) }
    ensures read { result ≡ Err AuditFault.Read → Rose (I.faults tape.old) (I.faults tape.new) }
    ensures later { I.faults tape.old ≤ I.faults tape.new }
{
    'lines: loop {
        let lines = audit.lines();
        let line = u64::from(lines) + 1;
        match texts.next(tape, text) {
            Texted::Text => {}
            Texted::Cut => return Ok(misplaced(line)),
            Texted::End => return Ok(audit.verdict()),
            Texted::Failed => return Err(AuditFault::Read),
        }
        if lines == u32::MAX {
            return Ok(misplaced(line));
        }
        match audit.add(text.as_slice(), room) {
            Ok(None) => {}
            Ok(Some(cause)) => return Ok(Verdict::No { line, cause }),
            Err(_) => return Err(AuditFault::Memory),
        }
    }
}

/// Checks the record that the tape gives, line by line (`docs/formats.md`, "Audits"). The answer is `Yes`
/// exactly where the record is clean, with the numbers of its looks, of its comments of acknowledgements
/// and of its times; else it is the first line that is wrong, and why. `Read` comes only where the tape's
/// count of faults rose.
pub fn audit<I: Source>(alloc: Global, tape: &mut I) -> Result<Verdict, AuditFault>
    ensures verdict { IfSome (I.left tape.old) (λ bytes. IfOk result (IsVerdict bytes)) }
    ensures read { result ≡ Err AuditFault.Read → Rose (I.faults tape.old) (I.faults tape.new) }
    ensures later { I.faults tape.old ≤ I.faults tape.new }
{
    let mut texts = Texts::new();
    let mut text = ArrayVec::new();
    let mut room = Room::new();
    match texts.next(tape, &mut text) {
        Texted::Text => {}
        Texted::Cut | Texted::End => return Ok(misplaced(1)),
        Texted::Failed => return Err(AuditFault::Read),
    }
    match open(alloc, text.as_slice(), &mut room) {
        Ok(Some(audit)) => follow(audit, &mut texts, &mut text, &mut room, tape),
        Ok(None) => Ok(misplaced(1)),
        Err(_) => Err(AuditFault::Memory),
    }
}
