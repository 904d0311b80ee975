//! A record is checked, or two are compared, and what is said of them is written.

ghost use Rattle.std.specs.Prelude.{◌≡◌, ◌⊎◌, ◌≤◌, [], length, IfSome};
ghost use Rattle.std.specs.Io.KnownBytes.{Appends};
ghost use Rattle.pump_frame.specs.Counts.{Rose};
ghost use Rattle.pump_link.specs.Causes.{AppendsPrefix};
ghost use Rattle.pump_audit.specs.declared.compared.Compared.TheVariants.{Differ};
ghost use Rattle.commands.specs.Auditing.{verdict_line, verdict_status, part_word, compared_line, compared_status};
ghost use Rattle.commands.specs.Auditing.{EndsAudit, EndsComparison};

use arrayvec::ArrayVec;
use command_ends::{put, put_number, put_one, put_three, put_two};
use pump_audit::{AuditFault, Compared, Verdict, What, audit, compare};
use pump_link::{Sink, Source, write_all};
use script_reader::{Fault, append_fault};
use std::alloc::Global;

fn verdict_status(verdict: &Verdict) -> u8
    ensures { result ≡ verdict_status verdict.now }
{
    match verdict {
        Verdict::Yes { .. } => 0,
        Verdict::No { .. } => 15,
    }
}

fn put_verdict(verdict: &Verdict, into: &mut ArrayVec<u8, 256>)
    requires { into.old.items ≡ [] }
    ensures { into.new.items ≡ verdict_line verdict.now }
{
    match *verdict {
        Verdict::Yes { looks, acks, times } => put_three(into, b"audit yes", looks, acks, times),
        Verdict::No { line, cause } => put_two(into, b"audit no", line, u64::from(cause)),
    }
}

fn part_word(part: What) -> &'static str
    ensures word { result.now ≡ part_word part }
    ensures short { length result.now ≤ 8 }
{
    match part {
        What::Opening => "opening",
        What::Moment => "moment",
        What::Word => "word",
        What::Arrival => "arrival",
        What::Outcome => "outcome",
        What::Feedback => "feedback",
        What::Length => "length",
    }
}

fn compared_status(compared: &Compared) -> u8
    ensures { result ≡ compared_status compared.now }
{
    match compared {
        Compared::Agree { .. } => 0,
        Compared::NotRecord { .. } => 5,
        Compared::Differ { .. } => 16,
    }
}

/// A line of an item and the part in which it differs.
fn put_difference(item: u64, what: What, into: &mut ArrayVec<u8, 256>)
    requires { into.old.items ≡ [] }
    ensures { into.new.items ≡ compared_line (Differ item what) }
{
    put(into, b"differ");
    put_number(into, item);
    put(into, b" ");
    put(into, part_word(what).as_bytes());
    put(into, b"\n");
}

fn put_compared(compared: &Compared, into: &mut ArrayVec<u8, 256>)
    requires { into.old.items ≡ [] }
    ensures { into.new.items ≡ compared_line compared.now }
{
    match *compared {
        Compared::Agree { items } => put_one(into, b"agree", items),
        Compared::Differ { item, what } => put_difference(item, what, into),
        Compared::NotRecord { line } => put_one(into, b"fault script", line),
    }
}

/// Writes a line, and answers its status, or 4 where it could not be written.
fn say<O: Sink>(line: &[u8], status: u8, out: &mut O) -> u8
    ensures { ((result ≡ status) × Appends (O.written out.old) (O.written out.new) line.now)
        ⊎ ((result ≡ 4) × AppendsPrefix (O.written out.old) (O.written out.new) line.now
        × Rose (O.faults out.old) (O.faults out.new)) }
{
    match write_all(out, line) {
        Ok(()) => status,
        Err(_) => 4,
    }
}

/// Checks the record that the script is, and says what it found: status 0 where the record is clean, and
/// 15 where a line of it is wrong (`docs/formats.md`, "Audits").
pub fn audit_script<I: Source, O: Sink>(alloc: Global, script: &mut I, out: &mut O) -> u8
    ensures ends { IfSome (I.left script.old) (λ bytes.
        EndsAudit bytes (Rose (I.faults script.old) (I.faults script.new)) (O.written out.old) (O.written out.new)
        result) }
    ensures memory { result ≡ 1 → Appends (O.written out.old) (O.written out.new) [] }
    ensures read { result ≡ 3 → Rose (I.faults script.old) (I.faults script.new) }
    ensures unwritten { result ≡ 4 → Rose (O.faults out.old) (O.faults out.new) }
    ensures status { (result ≡ 0) ⊎ ((result ≡ 1) ⊎ ((result ≡ 3) ⊎ ((result ≡ 4) ⊎ (result ≡ 15)))) }
{
    let mut line = ArrayVec::new();
    let status = match audit(alloc, script) {
        Ok(verdict) => {
            put_verdict(&verdict, &mut line);
            verdict_status(&verdict)
        }
        Err(AuditFault::Memory) => return 1,
        Err(AuditFault::Read) => {
            append_fault(&Fault::Read, &mut line);
            3
        }
    };
    say(line.as_slice(), status, out)
}

/// Compares Low's side of the two records that the script has, and says what it found: status 0 where they
/// agree, 16 where an item differs, and 5 where a line is none of a record (`docs/formats.md`, "Audits").
pub fn compare_script<I: Source, O: Sink>(alloc: Global, script: &mut I, out: &mut O) -> u8
    ensures ends { IfSome (I.left script.old) (λ bytes.
        EndsComparison bytes (Rose (I.faults script.old) (I.faults script.new)) (O.written out.old) (O.written out.new)
        result) }
    ensures memory { result ≡ 1 → Appends (O.written out.old) (O.written out.new) [] }
    ensures read { result ≡ 3 → Rose (I.faults script.old) (I.faults script.new) }
    ensures unwritten { result ≡ 4 → Rose (O.faults out.old) (O.faults out.new) }
    ensures status { (result ≡ 0) ⊎ ((result ≡ 1) ⊎ ((result ≡ 3) ⊎ ((result ≡ 4) ⊎ ((result ≡ 5) ⊎ (result ≡ 16))))) }
{
    let mut line = ArrayVec::new();
    let status = match compare(alloc, script) {
        Ok(compared) => {
            put_compared(&compared, &mut line);
            compared_status(&compared)
        }
        Err(AuditFault::Memory) => return 1,
        Err(AuditFault::Read) => {
            append_fault(&Fault::Read, &mut line);
            3
        }
    };
    say(line.as_slice(), status, out)
}
