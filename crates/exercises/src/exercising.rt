//! A large script that is made from a number, run over disks in memory.

ghost use Rattle.std.specs.Prelude.{◌≡◌, ℕ, ◌+◌, ◌*◌, ◌^◌, ◌<◌, ◌≤◌, List, [], ◌∷◌, drop, length, IfOk, if◌then◌else◌};
ghost use Rattle.std.specs.Io.KnownBytes.{Appends};
ghost use Rattle.disk_model.specs.Plain.{plain_meaning};
ghost use Rattle.pump_frame.specs.Counts.{Rose};
ghost use Rattle.pump_link.specs.Causes.{AppendsPrefix};
ghost use Rattle.std.specs.String.{string_bytes};
ghost use Rattle.script_reader.specs.declared.fault.Fault.{Fault};
ghost use Rattle.script_reader.specs.EventHeads.{event_of};
ghost use Rattle.script_reader.specs.Generated.{generated_row, generated};
ghost use Rattle.script_reader.specs.Heads.{line_with, CanHoldLine};
ghost use Rattle.script_reader.specs.Lawful.{IsLawfulLine};
ghost use Rattle.script_reader.specs.Openings.{nothing_found, first_past};
ghost use Rattle.script_reader.specs.Past.{Past};
ghost use Rattle.two_worlds.specs.Printing.{lines_in};
ghost use Rattle.two_worlds.specs.Pumps.{StandsFor};
ghost use Rattle.exercises.specs.Exercises.{look_word, look_count, IsSummary};
ghost use Rattle.exercises.specs.Exercising.{AddsEvents, Counts, IsAtMost, CannotFail, CanGoOn, LeadsPump, HasRun};
ghost use Rattle.exercises.specs.Exercising.{tally_line};

use arrayvec::ArrayVec;
use delay_table::delay;
use disk_model::PlainDisk;
use pump_core::Reply;
use pump_frame::{OutOfMemory, SessionRow};
use pump_link::{Sink, write_all};
use script_reader::{Act, Body, EventHead, Generator, Line, LineHead};
use script_replay::Ended;
use std::alloc::{AllocError, Global};
use two_worlds::Pump;

/// The greatest average that is published, in microseconds.
const GREATEST_AVERAGE: u32 = 1_000_000_000;

/// What an exercise counts.
#[derive(Clone, Copy)]
struct Tally {
    looks: u64,
    acks: u64,
    full: u64,
    removed: u64,
    /// The sum of the delays of all messages that were passed, in microseconds.
    delay: u64,
}

/// The word of a look; 0 of another line.
fn word_of(line: &LineHead) -> u32
    ensures { (bytes : List ℕ) → result ≡ look_word (line_with bytes line.now) }
{
    match line {
        LineHead::At {
            act: Act::Look { word, .. },
            ..
        } => *word,
        _ => 0,
    }
}

fn is_look(line: &LineHead) -> bool
    ensures { (bytes : List ℕ) → (if result then 1 else 0) ≡ look_count (line_with bytes line.now) }
{
    matches!(
        line,
        LineHead::At {
            act: Act::Look { .. },
            ..
        }
    )
}

impl Tally {
    /// Nothing was counted yet.
    fn new() -> Tally
        ensures { result ≡ record { looks = 0; acks = 0; full = 0; removed = 0; delay = 0 } }
    {
        Tally {
            looks: 0,
            acks: 0,
            full: 0,
            removed: 0,
            delay: 0,
        }
    }

    /// The line that sums up an exercise.
    fn summary(&self, alloc: Global, seed: u32, count: u32) -> Result<String, AllocError>
        ensures { IfOk result (λ text. string_bytes text ≡ tally_line seed count self.now) }
    {
        let Tally {
            looks,
            acks,
            full,
            removed,
            delay,
        } = *self;
        format!(in alloc;
            "exercise {seed} {count} looks {looks} acks {acks} full {full} removed {removed} delay {delay}\n"
        )
    }

    /// An event that a line with this word prints.
    fn event(&mut self, word: u32, event: &EventHead)
        requires { IsAtMost (2 ^ 62) self.old }
        ensures { AddsEvents self.old self.new word (event_of event.now ∷ []) }
    {
        match event {
            EventHead::Low {
                reply: Reply::Ack { .. },
                ..
            } => self.acks += 1,
            EventHead::Full { .. } => self.full += 1,
            EventHead::Removed { .. } => self.removed += 1,
            EventHead::Passed { seen, .. } => {
                // A greater average has the same delay: the longest.
                let average = seen.average.min(GREATEST_AVERAGE);
                self.delay += u64::from(delay(average, word, 100_000));
            }
            _ => {}
        }
    }

    /// The events that a line with this word prints.
    fn events(&mut self, word: u32, events: &[EventHead])
        requires few { length events.now ≤ 4 }
        requires small { IsAtMost (2 ^ 61) self.old }
        ensures { AddsEvents self.old self.new word (lines_in events.now) }
    {
        'each: for event in events {
            self.event(word, event);
        }
    }

    /// A line, and what it prints.
    fn line(&mut self, line: &LineHead, events: &[EventHead])
        requires few { length events.now ≤ 4 }
        requires small { IsAtMost (2 ^ 60) self.old }
        ensures { (bytes : List ℕ) → Counts self.old self.new (line_with bytes line.now) (lines_in events.now) }
    {
        self.events(word_of(line), events);
        if is_look(line) {
            self.looks += 1;
        }
    }
}

/// The row of the session that a generator's first line begins.
fn first_row(generator: &mut Generator) -> SessionRow
    requires { (seed : ℕ) × (count : ℕ) × (generator.old ≡ generated seed count) }
    ensures row { result ≡ generated_row }
    ensures rest { generator.new ≡ drop 1 generator.old }
{
    match generator.next_line() {
        Some(Line::Session(row)) => row,
        _ => unreachable!(),
    }
}

/// Enough for the low and the high disk of the row, and for the receiver's.
const LOW_ROOM: u64 = 4096;

const RECEIVER_ROOM: u64 = 16_777_216;

/// A pump of the row over new disks in memory.
fn open(alloc: Global, row: &SessionRow) -> Result<Pump<PlainDisk>, OutOfMemory>
    requires { row.now ≡ generated_row }
    ensures stands { IfOk result (λ pump. StandsFor plain_meaning pump (first_past generated_row nothing_found)) }
    ensures ready { IfOk result (λ pump. CannotFail pump) }
{
    let low = PlainDisk::new(alloc, LOW_ROOM)?;
    let high = PlainDisk::new(alloc, LOW_ROOM)?;
    let receiver = PlainDisk::new(alloc, RECEIVER_ROOM)?;
    // No disk can fail and none is refused, so only memory can be wanting.
    match Pump::open(alloc, row, low, high, receiver) {
        Ok(pump) => Ok(pump),
        Err(_) => Err(OutOfMemory),
    }
}

/// A line that can be applied. The list is for what it prints.
fn apply(
    pump: &mut Pump<PlainDisk>,
    line: &LineHead,
    bytes: &[u8],
    events: &mut ArrayVec<EventHead, 4>,
)
    requires lawful { IsLawfulLine (line_with bytes.now line.now) }
    requires room { CanHoldLine line.now bytes.now }
    requires ready { CannotFail pump.old }
    requires can { CanGoOn pump.old (line_with bytes.now line.now) }
    ensures ready { CannotFail pump.new }
    ensures leads { (past : Past) → StandsFor plain_meaning pump.old past
        → LeadsPump past (line_with bytes.now line.now) (lines_in events.new.items) pump.new }
{
    match pump.apply_head(line, bytes, events) {
        None => {}
        Some(_) => unreachable!(),
    }
}

/// Runs the generated script, and counts what it prints.
fn run(alloc: Global, seed: u32, count: u32) -> Result<Tally, OutOfMemory>
    requires some { 1 ≤ count }
    requires few { count ≤ 100000 }
    ensures { IfOk result (λ tally. HasRun seed count tally) }
{
    let mut generator = Generator::new(seed, count);
    let row = first_row(&mut generator);
    let mut pump = open(alloc, &row)?;
    let mut tally = Tally::new();
    let mut body = Body::new();
    let mut events = ArrayVec::new();
    'lines: while let Some(line) = generator.next_head(&mut body) {
        apply(&mut pump, &line, body.as_slice(), &mut events);
        tally.line(&line, events.as_slice());
    }
    Ok(tally)
}

/// Runs the script that a seed makes, of so many messages, 1 to 100000, over disks in memory, and
/// writes one line that sums up what it printed; `docs/formats.md`, "Generated scripts", has the
/// line. It takes as much memory for any number of messages. `Memory` comes only before anything is
/// written, and `Write` only where the sink's count of faults rose; no other fault can stop it.
pub fn exercise<O: Sink>(alloc: Global, seed: u32, count: u32, out: &mut O) -> Ended
    requires some { 1 ≤ count }
    requires few { count ≤ 100000 }
    ensures done { result ≡ Ended.Done → (summary : List ℕ) × IsSummary seed count summary
        × Appends (O.written out.old) (O.written out.new) summary }
    ensures memory { result ≡ Ended.Memory → out.new ≡ out.old }
    ensures write { result ≡ Ended.Write → Rose (O.faults out.old) (O.faults out.new)
        × ((summary : List ℕ) × IsSummary seed count summary
        × AppendsPrefix (O.written out.old) (O.written out.new) summary) }
    ensures other { (fault : Fault) → result ≡ Ended.Stopped fault → ⊥ }
{
    let Ok(tally) = run(alloc, seed, count) else {
        return Ended::Memory;
    };
    let Ok(summary) = tally.summary(alloc, seed, count) else {
        return Ended::Memory;
    };
    match write_all(out, summary.as_bytes()) {
        Ok(()) => Ended::Done,
        Err(_) => Ended::Write,
    }
}
