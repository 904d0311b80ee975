//! A file is sent over a session's pump.

ghost use Rattle.std.specs.Prelude.{◌≡◌, ◌≢◌, ◌⊎◌, ℕ, ◌≤◌, ◌++◌, false, List, [], Option, Some, Ok, Err, IfOk, IfErr};
ghost use Rattle.std.specs.Prelude.{OnOk};
ghost use Rattle.disk_model.specs.Disk.{Moves, Same};
ghost use Rattle.disk_model.specs.declared.name.Role.{Role as DiskRole};
ghost use Rattle.disk_model.specs.declared.name.Role.TheVariants as roles;
ghost use Rattle.pump_frame.specs.Counts.{Rose};
ghost use Rattle.pump_frame.specs.Rows.{IsLawfulRow};
ghost use Rattle.recovery.specs.Moves.{disk_of};
ghost use Rattle.script_reader.specs.Openings.{Found, accepted_in, first_past};
ghost use Rattle.script_reader.specs.Past.{Past};
ghost use Rattle.stable_buffer.specs.Log.{RecvStands};
ghost use Rattle.world_laws.specs.Disks.{LeaveWorld};
ghost use Rattle.two_worlds.specs.Openings.{IsLeft};
ghost use Rattle.two_worlds.specs.Pumps.{StandsFor, StandsOrFails, disk_at, is_down, row_of};
ghost use Rattle.pump_wrapper.specs.Comparing.{Begins, Compares, SameBytes};
ghost use Rattle.pump_wrapper.specs.Crashes.{LeavesPrefix, LeavesPrefixSince};
ghost use Rattle.pump_wrapper.specs.Cutting.{Gave, MayCut, cut_bytes, cut_message};
ghost use Rattle.pump_wrapper.specs.Wrapped.{wrapped};
ghost use Rattle.pump_wrapper.specs.Wraps.{AreFirst, IsWhole, IsSent, HasAll, HasPassed, end_of_comparison};
ghost use Rattle.pump_wrapper.specs.Wraps.{end_of_opening, end_of_sending, is_too_long};
ghost use Rattle.pump_wrapper.specs.WrapEnds.{TakesSoFar, ComparesNot, Continues, Empties, Ends, EndsEarly, EndsOn};
ghost use Rattle.pump_wrapper.specs.WrapEnds.{HasDiskCause, IsNotOpened, KeepsPrefixOf, LeavesPrefixBy, RefusesDisks};
ghost use Rattle.pump_wrapper.specs.WrapEnds.{Stand};
ghost use Rattle.pump_wrapper.specs.declared.file_sender.WrapEnd.TheVariants as ends;

use crate::compare::{CompareFault, skip_received};
use crate::cutter::Cutter;
use crate::drain::drain;
use crate::sending::send_rest;
use disk_model::{Disk, Role};
use pump_frame::SessionRow;
use pump_link::Source;
use recovery::{Trio, Why, open_receiver};
use stable_buffer::RECEIVER_SIZE;
use std::alloc::Global;
use two_worlds::{Pump, Stop};

/// What the sending of a file came to.
#[derive(Clone, Copy, PartialEq, Eq, Debug)]
pub enum WrapEnd {
    /// The receiver has the whole file: its bytes, and its messages.
    Done { bytes: u64, messages: u64 },
    /// No memory.
    Memory,
    /// A read of the file failed.
    Read,
    /// The file has 2^48 bytes or more.
    TooLong,
    /// The receiver has another message with this number than the file, or one that the file lacks;
    /// those before it are the file's.
    Differs { number: u64 },
    /// This disk was not opened.
    Refused { role: Role, why: Why },
    /// A line was stopped: a disk failed, or a message does not fit at the receiver.
    Stopped(Stop),
}

/// What the sending of a file came to, and the disks.
#[derive(Drop)]
pub struct Wrapped<D> {
    pub end: WrapEnd,
    pub disks: Trio<D>,
}

/// Why a pump was not opened.
fn not_opened(role: Role, why: Option<Why>) -> WrapEnd
    ensures { result ≡ end_of_opening role why }
{
    match why {
        None => WrapEnd::Memory,
        Some(why) => WrapEnd::Refused { role, why },
    }
}

/// What a comparison came to.
fn compared(answer: Result<(), CompareFault>) -> Result<(), WrapEnd>
    ensures { result ≡ end_of_comparison answer }
{
    match answer {
        Ok(()) => Ok(()),
        Err(CompareFault::Device { faults }) => Err(WrapEnd::Refused {
            role: Role::Recv,
            why: Why::Device { faults },
        }),
        Err(CompareFault::Differs { number }) => Err(WrapEnd::Differs { number }),
        Err(CompareFault::Read) => Err(WrapEnd::Read),
        Err(CompareFault::TooLong) => Err(WrapEnd::TooLong),
    }
}

/// What the sending came to, of so many bytes.
fn sent_all(bytes: u64, sent: Result<u64, WrapEnd>) -> WrapEnd
    ensures { result ≡ end_of_sending bytes sent }
{
    match sent {
        Ok(messages) => WrapEnd::Done { bytes, messages },
        Err(end) => end,
    }
}

/// A pump over the three disks.
fn open<D: Disk>(alloc: Global, row: &SessionRow, disks: Trio<D>) -> Result<Pump<D>, Wrapped<D>>
    requires lawful { IsLawfulRow row.now }
    ensures opens { IfOk result (λ pump. D.told.tells → (f : Found) × Stand D.told row.now disks f) }
    ensures stands { IfOk result (λ pump. D.told.tells → (f : Found) → Stand D.told row.now disks f
        → StandsFor D.told pump (first_past row.now f)) }
    ensures counts { IfOk result (λ pump. (role : DiskRole)
        → D.told.count (disk_of disks role) ≤ D.told.count (disk_at role pump)) }
    ensures row { IfOk result (λ pump. row_of pump ≡ row.now) }
    ensures recv { IfOk result (λ pump. IsLeft D.told row.now roles.Recv disks.recv (disk_at roles.Recv pump) false) }
    ensures up { IfOk result (λ pump. is_down pump ≡ false) }
    ensures not { IfErr result (λ answer. EndsEarly D.told row.now disks answer.end answer.disks) }
{
    let Trio { low, high, recv } = disks;
    match Pump::open(alloc, row, low, high, recv) {
        Ok(pump) => Ok(pump),
        Err(failed) => Err(Wrapped {
            end: not_opened(failed.role, failed.why),
            disks: Trio {
                low: failed.low,
                high: failed.high,
                recv: failed.recv,
            },
        }),
    }
}

/// The disks of a pump.
fn close<D: Disk>(pump: Pump<D>) -> Trio<D>
    ensures all { D.told.tells → (messages : List (List ℕ)) → (q : Past) → StandsFor D.told pump q
        → HasPassed messages q.world
        → HasAll D.told (row_of pump) messages result }
    ensures left { (q : Past) → StandsOrFails D.told pump q
        → LeaveWorld D.told (row_of pump) q.world result.low result.high result.recv }
    ensures disks { (role : DiskRole) → disk_of result role ≡ disk_at role pump }
{
    let (low, high, recv) = pump.close();
    Trio { low, high, recv }
}

/// The pump is opened and emptied.
fn empty<D: Disk>(alloc: Global, row: &SessionRow, disks: Trio<D>) -> Result<Trio<D>, Wrapped<D>>
    requires lawful { IsLawfulRow row.now }
    ensures empties { IfOk result (λ left. Empties D.told row.now disks left) }
    ensures not { IfErr result (λ answer. EndsEarly D.told row.now disks answer.end answer.disks) }
{
    let mut pump = open(alloc, row, disks)?;
    let drained = drain(&mut pump);
    let disks = close(pump);
    match drained {
        Ok(()) => Ok(disks),
        Err(stop) => Err(Wrapped {
            end: WrapEnd::Stopped(stop),
            disks,
        }),
    }
}

/// The receiver's messages are the first ones of the file. The cutter goes on behind them.
fn compare<D: Disk, I: Source>(
    row: &SessionRow,
    recv: D,
    cutter: &mut Cutter,
    file: &mut I,
) -> (D, Result<(), WrapEnd>)
    requires lawful { IsLawfulRow row.now }
    requires may { MayCut cutter.old }
    ensures compares { OnOk result.1 (D.told.tells → (messages : List (List ℕ))
        → RecvStands row.now messages (D.told.reading recv)
        → Compares messages cutter.old cutter.new (I.left file.old) (I.left file.new) (Ok tt)) }
    ensures not { IfErr result.1 (λ end. ComparesNot D.told row.now recv result.0 cutter.old (I.left file.old) end) }
    ensures bytes { OnOk result.1 (SameBytes cutter.old cutter.new (I.left file.old) (I.left file.new)) }
    ensures takes { TakesSoFar cutter.old cutter.new (I.left file.old) (I.left file.new) result.1 }
    ensures read { result.1 ≡ Err ends.Read → Rose (I.faults file.old) (I.faults file.new) }
    ensures later { I.faults file.old ≤ I.faults file.new }
    ensures may { OnOk result.1 (MayCut cutter.new) }
    ensures message { cut_message cutter.new ≡ cut_message cutter.old }
    ensures same { Moves D.told Same recv result.0 }
    ensures counts { D.told.count recv ≤ D.told.count result.0 }
{
    let mut receiver = match open_receiver(recv, row, RECEIVER_SIZE) {
        Ok(receiver) => receiver,
        Err((recv, why)) => {
            return (
                recv,
                Err(WrapEnd::Refused {
                    role: Role::Recv,
                    why,
                }),
            );
        }
    };
    let answer = compared(skip_received(&mut receiver, cutter, file));
    (receiver.into_disk(), answer)
}

/// The pump is opened again, and the further messages are sent.
fn send_further<D: Disk, I: Source>(
    alloc: Global,
    row: &SessionRow,
    disks: Trio<D>,
    cutter: &mut Cutter,
    file: &mut I,
) -> Wrapped<D>
    requires lawful { IsLawfulRow row.now }
    requires may { MayCut cutter.old }
    requires message { cut_message cutter.old ≡ row.now.message }
    ensures sent { D.told.tells → (messages : List (List ℕ)) → HasAll D.told row.now messages disks
        → IsSent D.told row.now messages cutter.old (I.left file.old) result.end result.disks }
    ensures ends { D.told.tells → (messages : List (List ℕ)) → HasAll D.told row.now messages disks
        → (whole : Option (List ℕ)) → Continues row.now whole messages cutter.old (I.left file.old)
        → EndsOn D.told row.now whole messages result.end result.disks }
    ensures images { D.told.tells_images → (messages : List (List ℕ)) → HasAll D.told row.now messages disks
        → LeavesPrefix D.told row.now messages disks.recv
        → (all : List (List ℕ)) → Begins messages all
        → ((more : List (List ℕ)) → AreFirst cutter.old (I.left file.old) more → Begins (messages ++ more) all)
        → LeavesPrefix D.told row.now all result.disks.recv }
    ensures keeps { D.told.tells_images → (messages : List (List ℕ)) → HasAll D.told row.now messages disks
        → (all : List (List ℕ)) → Begins messages all
        → ((more : List (List ℕ)) → AreFirst cutter.old (I.left file.old) more → Begins (messages ++ more) all)
        → KeepsPrefixOf D.told row.now all disks.recv result.disks.recv }
    ensures cause { HasDiskCause D.told disks result.disks result.end }
    ensures gave { Gave (cut_bytes cutter.old) (I.left file.old) (I.left file.new) (is_too_long result.end) }
    ensures read { result.end ≡ ends.Read → Rose (I.faults file.old) (I.faults file.new) }
{
    let mut pump = match open(alloc, row, disks) {
        Ok(pump) => pump,
        Err(failed) => return failed,
    };
    let sent = send_rest(&mut pump, cutter, file);
    Wrapped {
        end: sent_all(cutter.bytes(), sent),
        disks: close(pump),
    }
}

/// A file is sent over the pump of a row, whose three disks come back. What is left in the pump goes to
/// the receiver first; then the receiver's messages must be the first ones of the file, and each further
/// one is stored, passed on, taken and acknowledged before the next one comes. A file that was sent in
/// part goes on where it was. It takes no memory but what the pump is opened with.
///
/// However it ends, disks that stood for a session stand for one again, unless an empty one could not be
/// formatted: then nothing of the file was read, and the other two disks are as they were, or were empty
/// and are new. No message is lost, and where one was added, all are the first messages of the file. That
/// holds of the receiver's list in whatever a crash then leaves, too; and, of a receiver's disk that was not
/// empty, in whatever a crash at any moment of the sending leaves.
pub fn wrap<D: Disk, I: Source>(
    alloc: Global,
    row: &SessionRow,
    disks: Trio<D>,
    file: &mut I,
) -> Wrapped<D>
    requires lawful { IsLawfulRow row.now }
    requires least { 9 ≤ row.now.message }
    ensures whole { D.told.tells → (bytes : List ℕ) → I.left file.old ≡ Some bytes
        → IsWhole D.told row.now bytes result.end result.disks }
    ensures ends { D.told.tells → (f : Found) → Stand D.told row.now disks f
        → Ends D.told row.now (I.left file.old) (I.left file.new) (accepted_in f) disks result.end result.disks }
    ensures opened { D.told.tells → IsNotOpened result.end ⊎ ((f : Found) × Stand D.told row.now disks f) }
    ensures refused { RefusesDisks D.told row.now disks result.end result.disks }
    ensures images { D.told.tells_images → (f : Found) → Stand D.told row.now disks f → (bytes : List ℕ)
        → I.left file.old ≡ Some bytes
        → Begins (accepted_in f) (wrapped row.now.message bytes)
        → LeavesPrefixBy D.told row.now disks result.end result.disks (wrapped row.now.message bytes) }
    ensures since { D.told.tells_images → (f : Found) → Stand D.told row.now disks f → (bytes : List ℕ)
        → I.left file.old ≡ Some bytes
        → Begins (accepted_in f) (wrapped row.now.message bytes) → D.told.reading disks.recv ≢ []
        → LeavesPrefix D.told row.now (wrapped row.now.message bytes) disks.recv
        → LeavesPrefixSince D.told row.now (wrapped row.now.message bytes) disks.recv result.disks.recv }
    ensures gave { Gave 0 (I.left file.old) (I.left file.new) (is_too_long result.end) }
    ensures cause { HasDiskCause D.told disks result.disks result.end }
    ensures read { result.end ≡ ends.Read → Rose (I.faults file.old) (I.faults file.new) }
{
    // It is read so that it is known to be in the range of its type.
    let _id = row.id;
    let emptied = match empty(alloc, row, disks) {
        Ok(disks) => disks,
        Err(failed) => return failed,
    };
    let Trio { low, high, recv } = emptied;
    let mut cutter = Cutter::new(row.message);
    let (recv, answer) = compare(row, recv, &mut cutter, file);
    let disks = Trio { low, high, recv };
    match answer {
        Ok(()) => send_further(alloc, row, disks, &mut cutter, file),
        Err(end) => Wrapped { end, disks },
    }
}
