// What a collector finds on its disk and in its folder when it opens.
ghost use Rattle.std.specs.Prelude.{◌≡◌, ℕ, List, [], None, Some, option_map, IfSome, ◌+◌, ◌^◌, ◌<◌, ◌≤◌, length, take};
ghost use Rattle.std.specs.Prelude.{drop, ◌-◌, IfOk, OnOk, IfErr, IsErr, IsSome, ◌↔◌};
ghost use Rattle.byteorder.specs.Endian.{big_bytes};
ghost use Rattle.stable_buffer.specs.Numbers.{length_at};
ghost use Rattle.pump_frame.specs.Counts.{Rose};
ghost use Rattle.disk_model.specs.Disk.{Moves, Same, Settled};
ghost use Rattle.stable_buffer.specs.Register.{IsReady, register_disk, register_value};
ghost use Rattle.file_messages.specs.Files.{State, Between, Inside, after};
ghost use Rattle.file_messages.specs.Assemblies.{StandsFor, answer};
ghost use Rattle.file_messages.specs.Messages.{message_of};
ghost use Rattle.file_messages.specs.declared.assembly.Step.TheVariants.{Started};
ghost use Rattle.file_collector.specs.Registers.{HasStart, RegisterStands, IsKept};
ghost use Rattle.file_collector.specs.Collecting.{HasRegister};
ghost use Rattle.file_collector.specs.Making.{IsRegister, IsUnmade};
ghost use Rattle.folders.specs.Placing.{Given, Stays, IsDurable, Turns, first_of};
ghost use Rattle.file_collector.specs.Gathering.{IsWellBegun, PartStands};
ghost use Rattle.file_collector.specs.Closed.{IsCallFault, IsStartFault, IsRegisterFault, IsTurnFault, IsResumeFault};
ghost use Rattle.file_collector.specs.Closed.{IsFindFault, IsWhyClosed, IsOpenedOn};
ghost use Rattle.file_collector.specs.Closed.{IsTaken, RegisterReads, IsSound, IsOwn, MayPass, MaySkip, LyingTaken};
ghost use Rattle.file_collector.specs.Closed.{IsLeftOf};
ghost use Rattle.file_collector.specs.Registers.{MayTurn, MayLeaveFile};
ghost use Rattle.file_collector.specs.Opening.{HasFed, IsBegun, IsBegunWith, IsBegunBy, IsFound, IsFoundAt, lying_part};
ghost use Rattle.file_collector.specs.Opening.{IsFoundWith, KeepsShown};
ghost use Rattle.file_collector.specs.declared.values.CollectFault.TheVariants.{Register as OfRegister};

use crate::making::make;
use crate::turning::turn;
use crate::values::CollectFault;
use disk_model::{Disk, DiskFault};
use file_messages::{Assembly, FileName, Progress};
use folders::{Inbox, InboxFault};
use stable_buffer::{Device, Register};

// The numbers of messages are below it.
const LIMIT: u64 = 1 << 48;

// The longest message with which a file begins.
const LONGEST_START: usize = 138;

fn fault_of(device: Device) -> CollectFault
    ensures { result ≡ OfRegister device.faults }
{
    CollectFault::Register {
        faults: device.faults,
    }
}

// The length of the start of a file behind the register.
fn start_length<D: Disk>(register: &mut Register<D>) -> Result<usize, CollectFault>
    requires ready { IsReady D.told register.old }
    ensures ready { OnOk result (IsReady D.told register.new) }
    ensures value { register_value register.new ≡ register_value register.old }
    ensures length { IfOk result (λ l. D.told.tells
        → l ≡ length_at (D.told.reading (register_disk register.old)) 80) }
    ensures spells { IfOk result (λ l. D.told.tells
        → big_bytes 2 l ≡ take 2 (drop 80 (D.told.reading (register_disk register.old)))) }
    ensures short { IfOk result (λ l. l ≤ 138) }
    ensures moves { Moves D.told Same (register_disk register.old) (register_disk register.new) }
    ensures later { D.told.count (register_disk register.old)
        ≤ D.told.count (register_disk register.new) }
    ensures cause { IfErr result (λ fault. IsStartFault D.told (register_disk register.old)
        (register_disk register.new) fault) }
{
    match register.read_length(80) {
        Ok(length) if length as usize <= LONGEST_START => Ok(length as usize),
        Ok(_) => Err(CollectFault::Damaged),
        Err(device) => Err(fault_of(device)),
    }
}

// The bytes of the start of a file.
fn read_bytes<D: Disk>(register: &mut Register<D>, start: &mut [u8]) -> Result<(), CollectFault>
    requires ready { IsReady D.told register.old }
    ensures ready { OnOk result (IsReady D.told register.new) }
    ensures value { register_value register.new ≡ register_value register.old }
    ensures size { length start.new ≡ length start.old }
    ensures bytes { OnOk result (D.told.tells → start.new
        ≡ take (length start.old) (drop 82 (D.told.reading (register_disk register.old)))) }
    ensures moves { Moves D.told Same (register_disk register.old) (register_disk register.new) }
    ensures later { D.told.count (register_disk register.old)
        ≤ D.told.count (register_disk register.new) }
    ensures cause { IfErr result (λ fault. IsCallFault D.told (register_disk register.old)
        (register_disk register.new) fault) }
{
    match register.read_beside(82, start) {
        Ok(()) => Ok(()),
        Err(device) => Err(fault_of(device)),
    }
}

// The file that begins with this message.
fn begin_with(start: &[u8]) -> Option<Assembly>
    ensures some { IsSome result ↔ (answer Between (message_of start.now) ≡ Started) }
    ensures value { IfSome result (λ assembly. StandsFor assembly (after Between (message_of start.now))) }
    ensures begun { IfSome result (λ assembly. IsBegunWith assembly start.now) }
{
    Assembly::resume(start)
}

// The file that begins with so many bytes behind the register.
fn begin_from<D: Disk>(
    register: &mut Register<D>,
    start: &mut [u8],
) -> Result<Assembly, CollectFault>
    requires ready { IsReady D.told register.old }
    ensures ready { OnOk result (IsReady D.told register.new) }
    ensures value { register_value register.new ≡ register_value register.old }
    ensures begun { IfOk result (λ assembly. IsBegun assembly) }
    ensures by { IfOk result (λ assembly. D.told.tells → big_bytes 2 (length start.old)
        ≡ take 2 (drop 80 (D.told.reading (register_disk register.old)))
        → IsBegunBy assembly (D.told.reading (register_disk register.old))) }
    ensures found { IfOk result (λ assembly. D.told.tells → (name : List ℕ) (size : ℕ) (bytes : List ℕ)
        → IsWellBegun (Inside name size bytes)
        → HasStart (Inside name size bytes) (D.told.reading (register_disk register.old))
        → length start.old ≡ length_at (D.told.reading (register_disk register.old)) 80
        → StandsFor assembly (Inside name size [])) }
    ensures moves { Moves D.told Same (register_disk register.old) (register_disk register.new) }
    ensures later { D.told.count (register_disk register.old)
        ≤ D.told.count (register_disk register.new) }
    ensures cause { IfErr result (λ fault. (D.told.tells
        → length start.old ≡ length_at (D.told.reading (register_disk register.old)) 80)
        → IsStartFault D.told (register_disk register.old) (register_disk register.new) fault) }
{
    read_bytes(register, start)?;
    match begin_with(start) {
        Some(assembly) => Ok(assembly),
        None => Err(CollectFault::Damaged),
    }
}

// The file that has begun, by its start behind the register. It has no bytes yet.
pub fn read_start<D: Disk>(register: &mut Register<D>) -> Result<Assembly, CollectFault>
    requires ready { IsReady D.told register.old }
    ensures ready { OnOk result (IsReady D.told register.new) }
    ensures value { register_value register.new ≡ register_value register.old }
    ensures begun { IfOk result (λ assembly. IsBegun assembly) }
    ensures by { IfOk result (λ assembly. D.told.tells
        → IsBegunBy assembly (D.told.reading (register_disk register.old))) }
    ensures found { IfOk result (λ assembly. D.told.tells → (name : List ℕ) (size : ℕ) (bytes : List ℕ)
        → IsWellBegun (Inside name size bytes)
        → HasStart (Inside name size bytes) (D.told.reading (register_disk register.old))
        → StandsFor assembly (Inside name size [])) }
    ensures moves { Moves D.told Same (register_disk register.old) (register_disk register.new) }
    ensures later { D.told.count (register_disk register.old)
        ≤ D.told.count (register_disk register.new) }
    ensures cause { IfErr result (λ fault. IsStartFault D.told (register_disk register.old)
        (register_disk register.new) fault) }
{
    let length = start_length(register)?;
    let mut start = [0; LONGEST_START];
    begin_from(register, &mut start[..length])
}

// Adds the bytes of the part, so many, to the file that has begun.
pub fn feed<D: Disk>(part: &mut D, assembly: &mut Assembly, count: u64) -> Result<(), DiskFault>
    requires { D.told.tells → length (D.told.reading part.old) ≡ count }
    ensures fed { OnOk result (HasFed D.told part.old count assembly.old assembly.new) }
    ensures moves { Moves D.told Same part.old part.new }
    ensures later { D.told.count part.old ≤ D.told.count part.new }
    ensures rose { IsErr result → Rose (D.told.count part.old) (D.told.count part.new) }
{
    let mut block = [0; 1024];
    let mut at = 0;
    while at < count {
        let piece = (count - at).min(1024);
        part.read(at, &mut block[..piece as usize])?;
        assembly.feed(&block[..piece as usize]);
        at += piece;
    }
    Ok(())
}

// The register on a disk, which is made where it is none yet.
fn open_register<D: Disk + Drop>(mut disk: D) -> Result<Register<D>, CollectFault>
    ensures register { IfOk result (λ register. HasRegister D.told register) }
    ensures found { IfOk result (λ register. (count : ℕ) (state : State)
        → (D.told.tells → RegisterStands count state (D.told.reading disk)) → D.told.tells
        → IsKept D.told register count state) }
    ensures new { IfOk result (λ register. (D.told.tells → IsRegister (D.told.reading disk) → ⊥)
        → D.told.tells → IsKept D.told register 0 Between) }
    ensures opened { IfOk result (λ register. IsOpenedOn D.told disk register) }
    ensures cause { IfErr result (λ fault. IsRegisterFault D.told disk fault) }
{
    make(&mut disk)?;
    match Register::open(disk) {
        Ok(register) => {
            // No collector counts more messages than there are numbers.
            if register.value().0 > LIMIT {
                return Err(CollectFault::Damaged);
            }
            Ok(register)
        }
        Err((disk, DiskFault)) => Err(CollectFault::Register {
            faults: disk.faults(),
        }),
    }
}

// The register of an inbox.
fn take_register<I: Inbox>(inbox: &mut I) -> Result<Register<I::Disk>, CollectFault>
where
    I::Disk: Drop,
    ensures register { IfOk result (λ register. HasRegister I.Disk.told register) }
    ensures found { IfOk result (λ register. I.told.tells → I.Disk.told.tells
        → (count : ℕ) (state : State) (bytes : List ℕ) → I.told.register inbox.old ≡ Some bytes
        → RegisterStands count state bytes → IsKept I.Disk.told register count state) }
    ensures new { IfOk result (λ register. I.told.tells → I.Disk.told.tells
        → RegisterReads I.told inbox.old IsUnmade → IsKept I.Disk.told register 0 Between) }
    ensures taken { IfOk result (λ register. IsTaken I.told I.Disk.told inbox.old register) }
    ensures stays { Stays I.told inbox.old inbox.new }
    ensures durable { OnOk result (IsDurable I.told inbox.new) }
    ensures later { I.told.count inbox.old ≤ I.told.count inbox.new }
    ensures cause { IfErr result (λ fault. IsWhyClosed I.told I.Disk.told inbox.old inbox.new fault) }
{
    match inbox.register() {
        Ok(disk) => open_register(disk),
        Err(InboxFault) => Err(CollectFault::Folder {
            faults: inbox.faults(),
        }),
    }
}

// The part with so many bytes, which are added to the file that has begun.
fn resume<I: Inbox>(
    inbox: &mut I,
    assembly: &mut Assembly,
    count: u64,
) -> Result<Option<I::Disk>, CollectFault>
where
    I::Disk: Drop,
    ensures fed { IfOk result (λ part. IfSome part (λ disk.
        HasFed I.Disk.told disk count assembly.old assembly.new)) }
    ensures settled { IfOk result (λ part. IfSome part (λ disk. Settled I.Disk.told disk)) }
    ensures found { IfOk result (λ part. I.told.tells → I.Disk.told.tells
        → option_map I.Disk.told.reading part ≡ first_of count (I.told.part inbox.old)) }
    ensures given { IfOk result (λ part. IfSome part (λ disk. I.told.tells
        → I.told.part inbox.new ≡ Given)) }
    ensures taken { IfOk result (λ part. IfSome part (λ disk.
        LyingTaken I.told I.Disk.told inbox.old count disk)) }
    ensures left { result ≡ Ok None → I.told.tells → I.told.part inbox.new ≡ I.told.part inbox.old }
    ensures keeps { KeepsShown I.told inbox.old inbox.new }
    ensures durable { OnOk result (IsDurable I.told inbox.old → IsDurable I.told inbox.new) }
    ensures cause { IfErr result (λ fault. IsResumeFault I.told I.Disk.told inbox.old inbox.new count fault) }
{
    match inbox.resume(count) {
        Ok(Some(mut part)) => match feed(&mut part, assembly, count) {
            Ok(()) => Ok(Some(part)),
            Err(DiskFault) => Err(CollectFault::Folder {
                faults: part.faults(),
            }),
        },
        Ok(None) => Ok(None),
        Err(InboxFault) => Err(CollectFault::Folder {
            faults: inbox.faults(),
        }),
    }
}

// What was found: the register, the part, what is known of the file that has begun, and the name of
// one whose part was lost.
#[derive(Drop)]
pub struct Found<D> {
    pub register: Register<D>,
    pub part: Option<D>,
    pub assembly: Assembly,
    pub lost: Option<FileName>,
}

// Counts the message that is shown already, so that none is inside a file.
fn count_shown<D: Disk>(register: &mut Register<D>) -> Result<(), CollectFault>
    requires register { HasRegister D.told register.old }
    requires below { (register_value register.old).0 < 2 ^ 48 }
    ensures register { OnOk result (HasRegister D.told register.new) }
    ensures counted { OnOk result ((count : ℕ) (state : State) → IsKept D.told register.old count state
        → IsKept D.told register.new (count + 1) Between) }
    ensures moves { Moves D.told (MayTurn Between) (register_disk register.old) (register_disk register.new) }
    ensures cause { IfErr result (λ fault. IsCallFault D.told (register_disk register.old)
        (register_disk register.new) fault) }
{
    match turn(register, &None) {
        Ok(()) => Ok(()),
        Err(device) => Err(fault_of(device)),
    }
}

// Leaves the file whose part was lost: the count stays, and none is inside a file.
fn leave_lost<D: Disk>(register: &mut Register<D>) -> Result<(), CollectFault>
    requires register { HasRegister D.told register.old }
    ensures register { OnOk result (HasRegister D.told register.new) }
    ensures left { OnOk result (register_value register.new ≡ ((register_value register.old).0, 0)) }
    ensures kept { OnOk result ((count : ℕ) (state : State) → IsKept D.told register.old count state
        → IsKept D.told register.new count Between) }
    // A crash at any moment leaves the same count and the file that had begun, or none.
    ensures moves { Moves D.told MayLeaveFile (register_disk register.old) (register_disk register.new) }
    ensures cause { IfErr result (λ fault. IsCallFault D.told (register_disk register.old)
        (register_disk register.new) fault) }
{
    let count = register.value().0;
    match register.stage(count, 0) {
        Ok(()) => {}
        Err(device) => return Err(fault_of(device)),
    }
    match register.commit() {
        Ok(()) => Ok(()),
        Err(device) => Err(fault_of(device)),
    }
}

impl<D: Disk> Found<D> {
    // Between two files.
    fn between(register: Register<D>, lost: Option<FileName>) -> Found<D>
        ensures register { result.register ≡ register }
        ensures part { result.part ≡ None }
        ensures assembly { StandsFor result.assembly Between }
        ensures lost { result.lost ≡ lost }
    {
        Found {
            register,
            part: None,
            assembly: Assembly::new(),
            lost,
        }
    }
}

// What there is where the part of the file that has begun is missing or has too few bytes: the file is
// shown already where all its bytes had come, and else it is lost.
fn without_part<D: Disk + Drop>(
    mut register: Register<D>,
    progress: &Progress,
    count: u64,
) -> Result<Found<D>, CollectFault>
    requires register { HasRegister D.told register }
    requires below { (register_value register).0 < 2 ^ 48 }
    ensures register { IfOk result (λ found. HasRegister D.told found.register) }
    ensures part { IfOk result (λ found. found.part ≡ None) }
    ensures assembly { IfOk result (λ found. StandsFor found.assembly Between) }
    ensures shown { IfOk result (λ found. count ≡ progress.now.size → (n : ℕ) (state : State)
        → IsKept D.told register n state → IsKept D.told found.register (n + 1) Between
        × (found.lost ≡ None)) }
    ensures lost { IfOk result (λ found. (count ≡ progress.now.size → ⊥)
        → found.lost ≡ Some progress.now.name) }
    ensures left { IfOk result (λ found. (count ≡ progress.now.size → ⊥) → (n : ℕ) (state : State)
        → IsKept D.told register n state → IsKept D.told found.register n Between) }
    ensures moves { IfOk result (λ found. Moves D.told (MaySkip (count ≡ progress.now.size))
        (register_disk register) (register_disk found.register)) }
    ensures cause { IfErr result (λ fault. IsTurnFault D.told (MaySkip (count ≡ progress.now.size))
        (register_disk register) fault) }
{
    if count == progress.size {
        count_shown(&mut register)?;
        Ok(Found::between(register, None))
    } else {
        leave_lost(&mut register)?;
        Ok(Found::between(register, Some(progress.name)))
    }
}

// What there is where a file has begun.
fn find_part<I: Inbox>(
    inbox: &mut I,
    mut register: Register<I::Disk>,
) -> Result<Found<I::Disk>, CollectFault>
where
    I::Disk: Drop,
    requires register { HasRegister I.Disk.told register }
    requires begun { 0 < (register_value register).1 }
    requires durable { IsDurable I.told inbox.old }
    ensures found { IfOk result (λ found. (state : State) × IsFound I.told I.Disk.told inbox.new found state) }
    ensures here { IfOk result (λ found. I.told.tells → I.Disk.told.tells → (count : ℕ) (name : List ℕ)
        (size : ℕ) (bytes : List ℕ) → IsKept I.Disk.told register count (Inside name size bytes)
        → IsWellBegun (Inside name size bytes)
        → PartStands (Inside name size bytes) (lying_part (I.told.part inbox.old))
        → IsFoundAt I.told I.Disk.told inbox.new found count (Inside name size bytes)) }
    ensures ahead { IfOk result (λ found. I.told.tells → I.Disk.told.tells → (count : ℕ) (name : List ℕ)
        (size : ℕ) (bytes : List ℕ) → IsKept I.Disk.told register count (Inside name size bytes)
        → IsWellBegun (Inside name size bytes) → first_of (length bytes) (I.told.part inbox.old) ≡ None
        → length bytes ≡ size → IsFoundAt I.told I.Disk.told inbox.new found (count + 1) Between) }
    ensures lost { IfOk result (λ found. I.told.tells → I.Disk.told.tells → (count : ℕ) (name : List ℕ)
        (size : ℕ) (bytes : List ℕ) → IsKept I.Disk.told register count (Inside name size bytes)
        → IsWellBegun (Inside name size bytes) → first_of (length bytes) (I.told.part inbox.old) ≡ None
        → (length bytes ≡ size → ⊥)
        → IsFoundWith I.told I.Disk.told inbox.new found count Between (Some name)) }
    ensures sound { OnOk result (I.Disk.told.tells
        → IsRegister (I.Disk.told.reading (register_disk register))
        → IsSound (I.Disk.told.reading (register_disk register))) }
    ensures moves { IfOk result (λ found. Moves I.Disk.told (MayPass I.told.tells (I.told.part inbox.old))
        (register_disk register) (register_disk found.register)) }
    ensures part { IfOk result (λ found. IfSome found.part (λ disk.
        LyingTaken I.told I.Disk.told inbox.old ((register_value register).1 - 1) disk)) }
    ensures keeps { KeepsShown I.told inbox.old inbox.new }
    ensures cause { IfErr result (λ fault. IsFindFault I.told I.Disk.told inbox.old inbox.new register fault) }
{
    let mut assembly = read_start(&mut register)?;
    let (count, held) = register.value();
    let Some(progress) = assembly.progress() else {
        unreachable!("a file has begun");
    };
    if count >= LIMIT || held - 1 > progress.size {
        return Err(CollectFault::Damaged);
    }
    match resume(inbox, &mut assembly, held - 1)? {
        Some(part) => Ok(Found {
            register,
            part: Some(part),
            assembly,
            lost: None,
        }),
        None => without_part(register, &progress, held - 1),
    }
}

/// What there is in a folder that a collector opens.
pub fn find<I: Inbox>(inbox: &mut I) -> Result<Found<I::Disk>, CollectFault>
where
    I::Disk: Drop,
    ensures found { IfOk result (λ found. (state : State) × IsFound I.told I.Disk.told inbox.new found state) }
    ensures here { IfOk result (λ found. I.told.tells → I.Disk.told.tells → (count : ℕ) (state : State)
        (bytes : List ℕ) → I.told.register inbox.old ≡ Some bytes → RegisterStands count state bytes
        → IsWellBegun state → PartStands state (lying_part (I.told.part inbox.old))
        → IsFoundAt I.told I.Disk.told inbox.new found count state) }
    ensures ahead { IfOk result (λ found. I.told.tells → I.Disk.told.tells → (count : ℕ) (name : List ℕ)
        (size : ℕ) (held bytes : List ℕ) → I.told.register inbox.old ≡ Some bytes
        → RegisterStands count (Inside name size held) bytes → IsWellBegun (Inside name size held)
        → first_of (length held) (I.told.part inbox.old) ≡ None → length held ≡ size
        → IsFoundAt I.told I.Disk.told inbox.new found (count + 1) Between) }
    ensures lost { IfOk result (λ found. I.told.tells → I.Disk.told.tells → (count : ℕ) (name : List ℕ)
        (size : ℕ) (held bytes : List ℕ) → I.told.register inbox.old ≡ Some bytes
        → RegisterStands count (Inside name size held) bytes → IsWellBegun (Inside name size held)
        → first_of (length held) (I.told.part inbox.old) ≡ None → (length held ≡ size → ⊥)
        → IsFoundWith I.told I.Disk.told inbox.new found count Between (Some name)) }
    ensures new { IfOk result (λ found. I.told.tells → I.Disk.told.tells
        → RegisterReads I.told inbox.old IsUnmade
        → IsFoundAt I.told I.Disk.told inbox.new found 0 Between) }
    ensures own { OnOk result (I.told.tells → I.Disk.told.tells
        → RegisterReads I.told inbox.old IsOwn) }
    ensures during { IfOk result (λ found. IsLeftOf I.told I.Disk.told inbox.old
        (register_disk found.register) found.part) }
    ensures shown { I.told.shown inbox.new ≡ I.told.shown inbox.old }
    ensures turns { Turns I.told (λ names. ⊥) inbox.old inbox.new }
    ensures later { I.told.count inbox.old ≤ I.told.count inbox.new }
    ensures cause { IfErr result (λ fault. IsWhyClosed I.told I.Disk.told inbox.old inbox.new fault) }
{
    let register = take_register(inbox)?;
    if register.value().1 == 0 {
        return Ok(Found::between(register, None));
    }
    find_part(inbox, register)
}
