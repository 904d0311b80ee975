// What the disks that are to be moved stand for.
ghost use Rattle.std.specs.Prelude.{◌≡◌, ◌⊎◌, ◌+◌, ◌-◌, ◌≤◌, ℕ, List, true, false, None, Some, Err, IfOk, OnOk, IfErr};
ghost use Rattle.pump_frame.specs.Rows.{IsLawfulRow};
ghost use Rattle.disk_model.specs.declared.name.Role.TheVariants.{Low as LowRole, High as HighRole, Recv as RecvRole};
ghost use Rattle.stable_buffer.specs.Stands.{LowStands, HighStands};
ghost use Rattle.stable_buffer.specs.Low.{IsLowReady, low_count, low_row, low_disk};
ghost use Rattle.stable_buffer.specs.High.{high_count, high_disk};
ghost use Rattle.high_receiver.specs.Receiving.{IsRecvReady, recv_disk, recv_row, recv_count};
ghost use Rattle.recovery.specs.Refusals.{bad_slot, refused_pump};
ghost use Rattle.recovery.specs.Calls.{is_device, failed};
ghost use Rattle.recovery.specs.Agreement.{Disagrees};
ghost use Rattle.stable_buffer.specs.Log.{RecvStands};
ghost use Rattle.recovery.specs.Moves.{AreRefused, IsKept, is_blamed, disk_of};
ghost use Rattle.recovery.specs.Surveys.{IsSurveyed, FitsSurvey, SlotsTell, AreRead};
ghost use Rattle.recovery.specs.declared.why.Why.TheVariants.{Device};

use crate::hands::read_live;
use crate::pump::{NotOpened, Pair, open_pair};
use crate::receiver::open_receiver;
use crate::{MoveFault, Trio, Why, agree};
use disk_model::{Disk, Role};
use high_receiver::Receiver;
use pump_frame::SessionRow;
use stable_buffer::LowStore;

/// How many messages were accepted, removed and received, and where the receiver's records end.
#[derive(Clone, Copy)]
pub struct Counts {
    pub accepted: u64,
    pub removed: u64,
    pub received: u64,
    pub end: u64,
}

/// The disks, and what they stand for or why they are refused.
#[derive(Drop)]
pub struct Surveyed<D> {
    pub disks: Trio<D>,
    pub end: Result<Counts, MoveFault>,
}

/// A fault of an old disk.
pub fn old_fault(role: Role, why: Why) -> MoveFault
    ensures { result ≡ record { new = false; role = role; why = why } }
{
    MoveFault {
        new: false,
        role,
        why,
    }
}

// Reads the messages that are not removed.
fn check_live<D: Disk>(low: &mut LowStore<D>, removed: u64, row: &SessionRow) -> Result<(), Why>
    requires ready { IsLowReady D.told low.old }
    requires row { low_row low.old ≡ row.now }
    requires between { (removed ≤ low_count low.old) × (low_count low.old ≤ removed + row.now.capacity) }

    ensures live { OnOk result (D.told.tells
        → SlotsTell row.now removed (low_count low.old) (D.told.reading (low_disk low.old))) }
    ensures fine { OnOk result (D.told.tells
        → bad_slot row.now (D.told.reading (low_disk low.old)) removed (low_count low.old - removed) ≡ None) }
    ensures exact { IfErr result (λ why. is_device why ≡ false → D.told.tells
        → bad_slot row.now (D.told.reading (low_disk low.old)) removed (low_count low.old - removed) ≡ Some why) }
    ensures device { IfErr result (λ why. is_device why ≡ true
        → why ≡ Device (D.told.count (low_disk low.new))) }
    ensures kept { IsKept D.told (low_disk low.old) (low_disk low.new) (failed result) }
    ensures ready { OnOk result (IsLowReady D.told low.new) }
    ensures count { low_count low.new ≡ low_count low.old }
    ensures row { low_row low.new ≡ low_row low.old }
{
    let to = low.accepted();
    for n in removed..to {
        read_live(low, n, row)?;
    }
    Ok(())
}

// Opens the two stores of a pump, and reads the messages that are not removed.
fn open_live<D: Disk>(low: D, high: D, row: &SessionRow) -> Result<Pair<D>, NotOpened<D>>
    requires lawful { IsLawfulRow row.now }

    ensures live { IfOk result (λ p. AreRead D.told row.now low high p) }
    ensures fine { OnOk result (D.told.tells
        → refused_pump row.now (D.told.reading low) (D.told.reading high) ≡ None) }
    ensures exact { IfErr result (λ e. is_device e.why ≡ false → D.told.tells
        → refused_pump row.now (D.told.reading low) (D.told.reading high) ≡ Some (e.role, e.why)) }
    ensures device { IfErr result (λ e. is_device e.why ≡ true
        → ((e.role ≡ LowRole) × (e.why ≡ Device (D.told.count e.low)))
        ⊎ ((e.role ≡ HighRole) × (e.why ≡ Device (D.told.count e.high)))) }
    ensures low_back { IfErr result (λ e. IsKept D.told low e.low
        (is_blamed {T = ℕ} false LowRole (Err (record { new = false; role = e.role; why = e.why })))) }
    ensures high_back { IfErr result (λ e. IsKept D.told high e.high
        (is_blamed {T = ℕ} false HighRole (Err (record { new = false; role = e.role; why = e.why })))) }
{
    let Pair { mut low, high } = match open_pair(low, high, row) {
        Ok(pair) => pair,
        Err(refused) => return Err(refused),
    };
    match check_live(&mut low, high.removed(), row) {
        Ok(()) => Ok(Pair { low, high }),
        Err(why) => Err(NotOpened {
            role: Role::Low,
            why,
            low: low.into_disk(),
            high: high.into_disk(),
        }),
    }
}

// Compares low's disk with the receiver's.
fn compare<D: Disk>(
    low: &mut LowStore<D>,
    removed: u64,
    receiver: &mut Receiver<D>,
) -> Result<Counts, MoveFault>
    requires low { IsLowReady D.told low.old }
    requires receiver { IsRecvReady D.told receiver.old }
    requires between { (removed ≤ low_count low.old) × (low_count low.old ≤ removed + (low_row low.old).capacity) }

    ensures fine { IfOk result (λ counts. FitsSurvey D.told removed low.old receiver.old counts) }
    ensures refused { IfErr result (λ f. is_device f.why ≡ false → D.told.tells
        → (f ≡ record { new = false; role = RecvRole; why = f.why })
        × ((messages : List (List ℕ))
        → RecvStands (recv_row receiver.old) messages (D.told.reading (recv_disk receiver.old))
        → Disagrees (low_row low.old) removed (recv_count receiver.old) (low_count low.old) messages
        (D.told.reading (low_disk low.old)) f.why)) }
    ensures device { IfErr result (λ f. is_device f.why ≡ true → (f.new ≡ false)
        × (((f.role ≡ LowRole) × (f.why ≡ Device (D.told.count (low_disk low.new))))
        ⊎ ((f.role ≡ RecvRole) × (f.why ≡ Device (D.told.count (recv_disk receiver.new)))))) }
    ensures low_kept { IsKept D.told (low_disk low.old) (low_disk low.new) (is_blamed false LowRole result) }
    ensures recv_kept { IsKept D.told (recv_disk receiver.old) (recv_disk receiver.new)
        (is_blamed false RecvRole result) }
{
    match agree(low, removed, receiver) {
        Ok(()) => Ok(Counts {
            accepted: low.accepted(),
            removed,
            received: receiver.count(),
            end: receiver.end(),
        }),
        Err(why) => {
            let role = if low.is_open() { Role::Recv } else { Role::Low };
            Err(old_fault(role, why))
        }
    }
}

/// What the three disks of a row stand for, of which the receiver's may be filled to `size` bytes.
pub fn survey<D: Disk>(row: &SessionRow, old: Trio<D>, size: u64) -> Surveyed<D>
    requires lawful { IsLawfulRow row.now }

    ensures found { IfOk result.end (λ counts. IsSurveyed D.told row.now size counts old) }
    ensures refused { IfErr result.end (λ f. is_device f.why ≡ false → D.told.tells → (f.new ≡ false)
        × AreRefused row.now size (D.told.reading old.low) (D.told.reading old.high) (D.told.reading old.recv) f.role
        f.why) }
    ensures device { IfErr result.end (λ f. is_device f.why ≡ true
        → (f.new ≡ false) × (f.why ≡ Device (D.told.count (disk_of result.disks f.role)))) }
    ensures low { IsKept D.told old.low result.disks.low (is_blamed false LowRole result.end) }
    ensures high { IsKept D.told old.high result.disks.high (is_blamed false HighRole result.end) }
    ensures recv { IsKept D.told old.recv result.disks.recv (is_blamed false RecvRole result.end) }
{
    let Trio { low, high, recv } = old;
    let mut pair = match open_live(low, high, row) {
        Ok(pair) => pair,
        Err(back) => {
            return Surveyed {
                disks: Trio {
                    low: back.low,
                    high: back.high,
                    recv,
                },
                end: Err(old_fault(back.role, back.why)),
            };
        }
    };
    let mut receiver = match open_receiver(recv, row, size) {
        Ok(receiver) => receiver,
        Err((recv, why)) => {
            return Surveyed {
                disks: Trio {
                    low: pair.low.into_disk(),
                    high: pair.high.into_disk(),
                    recv,
                },
                end: Err(old_fault(Role::Recv, why)),
            };
        }
    };
    let removed = pair.high.removed();
    let end = compare(&mut pair.low, removed, &mut receiver);
    Surveyed {
        disks: Trio {
            low: pair.low.into_disk(),
            high: pair.high.into_disk(),
            recv: receiver.into_disk(),
        },
        end,
    }
}
