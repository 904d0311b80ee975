// The doors of the two ports of a session, opened, and shut where no worker has shut them.
ghost use Rattle.std.specs.Prelude.{◌≡◌, [], ◌∷◌, None, IfOk, IfSome, OnErr};
ghost use Rattle.pump_link.specs.Ports.{Listened, ShutDoor};
ghost use Rattle.pump_link.specs.Tells.{Grows};
ghost use Rattle.serving.specs.Doors.{WantDoor};
ghost use Rattle.relay_side.specs.Sides.{ports};

use crate::high_half::{HighHalf, HighParts};
use crate::low_half::{LowHalf, LowParts};
use pump_frame::SessionRow;
use pump_link::{Ports, PortsFault};
use relay_threads::RoundsEnd;

/// Opens the doors of both ports of the row, the low side's first. Where the high side's is wanting, the low
/// one is shut again.
pub fn open_doors<P: Ports>(
    low_ports: &mut P,
    high_ports: &mut P,
    row: &SessionRow,
) -> Result<(P::Door, P::Door), PortsFault>
    ensures low { IfOk result (λ doors. Grows (P.did low_ports.old) (P.did low_ports.new)
        (Listened row.now.low_port doors.0 ∷ []) × P.Door.port doors.0 row.now.low_port × P.Door.did doors.0 []) }
    ensures high { IfOk result (λ doors. Grows (P.did high_ports.old) (P.did high_ports.new)
        (Listened row.now.high_port doors.1 ∷ []) × P.Door.port doors.1 row.now.high_port × P.Door.did doors.1 []) }
    ensures wanting { OnErr result (WantDoor (ports P.did P.faults low_ports.old low_ports.new)
        (ports P.did P.faults high_ports.old high_ports.new) row.now.low_port row.now.high_port) }
{
    let low = low_ports.listen(row.low_port)?;
    match high_ports.listen(row.high_port) {
        Ok(high) => Ok((low, high)),
        Err(fault) => {
            low_ports.shut(low);
            Err(fault)
        }
    }
}

// Shuts a door that no worker has shut.
fn shut_left<P: Ports>(ports: &mut P, door: Option<P::Door>)
    ensures none { door ≡ None → ports.new ≡ ports.old }
    ensures some { IfSome door (λ d. Grows (P.did ports.old) (P.did ports.new) (ShutDoor d ∷ [])) }
{
    if let Some(door) = door {
        ports.shut(door);
    }
}

impl<P: Ports, W, D, L> LowHalf<P, W, D, L> {
    /// The parts, and how the worker ended. A door that it has not shut is shut now.
    pub fn close(self, ports: &mut P) -> (LowParts<W, D, L>, RoundsEnd)
        ensures parts { result ≡ (self.parts, self.end) }
        ensures none { self.door ≡ None → ports.new ≡ ports.old }
        ensures some { IfSome self.door (λ door. Grows (P.did ports.old) (P.did ports.new) (ShutDoor door ∷ [])) }
    {
        let LowHalf { door, parts, end } = self;
        shut_left(ports, door);
        (parts, end)
    }
}

impl<P: Ports, D, H> HighHalf<P, D, H> {
    /// The parts, and how the worker ended. A door that it has not shut is shut now.
    pub fn close(self, ports: &mut P) -> (HighParts<D, H>, RoundsEnd)
        ensures parts { result ≡ (self.parts, self.end) }
        ensures none { self.door ≡ None → ports.new ≡ ports.old }
        ensures some { IfSome self.door (λ door. Grows (P.did ports.old) (P.did ports.new) (ShutDoor door ∷ [])) }
    {
        let HighHalf { door, parts, end } = self;
        shut_left(ports, door);
        (parts, end)
    }
}
