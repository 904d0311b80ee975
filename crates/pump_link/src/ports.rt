// Ports, which open doors and make links: their calls, and what they promise.
ghost use Rattle.std.specs.Prelude.{◌≡◌, ℕ, List, [], ◌∷◌, IfOk};
ghost use Rattle.pump_link.specs.Causes.{HasCause};
ghost use Rattle.pump_link.specs.Ports.{PortsStep, BackToPorts, ShutDoor, listened, connected};
ghost use Rattle.pump_link.specs.Tells.{Draws, Grows};

use crate::door::Door;
use crate::link::Link;

/// A `listen` or a `connect` that failed.
#[derive(Clone, Copy, PartialEq, Eq, Debug)]
pub struct PortsFault;

/// Opens doors at ports, connects to ports, and takes doors and links back.
pub trait Ports {
    type Link: Link;

    type Door: Door<Link = Self::Link>;

    /// Its next calls of `listen` and `connect` answer so, where it tells that.
    ghost gives: { Self → List (PortsStep Self.Link Self.Door) → Type 0 };

    /// It answered so and took back these links and doors, in this order, where it tells that.
    ghost did: { Self → List (PortsStep Self.Link Self.Door) → Type 0 };

    ghost faults: { Self → ℕ };

    /// A new door at the port. It answers `Err` only where its count of faults rose.
    fn listen(&mut self, port: u16) -> Result<Self::Door, PortsFault>
        ensures gives { Draws (gives self.old) (gives self.new) (listened port result ∷ []) }
        ensures did { Grows (did self.old) (did self.new) (listened port result ∷ []) }
        ensures port { IfOk result (λ door. Self.Door.port door port) }
        ensures fresh { IfOk result (λ door. Self.Door.did door []) }
        ensures cause { HasCause (faults self.old) (faults self.new) result };

    /// A link to the port. It answers `Err` only where its count of faults rose.
    fn connect(&mut self, port: u16) -> Result<Self::Link, PortsFault>
        ensures gives { Draws (gives self.old) (gives self.new) (connected port result ∷ []) }
        ensures did { Grows (did self.old) (did self.new) (connected port result ∷ []) }
        ensures cause { HasCause (faults self.old) (faults self.new) result };

    /// Takes back a link that `connect` gave.
    fn back(&mut self, link: Self::Link)
        ensures gives { Draws (gives self.old) (gives self.new) [] }
        ensures did { Grows (did self.old) (did self.new) (BackToPorts link ∷ []) }
        ensures same { faults self.new ≡ faults self.old };

    /// Shuts a door that `listen` made.
    fn shut(&mut self, door: Self::Door)
        ensures gives { Draws (gives self.old) (gives self.new) [] }
        ensures did { Grows (did self.old) (did self.new) (ShutDoor door ∷ []) }
        ensures same { faults self.new ≡ faults self.old };

    /// How many calls of `listen` and `connect` have failed. The count never falls, and stays at
    /// its greatest value.
    fn faults(&self) -> u64
        ensures { result ≡ faults self.now };
}
