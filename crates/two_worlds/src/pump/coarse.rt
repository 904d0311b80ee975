//! A session is made coarse.

ghost use Rattle.std.specs.Prelude.{◌≡◌};
ghost use Rattle.script_reader.specs.Past.{Past};
ghost use Rattle.two_worlds.specs.Standing.{Stands, bare_of, is_down};
ghost use Rattle.two_worlds.specs.States.{coarse_disks, disks_in, is_down_in, kept_moment_in, IsOpenWith, StandsIn};
ghost use Rattle.two_worlds.specs.Working.{IsAble};

use crate::pump::parts::Parts;
use crate::pump::state::PumpState;
use disk_model::Disk;

impl<D: Disk> Parts<D> {
    // The row of each part is made coarse.
    fn make_coarse(&mut self)
        ensures disks { bare_of self.new ≡ coarse_disks (bare_of self.old) }
        ensures able { IsAble D.told self.old → IsAble D.told self.new }
        ensures stands { (p : Past) → Stands D.told self.old p → Stands D.told self.new p }
        ensures down { is_down self.new ≡ is_down self.old }
        ensures moment { self.new.moment ≡ self.old.moment }
    {
        self.row.coarse = true;
        self.low.make_coarse();
        self.low_store.make_coarse();
        self.ends.make_coarse();
        self.high.make_coarse();
        self.receiver.make_coarse();
    }
}

impl<D: Disk> PumpState<D> {
    /// Makes the session's row coarse, and keeps all else.
    pub fn make_coarse(&mut self)
        ensures disks { disks_in self.new ≡ coarse_disks (disks_in self.old) }
        ensures able { IsOpenWith (IsAble D.told) self.old → IsOpenWith (IsAble D.told) self.new }
        ensures stands { (p : Past) → StandsIn D.told self.old p → StandsIn D.told self.new p }
        ensures down { is_down_in self.new ≡ is_down_in self.old }
        ensures moment { kept_moment_in self.new ≡ kept_moment_in self.old }
    {
        match self {
            PumpState::Open(parts) => parts.make_coarse(),
            PumpState::Shut(disks) => disks.row.coarse = true,
        }
    }
}
