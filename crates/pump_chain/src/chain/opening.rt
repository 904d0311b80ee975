//! Two pumps are opened and joined, and their disks come back.

ghost use Rattle.std.specs.Prelude.{◌≡◌, ◌≤◌, false, None, IfOk, IfErr, OnOk};
ghost use Rattle.pump_chain.specs.Chained.{Chained, unsent};
ghost use Rattle.pump_chain.specs.Compared.{AreRead, IsRead};
ghost use Rattle.pump_chain.specs.Comparing.{IsUnlinked};
ghost use Rattle.pump_chain.specs.Opening.{first_chained, trio_of, trio_back, StandFor, HaveRoom, AreLeft, IsUnopened};
ghost use Rattle.pump_chain.specs.Opening.{ComeBackFor, IsExcused, cause_of, is_by_device};
ghost use Rattle.pump_chain.specs.Standing.{ChainStands, ChainStandsOrFails, chain_is_down};
ghost use Rattle.pump_core.specs.Lawful.{IsPrefixOf};
ghost use Rattle.pump_frame.specs.Rows.{IsLawfulRow};
ghost use Rattle.script_reader.specs.Openings.{Found, accepted_in, first_past};
ghost use Rattle.script_reader.specs.Past.{Past};
ghost use Rattle.world_laws.specs.Disks.{CrashesOpen, LeaveWorld, OpenAgain};
ghost use Rattle.two_worlds.specs.Pumps.{StandsFor, StandsOrFails, row_of, is_down};

use crate::chain::Chain;
use crate::not_chained::{ChainWhy, NotChained};
use crate::place::LogPlace;
use crate::sender::Sender;
use crate::six::Six;
use disk_model::{Disk, Role};
use pump_frame::SessionRow;
use recovery::{Trio, Why};
use std::alloc::Global;
use two_worlds::{NotOpen, Pump};

// The pump of a session, or why there is none, and its disks. The answer is handed on as it is: a pump has
// several KB, and is moved no more often than it has to be.
fn open_one<D: Disk>(alloc: Global, row: &SessionRow, disks: Trio<D>) -> Result<Pump<D>, NotOpen<D>>
    requires lawful { IsLawfulRow row.now }
    ensures found { IfOk result (λ pump. D.told.tells → (f : Found) × StandFor D.told row.now disks f) }
    ensures stands { IfOk result (λ pump. D.told.tells → (f : Found) → StandFor D.told row.now disks f
        → StandsFor D.told pump (first_past row.now f)) }
    ensures row { IfOk result (λ pump. row_of pump ≡ row.now) }
    ensures up { IfOk result (λ pump. is_down pump ≡ false) }
    ensures left { IfOk result (λ pump. AreLeft D.told row.now disks (trio_of pump) None) }
    ensures back { IfErr result (λ e. IsUnopened D.told row.now disks (trio_back e)
        (cause_of row.now.id e.role e.why)) }
    ensures stops { IfErr result (λ e. D.told.tells → (f : Found) → StandFor D.told row.now disks f
        → IsExcused (cause_of row.now.id e.role e.why)) }
    ensures room { D.told.tells_plan → HaveRoom D.told row.now disks
        → IfOk result (λ pump. HaveRoom D.told row.now (trio_of pump)) }
{
    Pump::open(alloc, row, disks.low, disks.high, disks.recv)
}

// The disks of a pump that is not opened.
fn given_back<D: Disk>(refused: NotOpen<D>) -> Trio<D>
    ensures { result ≡ trio_back refused }
{
    Trio {
        low: refused.low,
        high: refused.high,
        recv: refused.recv,
    }
}

// Why the pump of this session is not opened.
fn cause(session: u32, role: Role, why: Option<Why>) -> ChainWhy
    ensures { result ≡ cause_of session role why }
{
    match why {
        Some(why) => ChainWhy::Pump { session, role, why },
        None => ChainWhy::Memory,
    }
}

fn close_one<D: Disk>(pump: Pump<D>) -> Trio<D>
    ensures disks { result ≡ trio_of pump }
    ensures left { (p : Past) → StandsOrFails D.told pump p
        → LeaveWorld D.told (row_of pump) p.world result.low result.high result.recv }
    ensures again { (p : Past) → StandsOrFails D.told pump p
        → OpenAgain D.told (row_of pump) p.world result.low result.high result.recv }
    ensures crashes { CrashesOpen D.told (row_of pump) result.low result.high result.recv }
{
    let (low, high, recv) = pump.close();
    Trio { low, high, recv }
}

impl<D: Disk> Chain<D> {
    // Two pumps, with nothing between them yet.
    fn of(first: Pump<D>, second: Pump<D>) -> Chain<D>
        ensures first { result.first ≡ first }
        ensures second { result.second ≡ second }
        ensures sender { result.sender ≡ unsent }
        ensures under_way { result.is_under_way ≡ false }
    {
        Chain {
            first,
            second,
            sender: Sender::new(),
            place: LogPlace::first(),
            is_under_way: false,
        }
    }

    // The second pump has accepted none but the first messages that the first receiver has.
    fn compare(&mut self) -> Result<(), ChainWhy>
        requires first { is_down self.old.first ≡ false }
        requires second { is_down self.old.second ≡ false }
        ensures linked { OnOk result (D.told.tells → (p q : Past) → StandsFor D.told self.old.first p
            → StandsFor D.told self.old.second q
            → IsPrefixOf q.world.accepted p.world.received) }
        ensures unlinked { IfErr result (λ why. D.told.tells → (p q : Past) → StandsFor D.told self.old.first p
            → StandsFor D.told self.old.second q
            → is_by_device why ≡ false → IsUnlinked q.world.accepted p.world.received why) }
        ensures stands { OnOk result (((p : Past) → StandsFor D.told self.old.first p
            → StandsFor D.told self.new.first p)
            × ((p : Past) → StandsFor D.told self.old.second p → StandsFor D.told self.new.second p)) }
        ensures read { OnOk result (IsRead D.told self.old.first self.new.first None
            × IsRead D.told self.old.second self.new.second None) }
        ensures ends { IfErr result (AreRead D.told self.old.first self.new.first self.old.second self.new.second) }
        ensures up { OnOk result (chain_is_down self.new ≡ false) }
        ensures sender { self.new.sender ≡ self.old.sender }
        ensures under_way { self.new.is_under_way ≡ self.old.is_under_way }
    {
        let (accepted, removed, taken) = self.second.counts();
        let (_, _, received) = self.first.counts();
        if accepted > received {
            return Err(ChainWhy::Link {
                count: accepted,
                bound: received,
            });
        }
        match self.compare_taken(taken.min(accepted)) {
            Ok(()) => {}
            Err(why) => return Err(why),
        }
        match self.compare_live(removed, accepted) {
            Ok(()) => Ok(()),
            Err(why) => Err(why),
        }
    }

    /// The chain of two sessions of lawful rows, over six disks. Each disk that is empty is formatted
    /// first, the first pump's before the second's. Then all that the second pump has accepted is
    /// compared with what the first receiver has. Where the disks tell what they hold, there is a chain
    /// exactly where each three stand for a session and the second one has accepted no message but the
    /// first ones that the first receiver has; it is refused for the first cause in the order of
    /// `ChainWhy`.
    pub fn open(
        alloc: Global,
        one: &SessionRow,
        two: &SessionRow,
        disks: Six<D>,
    ) -> Result<Chain<D>, NotChained<D>>
        requires one { IsLawfulRow one.now }
        requires two { IsLawfulRow two.now }
        requires apart { one.now.id ≡ two.now.id → ⊥ }
        requires message { one.now.message ≤ two.now.message }
        ensures first { IfOk result (λ chain. D.told.tells → (f : Found) × StandFor D.told one.now disks.first f) }
        ensures second { IfOk result (λ chain. D.told.tells → (h : Found) × StandFor D.told two.now disks.second h) }
        ensures stands { IfOk result (λ chain. D.told.tells → (f h : Found) → StandFor D.told one.now disks.first f
            → StandFor D.told two.now disks.second h
            → ChainStands D.told chain (first_chained one.now f two.now h)) }
        ensures rows { IfOk result (λ chain. (row_of chain.first ≡ one.now) × (row_of chain.second ≡ two.now)) }
        ensures up { IfOk result (λ chain. chain_is_down chain ≡ false) }
        ensures left { IfOk result (λ chain. AreLeft D.told one.now disks.first (trio_of chain.first) None
            × AreLeft D.told two.now disks.second (trio_of chain.second) None) }
        ensures back { IfErr result (λ e. ComeBackFor D.told one.now two.now disks e.disks e.why) }
        ensures stops { IfErr result (λ e. D.told.tells → (f h : Found) → StandFor D.told one.now disks.first f
            → StandFor D.told two.now disks.second h
            → IsPrefixOf (accepted_in h) f.received → IsExcused e.why) }
        ensures room { D.told.tells_plan → HaveRoom D.told one.now disks.first → HaveRoom D.told two.now disks.second
            → IfOk result (λ chain. HaveRoom D.told one.now (trio_of chain.first)
            × HaveRoom D.told two.now (trio_of chain.second)) }
        ensures never { D.told.tells_plan → HaveRoom D.told one.now disks.first → HaveRoom D.told two.now disks.second
            → IfErr result (λ e. is_by_device e.why ≡ false) }
    {
        let first = match open_one(alloc, one, disks.first) {
            Ok(pump) => pump,
            Err(refused) => {
                let why = cause(one.id, refused.role, refused.why);
                let first = given_back(refused);
                let second = disks.second;
                return Err(NotChained {
                    disks: Six { first, second },
                    why,
                });
            }
        };
        let second = match open_one(alloc, two, disks.second) {
            Ok(pump) => pump,
            Err(refused) => {
                let why = cause(two.id, refused.role, refused.why);
                let second = given_back(refused);
                let first = close_one(first);
                return Err(NotChained {
                    disks: Six { first, second },
                    why,
                });
            }
        };
        let mut chain = Chain::of(first, second);
        match chain.compare() {
            Ok(()) => Ok(chain),
            Err(why) => Err(NotChained {
                disks: chain.close(),
                why,
            }),
        }
    }

    /// The six disks, with no further call. What is read of them, and whatever crashes leave of them,
    /// stands for what a crash leaves of the two worlds, also where a call of one of them failed: over
    /// such disks no opening of either pump refuses anything.
    pub fn close(self) -> Six<D>
        ensures first { result.first ≡ trio_of self.first }
        ensures second { result.second ≡ trio_of self.second }
        ensures left { (c : Chained) → ChainStandsOrFails D.told self c
            → LeaveWorld D.told (row_of self.first) c.first.past.world result.first.low result.first.high
            result.first.recv
            × LeaveWorld D.told (row_of self.second) c.second.past.world result.second.low result.second.high
            result.second.recv }
        ensures again { (c : Chained) → ChainStandsOrFails D.told self c
            → OpenAgain D.told (row_of self.first) c.first.past.world result.first.low result.first.high
            result.first.recv
            × OpenAgain D.told (row_of self.second) c.second.past.world result.second.low result.second.high
            result.second.recv }
        ensures open { CrashesOpen D.told (row_of self.first) result.first.low result.first.high result.first.recv
            × CrashesOpen D.told (row_of self.second) result.second.low result.second.high result.second.recv }
    {
        Six {
            first: close_one(self.first),
            second: close_one(self.second),
        }
    }
}
