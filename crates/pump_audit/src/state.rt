// What the lines of a record told so far.
ghost use Rattle.std.specs.Prelude.{◌≤◌};
ghost use Rattle.pump_frame.specs.Rows.{IsLawfulRow};
ghost use Rattle.moving_avg.specs.Windows.{count_of};

use crate::claims::Claims;
use crate::form::RecordPlace;
use crate::life::Life;
use moving_avg::Window;
use pump_core::Reply;

/// A record that is checked line by line: what its lines told so far, none of which has one of the causes
/// 1 to 3.
#[derive(Drop)]
pub(crate) struct Audit {
    pub life: Life,
    pub place: RecordPlace,
    /// How many lines came.
    pub lines: u32,
    /// The reply of the last look, as long as it has no comment.
    pub owed: Option<Reply>,
    pub looks: u64,
    /// How many comments tell an acknowledgement.
    pub acks: u64,
    pub claims: Claims,
    pub window: Window,
    pub taken: u64,
    pub accepted: u64,
    pub removed: u64,
    ghost lawful: { IsLawfulRow life.row },
    ghost few_looks: { looks ≤ lines },
    ghost few_acks: { acks ≤ lines },
    ghost few_times: { count_of window ≤ lines },
}
