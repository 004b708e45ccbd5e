// Where a line of a schedule lies.
ghost use Rattle.std.specs.Prelude.{◌≡◌, ◌+◌, ◌<◌, ◌≤◌, cond, Some, []};
ghost use Rattle.std.specs.Result.{result_err};
ghost use Rattle.sched_text.specs.Kinds.{is_tick};
ghost use Rattle.sched_text.specs.LineFaults.{fault_at_end, place_behind};

use crate::fault::SchedFault;
use crate::kind::{ScheduleKind, lacks_lines};

/// Where a line lies: what the line directly before is, and how many ticks began before.
#[derive(Clone, Copy)]
pub struct SchedulePlace {
    pub before: Option<ScheduleKind>,
    pub begun: usize,
}

impl SchedulePlace {
    // That of the first line.
    pub fn first() -> SchedulePlace
        ensures { result ≡ place_behind [] }
    {
        SchedulePlace {
            before: None,
            begun: 0,
        }
    }

    // That of the line behind one of this kind.
    pub fn after(self, kind: ScheduleKind) -> SchedulePlace
        requires { self.begun < 18446744073709551615 }
        ensures before { result.before ≡ Some kind }
        ensures begun { result.begun ≡ cond (is_tick kind) 1 0 + self.begun }
        ensures few { result.begun ≤ self.begun + 1 }
    {
        let begun = match kind {
            ScheduleKind::Tick => self.begun + 1,
            _ => self.begun,
        };
        SchedulePlace {
            before: Some(kind),
            begun,
        }
    }

    // Whether the text may end here, at this line, with so many ticks.
    pub fn check_end(self, ticks: usize, line: u64) -> Result<(), SchedFault>
        ensures { result_err result ≡ fault_at_end ticks line self.before self.begun }
    {
        if lacks_lines(self.before) {
            return Err(SchedFault::BadLine { line });
        }
        if self.begun < ticks {
            return Err(SchedFault::TickCount { line });
        }
        Ok(())
    }
}
