// The answers about timers.
ghost use Rattle.std.specs.Prelude.{◌≡◌};
ghost use Rattle.clocks.specs.Told.{timer_spec_told, timer_told, deadline_told};

use crate::{Tell, TellAs};
use clocks::{Deadline, Timer, TimerSpec};
use errors::Told;

// A spec is told by its clock and its deadline.
impl TellAs for TimerSpec {
    ghost tells_as = { timer_spec_told };

    fn told_as(self, number: u64) -> Told {
        Told::new(number, self.clock_kind().0 as u64, self.deadline(), 0, 0, 0)
    }
}

// A timer is told by its spec and its armed time, behind 0.
impl Tell for Timer {
    ghost tells = { timer_told };

    fn told(self) -> Told {
        let spec = self.spec;
        Told::new(
            0,
            spec.clock_kind().0 as u64,
            spec.deadline(),
            self.armed_at,
            0,
            0,
        )
    }
}

impl Tell for Deadline {
    ghost tells = { deadline_told };

    fn told(self) -> Told {
        match self {
            Deadline::Elapsed => Told::new(0, 0, 0, 0, 0, 0),
            Deadline::Remaining { ticks } => Told::new(1, ticks, 0, 0, 0, 0),
        }
    }
}
