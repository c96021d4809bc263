// Clocks and timers (timer.rs): what a deadline means, and which clock can measure it.
//
// Owns: TimerSpec, ClockCapability, Timer, Deadline. Must not own: a clock; every reading is an argument.
// Defends: a persistent deadline is refused where there is no persistent clock, never read as a boot deadline.
//
// Why two specs: a boot clock returns to 0 after a reset and cannot say how long the power was off; a persistent clock can. So after
// a reset a boot timer counts from the smaller reading, and a persistent one from the reading that was recorded.
#![tactic(auto)]

ghost use Rattle.std.specs.Prelude.{◌≡◌};
ghost use Rattle.clocks.specs.Rearming.{Rearmed};
ghost use Rattle.clocks.specs.Specs.{spec_clock, spec_deadline, rearmed_at, recorded_spec, capability_of};
ghost use Rattle.clocks.specs.Timers.{admission, armed, lacking_of, evaluation};

use errors::KernelError;
use ids::ClockKind;

// What a timer waits for.
#[derive(Clone, Copy)]
pub enum TimerSpec {
    // So many ticks of this boot's clock, which returns to 0 after a reset.
    AfterBoot { ticks: u64 },
    // A reading of a clock that survives power loss.
    AtPersistentTime { instant: u64 },
}

impl TimerSpec {
    // The clock that measures this spec.
    pub fn clock_kind(self) -> ClockKind
        ensures { result ≡ spec_clock self }
    {
        match self {
            TimerSpec::AfterBoot { ticks: _ } => ClockKind::AFTER_BOOT,
            TimerSpec::AtPersistentTime { instant: _ } => ClockKind::AT_PERSISTENT_TIME,
        }
    }

    // The deadline in that clock's unit.
    pub fn deadline(self) -> u64
        ensures { result ≡ spec_deadline self }
    {
        match self {
            TimerSpec::AfterBoot { ticks } => ticks,
            TimerSpec::AtPersistentTime { instant } => instant,
        }
    }

    // The reading at which a recorded deadline is armed again, given what its clock says now. After several reboots the order of
    // the readings does not matter, nor how often one of them is taken: only the smallest counts.
    pub fn rearmed_at(self, recorded: u64, now: u64) -> u64
        ensures value { result ≡ rearmed_at self recorded now }
        ensures law { Rearmed self recorded now result }
    {
        match self {
            TimerSpec::AfterBoot { ticks: _ } => recorded.min(now),
            TimerSpec::AtPersistentTime { instant: _ } => recorded,
        }
    }

    // The spec that a recorded clock kind and deadline name, or none.
    pub fn recorded(clock_kind: ClockKind, deadline: u64) -> Option<TimerSpec>
        ensures { result ≡ recorded_spec clock_kind deadline }
    {
        match clock_kind {
            ClockKind::AFTER_BOOT => Some(TimerSpec::AfterBoot { ticks: deadline }),
            ClockKind::AT_PERSISTENT_TIME => Some(TimerSpec::AtPersistentTime {
                instant: deadline,
            }),
            _ => None,
        }
    }
}

// Which clocks a board has.
#[derive(Clone, Copy)]
pub enum ClockCapability {
    BootOnly,
    Persistent,
}

impl ClockCapability {
    // The capability with this number: 0 is `BootOnly`, 1 `Persistent`, no other names one.
    pub fn of(number: u64) -> Option<ClockCapability>
        ensures { result ≡ capability_of number }
    {
        match number {
            0 => Some(ClockCapability::BootOnly),
            1 => Some(ClockCapability::Persistent),
            _ => None,
        }
    }

    // Whether a board with these clocks can time a spec.
    pub fn admits(self, spec: TimerSpec) -> Result<(), KernelError>
        ensures { result ≡ admission self spec }
    {
        match spec {
            TimerSpec::AfterBoot { ticks: _ } => Ok(()),
            TimerSpec::AtPersistentTime { instant: _ } => match self {
                ClockCapability::BootOnly => Err(KernelError::NoPersistentClock),
                ClockCapability::Persistent => Ok(()),
            },
        }
    }
}

// An armed timer: its spec, and the reading of its clock when it was armed.
#[derive(Clone, Copy)]
pub struct Timer {
    pub spec: TimerSpec,
    pub armed_at: u64,
}

// What a reading says about an armed timer.
#[derive(Clone, Copy)]
pub enum Deadline {
    Elapsed,
    Remaining { ticks: u64 },
}

impl Timer {
    // Arms a spec at a reading of its own clock, where the board can time it.
    pub fn arm(spec: TimerSpec, capability: ClockCapability, now: u64) -> Result<Timer, KernelError>
        ensures { result ≡ armed spec capability now }
    {
        capability.admits(spec)?;
        Ok(Timer {
            spec,
            armed_at: now,
        })
    }

    pub fn spec(self) -> TimerSpec
        ensures { result ≡ self.spec }
    {
        self.spec
    }

    pub fn armed_at(self) -> u64
        ensures { result ≡ self.armed_at }
    {
        self.armed_at
    }

    // What a reading says about this deadline.
    pub fn evaluate(self, reading: u64) -> Result<Deadline, KernelError>
        ensures { result ≡ evaluation self reading }
    {
        let armed_at = self.armed_at;
        if reading < armed_at {
            return Err(KernelError::ClockWentBackwards);
        }
        let spec = self.spec;
        match spec {
            TimerSpec::AfterBoot { ticks } => Ok(lacking(ticks, reading - armed_at)),
            TimerSpec::AtPersistentTime { instant } => Ok(lacking(instant, reading)),
        }
    }
}

// Elapsed where what was reached is at least the goal; else what is lacking remains.
fn lacking(goal: u64, reached: u64) -> Deadline
    ensures { result ≡ lacking_of goal reached }
{
    if goal <= reached {
        Deadline::Elapsed
    } else {
        Deadline::Remaining {
            ticks: goal - reached,
        }
    }
}
