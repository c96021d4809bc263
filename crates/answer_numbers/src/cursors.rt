// The cursor's answers.
ghost use Rattle.std.specs.Prelude.{◌≡◌};
ghost use Rattle.answer_numbers.specs.CursorTold.{position_told, pending_effect_told, pending_timer_told, step_told};
ghost use Rattle.answer_numbers.specs.CursorTold.{boundary_told, outcome_told, end_told};

use crate::{Tell, TellAs};
use cursor::{PendingEffect, PendingTimer, Position, Step};
use errors::Told;
use ids::EffectId;
use records::Body;

impl Tell for Position {
    ghost tells = { position_told };

    fn told(self) -> Told {
        match self {
            Position::BeforeRun => Told::new(0, 0, 0, 0, 0, 0),
            Position::Replaying => Told::new(1, 0, 0, 0, 0, 0),
            Position::AwaitingOutcome => Told::new(2, 0, 0, 0, 0, 0),
            Position::AwaitingTimer => Told::new(3, 0, 0, 0, 0, 0),
            Position::RunCompleted => Told::new(4, 0, 0, 0, 0, 0),
            Position::RunFailed => Told::new(5, 0, 0, 0, 0, 0),
            Position::Halted(error) => Told::new(6, error.number() as u64, 0, 0, 0, 0),
        }
    }
}

impl TellAs for PendingEffect {
    ghost tells_as = { pending_effect_told };

    fn told_as(self, number: u64) -> Told {
        Told::new(
            number,
            self.id.run.0,
            self.id.seq.0 as u64,
            self.kind.0 as u64,
            self.input_len as u64,
            self.input_crc as u64,
        )
    }
}

impl TellAs for PendingTimer {
    ghost tells_as = { pending_timer_told };

    fn told_as(self, number: u64) -> Told {
        Told::new(
            number,
            self.id.run.0,
            self.id.seq.0 as u64,
            self.clock_kind.0 as u64,
            self.deadline,
            self.armed_at,
        )
    }
}

impl Tell for Step {
    ghost tells = { step_told };

    fn told(self) -> Told {
        match self {
            Step::RunStarted {
                workflow_kind,
                workflow_version,
                input,
            } => Told::new(
                1,
                workflow_kind as u64,
                workflow_version as u64,
                input.start as u64,
                input.len as u64,
                0,
            ),
            Step::EffectScheduled(pending) => pending.told_as(2),
            Step::EffectCompleted { id, result } => outcome(3, id, result),
            Step::EffectFailed { id, error } => outcome(4, id, error),
            Step::TimerScheduled(pending) => pending.told_as(5),
            Step::TimerFired { id } => boundary(6, id),
            Step::RunCompleted { result } => end(7, result),
            Step::RunFailed { error } => end(8, error),
            Step::VersionMarker { id, gate, version } => {
                Told::new(
                    9,
                    id.run.0,
                    id.seq.0 as u64,
                    gate.0 as u64,
                    version as u64,
                    0,
                )
            }
        }
    }
}

// A boundary by its identity alone.
pub(crate) fn boundary(number: u64, id: EffectId) -> Told
    ensures { result ≡ boundary_told number id }
{
    Told::new(number, id.run.0, id.seq.0 as u64, 0, 0, 0)
}

// The end of an effect, with where its body lies.
pub(crate) fn outcome(number: u64, id: EffectId, body: Body) -> Told
    ensures { result ≡ outcome_told number id body }
{
    Told::new(
        number,
        id.run.0,
        id.seq.0 as u64,
        body.start as u64,
        body.len as u64,
        0,
    )
}

// The end of a run, with where its body lies.
pub(crate) fn end(number: u64, body: Body) -> Told
    ensures { result ≡ end_told number body }
{
    Told::new(number, body.start as u64, body.len as u64, 0, 0, 0)
}
