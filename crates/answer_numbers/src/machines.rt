// The machine's answers. The Rust has an enum for the answers of each call, so those of an effect and of a timer are told by two impls.
ghost use Rattle.std.specs.Prelude.{◌≡◌};
ghost use Rattle.answer_numbers.specs.MachineTold.{finished_told, replayed_told};
ghost use Rattle.answer_numbers.specs.MachineTold.{intent_told, resolve_told, timer_intent_told, timer_resolve_told};

use crate::{Tell, cursors};
use errors::Told;
use ids::EffectId;
use machine::{Intent, Outcome, Resolve, TimerIntent, TimerResolve};

impl Tell for Intent {
    ghost tells = { intent_told };

    fn told(self) -> Told {
        match self {
            Intent::Recorded { id } => cursors::boundary(1, id),
            Intent::Schedule { id } => cursors::boundary(2, id),
            Intent::Finished { outcome } => finished(outcome),
        }
    }
}

impl Tell for Resolve {
    ghost tells = { resolve_told };

    fn told(self) -> Told {
        match self {
            Resolve::Replayed { id, outcome } => replayed(id, outcome),
            Resolve::Redeliver { id } => cursors::boundary(1, id),
        }
    }
}

impl Tell for TimerIntent {
    ghost tells = { timer_intent_told };

    fn told(self) -> Told {
        match self {
            TimerIntent::Recorded { id } => cursors::boundary(1, id),
            TimerIntent::Schedule { id } => cursors::boundary(2, id),
            TimerIntent::Finished { outcome } => finished(outcome),
        }
    }
}

impl Tell for TimerResolve {
    ghost tells = { timer_resolve_told };

    fn told(self) -> Told {
        match self {
            TimerResolve::Fired { id } => cursors::boundary(6, id),
            TimerResolve::Rearm { id, spec, armed_at } => Told::new(
                1,
                id.run.0,
                id.seq.0 as u64,
                spec.clock_kind().0 as u64,
                spec.deadline(),
                armed_at,
            ),
        }
    }
}

fn finished(outcome: Outcome) -> Told
    ensures { result ≡ finished_told outcome }
{
    match outcome {
        Outcome::Completed(body) => cursors::end(7, body),
        Outcome::Failed(body) => cursors::end(8, body),
    }
}

fn replayed(id: EffectId, outcome: Outcome) -> Told
    ensures { result ≡ replayed_told id outcome }
{
    match outcome {
        Outcome::Completed(body) => cursors::outcome(3, id, body),
        Outcome::Failed(body) => cursors::outcome(4, id, body),
    }
}
