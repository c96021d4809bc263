// The end of numbering, walked from a fresh machine: `RunStarted`, 2^32 markers, then all that can be done with the last number,
// and all that is said of "no number left".
// The cursors and the allocator that are tried are the walked machine's own.
#![tactic(auto)]

ghost use Rattle.std.specs.Prelude.{◌≡◌};
ghost use Rattle.machine.specs.declared.Phase.TheVariants as Phase;
ghost use Rattle.test_numbering.specs.Walk.{walk_rule, Marked};
ghost use Rattle.test_numbering.specs.Turns.{to_last_rule, replaying_with, marks_in, marks_of};

use cursor::{ReplayCursor, State, Step};
use errors::KernelError;
use history::LAST;
use ids::{EffectIdAllocator, EffectSeq, GateId, RunId};
use machine::{Phase, ReplayMachine};
use std::io;

mod history;
mod last;
mod lines;
mod spent;

// A machine, and how many markers it accepted.
#[derive(Clone, Copy)]
struct Counted {
    machine: ReplayMachine,
    markers: u64,
}

// The machine with one number left, the one with none, and how many markers were accepted.
#[derive(Clone, Copy)]
struct Walked {
    before: ReplayMachine,
    machine: ReplayMachine,
    markers: u64,
}

fn main(rt: HostRuntime) -> io::Result<()> {
    let walked = walk();
    println!(&rt; "markers accepted {}", walked.markers)?;
    let one_left = walked.before;
    last::cursors(&rt, one_left.cursor)?;
    last::allocators(&rt, one_left.cursor.ids)?;
    last::effects(&rt, one_left)?;
    last::timers(&rt, one_left)?;
    let none_left = walked.machine;
    spent::cursors(&rt, none_left.cursor)?;
    spent::machines(&rt, none_left)?;
    spent::effects(&rt, none_left)?;
    spent::timers(&rt, none_left)
}

// The marker of the last number, after all the others.
fn walk() -> Walked
    ensures { (result ≡ walk_rule) × (Marked 4294967295 result.before × Marked 4294967296 result.machine) }
{
    let counted = walk_to_last();
    let before = counted.machine;
    let called = before.advance(history::marker(LAST));
    let mut markers = counted.markers;
    if marks(called.answer, LAST) {
        markers += 1;
    }
    Walked {
        before,
        machine: called.machine,
        markers,
    }
}

// From a fresh machine: the start, then a marker for each number but the last, as long as they are accepted and the machine replays,
// settled. Only its allocator is carried along.
fn walk_to_last() -> Counted
    ensures { (result ≡ to_last_rule) × Marked 4294967295 result.machine }
{
    let started = ReplayMachine::new(RunId(7)).advance(history::start());
    let mut ids = started.machine.cursor.ids;
    for number in 0..LAST {
        let machine = replaying(ids);
        let called = machine.advance_marker(EffectSeq(number), GateId(1), 1);
        if !marks(called.answer, number) {
            return Counted {
                machine,
                markers: number as u64,
            };
        }
        let next = called.machine;
        let (State::Replaying, Phase::Settled) = (next.cursor.state, next.phase) else {
            return Counted {
                machine,
                markers: number as u64,
            };
        };
        ids = next.cursor.ids;
    }
    Counted {
        machine: replaying(ids),
        markers: LAST as u64,
    }
}

// The machine that replays, settled, with this allocator; so the room of an open boundary is not copied. No marker is a failed step.
fn replaying(ids: EffectIdAllocator) -> ReplayMachine
    ensures { result ≡ replaying_with ids Phase.Settled }
{
    ReplayMachine {
        cursor: ReplayCursor::at(ids, State::Replaying),
        phase: Phase::Settled,
    }
}

// Whether the answer is the step of the marker with this number, under the walked run.
fn marks(answer: Result<Step, KernelError>, number: u32) -> bool
    ensures { result ≡ marks_of number answer }
{
    match answer {
        Ok(step) => marks_in(step, number),
        Err(_) => false,
    }
}

fn marks_in(step: Step, number: u32) -> bool
    ensures { result ≡ marks_in number step }
{
    match step {
        Step::VersionMarker { id, gate, version } => {
            (id.run.0 == 7) & ((id.seq.0 == number) & ((gate.0 == 1) & (version == 1)))
        }
        _ => false,
    }
}
