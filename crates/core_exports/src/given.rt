// What the numbers that a caller gives name: a value, or nothing.
// The flags `offers`, `committed` and `ended` stand beside their values since C passes them so.
ghost use Rattle.std.specs.Prelude.{◌≡◌};
ghost use Rattle.core_exports.specs.Given.{offer_named, ids_named, spec_named, error_named, record_named, state_named, cursor_named};
ghost use Rattle.machine.specs.Divergences.{divergence_named};
ghost use Rattle.core_exports.specs.Given.{next_named, phase_named, machine_named, turn_named, timer_request_named};

use crate::machines::MachineNumbers;
use crate::{CursorNumbers, IdsNumbers, RecordNumbers, SpecNumbers};
use clocks::{ClockCapability, TimerSpec};
use cursor::{OpenTimer, ReplayCursor, Scheduled, State};
use errors::KernelError;
use ids::{ActivityKind, ClockKind, EffectIdAllocator, EffectSeq, RunId};
use machine::{Divergence, Next, Phase, ReplayMachine, TimerRequest};
use records::{Body, RecordRef};

// A machine with the record or the end of history that it is asked about.
#[derive(Clone, Copy)]
pub struct Turn {
    pub machine: ReplayMachine,
    pub next: Next,
}

pub(crate) fn offer_of(flag: u8, n: u32) -> Option<Option<EffectSeq>>
    ensures { result ≡ offer_named flag n }
{
    match flag {
        0 => Some(None),
        1 => Some(Some(EffectSeq(n))),
        _ => None,
    }
}

pub(crate) fn ids_of(ids: IdsNumbers) -> Option<EffectIdAllocator>
    ensures { result ≡ ids_named ids }
{
    let next = offer_of(ids.offers, ids.next)?;
    Some(EffectIdAllocator {
        run: RunId(ids.run),
        next,
    })
}

pub(crate) fn spec_of(spec: SpecNumbers) -> Option<TimerSpec>
    ensures { result ≡ spec_named spec }
{
    TimerSpec::recorded(ClockKind(spec.clock), spec.deadline)
}

pub(crate) fn record_of(n: RecordNumbers) -> Option<RecordRef>
    ensures { result ≡ record_named n }
{
    let body = Body {
        start: n.start as usize,
        len: n.m as usize,
    };
    RecordRef::of(n.kind, n.clock, n.a, n.s, n.d, n.m, body)
}

fn error_of(n: u8) -> Option<KernelError>
    ensures { result ≡ error_named n }
{
    match n {
        21 => Some(KernelError::IdExhausted),
        22 => Some(KernelError::NondeterministicWorkflow),
        23 => Some(KernelError::IncompatibleWorkflow),
        24 => Some(KernelError::MalformedHistory),
        25 => Some(KernelError::NoPersistentClock),
        26 => Some(KernelError::ClockWentBackwards),
        _ => None,
    }
}

fn state_of(n: CursorNumbers) -> Option<State>
    ensures { result ≡ state_named n }
{
    match n.position {
        0 => Some(State::BeforeRun),
        1 => Some(State::Replaying),
        2 => Some(State::AwaitingOutcome(Scheduled {
            seq: EffectSeq(n.seq),
            kind: ActivityKind(n.kind),
            input_len: n.input_len,
            input_crc: n.input_crc,
        })),
        3 => Some(State::AwaitingTimer(OpenTimer {
            seq: EffectSeq(n.seq),
            clock_kind: ClockKind(n.clock_kind),
            deadline: n.deadline,
            armed_at: n.armed_at,
        })),
        4 => Some(State::RunCompleted),
        5 => Some(State::RunFailed),
        6 => error_of(n.error).map(State::Halted),
        _ => None,
    }
}

pub(crate) fn cursor_of(n: CursorNumbers) -> Option<ReplayCursor>
    ensures { result ≡ cursor_named n }
{
    let ids = ids_of(n.ids)?;
    let state = state_of(n)?;
    Some(ReplayCursor::at(ids, state).with_failed(n.failed))
}

fn divergence_of(n: u8) -> Option<Divergence>
    ensures { result ≡ divergence_named n }
{
    match n {
        1 => Some(Divergence::Sequence),
        2 => Some(Divergence::Kind),
        4 => Some(Divergence::BoundaryKind),
        5 => Some(Divergence::Gate),
        6 => Some(Divergence::Deadline),
        7 => Some(Divergence::Boundary),
        8 => Some(Divergence::Length),
        9 => Some(Divergence::Crc),
        _ => None,
    }
}

fn phase_of(phase: u8, divergence: u8) -> Option<Phase>
    ensures { result ≡ phase_named phase divergence }
{
    match phase {
        0 => Some(Phase::Settled),
        1 => Some(Phase::AwaitingOutcome),
        2 => Some(Phase::AwaitingFiring),
        3 => divergence_of(divergence).map(Phase::Diverged),
        _ => None,
    }
}

pub(crate) fn machine_of(n: MachineNumbers) -> Option<ReplayMachine>
    ensures { result ≡ machine_named n }
{
    let cursor = cursor_of(n.cursor)?;
    let phase = phase_of(n.phase, n.divergence)?;
    Some(ReplayMachine { cursor, phase })
}

fn next_of(ended: u8, record: RecordNumbers) -> Option<Next>
    ensures { result ≡ next_named ended «record» }
{
    match ended {
        0 => record_of(record).map(Next::Record),
        1 => Some(Next::EndOfHistory),
        _ => None,
    }
}

pub(crate) fn turn_of(machine: MachineNumbers, ended: u8, record: RecordNumbers) -> Option<Turn>
    ensures { result ≡ turn_named machine ended «record» }
{
    let machine = machine_of(machine)?;
    let next = next_of(ended, record)?;
    Some(Turn { machine, next })
}

pub(crate) fn timer_request_of(spec: SpecNumbers, capability: u8) -> Option<TimerRequest>
    ensures { result ≡ timer_request_named spec capability }
{
    let spec = spec_of(spec)?;
    let capability = ClockCapability::of(capability as u64)?;
    Some(TimerRequest { spec, capability })
}
