// The machine for C and Rust.
ghost use Rattle.std.specs.Prelude.{◌≡◌};
ghost use Rattle.cursor.specs.Readers.{run_of, position_of, pending_of, pending_timer_of, failed_of};
ghost use Rattle.answer_numbers.specs.CursorTold.{position_told, pending_effect_option_told, pending_timer_option_told};
ghost use Rattle.machine.specs.Phases as Phases;
ghost use Rattle.machine.specs.Divergences.{divergence_option_number, effect_divergence};
ghost use Rattle.machine.specs.Effects.{intent_rule, outcome_rule};
ghost use Rattle.machine.specs.Timers.{timer_intent_rule, timer_outcome_rule};
ghost use Rattle.answer_numbers.specs.MachineTold.{
  intent_result_told,
  resolve_result_told,
  timer_intent_result_told,
  timer_resolve_result_told,
};
ghost use Rattle.errors.specs.Told.{told1, result_told};
ghost use Rattle.core_exports.specs.Given.{record_named, machine_named, turn_named, timer_request_named};
ghost use Rattle.core_exports.specs.MachineNumbers.{request_of, pending_from, machine_numbers_for, machine_numbers};
ghost use Rattle.core_exports.specs.MachineNumbers.{answered, of_machine, machine_kept, machine_advanced_by, called_by, requested_by};

use crate::{CursorNumbers, RecordNumbers, SpecNumbers, given};
use answer_numbers::Tell;
use cursor::PendingEffect;
use errors::Told;
use ids::{ActivityKind, EffectId, EffectSeq, RunId};
use machine::{Answered, Divergence, EffectRequest, Phase, ReplayMachine};

// An effect as it is asked for.
#[repr(C)]
#[derive(Clone, Copy)]
pub struct RequestNumbers {
    pub input_crc: u32,
    pub kind: u16,
    pub input_len: u16,
}

// An effect as it is recorded.
#[repr(C)]
#[derive(Clone, Copy)]
pub struct PendingNumbers {
    pub run: u64,
    pub seq: u32,
    pub input_crc: u32,
    pub kind: u16,
    pub input_len: u16,
}

// A machine: `phase` is its place among the phases; `divergence` is 0 unless it has diverged, and then 1, 2 or 4 to 9.
#[repr(C)]
#[derive(Clone, Copy)]
pub struct MachineNumbers {
    pub cursor: CursorNumbers,
    pub phase: u8,
    pub divergence: u8,
}

#[repr(C)]
#[derive(Clone, Copy)]
pub struct MachineAnswered {
    pub machine: MachineNumbers,
    pub answer: Told,
}

pub fn hiskurdo_divergence_from(
    request: RequestNumbers,
    recorded: PendingNumbers,
    run: u64,
    seq: u32,
) -> u8
    ensures { result ≡
        divergence_option_number
        (effect_divergence (request_of request) (pending_from recorded) (record { run = record { 0 = run }; seq = record { 0 = seq } })) }
{
    let expected = EffectId {
        run: RunId(run),
        seq: EffectSeq(seq),
    };
    let asked = EffectRequest::from(request);
    Divergence::number_of(asked.divergence_from(recorded.into(), expected))
}

pub fn hiskurdo_machine_new(run: u64) -> MachineNumbers
    ensures { result ≡ machine_numbers (Phases.fresh_machine (record { 0 = run })) }
{
    ReplayMachine::new(RunId(run)).into()
}

pub fn hiskurdo_machine_run(machine: MachineNumbers) -> Told
    ensures { result ≡ of_machine (λ m. told1 0 (run_of m.cursor).0) (machine_named machine) }
{
    given::machine_of(machine).map_or(crate::names_nothing(), |m| crate::value(m.run().0))
}

pub fn hiskurdo_machine_position(machine: MachineNumbers) -> Told
    ensures { result ≡ of_machine (λ m. position_told (position_of m.cursor)) (machine_named machine) }
{
    given::machine_of(machine).map_or(crate::names_nothing(), |m| m.position().told())
}

pub fn hiskurdo_machine_pending(machine: MachineNumbers) -> Told
    ensures { result ≡
        of_machine (λ m. pending_effect_option_told (pending_of m.cursor)) (machine_named machine) }
{
    given::machine_of(machine).map_or(crate::names_nothing(), |m| m.pending().told())
}

pub fn hiskurdo_machine_pending_timer(machine: MachineNumbers) -> Told
    ensures { result ≡
        of_machine (λ m. pending_timer_option_told (pending_timer_of m.cursor)) (machine_named machine) }
{
    given::machine_of(machine).map_or(crate::names_nothing(), |m| m.pending_timer().told())
}

pub fn hiskurdo_machine_failed(machine: MachineNumbers) -> Told
    ensures { result ≡ of_machine (λ m. told1 0 (failed_of m.cursor)) (machine_named machine) }
{
    given::machine_of(machine).map_or(crate::names_nothing(), |m| crate::value(m.failed()))
}

pub fn hiskurdo_machine_diverged(machine: MachineNumbers) -> Told
    ensures { result ≡ of_machine (λ m. told1 0 (divergence_option_number (Phases.diverged_in m.phase))) (machine_named machine) }
{
    given::machine_of(machine).map_or(
        crate::names_nothing(),
        |m| crate::value(Divergence::number_of(m.diverged()) as u64),
    )
}

pub fn hiskurdo_machine_advance(machine: MachineNumbers, record: RecordNumbers) -> MachineAnswered
    ensures { result ≡ machine_advanced_by machine (machine_named machine) (record_named «record») }
{
    let Some(m) = given::machine_of(machine) else {
        return machine_kept(machine);
    };
    let Some(x) = given::record_of(record) else {
        return machine_kept(machine);
    };
    m.advance(x).into()
}

pub fn hiskurdo_machine_intent(
    machine: MachineNumbers,
    request: RequestNumbers,
    ended: u8,
    record: RecordNumbers,
) -> MachineAnswered
    ensures { result ≡
        called_by machine
        (λ m next.
        answered (intent_rule m (request_of request) next).machine (intent_result_told (intent_rule m (request_of request) next).answer))
        (turn_named machine ended «record») }
{
    match given::turn_of(machine, ended, record) {
        Some(turn) => turn.machine.intent(request.into(), turn.next).into(),
        None => machine_kept(machine),
    }
}

pub fn hiskurdo_machine_outcome(
    machine: MachineNumbers,
    ended: u8,
    record: RecordNumbers,
) -> MachineAnswered
    ensures { result ≡
        called_by machine
        (λ m next. answered (outcome_rule m next).machine (resolve_result_told (outcome_rule m next).answer))
        (turn_named machine ended «record») }
{
    match given::turn_of(machine, ended, record) {
        Some(turn) => turn.machine.outcome(turn.next).into(),
        None => machine_kept(machine),
    }
}

pub fn hiskurdo_machine_timer_intent(
    machine: MachineNumbers,
    spec: SpecNumbers,
    capability: u8,
    ended: u8,
    record: RecordNumbers,
) -> MachineAnswered
    ensures { result ≡
        requested_by machine
        (λ request.
        called_by machine
        (λ m next.
        answered (timer_intent_rule m request next).machine (timer_intent_result_told (timer_intent_rule m request next).answer))
        (turn_named machine ended «record»))
        (timer_request_named spec capability) }
{
    let Some(request) = given::timer_request_of(spec, capability) else {
        return machine_kept(machine);
    };
    let Some(turn) = given::turn_of(machine, ended, record) else {
        return machine_kept(machine);
    };
    turn.machine.timer_intent(request, turn.next).into()
}

pub fn hiskurdo_machine_timer_outcome(
    machine: MachineNumbers,
    ended: u8,
    record: RecordNumbers,
) -> MachineAnswered
    ensures { result ≡
        called_by machine
        (λ m next. answered (timer_outcome_rule m next).machine (timer_resolve_result_told (timer_outcome_rule m next).answer))
        (turn_named machine ended «record») }
{
    match given::turn_of(machine, ended, record) {
        Some(turn) => turn.machine.timer_outcome(turn.next).into(),
        None => machine_kept(machine),
    }
}

// Numbers to values.

impl From<RequestNumbers> for EffectRequest {
    ghost from_gives = { λ n request. request ≡ request_of n };

    fn from(n: RequestNumbers) -> EffectRequest {
        EffectRequest {
            kind: ActivityKind(n.kind),
            input_len: n.input_len,
            input_crc: n.input_crc,
        }
    }
}

impl From<PendingNumbers> for PendingEffect {
    ghost from_gives = { λ n pending. pending ≡ pending_from n };

    fn from(n: PendingNumbers) -> PendingEffect {
        PendingEffect {
            id: EffectId {
                run: RunId(n.run),
                seq: EffectSeq(n.seq),
            },
            kind: ActivityKind(n.kind),
            input_len: n.input_len,
            input_crc: n.input_crc,
        }
    }
}

// Values to numbers.

impl From<ReplayMachine> for MachineNumbers {
    ghost from_gives = { λ machine numbers. numbers ≡ machine_numbers machine };

    fn from(machine: ReplayMachine) -> MachineNumbers {
        phase_numbers(machine.cursor.into(), machine.phase)
    }
}

fn phase_numbers(cursor: CursorNumbers, phase: Phase) -> MachineNumbers
    ensures { result ≡ machine_numbers_for cursor phase }
{
    match phase {
        Phase::Settled => MachineNumbers {
            cursor,
            phase: 0,
            divergence: 0,
        },
        Phase::AwaitingOutcome => MachineNumbers {
            cursor,
            phase: 1,
            divergence: 0,
        },
        Phase::AwaitingFiring => MachineNumbers {
            cursor,
            phase: 2,
            divergence: 0,
        },
        Phase::Diverged(divergence) => MachineNumbers {
            cursor,
            phase: 3,
            divergence: divergence.number(),
        },
    }
}

impl<A: Tell> From<Answered<A>> for MachineAnswered {
    ghost from_gives = { λ done numbers. numbers ≡ answered done.machine (result_told A.tells done.answer) };

    fn from(done: Answered<A>) -> MachineAnswered {
        MachineAnswered {
            machine: done.machine.into(),
            answer: done.answer.told(),
        }
    }
}

// The machine's numbers as they were given, where one of those given names nothing.
fn machine_kept(machine: MachineNumbers) -> MachineAnswered
    ensures { result ≡ machine_kept machine }
{
    MachineAnswered {
        machine,
        answer: crate::names_nothing(),
    }
}
