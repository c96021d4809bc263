// The machine for C and Rust.
ghost use Rattle.std.specs.Prelude.{◌≡◌};
ghost use Rattle.cursor.specs.Readers.{run_of, position_of, pending_of, pending_timer_of, failed_of};
ghost use Rattle.answer_numbers.specs.CursorTold.{position_told, pending_effect_option_told, pending_timer_option_told};
ghost use Rattle.machine.specs.Phases as Phases;
ghost use Rattle.machine.specs.Divergences.{divergence_option_number, effect_divergence};
ghost use Rattle.machine.specs.Effects.{intent_rule, outcome_rule};
ghost use Rattle.machine.specs.Timers.{timer_intent_rule, timer_outcome_rule};
ghost use Rattle.answer_numbers.specs.MachineTold.{intent_result_told, resolve_result_told, timer_intent_result_told, timer_resolve_result_told};
ghost use Rattle.errors.specs.Told.{told1};
ghost use Rattle.core_exports.specs.Given.{record_named, machine_named, turn_named, timer_request_named};
ghost use Rattle.core_exports.specs.MachineNumbers.{request_of, pending_from, machine_numbers};
ghost use Rattle.core_exports.specs.MachineNumbers.{answered, of_machine, machine_advanced_by, called_by, requested_by};

use core_exports::machines::{MachineAnswered, MachineNumbers, PendingNumbers, RequestNumbers};
use core_exports::{RecordNumbers, SpecNumbers, machines};
use errors::Told;

#[unsafe(no_mangle)]
pub extern "C" fn hiskurdo_divergence_from(
    request: RequestNumbers,
    recorded: PendingNumbers,
    run: u64,
    seq: u32,
) -> u8
    ensures { result ≡
        divergence_option_number
        (effect_divergence (request_of request) (pending_from recorded) (record { run = record { 0 = run }; seq = record { 0 = seq } })) }
{
    machines::hiskurdo_divergence_from(request, recorded, run, seq)
}

#[unsafe(no_mangle)]
pub extern "C" fn hiskurdo_machine_new(run: u64) -> MachineNumbers
    ensures { result ≡ machine_numbers (Phases.fresh_machine (record { 0 = run })) }
{
    machines::hiskurdo_machine_new(run)
}

#[unsafe(no_mangle)]
pub extern "C" fn hiskurdo_machine_run(machine: MachineNumbers) -> Told
    ensures { result ≡ of_machine (λ m. told1 0 (run_of m.cursor).0) (machine_named machine) }
{
    machines::hiskurdo_machine_run(machine)
}

#[unsafe(no_mangle)]
pub extern "C" fn hiskurdo_machine_position(machine: MachineNumbers) -> Told
    ensures { result ≡ of_machine (λ m. position_told (position_of m.cursor)) (machine_named machine) }
{
    machines::hiskurdo_machine_position(machine)
}

#[unsafe(no_mangle)]
pub extern "C" fn hiskurdo_machine_pending(machine: MachineNumbers) -> Told
    ensures { result ≡
        of_machine (λ m. pending_effect_option_told (pending_of m.cursor)) (machine_named machine) }
{
    machines::hiskurdo_machine_pending(machine)
}

#[unsafe(no_mangle)]
pub extern "C" fn hiskurdo_machine_pending_timer(machine: MachineNumbers) -> Told
    ensures { result ≡
        of_machine (λ m. pending_timer_option_told (pending_timer_of m.cursor)) (machine_named machine) }
{
    machines::hiskurdo_machine_pending_timer(machine)
}

#[unsafe(no_mangle)]
pub extern "C" fn hiskurdo_machine_failed(machine: MachineNumbers) -> Told
    ensures { result ≡ of_machine (λ m. told1 0 (failed_of m.cursor)) (machine_named machine) }
{
    machines::hiskurdo_machine_failed(machine)
}

#[unsafe(no_mangle)]
pub extern "C" fn hiskurdo_machine_diverged(machine: MachineNumbers) -> Told
    ensures { result ≡ of_machine (λ m. told1 0 (divergence_option_number (Phases.diverged_in m.phase))) (machine_named machine) }
{
    machines::hiskurdo_machine_diverged(machine)
}

#[unsafe(no_mangle)]
pub extern "C" fn hiskurdo_machine_advance(
    machine: MachineNumbers,
    record: RecordNumbers,
) -> MachineAnswered
    ensures { result ≡ machine_advanced_by machine (machine_named machine) (record_named «record») }
{
    machines::hiskurdo_machine_advance(machine, record)
}

#[unsafe(no_mangle)]
pub extern "C" fn hiskurdo_machine_intent(
    machine: MachineNumbers,
    request: RequestNumbers,
    ended: u8,
    record: RecordNumbers,
) -> MachineAnswered
    ensures { result ≡
        called_by machine
        (λ m next.
        answered (intent_rule m (request_of request) next).machine (intent_result_told (intent_rule m (request_of request) next).answer))
        (turn_named machine ended «record») }
{
    machines::hiskurdo_machine_intent(machine, request, ended, record)
}

#[unsafe(no_mangle)]
pub extern "C" fn hiskurdo_machine_outcome(
    machine: MachineNumbers,
    ended: u8,
    record: RecordNumbers,
) -> MachineAnswered
    ensures { result ≡
        called_by machine
        (λ m next. answered (outcome_rule m next).machine (resolve_result_told (outcome_rule m next).answer))
        (turn_named machine ended «record») }
{
    machines::hiskurdo_machine_outcome(machine, ended, record)
}

#[unsafe(no_mangle)]
pub extern "C" fn hiskurdo_machine_timer_intent(
    machine: MachineNumbers,
    spec: SpecNumbers,
    capability: u8,
    ended: u8,
    record: RecordNumbers,
) -> MachineAnswered
    ensures { result ≡
        requested_by machine
        (λ request.
        called_by machine
        (λ m next.
        answered (timer_intent_rule m request next).machine (timer_intent_result_told (timer_intent_rule m request next).answer))
        (turn_named machine ended «record»))
        (timer_request_named spec capability) }
{
    machines::hiskurdo_machine_timer_intent(machine, spec, capability, ended, record)
}

#[unsafe(no_mangle)]
pub extern "C" fn hiskurdo_machine_timer_outcome(
    machine: MachineNumbers,
    ended: u8,
    record: RecordNumbers,
) -> MachineAnswered
    ensures { result ≡
        called_by machine
        (λ m next. answered (timer_outcome_rule m next).machine (timer_resolve_result_told (timer_outcome_rule m next).answer))
        (turn_named machine ended «record») }
{
    machines::hiskurdo_machine_timer_outcome(machine, ended, record)
}
