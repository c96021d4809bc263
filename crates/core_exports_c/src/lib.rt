// What C and Rust link of the replay core: each call of the crate core_exports under its own name, with its contract.
//
// Owns: the exported names. Must not own: anything else; each export is one call of the crate core_exports.
// Defends: a number that names nothing is refused with 60, and what was given is given back; it is never taken for another.
// compare/src/ffi.rs declares these functions for Rust.
#![tactic(auto)]

pub mod machines;

ghost use Rattle.std.specs.Prelude.{◌≡◌, cond};
ghost use Rattle.errors.specs.Told.{told1};
ghost use Rattle.ids.specs.Ids.{run_successor, seq_successor};
ghost use Rattle.ids.specs.Allocator as Allocator;
ghost use Rattle.ids.specs.Told.{run_option_told, seq_option_told, effect_id_result_told};
ghost use Rattle.clocks.specs.Specs.{spec_clock, spec_deadline, rearmed_at, recorded_spec, capability_of};
ghost use Rattle.clocks.specs.Timers.{admission, armed, evaluation};
ghost use Rattle.clocks.specs.Told.{timer_spec_option_told, admits_result_told, timer_result_told, deadline_result_told};
ghost use Rattle.records.specs.Records.{kind_number};
ghost use Rattle.cursor.specs.Readers.{fresh_cursor, run_of, position_of, terminal_at, pending_of, pending_timer_of};
ghost use Rattle.cursor.specs.Readers.{failed_of, next_seq_of, next_effect_id_of};
ghost use Rattle.answer_numbers.specs.CursorTold.{position_told, pending_effect_option_told, pending_timer_option_told};
ghost use Rattle.core_exports.specs.Given.{offer_named, ids_named, spec_named, record_named, cursor_named};
ghost use Rattle.core_exports.specs.Numbers.{of_ids, of_spec, of_board, of_record, of_cursor};
ghost use Rattle.core_exports.specs.Numbers.{ids_numbers, allocated_by, resumed_by};
ghost use Rattle.core_exports.specs.Numbers.{cursor_numbers, cursor_advanced_by};

use core_exports::{
    AdvancedNumbers, AllocatedNumbers, CursorNumbers, IdsNumbers, RecordNumbers, SpecNumbers,
};
use errors::Told;

#[unsafe(no_mangle)]
pub extern "C" fn hiskurdo_run_successor(run: u64) -> Told
    ensures { result ≡ run_option_told (run_successor (record { 0 = run })) }
{
    core_exports::hiskurdo_run_successor(run)
}

#[unsafe(no_mangle)]
pub extern "C" fn hiskurdo_seq_successor(seq: u32) -> Told
    ensures { result ≡ seq_option_told (seq_successor (record { 0 = seq })) }
{
    core_exports::hiskurdo_seq_successor(seq)
}

#[unsafe(no_mangle)]
pub extern "C" fn hiskurdo_ids_for_run(run: u64) -> IdsNumbers
    ensures { result ≡ ids_numbers (Allocator.fresh_ids (record { 0 = run })) }
{
    core_exports::hiskurdo_ids_for_run(run)
}

// `committed` 0: nothing was committed; 1: `last` was.
#[unsafe(no_mangle)]
pub extern "C" fn hiskurdo_ids_resume(run: u64, committed: u8, last: u32) -> AllocatedNumbers
    ensures { result ≡ resumed_by (record { run = run; next = last; offers = committed }) (offer_named committed last) }
{
    core_exports::hiskurdo_ids_resume(run, committed, last)
}

#[unsafe(no_mangle)]
pub extern "C" fn hiskurdo_ids_run(ids: IdsNumbers) -> Told
    ensures { result ≡ of_ids (λ a. told1 0 a.run.0) (ids_named ids) }
{
    core_exports::hiskurdo_ids_run(ids)
}

#[unsafe(no_mangle)]
pub extern "C" fn hiskurdo_ids_peek(ids: IdsNumbers) -> Told
    ensures { result ≡ of_ids (λ a. seq_option_told a.next) (ids_named ids) }
{
    core_exports::hiskurdo_ids_peek(ids)
}

#[unsafe(no_mangle)]
pub extern "C" fn hiskurdo_ids_allocate(ids: IdsNumbers) -> AllocatedNumbers
    ensures { result ≡ allocated_by ids (ids_named ids) }
{
    core_exports::hiskurdo_ids_allocate(ids)
}

#[unsafe(no_mangle)]
pub extern "C" fn hiskurdo_spec_clock_kind(spec: SpecNumbers) -> Told
    ensures { result ≡ of_spec (λ s. told1 0 (spec_clock s).0) (spec_named spec) }
{
    core_exports::hiskurdo_spec_clock_kind(spec)
}

#[unsafe(no_mangle)]
pub extern "C" fn hiskurdo_spec_deadline(spec: SpecNumbers) -> Told
    ensures { result ≡ of_spec (λ s. told1 0 (spec_deadline s)) (spec_named spec) }
{
    core_exports::hiskurdo_spec_deadline(spec)
}

#[unsafe(no_mangle)]
pub extern "C" fn hiskurdo_spec_rearmed_at(spec: SpecNumbers, recorded: u64, now: u64) -> Told
    ensures { result ≡ of_spec (λ s. told1 0 (rearmed_at s recorded now)) (spec_named spec) }
{
    core_exports::hiskurdo_spec_rearmed_at(spec, recorded, now)
}

// A recorded clock is data: any may stand in a journal, and one that names no clock has no spec, which is an answer.
#[unsafe(no_mangle)]
pub extern "C" fn hiskurdo_spec_recorded(clock: u8, deadline: u64) -> Told
    ensures { result ≡ timer_spec_option_told (recorded_spec (record { 0 = clock }) deadline) }
{
    core_exports::hiskurdo_spec_recorded(clock, deadline)
}

#[unsafe(no_mangle)]
pub extern "C" fn hiskurdo_admits(capability: u8, spec: SpecNumbers) -> Told
    ensures { result ≡ of_board (λ b. of_spec (λ s. admits_result_told (admission b s)) (spec_named spec)) (capability_of capability) }
{
    core_exports::hiskurdo_admits(capability, spec)
}

#[unsafe(no_mangle)]
pub extern "C" fn hiskurdo_timer_arm(spec: SpecNumbers, capability: u8, now: u64) -> Told
    ensures { result ≡ of_board (λ b. of_spec (λ s. timer_result_told (armed s b now)) (spec_named spec)) (capability_of capability) }
{
    core_exports::hiskurdo_timer_arm(spec, capability, now)
}

#[unsafe(no_mangle)]
pub extern "C" fn hiskurdo_timer_evaluate(spec: SpecNumbers, armed_at: u64, reading: u64) -> Told
    ensures { result ≡
        of_spec (λ s. deadline_result_told (evaluation (record { spec = s; armed_at = armed_at }) reading)) (spec_named spec) }
{
    core_exports::hiskurdo_timer_evaluate(spec, armed_at, reading)
}

#[unsafe(no_mangle)]
pub extern "C" fn hiskurdo_record_kind(record: RecordNumbers) -> Told
    ensures { result ≡ of_record (λ x. told1 0 (kind_number x)) (record_named «record») }
{
    core_exports::hiskurdo_record_kind(record)
}

#[unsafe(no_mangle)]
pub extern "C" fn hiskurdo_cursor_new(run: u64) -> CursorNumbers
    ensures { result ≡ cursor_numbers (fresh_cursor (record { 0 = run })) }
{
    core_exports::hiskurdo_cursor_new(run)
}

#[unsafe(no_mangle)]
pub extern "C" fn hiskurdo_cursor_run(cursor: CursorNumbers) -> Told
    ensures { result ≡ of_cursor (λ c. told1 0 (run_of c).0) (cursor_named cursor) }
{
    core_exports::hiskurdo_cursor_run(cursor)
}

#[unsafe(no_mangle)]
pub extern "C" fn hiskurdo_cursor_position(cursor: CursorNumbers) -> Told
    ensures { result ≡ of_cursor (λ c. position_told (position_of c)) (cursor_named cursor) }
{
    core_exports::hiskurdo_cursor_position(cursor)
}

#[unsafe(no_mangle)]
pub extern "C" fn hiskurdo_cursor_is_terminal(cursor: CursorNumbers) -> Told
    ensures { result ≡ of_cursor (λ c. told1 0 (cond (terminal_at (position_of c)) 1 0)) (cursor_named cursor) }
{
    core_exports::hiskurdo_cursor_is_terminal(cursor)
}

#[unsafe(no_mangle)]
pub extern "C" fn hiskurdo_cursor_pending(cursor: CursorNumbers) -> Told
    ensures { result ≡ of_cursor (λ c. pending_effect_option_told (pending_of c)) (cursor_named cursor) }
{
    core_exports::hiskurdo_cursor_pending(cursor)
}

#[unsafe(no_mangle)]
pub extern "C" fn hiskurdo_cursor_pending_timer(cursor: CursorNumbers) -> Told
    ensures { result ≡ of_cursor (λ c. pending_timer_option_told (pending_timer_of c)) (cursor_named cursor) }
{
    core_exports::hiskurdo_cursor_pending_timer(cursor)
}

#[unsafe(no_mangle)]
pub extern "C" fn hiskurdo_cursor_failed(cursor: CursorNumbers) -> Told
    ensures { result ≡ of_cursor (λ c. told1 0 (failed_of c)) (cursor_named cursor) }
{
    core_exports::hiskurdo_cursor_failed(cursor)
}

#[unsafe(no_mangle)]
pub extern "C" fn hiskurdo_cursor_next_seq(cursor: CursorNumbers) -> Told
    ensures { result ≡ of_cursor (λ c. seq_option_told (next_seq_of c)) (cursor_named cursor) }
{
    core_exports::hiskurdo_cursor_next_seq(cursor)
}

#[unsafe(no_mangle)]
pub extern "C" fn hiskurdo_cursor_next_effect_id(cursor: CursorNumbers) -> Told
    ensures { result ≡ of_cursor (λ c. effect_id_result_told (next_effect_id_of c)) (cursor_named cursor) }
{
    core_exports::hiskurdo_cursor_next_effect_id(cursor)
}

#[unsafe(no_mangle)]
pub extern "C" fn hiskurdo_cursor_advance(
    cursor: CursorNumbers,
    record: RecordNumbers,
) -> AdvancedNumbers
    ensures { result ≡ cursor_advanced_by cursor (cursor_named cursor) (record_named «record») }
{
    core_exports::hiskurdo_cursor_advance(cursor, record)
}
