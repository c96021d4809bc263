// The proved code for C and Rust: every value as plain numbers, every call with its contract.
//
// Owns: the numbers of values that cross the boundary. Must not own: a rule; each export calls the crate that has it.
// Defends: a number that names nothing is refused with 60, and what was given is given back; it is never taken for another.
// compare/src/ffi.rs declares these functions for Rust.
// C passes structs of numbers, with a flag beside a number that may be absent, and calls each function by a name of its own.
#![tactic(auto)]

ghost use Rattle.std.specs.Prelude.{◌≡◌, cond};
ghost use Rattle.errors.specs.Told.{told1};
ghost use Rattle.ids.specs.Ids.{run_successor, seq_successor};
ghost use Rattle.ids.specs.Allocator as Allocator;
ghost use Rattle.ids.specs.Told.{run_option_told, seq_option_told, effect_id_result_told};
ghost use Rattle.clocks.specs.Specs.{spec_clock, spec_deadline, rearmed_at, recorded_spec, capability_of};
ghost use Rattle.clocks.specs.Timers.{admission, armed, evaluation};
ghost use Rattle.clocks.specs.Told.{timer_spec_option_told, admits_result_told, timer_result_told, deadline_result_told};
ghost use Rattle.records.specs.Records.{kind_number};
ghost use Rattle.cursor.specs.declared.State.TheVariants as State;
ghost use Rattle.cursor.specs.Readers.{fresh_cursor, run_of, position_of, terminal_at, pending_of, pending_timer_of};
ghost use Rattle.cursor.specs.Readers.{failed_of, next_seq_of, next_effect_id_of};
ghost use Rattle.answer_numbers.specs.CursorTold.{position_told, pending_effect_option_told, pending_timer_option_told};
ghost use Rattle.core_exports.specs.Given.{offer_named, ids_named, spec_named, record_named, cursor_named};
ghost use Rattle.core_exports.specs.Numbers.{unnamed, of_ids, of_spec, of_board, of_record, of_cursor, ids_kept, cursor_kept};
ghost use Rattle.core_exports.specs.Numbers.{ids_numbers, allocated_numbers, allocated_by, resumed_by, bare};
ghost use Rattle.core_exports.specs.Numbers.{cursor_numbers_for, cursor_numbers, advanced_numbers, cursor_advanced_by};

use answer_numbers::Tell;
use clocks::{ClockCapability, Timer, TimerSpec};
use cursor::{Advanced, OpenTimer, ReplayCursor, Scheduled, State};
use errors::Told;
use ids::{Allocated, ClockKind, EffectIdAllocator, EffectSeq, RunId};

mod given;
pub mod machines;

// The number of this boundary's own refusal: a number here names nothing.
const NAMES_NOTHING: u64 = 60;

// An allocator: `offers` is 1 where `next` is offered, else 0.
#[repr(C)]
#[derive(Clone, Copy)]
pub struct IdsNumbers {
    pub run: u64,
    pub next: u32,
    pub offers: u8,
}

#[repr(C)]
#[derive(Clone, Copy)]
pub struct AllocatedNumbers {
    pub ids: IdsNumbers,
    pub answer: Told,
}

// A timer's spec.
#[repr(C)]
#[derive(Clone, Copy)]
pub struct SpecNumbers {
    pub deadline: u64,
    pub clock: u8,
}

// A record by the fields of a journal entry, and where its body starts.
#[repr(C)]
#[derive(Clone, Copy)]
pub struct RecordNumbers {
    pub kind: u8,
    pub clock: u8,
    pub a: u16,
    pub s: u32,
    pub d: u64,
    pub m: u64,
    pub start: u64,
}

// A cursor: `position` is its place among the positions; a field that the position does not hold is 0. Any `failed` is a count.
#[repr(C)]
#[derive(Clone, Copy)]
pub struct CursorNumbers {
    pub ids: IdsNumbers,
    pub failed: u64,
    pub deadline: u64,
    pub armed_at: u64,
    pub seq: u32,
    pub input_crc: u32,
    pub kind: u16,
    pub input_len: u16,
    pub position: u8,
    pub clock_kind: u8,
    pub error: u8,
}

#[repr(C)]
#[derive(Clone, Copy)]
pub struct AdvancedNumbers {
    pub cursor: CursorNumbers,
    pub answer: Told,
}

// Identities.

pub fn hiskurdo_run_successor(run: u64) -> Told
    ensures { result ≡ run_option_told (run_successor (record { 0 = run })) }
{
    RunId(run).successor().told()
}

pub fn hiskurdo_seq_successor(seq: u32) -> Told
    ensures { result ≡ seq_option_told (seq_successor (record { 0 = seq })) }
{
    EffectSeq(seq).successor().told()
}

pub fn hiskurdo_ids_for_run(run: u64) -> IdsNumbers
    ensures { result ≡ ids_numbers (Allocator.fresh_ids (record { 0 = run })) }
{
    EffectIdAllocator::for_run(RunId(run)).into()
}

// `committed` 0: nothing was committed; 1: `last` was.
pub fn hiskurdo_ids_resume(run: u64, committed: u8, last: u32) -> AllocatedNumbers
    ensures { result ≡ resumed_by (record { run = run; next = last; offers = committed }) (offer_named committed last) }
{
    match given::offer_of(committed, last) {
        Some(ended) => AllocatedNumbers {
            ids: EffectIdAllocator::resume(RunId(run), ended).into(),
            answer: value(0),
        },
        None => ids_kept(IdsNumbers {
            run,
            next: last,
            offers: committed,
        }),
    }
}

pub fn hiskurdo_ids_run(ids: IdsNumbers) -> Told
    ensures { result ≡ of_ids (λ a. told1 0 a.run.0) (ids_named ids) }
{
    given::ids_of(ids).map_or(names_nothing(), |a| value(a.run().0))
}

pub fn hiskurdo_ids_peek(ids: IdsNumbers) -> Told
    ensures { result ≡ of_ids (λ a. seq_option_told a.next) (ids_named ids) }
{
    given::ids_of(ids).map_or(names_nothing(), |a| a.peek().told())
}

pub fn hiskurdo_ids_allocate(ids: IdsNumbers) -> AllocatedNumbers
    ensures { result ≡ allocated_by ids (ids_named ids) }
{
    match given::ids_of(ids) {
        Some(a) => a.allocate().into(),
        None => ids_kept(ids),
    }
}

// Clocks and timers.

pub fn hiskurdo_spec_clock_kind(spec: SpecNumbers) -> Told
    ensures { result ≡ of_spec (λ s. told1 0 (spec_clock s).0) (spec_named spec) }
{
    given::spec_of(spec).map_or(names_nothing(), |s| value(s.clock_kind().0 as u64))
}

pub fn hiskurdo_spec_deadline(spec: SpecNumbers) -> Told
    ensures { result ≡ of_spec (λ s. told1 0 (spec_deadline s)) (spec_named spec) }
{
    given::spec_of(spec).map_or(names_nothing(), |s| value(s.deadline()))
}

pub fn hiskurdo_spec_rearmed_at(spec: SpecNumbers, recorded: u64, now: u64) -> Told
    ensures { result ≡ of_spec (λ s. told1 0 (rearmed_at s recorded now)) (spec_named spec) }
{
    given::spec_of(spec).map_or(names_nothing(), |s| value(s.rearmed_at(recorded, now)))
}

// A recorded clock is data: any may stand in a journal, and one that names no clock has no spec, which is an answer.
pub fn hiskurdo_spec_recorded(clock: u8, deadline: u64) -> Told
    ensures { result ≡ timer_spec_option_told (recorded_spec (record { 0 = clock }) deadline) }
{
    TimerSpec::recorded(ClockKind(clock), deadline).told()
}

pub fn hiskurdo_admits(capability: u8, spec: SpecNumbers) -> Told
    ensures { result ≡ of_board (λ b. of_spec (λ s. admits_result_told (admission b s)) (spec_named spec)) (capability_of capability) }
{
    let Some(board) = ClockCapability::of(capability as u64) else {
        return names_nothing();
    };
    let Some(s) = given::spec_of(spec) else {
        return names_nothing();
    };
    board.admits(s).told()
}

pub fn hiskurdo_timer_arm(spec: SpecNumbers, capability: u8, now: u64) -> Told
    ensures { result ≡ of_board (λ b. of_spec (λ s. timer_result_told (armed s b now)) (spec_named spec)) (capability_of capability) }
{
    let Some(board) = ClockCapability::of(capability as u64) else {
        return names_nothing();
    };
    let Some(s) = given::spec_of(spec) else {
        return names_nothing();
    };
    Timer::arm(s, board, now).told()
}

pub fn hiskurdo_timer_evaluate(spec: SpecNumbers, armed_at: u64, reading: u64) -> Told
    ensures { result ≡
        of_spec (λ s. deadline_result_told (evaluation (record { spec = s; armed_at = armed_at }) reading)) (spec_named spec) }
{
    given::spec_of(spec).map_or(names_nothing(), |s| {
        let timer = Timer { spec: s, armed_at };
        timer.evaluate(reading).told()
    })
}

// Records and the cursor.

pub fn hiskurdo_record_kind(record: RecordNumbers) -> Told
    ensures { result ≡ of_record (λ x. told1 0 (kind_number x)) (record_named «record») }
{
    given::record_of(record).map_or(names_nothing(), |x| value(x.kind().0 as u64))
}

pub fn hiskurdo_cursor_new(run: u64) -> CursorNumbers
    ensures { result ≡ cursor_numbers (fresh_cursor (record { 0 = run })) }
{
    ReplayCursor::new(RunId(run)).into()
}

pub fn hiskurdo_cursor_run(cursor: CursorNumbers) -> Told
    ensures { result ≡ of_cursor (λ c. told1 0 (run_of c).0) (cursor_named cursor) }
{
    given::cursor_of(cursor).map_or(names_nothing(), |c| value(c.run().0))
}

pub fn hiskurdo_cursor_position(cursor: CursorNumbers) -> Told
    ensures { result ≡ of_cursor (λ c. position_told (position_of c)) (cursor_named cursor) }
{
    given::cursor_of(cursor).map_or(names_nothing(), |c| c.position().told())
}

pub fn hiskurdo_cursor_is_terminal(cursor: CursorNumbers) -> Told
    ensures { result ≡ of_cursor (λ c. told1 0 (cond (terminal_at (position_of c)) 1 0)) (cursor_named cursor) }
{
    given::cursor_of(cursor).map_or(names_nothing(), |c| value(flag(c.position().is_terminal())))
}

pub fn hiskurdo_cursor_pending(cursor: CursorNumbers) -> Told
    ensures { result ≡ of_cursor (λ c. pending_effect_option_told (pending_of c)) (cursor_named cursor) }
{
    given::cursor_of(cursor).map_or(names_nothing(), |c| c.pending().told())
}

pub fn hiskurdo_cursor_pending_timer(cursor: CursorNumbers) -> Told
    ensures { result ≡ of_cursor (λ c. pending_timer_option_told (pending_timer_of c)) (cursor_named cursor) }
{
    given::cursor_of(cursor).map_or(names_nothing(), |c| c.pending_timer().told())
}

pub fn hiskurdo_cursor_failed(cursor: CursorNumbers) -> Told
    ensures { result ≡ of_cursor (λ c. told1 0 (failed_of c)) (cursor_named cursor) }
{
    given::cursor_of(cursor).map_or(names_nothing(), |c| value(c.failed()))
}

pub fn hiskurdo_cursor_next_seq(cursor: CursorNumbers) -> Told
    ensures { result ≡ of_cursor (λ c. seq_option_told (next_seq_of c)) (cursor_named cursor) }
{
    given::cursor_of(cursor).map_or(names_nothing(), |c| c.next_seq().told())
}

pub fn hiskurdo_cursor_next_effect_id(cursor: CursorNumbers) -> Told
    ensures { result ≡ of_cursor (λ c. effect_id_result_told (next_effect_id_of c)) (cursor_named cursor) }
{
    given::cursor_of(cursor).map_or(names_nothing(), |c| c.next_effect_id().told())
}

pub fn hiskurdo_cursor_advance(cursor: CursorNumbers, record: RecordNumbers) -> AdvancedNumbers
    ensures { result ≡ cursor_advanced_by cursor (cursor_named cursor) (record_named «record») }
{
    let Some(c) = given::cursor_of(cursor) else {
        return cursor_kept(cursor);
    };
    let Some(x) = given::record_of(record) else {
        return cursor_kept(cursor);
    };
    c.advance(x).into()
}

// Values to numbers.

// A value that is one number.
fn value(n: u64) -> Told
    ensures { result ≡ told1 0 n }
{
    Told::new(0, n, 0, 0, 0, 0)
}

// What is answered where a given number names nothing.
fn names_nothing() -> Told
    ensures { result ≡ unnamed }
{
    Told::new(NAMES_NOTHING, 0, 0, 0, 0, 0)
}

// The numbers as they were given, where one of them names nothing.
fn ids_kept(ids: IdsNumbers) -> AllocatedNumbers
    ensures { result ≡ ids_kept ids }
{
    AllocatedNumbers {
        ids,
        answer: names_nothing(),
    }
}

fn cursor_kept(cursor: CursorNumbers) -> AdvancedNumbers
    ensures { result ≡ cursor_kept cursor }
{
    AdvancedNumbers {
        cursor,
        answer: names_nothing(),
    }
}

// Yes is 1, no is 0.
fn flag(yes: bool) -> u64
    ensures { result ≡ cond yes 1 0 }
{
    u64::from(yes)
}

impl From<EffectIdAllocator> for IdsNumbers {
    ghost from_gives = { λ ids numbers. numbers ≡ ids_numbers ids };

    fn from(ids: EffectIdAllocator) -> IdsNumbers {
        let run = ids.run.0;
        match ids.next {
            Some(seq) => IdsNumbers {
                run,
                next: seq.0,
                offers: 1,
            },
            None => IdsNumbers {
                run,
                next: 0,
                offers: 0,
            },
        }
    }
}

impl From<Allocated> for AllocatedNumbers {
    ghost from_gives = { λ a numbers. numbers ≡ allocated_numbers a };

    fn from(a: Allocated) -> AllocatedNumbers {
        AllocatedNumbers {
            ids: a.ids.into(),
            answer: a.answer.told(),
        }
    }
}

fn bare_numbers(ids: IdsNumbers, failed: u64, position: u8, error: u8) -> CursorNumbers
    ensures { result ≡ bare ids failed position «error» }
{
    CursorNumbers {
        ids,
        failed,
        deadline: 0,
        armed_at: 0,
        seq: 0,
        input_crc: 0,
        kind: 0,
        input_len: 0,
        position,
        clock_kind: 0,
        error,
    }
}

fn scheduled_numbers(ids: IdsNumbers, failed: u64, scheduled: Scheduled) -> CursorNumbers
    ensures { result ≡ cursor_numbers_for ids failed (State.AwaitingOutcome scheduled) }
{
    CursorNumbers {
        seq: scheduled.seq.0,
        input_crc: scheduled.input_crc,
        kind: scheduled.kind.0,
        input_len: scheduled.input_len,
        ..bare_numbers(ids, failed, 2, 0)
    }
}

fn armed_numbers(ids: IdsNumbers, failed: u64, armed: OpenTimer) -> CursorNumbers
    ensures { result ≡ cursor_numbers_for ids failed (State.AwaitingTimer armed) }
{
    CursorNumbers {
        deadline: armed.deadline,
        armed_at: armed.armed_at,
        seq: armed.seq.0,
        clock_kind: armed.clock_kind.0,
        ..bare_numbers(ids, failed, 3, 0)
    }
}

fn state_numbers(ids: IdsNumbers, failed: u64, state: State) -> CursorNumbers
    ensures { result ≡ cursor_numbers_for ids failed state }
{
    match state {
        State::BeforeRun => bare_numbers(ids, failed, 0, 0),
        State::Replaying => bare_numbers(ids, failed, 1, 0),
        State::AwaitingOutcome(scheduled) => scheduled_numbers(ids, failed, scheduled),
        State::AwaitingTimer(armed) => armed_numbers(ids, failed, armed),
        State::RunCompleted => bare_numbers(ids, failed, 4, 0),
        State::RunFailed => bare_numbers(ids, failed, 5, 0),
        State::Halted(error) => bare_numbers(ids, failed, 6, error.number()),
    }
}

impl From<ReplayCursor> for CursorNumbers {
    ghost from_gives = { λ cursor numbers. numbers ≡ cursor_numbers cursor };

    fn from(cursor: ReplayCursor) -> CursorNumbers {
        state_numbers(cursor.ids.into(), cursor.failed, cursor.state)
    }
}

impl From<Advanced> for AdvancedNumbers {
    ghost from_gives = { λ a numbers. numbers ≡ advanced_numbers a };

    fn from(a: Advanced) -> AdvancedNumbers {
        AdvancedNumbers {
            cursor: a.cursor.into(),
            answer: a.answer.told(),
        }
    }
}
