// The columns of a row, each as a line: what a file says, or the verdict's answer; empty where a file does not say it.
//
// Owns: how a column is written. Must not own: what is read, what the answer is, how columns are put together.
ghost use Rattle.std.specs.Prelude.{cond, [], ◌≤◌, length};
ghost use Rattle.endings.specs.Endings.{ending_word, still_to_run};
ghost use Rattle.files.specs.Kinds.{entry_in};
ghost use Rattle.lines.specs.Line.{decimal, Holds};
ghost use Rattle.lines.specs.Columns.{run_column, state_column, step_column, steps_column, timer_text, gate_text, entry_text, what_column};
ghost use Rattle.lines.specs.Columns.{failed_column, board_word, board_column};

use crate::{Line, words};
use clocks::ClockCapability;
use endings::Ending;
use files::Entry;
use histories::Answer;

// A text alone.
fn text(bytes: &[u8]) -> Line
    requires { length bytes.now ≤ 128 }
    ensures { Holds result bytes.now }
{
    let mut line = Line::empty();
    line.write(bytes);
    line
}

// A number alone.
#[tactic(auto, using(crate::proofs::Decimal::twenty))]
fn bare(n: u64) -> Line
    ensures { Holds result (decimal n) }
{
    let mut line = Line::empty();
    line.number(n);
    line
}

// The run number.
#[tactic(auto, unfolding(crate::specs::Columns::run_column))]
pub fn run_of(journal: &[u8]) -> Line
    ensures { Holds result (run_column journal.now) }
{
    match files::reading::read_journal(journal) {
        Ok(head) => bare(head.run.0),
        Err(_) => text(b""),
    }
}

// The state, in one word.
#[tactic(auto, unfolding(crate::specs::Columns::state_column))]
pub fn state_of(answer: Answer) -> Line
    ensures { Holds result (state_column answer) }
{
    match answer {
        Ok(accepted) => ended(accepted.ending),
        Err(_) => text(b"refused"),
    }
}

fn ended(ending: Ending) -> Line
    ensures { Holds result (ending_word ending) }
{
    let mut line = Line::empty();
    line.word(ending);
    line
}

// The step that is to run.
#[tactic(auto, unfolding(crate::specs::Columns::step_column))]
pub fn step_of(answer: Answer) -> Line
    ensures { Holds result (step_column answer) }
{
    match answer {
        Ok(accepted) => stop_at(accepted.ending, accepted.stop),
        Err(_) => text(b""),
    }
}

fn stop_at(ending: Ending, stop: u64) -> Line
    ensures { Holds result (cond (still_to_run ending) (decimal stop) []) }
{
    if ending.still_to_run() {
        bare(stop)
    } else {
        text(b"")
    }
}

// The steps in the plan.
#[tactic(auto, unfolding(crate::specs::Columns::steps_column))]
pub fn steps_of(plan: &[u8]) -> Line
    ensures { Holds result (steps_column plan.now) }
{
    match files::reading::read_plan(plan) {
        Ok(head) => bare(head.count as u64),
        Err(_) => text(b""),
    }
}

// What the step is that is to run.
#[tactic(auto, unfolding(crate::specs::Columns::what_column))]
pub fn what_of(plan: &[u8], answer: Answer) -> Line
    ensures { Holds result (what_column plan.now answer) }
{
    match answer {
        Ok(accepted) => what_at(plan, accepted.ending, accepted.stop),
        Err(_) => text(b""),
    }
}

fn what_at(plan: &[u8], ending: Ending, stop: u64) -> Line
    ensures { Holds result (cond (still_to_run ending) (entry_text (entry_in plan.now stop)) []) }
{
    if ending.still_to_run() {
        what_is(files::kinds::entry_of(plan, stop))
    } else {
        text(b"")
    }
}

// What an entry of a plan is.
// Its kind stays a number: `entry_text` takes the byte that the file has.
fn what_is(e: Entry) -> Line
    ensures { Holds result (entry_text e) }
{
    match e.kind {
        2 => words::fill(b"effect #", e.a as u64),
        5 => timer(e),
        9 => gate(e),
        _ => text(b""),
    }
}

fn timer(e: Entry) -> Line
    ensures { Holds result (timer_text e) }
{
    if e.clock == 1 {
        words::fill(b"timer boot #", e.d)
    } else {
        words::fill(b"timer persistent #", e.d)
    }
}

fn gate(e: Entry) -> Line
    ensures { Holds result (gate_text e) }
{
    let mut line = words::fill(b"gate #", e.a as u64);
    line.write(b" version ");
    line.number(e.d);
    line
}

// The failed steps.
#[tactic(auto, unfolding(crate::specs::Columns::failed_column))]
pub fn failed_of(answer: Answer) -> Line
    ensures { Holds result (failed_column answer) }
{
    match answer {
        Ok(accepted) => bare(accepted.failed),
        Err(_) => text(b""),
    }
}

// The board.
#[tactic(auto, unfolding(crate::specs::Columns::board_column))]
pub fn board_of(plan: &[u8]) -> Line
    ensures { Holds result (board_column plan.now) }
{
    match files::reading::read_plan(plan) {
        Ok(head) => board(head.capability),
        Err(_) => text(b""),
    }
}

fn board(capability: ClockCapability) -> Line
    ensures { Holds result (board_word capability) }
{
    match capability {
        ClockCapability::BootOnly => text(b"boot-only"),
        ClockCapability::Persistent => text(b"persistent"),
    }
}
