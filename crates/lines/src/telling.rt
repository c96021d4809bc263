// What `words_of` asks for beside the answer: the kind of the one entry that tells apart the words, and the number that they show.
ghost use Rattle.std.specs.Prelude.{◌≡◌};
ghost use Rattle.lines.specs.Telling.{entry_before, ending_kind, refused_kind, ending_shown, step_next, refused_shown, telling_of};

use crate::words::Telling;
use endings::Ending;
use files::Entry;
use histories::{Accepted, Answer};

// The record before a place; before the first there is none.
fn entry_before(journal: &[u8], place: u64) -> Entry
    ensures { result ≡ entry_before journal.now place }
{
    if place == 0 {
        files::kinds::no_entry()
    } else {
        files::kinds::entry_of(journal, place - 1)
    }
}

// The kind of the step at the stop, or of the record that ended the run.
fn ending_kind(journal: &[u8], plan: &[u8], at: Accepted) -> u8
    ensures { result ≡ ending_kind journal.now plan.now at.ending at.stop at.records }
{
    match at.ending {
        Ending::Unstarted | Ending::Done => 0,
        Ending::Due | Ending::Open => files::kinds::kind_of(plan, at.stop),
        Ending::Finished => entry_before(journal, at.records).kind,
    }
}

// The kind of the record before one that cannot follow it, or of one beyond the plan.
fn refused_kind(journal: &[u8], number: u64, place: u64) -> u8
    ensures { result ≡ refused_kind journal.now number place }
{
    match number {
        24 => entry_before(journal, place).kind,
        31 => files::kinds::kind_of(journal, place),
        _ => 0,
    }
}

// The number that an ending shows: the stop, or the gate where one is due.
fn ending_shown(plan: &[u8], ending: Ending, stop: u64) -> u64
    ensures { result ≡ ending_shown plan.now ending stop }
{
    match ending {
        Ending::Due => {
            let step = files::kinds::entry_of(plan, stop);
            if step.kind == 9 { step.a as u64 } else { stop }
        }
        Ending::Unstarted | Ending::Done | Ending::Open | Ending::Finished => stop,
    }
}

// The step that comes after a record: the start, or one that closes a step.
fn step_next(e: Entry) -> u64
    ensures { result ≡ step_next e }
{
    if e.kind == 1 { 0 } else { (e.s as u64) + 1 }
}

// The number that a refusal shows: the place, or for 45 the step at which the run was completed.
fn refused_shown(journal: &[u8], number: u64, place: u64) -> u64
    ensures { result ≡ refused_shown journal.now number place }
{
    if number == 45 {
        step_next(entry_before(journal, place))
    } else {
        place
    }
}

// What `words_of` asks for beside the answer.
pub fn telling(journal: &[u8], plan: &[u8], answer: Answer) -> Telling
    ensures { result ≡ telling_of journal.now plan.now answer }
{
    match answer {
        Ok(accepted) => Telling {
            kind: ending_kind(journal, plan, accepted),
            number: ending_shown(plan, accepted.ending, accepted.stop),
        },
        Err(refused) => Telling {
            kind: refused_kind(journal, refused.number, refused.place),
            number: refused_shown(journal, refused.number, refused.place),
        },
    }
}
