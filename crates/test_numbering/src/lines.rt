// How a line is written: a label, the answer in numbers, then the whole cursor or machine.
use answer_numbers::Tell;
use cursor::ReplayCursor;
use errors::Told;
use ids::EffectIdAllocator;
use machine::{Answered, Divergence, Phase, ReplayMachine};
use records::RecordRef;
use std::{fmt, io};

// Calls, each with the state that it leaves.

// A call of the machine.
pub(crate) fn call<A: Tell>(
    rt: &impl Print,
    label: &str,
    called: Answered<A>,
) -> io::Result<ReplayMachine> {
    let answer = called.answer.told();
    let after = called.machine;
    println!(rt;
        "{label}: answer {}, {}, phase {}, diverged {}",
        Numbers(answer),
        Shown(after.cursor),
        phase_number(after.phase),
        Divergence::number_of(after.diverged())
    )?;
    Ok(after)
}

pub(crate) fn cursor_advance(
    rt: &impl Print,
    label: &str,
    cursor: ReplayCursor,
    record: RecordRef,
) -> io::Result<ReplayCursor> {
    let advanced = cursor.advance(record);
    let next = advanced.cursor;
    println!(rt;
        "{label}: answer {}, {}, next_effect_id {}",
        Numbers(advanced.answer.told()),
        Shown(next),
        Numbers(next.next_effect_id().told())
    )?;
    Ok(next)
}

pub(crate) fn allocate(
    rt: &impl Print,
    label: &str,
    ids: EffectIdAllocator,
) -> io::Result<EffectIdAllocator> {
    let allocated = ids.allocate();
    let next = allocated.ids;
    println!(rt;
        "{label}: answer {}, peek {}",
        Numbers(allocated.answer.told()),
        Numbers(next.peek().told())
    )?;
    Ok(next)
}

pub(crate) fn cursor_line(rt: &impl Print, label: &str, cursor: ReplayCursor) -> io::Result<()> {
    println!(rt;
        "{label}: {}, next_effect_id {}",
        Shown(cursor),
        Numbers(cursor.next_effect_id().told())
    )
}

// The parts of a line.

// An answer's number and its five values.
#[derive(Clone, Copy)]
struct Numbers(Told);

impl fmt::Display for Numbers {
    fn fmt<W: fmt::Write>(&self, f: &mut fmt::Formatter<W>) -> fmt::Result {
        let told = self.0;
        write!(
            f,
            "{} {} {} {} {} {}",
            told.number, told.a, told.b, told.c, told.d, told.e
        )
    }
}

// A cursor by its readers.
#[derive(Clone, Copy)]
struct Shown(ReplayCursor);

impl fmt::Display for Shown {
    fn fmt<W: fmt::Write>(&self, f: &mut fmt::Formatter<W>) -> fmt::Result {
        let cursor = self.0;
        let position = cursor.position().told();
        write!(
            f,
            "position {} {}, pending {}, pending_timer {}, next_seq {}",
            position.number,
            position.a,
            Numbers(cursor.pending().told()),
            Numbers(cursor.pending_timer().told()),
            Numbers(cursor.next_seq().told())
        )
    }
}

fn phase_number(phase: Phase) -> u64 {
    match phase {
        Phase::Settled => 0,
        Phase::AwaitingOutcome => 1,
        Phase::AwaitingFiring => 2,
        Phase::Diverged(_) => 3,
    }
}
