// The last number, 4,294,967,295, spent by an allocator, an effect or a timer; "after it" is with no number left.
use crate::history::{self, LAST};
use crate::lines;
use clocks::ClockCapability;
use cursor::ReplayCursor;
use ids::{ClockKind, EffectIdAllocator};
use machine::{Next, ReplayMachine};
use std::io;

pub(crate) fn cursors(rt: &impl Print, cursor: ReplayCursor) -> io::Result<()> {
    lines::cursor_line(rt, "last number, cursor", cursor)?;
    let effect = lines::cursor_advance(
        rt,
        "last number, cursor, schedule",
        cursor,
        history::schedule(LAST),
    )?;
    lines::cursor_advance(
        rt,
        "last number, cursor, effect completed",
        effect,
        history::effect_completed(LAST),
    )?;
    let timer = lines::cursor_advance(
        rt,
        "last number, cursor, timer",
        cursor,
        history::timer(LAST, ClockKind::AFTER_BOOT),
    )?;
    lines::cursor_advance(
        rt,
        "last number, cursor, timer fired",
        timer,
        history::fired(LAST),
    )?;
    Ok(())
}

pub(crate) fn allocators(rt: &impl Print, ids: EffectIdAllocator) -> io::Result<()> {
    let spent = lines::allocate(rt, "last number, allocate", ids)?;
    lines::allocate(rt, "after it, allocate", spent)?;
    Ok(())
}

pub(crate) fn effects(rt: &impl Print, machine: ReplayMachine) -> io::Result<()> {
    let asked = history::effect_request();
    lines::call(
        rt,
        "last number, intent, end of history",
        machine.intent(asked, Next::EndOfHistory),
    )?;
    let recorded = lines::call(
        rt,
        "last number, intent, own schedule",
        machine.intent(asked, Next::Record(history::schedule(LAST))),
    )?;
    let open = lines::call(
        rt,
        "last number, outcome, end of history",
        recorded.outcome(Next::EndOfHistory),
    )?;
    lines::call(
        rt,
        "last number, delivered again, advance, effect completed",
        open.advance(history::effect_completed(LAST)),
    )?;
    lines::call(
        rt,
        "last number, outcome, effect failed",
        recorded.outcome(Next::Record(history::effect_failed(LAST))),
    )?;
    let closed = lines::call(
        rt,
        "last number, outcome, effect completed",
        recorded.outcome(Next::Record(history::effect_completed(LAST))),
    )?;
    lines::call(
        rt,
        "after it, intent, end of history",
        closed.intent(asked, Next::EndOfHistory),
    )?;
    Ok(())
}

pub(crate) fn timers(rt: &impl Print, machine: ReplayMachine) -> io::Result<()> {
    let asked = history::timer_request(ClockCapability::Persistent);
    let own = history::timer(LAST, ClockKind::AT_PERSISTENT_TIME);
    lines::call(
        rt,
        "last number, timer_intent, end of history",
        machine.timer_intent(asked, Next::EndOfHistory),
    )?;
    let recorded = lines::call(
        rt,
        "last number, timer_intent, own timer",
        machine.timer_intent(asked, Next::Record(own)),
    )?;
    let open = lines::call(
        rt,
        "last number, timer_outcome, end of history",
        recorded.timer_outcome(Next::EndOfHistory),
    )?;
    lines::call(
        rt,
        "last number, armed again, advance, timer fired",
        open.advance(history::fired(LAST)),
    )?;
    let closed = lines::call(
        rt,
        "last number, timer_outcome, timer fired",
        recorded.timer_outcome(Next::Record(history::fired(LAST))),
    )?;
    lines::call(
        rt,
        "after it, timer_intent, end of history",
        closed.timer_intent(asked, Next::EndOfHistory),
    )?;
    Ok(())
}
