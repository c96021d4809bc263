// What is said with no number left, once every one was spent on a marker.
use crate::history::{self, LAST};
use crate::lines;
use clocks::ClockCapability;
use cursor::ReplayCursor;
use ids::ClockKind;
use machine::{Next, ReplayMachine};
use std::io;

pub(crate) fn cursors(rt: &impl Print, cursor: ReplayCursor) -> io::Result<()> {
    lines::cursor_line(rt, "cursor", cursor)?;
    for (label, record) in [
        ("cursor, marker with the last number", history::marker(LAST)),
        ("cursor, marker with number 0", history::marker(0)),
        ("cursor, schedule", history::schedule(0)),
        ("cursor, timer", history::timer(0, ClockKind::AFTER_BOOT)),
        ("cursor, run completed", history::completed()),
        ("cursor, run failed", history::failed()),
    ] {
        lines::cursor_advance(rt, label, cursor, record)?;
    }
    Ok(())
}

// The machine's own `advance`.
pub(crate) fn machines(rt: &impl Print, machine: ReplayMachine) -> io::Result<()> {
    for (label, record) in [
        (
            "advance, marker with the last number",
            history::marker(LAST),
        ),
        ("advance, marker with number 0", history::marker(0)),
        (
            "advance, schedule with the last number",
            history::schedule(LAST),
        ),
        ("advance, schedule", history::schedule(0)),
        (
            "advance, timer with the last number",
            history::timer(LAST, ClockKind::AFTER_BOOT),
        ),
        ("advance, timer", history::timer(0, ClockKind::AFTER_BOOT)),
        ("advance, run completed", history::completed()),
        ("advance, run failed", history::failed()),
    ] {
        lines::call(rt, label, machine.advance(record))?;
    }
    Ok(())
}

pub(crate) fn effects(rt: &impl Print, machine: ReplayMachine) -> io::Result<()> {
    let asked = history::effect_request();
    lines::call(
        rt,
        "intent, end of history",
        machine.intent(asked, Next::EndOfHistory),
    )?;
    for (label, record) in [
        ("intent, own schedule", history::schedule(0)),
        (
            "intent, own schedule with the last number",
            history::schedule(LAST),
        ),
        ("intent, timer", history::timer(0, ClockKind::AFTER_BOOT)),
        ("intent, marker", history::marker(0)),
        ("intent, run completed", history::completed()),
        ("intent, run failed", history::failed()),
        ("intent, second start", history::start()),
    ] {
        lines::call(rt, label, machine.intent(asked, Next::Record(record)))?;
    }
    Ok(())
}

pub(crate) fn timers(rt: &impl Print, machine: ReplayMachine) -> io::Result<()> {
    let asked = history::timer_request(ClockCapability::Persistent);
    let on_boot_only = history::timer_request(ClockCapability::BootOnly);
    lines::call(
        rt,
        "timer_intent, end of history, no such clock",
        machine.timer_intent(on_boot_only, Next::EndOfHistory),
    )?;
    lines::call(
        rt,
        "timer_intent, end of history, admitted",
        machine.timer_intent(asked, Next::EndOfHistory),
    )?;
    for (label, record) in [
        (
            "timer_intent, own timer",
            history::timer(0, ClockKind::AT_PERSISTENT_TIME),
        ),
        (
            "timer_intent, own timer with the last number",
            history::timer(LAST, ClockKind::AT_PERSISTENT_TIME),
        ),
        (
            "timer_intent, own timer, unknown clock",
            history::timer(0, ClockKind(0)),
        ),
        ("timer_intent, schedule", history::schedule(0)),
        ("timer_intent, marker", history::marker(0)),
        ("timer_intent, run completed", history::completed()),
        ("timer_intent, run failed", history::failed()),
    ] {
        lines::call(rt, label, machine.timer_intent(asked, Next::Record(record)))?;
    }
    Ok(())
}
