// Replays a fixed list of calls: each line of standard input is a call, and what is written its answers. A cursor's `advance` is made
// twice, by value and over a lent cursor, with a line for each.
// The file stdout holds what the Rust answered to the same calls (docs/COMPARISON.md says how both were made).
#![tactic(auto)]

ghost use Rattle.std.specs.Prelude.{◌≤◌};

use answer_numbers::Tell;
use core_exports::machines::{MachineAnswered, MachineNumbers, PendingNumbers, RequestNumbers};
use core_exports::{CursorNumbers, IdsNumbers, RecordNumbers, SpecNumbers, machines};
use cursor::ReplayCursor;
use errors::Told;
use ids::RunId;
use records::{Body, RecordRef};
use shown::{Numbers, Value};
use std::io;

mod shown;

// The allocator, the cursor and the machine that the calls work on. The cursor is advanced by value, and one like it is lent.
#[derive(Clone, Copy)]
struct Current {
    ids: IdsNumbers,
    cursor: CursorNumbers,
    lent: ReplayCursor,
    machine: MachineNumbers,
}

fn main(rt: HostRuntime) -> io::Result<()> {
    let mut text = [0u8; 65536];
    let n = test_text::read_full(&mut rt.stdin(), &mut text)?;
    replay(&rt, &text[..n])
}

fn replay(rt: &impl Print, text: &[u8]) -> io::Result<()> {
    let mut now = Current {
        ids: core_exports::hiskurdo_ids_for_run(0),
        cursor: core_exports::hiskurdo_cursor_new(0),
        lent: ReplayCursor::new(RunId(0)),
        machine: machines::hiskurdo_machine_new(0),
    };
    for line in text.split_inclusive(|b| *b == b'\n') {
        call(rt, &mut now, &numbers(line))?;
        rt.write_all(b"\n")?;
    }
    Ok(())
}

// The decimal numbers of a line, up to twelve.
fn numbers(line: &[u8]) -> [u64; 12] {
    let mut values = [0u64; 12];
    for (k, word) in line.split(|b| *b == b' ').enumerate() {
        for b in word {
            values[k % 12] = with_digit(values[k % 12], *b);
        }
    }
    values
}

// n with one more decimal digit; n itself where b is none, or the number would not fit.
fn with_digit(n: u64, b: u8) -> u64 {
    let Some(digit) = (b as char).to_digit(10) else {
        return n;
    };
    let Some(tens) = n.checked_mul(10) else {
        return n;
    };
    tens.checked_add(digit as u64).unwrap_or(n)
}

// One call, by its number in the stored list (docs/COMPARISON.md), with what it writes.
fn call(rt: &impl Print, now: &mut Current, values: &[u64; 12]) -> io::Result<()> {
    match values[0] {
        0..=2 => successor_call(rt, values),
        3..=5 => ids_call(rt, now, values),
        6..=11 => timer_call(rt, values),
        12 => new_cursors(rt, now, values[1]),
        13 => cursor_call(rt, now, record_at(values, 1)),
        20 => divergence_call(rt, values),
        _ => machine_call(rt, now, values),
    }
}

fn successor_call(rt: &impl Print, values: &[u64; 12]) -> io::Result<()> {
    let told = match values[0] {
        1 => core_exports::hiskurdo_run_successor(values[1]),
        _ => core_exports::hiskurdo_seq_successor(low32(values[1])),
    };
    print!(rt; "{}", Numbers(told))
}

fn ids_call(rt: &impl Print, now: &mut Current, values: &[u64; 12]) -> io::Result<()> {
    now.ids = match values[0] {
        3 => core_exports::hiskurdo_ids_for_run(values[1]),
        4 => {
            let committed = low8(values[2]);
            core_exports::hiskurdo_ids_resume(values[1], committed, low32(values[3])).ids
        }
        _ => {
            let allocated = core_exports::hiskurdo_ids_allocate(now.ids);
            print!(rt; "{} ", Numbers(allocated.answer))?;
            allocated.ids
        }
    };
    print!(rt;
        "{} {}",
        Value(core_exports::hiskurdo_ids_run(now.ids)),
        Numbers(core_exports::hiskurdo_ids_peek(now.ids))
    )
}

fn timer_call(rt: &impl Print, values: &[u64; 12]) -> io::Result<()> {
    let spec = spec_at(values, 1);
    match values[0] {
        6 => print!(rt;
            "{} {}",
            Value(core_exports::hiskurdo_spec_clock_kind(spec)),
            Value(core_exports::hiskurdo_spec_deadline(spec))
        ),
        7 => print!(rt;
            "{}",
            Value(core_exports::hiskurdo_spec_rearmed_at(spec, values[3], values[4]))
        ),
        _ => print!(rt; "{}", Numbers(timer_answer(values, spec))),
    }
}

fn timer_answer(values: &[u64; 12], spec: SpecNumbers) -> Told {
    match values[0] {
        8 => core_exports::hiskurdo_spec_recorded(spec.clock, spec.deadline),
        9 => core_exports::hiskurdo_admits(low8(values[1]), spec_at(values, 2)),
        10 => core_exports::hiskurdo_timer_arm(spec, low8(values[3]), values[4]),
        _ => core_exports::hiskurdo_timer_evaluate(spec, values[3], values[4]),
    }
}

fn new_cursors(rt: &impl Print, now: &mut Current, run: u64) -> io::Result<()> {
    now.cursor = core_exports::hiskurdo_cursor_new(run);
    now.lent = ReplayCursor::new(RunId(run));
    shown::readers(rt, now.cursor)
}

fn cursor_call(rt: &impl Print, now: &mut Current, n: RecordNumbers) -> io::Result<()> {
    let advanced = core_exports::hiskurdo_cursor_advance(now.cursor, n);
    now.cursor = advanced.cursor;
    let kind = core_exports::hiskurdo_record_kind(n);
    print!(rt; "{} {} ", Numbers(advanced.answer), Value(kind))?;
    shown::readers(rt, now.cursor)?;
    rt.write_all(b"\n")?;
    advance_lent(rt, now, n)
}

// The same record by `cursor_lent::advanced`, which lends the cursor to `advance`; the list has none that names nothing.
fn advance_lent(rt: &impl Print, now: &mut Current, n: RecordNumbers) -> io::Result<()> {
    let body = Body {
        start: n.start as usize,
        len: n.m as usize,
    };
    let Some(record) = RecordRef::of(n.kind, n.clock, n.a, n.s, n.d, n.m, body) else {
        return rt.write_all(b"this record names nothing");
    };
    let advanced = cursor_lent::advanced(now.lent, record);
    now.lent = advanced.cursor;
    print!(rt; "{} {} ", Numbers(advanced.answer.told()), record.kind().0)?;
    shown::lent_readers(rt, now.lent)
}

// The record whose seven numbers begin at `at`, at most at 5.
fn record_at(values: &[u64; 12], at: usize) -> RecordNumbers
    requires { at ≤ 5 }
{
    RecordNumbers {
        kind: low8(values[at]),
        clock: low8(values[at + 1]),
        a: low16(values[at + 2]),
        s: low32(values[at + 3]),
        d: values[at + 4],
        m: values[at + 5],
        start: values[at + 6],
    }
}

// The timer's spec whose two numbers begin at `at`.
fn spec_at(values: &[u64; 12], at: usize) -> SpecNumbers
    requires { at ≤ 10 }
{
    SpecNumbers {
        deadline: values[at + 1],
        clock: low8(values[at]),
    }
}

fn machine_call(rt: &impl Print, now: &mut Current, values: &[u64; 12]) -> io::Result<()> {
    now.machine = match values[0] {
        14 => machines::hiskurdo_machine_new(values[1]),
        _ => {
            let called = machine_answer(now.machine, values);
            print!(rt; "{} ", Numbers(called.answer))?;
            called.machine
        }
    };
    shown::machine_readers(rt, now.machine)
}

fn machine_answer(old: MachineNumbers, values: &[u64; 12]) -> MachineAnswered {
    match values[0] {
        15 => machines::hiskurdo_machine_advance(old, record_at(values, 1)),
        16 => machines::hiskurdo_machine_intent(
            old,
            request(values),
            low8(values[4]),
            record_at(values, 5),
        ),
        17 => machines::hiskurdo_machine_outcome(old, low8(values[1]), record_at(values, 2)),
        18 => machines::hiskurdo_machine_timer_intent(
            old,
            spec_at(values, 1),
            low8(values[3]),
            low8(values[4]),
            record_at(values, 5),
        ),
        _ => machines::hiskurdo_machine_timer_outcome(old, low8(values[1]), record_at(values, 2)),
    }
}

fn request(values: &[u64; 12]) -> RequestNumbers {
    RequestNumbers {
        input_crc: low32(values[3]),
        kind: low16(values[1]),
        input_len: low16(values[2]),
    }
}

fn divergence_call(rt: &impl Print, values: &[u64; 12]) -> io::Result<()> {
    let recorded = PendingNumbers {
        run: values[4],
        seq: low32(values[5]),
        input_crc: low32(values[8]),
        kind: low16(values[6]),
        input_len: low16(values[7]),
    };
    let seq = low32(values[10]);
    rt.print(machines::hiskurdo_divergence_from(request(values), recorded, values[9], seq))
}

fn low8(n: u64) -> u8 {
    (n % 256) as u8
}

fn low16(n: u64) -> u16 {
    (n % 65536) as u16
}

fn low32(n: u64) -> u32 {
    (n % 4294967296) as u32
}
