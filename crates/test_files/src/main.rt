// Reads a fixed list of good and damaged files: each line of standard input describes one, and each line that is written
// says what reading it says. The file stdout holds what a plain Rust reader says of the same files (docs/COMPARISON.md).
#![tactic(auto)]

use hiskurdo::EntryNumbers;
use std::io;

fn main(rt: HostRuntime) -> io::Result<()> {
    let mut text = [0u8; 65536];
    let n = test_text::read_full(&mut rt.stdin(), &mut text)?;
    let mut file = [0u8; 32800];
    run(&rt, &text[..n], &mut file)
}

// A line moves on, so the text has at most as many lines as bytes.
fn run(rt: &impl Print, text: &[u8], file: &mut [u8]) -> io::Result<()> {
    let mut at: usize = 0;
    while at < text.len() {
        let line = test_text::read_line(text, at, file);
        answer(rt, kind_of(line.letter), &file[..line.len])?;
        at = line.next;
    }
    Ok(())
}

// A journal or a plan, by the letter of its line.
#[derive(Clone, Copy, PartialEq, Eq)]
enum Kind {
    Journal,
    Plan,
}

fn kind_of(letter: u8) -> Kind {
    match letter {
        b'j' => Kind::Journal,
        _ => Kind::Plan,
    }
}

fn answer(rt: &impl Print, kind: Kind, file: &[u8]) -> io::Result<()> {
    let read = match kind {
        Kind::Journal => hiskurdo::hiskurdo_read_journal(file),
        Kind::Plan => hiskurdo::hiskurdo_read_plan(file),
    };
    print!(rt; "{}", read.number)?;
    if read.number != 0 {
        print!(rt; " {}", read.place)?;
    } else {
        print!(rt; " {} {}", read.head, read.count)?;
        contents(rt, kind, file, (read.count % 65536) as u16)?;
    }
    println!(rt; "")
}

// Where the last body ends, and the first four entries.
fn contents(rt: &impl Print, kind: Kind, file: &[u8], count: u16) -> io::Result<()> {
    let start = 16 + 24 * (count as u64);
    print!(rt; " {}", end_of(kind, file, count, start))?;
    let mut entry: u64 = 0;
    let mut body = start;
    for _ in 0..count.min(4) {
        let e = next(kind, file, entry, body);
        print_entry(rt, e)?;
        entry = e.next_entry;
        body = e.next_body;
    }
    Ok(())
}

fn end_of(kind: Kind, file: &[u8], count: u16, start: u64) -> u64 {
    let mut entry: u64 = 0;
    let mut body = start;
    for _ in 0..count {
        let e = next(kind, file, entry, body);
        entry = e.next_entry;
        body = e.next_body;
    }
    body
}

fn next(kind: Kind, file: &[u8], entry: u64, body: u64) -> EntryNumbers {
    match kind {
        Kind::Journal => hiskurdo::hiskurdo_next_record(file, entry, body),
        Kind::Plan => hiskurdo::hiskurdo_next_step(file, entry, body),
    }
}

fn print_entry(rt: &impl Print, e: EntryNumbers) -> io::Result<()> {
    print!(rt;
        " {} {} {} {} {} {} {} {}",
        e.kind, e.clock, e.a, e.s, e.d, e.m, e.start, e.len
    )
}
