// The verdict and the handovers on a fixed list of pairs: two lines of standard input describe a journal and a plan. What
// is written is the verdict's line, and a line for each of the boundaries 0 to 3. The file stdout holds what a plain Rust
// twin over the real ReplayMachine says of the same pairs (docs/COMPARISON.md).
#![tactic(auto)]

use histories::Handed;
use resume::handing;
use std::io;

fn main(rt: HostRuntime) -> io::Result<()> {
    let mut text = [0u8; 65536];
    let n = test_text::read_full(&mut rt.stdin(), &mut text)?;
    let mut journal = [0u8; 32800];
    let mut plan = [0u8; 32800];
    run(&rt, &text[..n], &mut journal, &mut plan)
}

// A line moves on, so the text has at most as many pairs as bytes.
fn run(rt: &impl Print, text: &[u8], journal: &mut [u8], plan: &mut [u8]) -> io::Result<()> {
    let mut at: usize = 0;
    while at < text.len() {
        let first = test_text::read_line(text, at, journal);
        let second = test_text::read_line(text, first.next, plan);
        pair(rt, &journal[..first.len], &plan[..second.len])?;
        at = second.next;
    }
    Ok(())
}

fn pair(rt: &impl Print, journal: &[u8], plan: &[u8]) -> io::Result<()> {
    let line = lines::line_of(resume::verdict(journal, plan));
    rt.write_all(line.as_bytes())?;
    for i in 0..4 {
        boundary(rt, journal, plan, i)?;
    }
    Ok(())
}

// What is handed over at a boundary, with its length and the sum of its bytes.
fn boundary(rt: &impl Print, journal: &[u8], plan: &[u8], i: u64) -> io::Result<()> {
    print!(rt; "handover {i} ")?;
    let part = handing::handover(journal, plan, i);
    let len = part.len();
    match handing::handover_case(journal, plan, i) {
        Ok(Handed::Completed(_)) => println!(rt; "completed {len} {}", sum_of(part)),
        Ok(Handed::Failed(_)) => println!(rt; "failed {len} {}", sum_of(part)),
        Ok(Handed::Input(_)) => println!(rt; "input {len} {}", sum_of(part)),
        Err(number) => println!(rt; "refused {number} {len}"),
    }
}

// The sum of the bytes, in 32 bits.
fn sum_of(part: &[u8]) -> u32 {
    let mut sum: u32 = 0;
    for byte in part {
        sum = sum.wrapping_add(*byte as u32);
    }
    sum
}
