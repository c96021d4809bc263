// What an answer means in plain words: what to do, or which line of the field engineer's checklist failed, and where.
ghost use Rattle.std.specs.Prelude.{◌≡◌, cond, ◌+◌, ◌++◌, ◌≤◌, length};
ghost use Rattle.endings.specs.Endings.{ascii, still_to_run};
ghost use Rattle.lines.specs.Line.{Holds};
ghost use Rattle.lines.specs.Words.{table, words_in, filled, shown, ending_detail, tells_failed, ending_words, detail_of, words_of, resume_of};

use crate::Line;
use endings::Ending;
use histories::Answer;

// What the words of an answer depend on beside it: the kind of one entry, and the number that they show.
// The kind stays a number: `ending_detail` and `detail_of` of the specs take the byte that the file has.
#[derive(Clone, Copy)]
pub struct Telling {
    pub kind: u8,
    pub number: u64,
}

// One byte of a text, or the number in the place of `#`.
fn show(line: &mut Line, byte: u8, n: u64)
    requires { length line.old + length (shown n byte) ≤ 128 }
    ensures { line.new ≡ line.old ++ shown n byte }
{
    if byte == b'#' {
        line.number(n);
    } else {
        line.push(byte);
    }
}

// A text with the number in its place.
pub(crate) fn fill(text: &[u8], n: u64) -> Line
    requires { length (filled n text.now) ≤ 128 }
    ensures { Holds result (filled n text.now) }
{
    let mut line = Line::empty();
    for byte in text {
        show(&mut line, *byte, n);
    }
    line
}

// The table: the number of a refusal (0 of an ending), the detail, the words; `#` stands for the number that is told.
// Number and detail stay numbers: `words_in` takes them so. One `match`, however long, since it is a table.
fn row(number: u64, detail: u64) -> &'static [u8]
    ensures { result.now ≡ ascii (words_in table number detail) }
{
    match (number, detail) {
        (0, 0) => b"Nothing to resume: the run was never started",
        (0, 1) => b"Start step #",
        (0, 2) => b"Nothing left to do: every step has its outcome or marker",
        (0, 3) => b"Deliver step # again: it was begun and has no outcome",
        (0, 4) => b"The run completed; whole steps: #",
        (0, 5) => b"Arm the timer of step # again: it was armed and has not fired",
        (0, 6) => b"The run failed; whole steps: #",
        (0, 7) => b"Write the marker of gate #, with the version in the plan",
        (1, 0) => b"Journal: missing, unreadable or under 16 bytes",
        (2, 0) => b"Journal: over 32,768 bytes",
        (3, 0) => b"Journal: not a journal file",
        (4, 0) => b"Journal: more than 1,024 records",
        (6, 0) => b"Journal: cut short or grown, its length is not what its header says",
        (7, 0) => b"Journal: entry # has an unknown kind",
        (8, 0) => b"Journal: entry # has a field above its greatest value",
        (9, 0) => b"Journal: the bodies' lengths do not sum to the header's",
        (11, 0) => b"Plan: missing, unreadable or under 16 bytes",
        (12, 0) => b"Plan: over 32,768 bytes",
        (13, 0) => b"Plan: not a plan file",
        (14, 0) => b"Plan: more than 1,024 steps",
        (15, 0) => b"Plan: it does not say which clocks the board has",
        (16, 0) => b"Plan: cut short or grown, its length is not what its header says",
        (17, 0) => b"Plan: entry # is no effect, no timer and no gate",
        (18, 0) => b"Plan: entry # has a field that a plan may not have",
        (19, 0) => b"Plan: the inputs' lengths do not sum to the header's",
        (22, 1) =>
            b"Steps carry consecutive numbers: record # has another number (a dispense lost or doubled)",
        (22, 2) => b"Each step matches the plan: record # has another activity",
        (22, 4) =>
            b"Each step matches the plan: record # is of another kind (or a step before it was lost or doubled)",
        (22, 5) => b"Each step matches the plan: record # is the marker of another gate or version",
        (22, 6) => b"Each step matches the plan: record # has another clock or deadline",
        (22, 8) => b"Each step matches the plan: record # has another input length",
        (22, 9) => b"Each step matches the plan: record # has the same input length, another CRC",
        (23, 0) => b"Recorded timers fit this board's clocks: the timer of record # does not",
        (24, 0) => b"First record opens the run: record # does not (a file from another stage)",
        (24, 1) =>
            b"Steps carry consecutive numbers: record # cannot follow the one before it (lost or doubled)",
        (24, 2) =>
            b"An open step is never shown as done: record # is not the outcome of the step opened before it",
        (25, 0) =>
            b"Recorded timers fit this board's clocks: the next step's timer, due at record #, does not",
        (31, 0) => b"Each step matches the plan: record # opens a step beyond the plan's last",
        (31, 1) =>
            b"Each step matches the plan: record # is a version marker after the plan's last step",
        (44, 0) => b"Plan: entry # is a timer of 0: fill in the incubation",
        (45, 0) =>
            b"Each step matches the plan: the run was completed at step # of the plan, before its last",
        _ => b"No file can give this answer: keep both files and report them",
    }
}

// The words of a number and detail, with the number that is told in its place.
fn said(number: u64, detail: u64, n: u64) -> Line
    ensures { Holds result (filled n (ascii (words_in table number detail))) }
{
    fill(row(number, detail), n)
}

// What tells apart the words of one ending: the kind of the step at the stop, or of the record that ended the run.
fn ending_detail(ending: Ending, kind: u8) -> u64
    ensures { result ≡ ending_detail ending kind }
{
    match ending {
        Ending::Unstarted => 0,
        Ending::Due => { if kind == 9 { 7 } else { 1 } }
        Ending::Done => 2,
        Ending::Open => { if kind == 5 { 5 } else { 3 } }
        Ending::Finished => { if kind == 8 { 6 } else { 4 } }
    }
}

fn detail_of(number: u64, place: u64, divergence: u64, kind: u8) -> u64
    ensures { result ≡ detail_of number place divergence kind }
{
    match number {
        24 if place == 0 => 0,
        24 if (kind == 2) | (kind == 5) => 2,
        24 => 1,
        31 if kind == 9 => 1,
        31 => 0,
        _ => divergence,
    }
}

// Whether the failed steps are told: where one did fail, and of a run that is done in any case.
fn tells_failed(ending: Ending, failed: u64) -> bool
    ensures { result ≡ tells_failed ending failed }
{
    match ending {
        Ending::Done => true,
        Ending::Unstarted | Ending::Due | Ending::Open | Ending::Finished => failed != 0,
    }
}

// What an ending means, and how many steps failed, where that is told.
fn ending_words(ending: Ending, n: u64, kind: u8, failed: u64) -> Line
    ensures { Holds result (ending_words ending n kind failed) }
{
    let mut line = said(0, ending_detail(ending, kind), n);
    if tells_failed(ending, failed) {
        line.write(b"; failed steps: ");
        line.number(failed);
    }
    line
}

// What an answer means, with what `telling` gives for it.
#[tactic(auto, unfolding(crate::specs::Words::words_of))]
pub fn words_of(answer: Answer, telling: Telling) -> Line
    ensures { Holds result (words_of answer telling) }
{
    let n = telling.number;
    match answer {
        Ok(accepted) => ending_words(accepted.ending, n, telling.kind, accepted.failed),
        Err(refused) => said(
            refused.number,
            detail_of(
                refused.number,
                refused.place,
                refused.divergence,
                telling.kind,
            ),
            n,
        ),
    }
}

// Whether the run may be resumed, and at which step.
#[tactic(auto, unfolding(crate::specs::Words::resume_of))]
pub fn resume_of(answer: Answer) -> Line
    ensures { Holds result (resume_of answer) }
{
    match answer {
        Ok(accepted) => resumed(accepted.ending, accepted.stop),
        Err(_) => fill(b"no", 0),
    }
}

fn resumed(ending: Ending, stop: u64) -> Line
    ensures { Holds result (filled stop (ascii (cond (still_to_run ending) "yes, step #" "no"))) }
{
    if ending.still_to_run() {
        fill(b"yes, step #", stop)
    } else {
        fill(b"no", stop)
    }
}
