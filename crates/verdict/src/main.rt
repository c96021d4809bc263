// Prints the verdict on the files run.jnl and run.pln of a folder, as one line (01, "`verdict` reads"): of the folder that it is
// given, or of the one that it is run in.
//
// No contract can say what is read and printed: that is tested. The line that is printed for what was read is proved.
#![tactic(auto)]

ghost use Rattle.lines.specs.Line.{line_of, Holds};
ghost use Rattle.resume.specs.Verdict.{verdict_rule};

use file_bytes::names::Asked;
use lines::Line;
use std::rt::Env;

fn main(rt: HostRuntime) {
    // Argument 0 is the program's own name.
    let mut first = [0u8; 1];
    if !file_bytes::is_given(rt.arg(1, &mut first)) {
        judge(&rt, b".");
        return;
    }
    if file_bytes::is_given(rt.arg(2, &mut first)) {
        usage(&rt.stderr());
        return;
    }
    let mut name = [0u8; file_bytes::PATH_MAX];
    let n = file_bytes::argument(&rt, 1, &mut name);
    match file_bytes::names::asked_for(&name[..n]) {
        Asked::Folder => judge(&rt, &name[..n]),
        Asked::Help => usage(&rt.stdout()),
        Asked::Version => print(&rt, lines::version()),
        Asked::Unknown => usage(&rt.stderr()),
    }
}

// What cannot be written is lost, and the status stays 0.
fn usage(to: &impl Print) {
    let _ = to.write_all(
        b"\
        verdict [FOLDER]  (as: verdict runs/a; without FOLDER: the current folder)\n\
        One line on the run in the folder's files run.jnl and run.pln:\n\
        ok ENDING STOP RECORDS CALLS FAILED: a history of the plan, with STOP whole steps, of which FAILED failed.\n\
        ENDING says what to do:\n\
        unstarted: start it as a new run; due: start step STOP, or write its marker where it is a gate;\n\
        open: deliver step STOP, or arm its timer, again;\n\
        done: nothing is left to deliver; finished: nothing, the run is closed and cannot be resumed.\n\
        no NUMBER PLACE DIVERGENCE CALLS: not to be resumed. README.md, \"How to read a refusal\", lists the numbers.\n\
        Steps and records are counted from 0.\n\
        verdict --help, verdict -h: this text; verdict --version: the version. A folder named -x is given as ./-x\n\
        ",
    );
}

// The verdict on a folder's files.
fn judge(rt: &HostRuntime, folder: &[u8]) {
    let mut journal = [0u8; file_bytes::ROOM];
    let mut plan = [0u8; file_bytes::ROOM];
    let n = file_bytes::contents(rt, folder, b"run.jnl", &mut journal);
    let m = file_bytes::contents(rt, folder, b"run.pln", &mut plan);
    print(rt, verdict_line(&journal[..n], &plan[..m]));
}

fn print(rt: &HostRuntime, line: Line) {
    let _ = rt.write_all(line.as_bytes());
}

// The line for these two files' bytes.
fn verdict_line(journal: &[u8], plan: &[u8]) -> Line
    ensures { Holds result (line_of (verdict_rule journal.now plan.now)) }
{
    lines::line_of(resume::verdict(journal, plan))
}
