// Prints a row for each run folder that it is given: the folder, whether the run may be resumed and at which step, the verdict's
// line, and what to do or which line of the field engineer's checklist failed.
//
// Owns: what the arguments ask for. Must not own: the row. Reading and printing are tested; the row is proved.
#![tactic(auto)]

mod rows;

ghost use Rattle.std.specs.Prelude.{◌≤◌, length};

use file_bytes::names::Asked;
use std::rt::Env;

fn main(rt: HostRuntime) {
    let count = argument_count(&rt);
    match asked_by(&rt, count) {
        Asked::Folder => folders(&rt, count),
        Asked::Help => usage(&rt.stdout()),
        Asked::Version => version(&rt),
        Asked::Unknown => usage(&rt.stderr()),
    }
}

// How many arguments the program was started with, its own name among them.
fn argument_count(rt: &HostRuntime) -> usize {
    let mut first = [0u8; 1];
    for i in 0..usize::MAX {
        if !file_bytes::is_given(rt.arg(i, &mut first)) {
            return i;
        }
    }
    usize::MAX
}

// What the arguments ask for: the first that is no folder decides. Without an argument nothing is asked.
fn asked_by(rt: &HostRuntime, count: usize) -> Asked {
    if count < 2 {
        return Asked::Unknown;
    }
    for i in 1..count {
        let asked = asked_at(rt, i);
        if asked != Asked::Folder {
            return asked;
        }
    }
    Asked::Folder
}

fn asked_at(rt: &HostRuntime, i: usize) -> Asked {
    let mut name = [0u8; file_bytes::PATH_MAX];
    let n = file_bytes::argument(rt, i, &mut name);
    file_bytes::names::asked_for(&name[..n])
}

// What cannot be written is lost, and the status stays 0.
fn usage(to: &impl Print) {
    let _ = to.write_all(
        b"\
        index FOLDER...  (as: index runs/*)\n\
        For each run folder, with its files run.jnl and run.pln, one row:\n\
        folder, may the run be resumed and at which step, the verdict's line, plain words: what to do and how many\n\
        steps failed, or which line of the checklist failed.\n\
        Steps and records are counted from 0. A tab stands between two fields.\n\
        index --help, index -h: this text; index --version: the version. A folder named -x is given as ./-x\n\
        ",
    );
}

fn version(rt: &HostRuntime) {
    let line = lines::version();
    let _ = rt.write_all(line.as_bytes());
}

// The row of each argument, up to the first that cannot be written.
fn folders(rt: &HostRuntime, count: usize) {
    let mut journal = [0u8; file_bytes::ROOM];
    let mut plan = [0u8; file_bytes::ROOM];
    for i in 1..count {
        if !folder(rt, i, &mut journal, &mut plan) {
            return;
        }
    }
}

// The row of one argument; false where it cannot be written.
fn folder(rt: &HostRuntime, i: usize, journal: &mut [u8], plan: &mut [u8]) -> bool {
    let mut name = [0u8; file_bytes::PATH_MAX];
    let n = file_bytes::argument(rt, i, &mut name);
    let j = file_bytes::contents(rt, &name[..n], b"run.jnl", journal);
    let p = file_bytes::contents(rt, &name[..n], b"run.pln", plan);
    print_row(rt, &name[..n], &journal[..j], &plan[..p])
}

fn print_row(rt: &HostRuntime, name: &[u8], journal: &[u8], plan: &[u8]) -> bool
    requires { length name.now ≤ 4096 }
{
    let row = rows::row(name, journal, plan);
    rt.write_all(row.as_bytes()).is_ok()
}
