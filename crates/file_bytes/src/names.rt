// Names as they are given and as they are shown.
//
// Defends: no byte of a name moves the cursor of a terminal, ends a field or a row; an option is not taken for a folder.
ghost use Rattle.std.specs.Prelude.{◌≡◌, ◌<◌, ℕ, eqb, get_or, slice_index};
ghost use Rattle.file_bytes.specs.Counts.{IsPrefixLen};
ghost use Rattle.file_bytes.specs.Names.{clean, asked_for};

use std::fmt::InlineText;
use std::io;

// What an argument asks for.
#[derive(Clone, Copy, PartialEq, Eq)]
pub enum Asked {
    Folder,
    Help,
    Version,
    Unknown,
}

// A control byte is shown as `?`.
pub fn clean(byte: u8) -> u8
    ensures { result ≡ clean byte }
{
    if byte.is_ascii_control() { b'?' } else { byte }
}

// A folder, or an option: whatever begins with `-`. A folder with such a name is given as `./-name`.
#[tactic(auto, unfolding(crate::specs::Names::asked_for))]
pub fn asked_for(argument: &[u8]) -> Asked
    ensures { result ≡ asked_for argument.now }
{
    if (argument == b"-h".as_slice()) | (argument == b"--help".as_slice()) {
        Asked::Help
    } else if argument == b"--version".as_slice() {
        Asked::Version
    } else if dashed(argument) {
        Asked::Unknown
    } else {
        Asked::Folder
    }
}

fn dashed(argument: &[u8]) -> bool
    ensures { result ≡ eqb (get_or argument.now 0 0) 45 }
{
    argument.first() == Some(&b'-')
}

// Says on standard error why the system refused a file, by its path and the system's own reason. What cannot be written is lost.
pub(crate) fn refused(rt: &HostRuntime, path: &[u8], error: io::Error) {
    if path.is_empty() {
        fail(rt, b"the empty name", error);
        return;
    }
    let mut shown = [0u8; crate::PATH_MAX];
    let n = show(path, &mut shown);
    fail(rt, &shown[..n], error);
}

// Writes a line to standard error: what failed, a colon and the system's reason.
fn fail(rt: &HostRuntime, what: &[u8], error: io::Error) {
    let to = rt.stderr();
    let words = InlineText::<256>::of(error);
    let _ = to.write_all(what);
    let _ = to.write_all(b": ");
    let _ = to.write_all(without_number(words.as_str()).as_bytes());
    let _ = to.write_all(b"\n");
}

// The library writes the error's number behind the system's words.
fn without_number(words: &str) -> &str {
    match words.rsplit_once(" (os error ") {
        Some((front, _)) => front,
        None => words,
    }
}

// Writes a name as it is shown to the start of room, as far as it fits.
fn show(name: &[u8], room: &mut [u8]) -> usize
    ensures counts { IsPrefixLen result room.new }
    ensures bytes { (k : ℕ) → k < result → slice_index room.new k ≡ clean (slice_index name.now k) }
{
    let n = name.len().min(room.len());
    for i in 0..n {
        room[i] = clean(name[i]);
    }
    n
}
