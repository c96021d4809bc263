// What the programs take from outside: their arguments, and the bytes of a folder's files.
//
// Owns: paths, opening, reading, closing; why the system refused, on standard error. Must not own: what the bytes mean.
// Defends: a file that cannot be read, or whose reading fails, has 0 bytes (01, "a file that cannot be read counts as 0 bytes"),
// and the lent room is then as it was. No contract can say which bytes a file has.
#![tactic(auto)]

pub mod names;

ghost use Rattle.std.specs.Prelude.{◌≤◌, min, ◌≡◌, length, IfOk};
ghost use Rattle.std.proofs.Math.Seq.{paste};
ghost use Rattle.file_bytes.specs.Counts.{IsPrefixLen};
ghost use Rattle.file_bytes.specs.Loaded.{Loaded};
ghost use Rattle.file_bytes.specs.Names.{is_given};

use std::env::FillError;
use std::fs::File;
use std::io;
use std::io::{ErrorKind, Read};
use std::rt::Env;

// The system's longest path, with the zero that ends it there.
pub const PATH_MAX: usize = 4096;

// The system's number for a path that is longer.
const ENAMETOOLONG: i32 = 36;

// The bytes that are read of a file: more than the longest file has, so that a longer one is seen to be too long.
pub const ROOM: usize = 32770;

// How many bytes of a folder's file stand at the start of room, at most `ROOM`. 0 for a file that cannot be read: a count and no
// `Result`, since 01 counts such a file as 0 bytes.
pub fn contents(rt: &HostRuntime, folder: &[u8], file: &[u8], room: &mut [u8]) -> usize
    ensures { Loaded room.old result room.new }
{
    let path = path_of(folder, file);
    let mut own = [0u8; ROOM];
    let n = read_file(rt, path.text(), &mut own);
    put(&own[..n], room)
}

// Copies an argument to the start of name and returns its length. Of one that is longer than a path can be it copies the beginning.
// 0 where it is missing or empty.
pub fn argument(rt: &HostRuntime, i: usize, name: &mut [u8]) -> usize
    ensures { Loaded name.old result name.new }
{
    let mut own = [0u8; PATH_MAX];
    match rt.arg(i, &mut own) {
        Ok(n) => put(&own[..n], name),
        Err(FillError::TooLong) => put(&own, name),
        Err(FillError::NotPresent) => 0,
    }
}

// Whether there is such an argument, by what the system said when it was asked for: one that is too long for the room is there too.
pub fn is_given(said: Result<usize, FillError>) -> bool
    ensures { result ≡ is_given said }
{
    !matches!(said, Err(FillError::NotPresent))
}

// Copies a text to the start of a room, as far as it fits, and returns how many bytes were copied.
fn put(text: &[u8], room: &mut [u8]) -> usize
    ensures value { result ≡ min (length text.now) (length room.old) }
    ensures room_after { room.new ≡ paste room.old 0 text.now result }
    ensures loaded { Loaded room.old result room.new }
{
    let n = text.len().min(room.len());
    room[..n].copy_from_slice(&text[..n]);
    n
}

// A path that is put together, text after text. What does not fit is cut: the path is then longer than the system allows, and no
// file is opened.
#[derive(Drop)]
struct PathRoom {
    bytes: [u8; 4608],
    len: usize,
    ghost within: { len ≤ 4608 },
}

impl PathRoom {
    fn push(&mut self, text: &[u8]) {
        self.len += put(text, &mut self.bytes[self.len..]);
    }

    fn text(&self) -> &[u8] {
        &self.bytes[..self.len]
    }
}

// The path of a folder's file. The empty name is no folder, and its path is empty too.
fn path_of(folder: &[u8], file: &[u8]) -> PathRoom
    ensures { length folder.now ≡ 0 → result.len ≡ 0 }
{
    let mut path = PathRoom {
        bytes: [0u8; 4608],
        len: 0,
    };
    if !folder.is_empty() {
        path.push(folder);
        path.push(b"/");
        path.push(file);
    }
    path
}

// Reads a file and returns how many bytes it has. Where the system refuses it: 0, and the reason on standard error.
fn read_file(rt: &HostRuntime, path: &[u8], room: &mut [u8]) -> usize
    ensures { IsPrefixLen result room.new }
{
    match read_all(rt, path, room) {
        Ok(n) => n,
        Err(error) => {
            names::refused(rt, path, error);
            0
        }
    }
}

// The library opens no path that is not UTF-8.
fn open(rt: &HostRuntime, path: &[u8]) -> io::Result<File> {
    if path.len() >= PATH_MAX {
        return Err(io::Error::from_raw_os_error(ENAMETOOLONG));
    }
    let text = str::from_utf8(path).map_err(|_| {
        io::Error::new(
            ErrorKind::InvalidFilename,
            "a path that is not UTF-8 is not opened",
        )
    })?;
    File::open(rt, text)
}

// Reads to a file's end or until room is full.
fn read_all(rt: &HostRuntime, path: &[u8], room: &mut [u8]) -> io::Result<usize>
    ensures { IfOk result (λ n. IsPrefixLen n room.new) }
{
    let mut file = open(rt, path)?;
    let mut done = 0;
    // A `while`, since each read says how far it came.
    while done < room.len() {
        match file.read(&mut room[done..])? {
            0 => break,
            n => done += n,
        }
    }
    Ok(done)
}
