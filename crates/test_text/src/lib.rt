// Files as text: a line that describes the bytes of one file, for the programs that read stored lists of files.
//
// Owns: the form of a line (docs/COMPARISON.md, "The stored lists"), and reading the whole list. Must not own: what the file is read as.
// Defends: a line of another form, or a file for which there is no room, writes nothing.
#![tactic(auto)]

ghost use Rattle.std.specs.Prelude.{true, [], ◌≡◌, ◌+◌, ◌<◌, ◌≤◌, length, drop, get_or, ◌==◌, position, unwrap_or, IfNone, IfSome};
ghost use Rattle.test_text.specs.Lines.{before, items, hex_digit, hex_byte, paired, hex_bytes, decimal_from, digits_of, times_of};
ghost use Rattle.test_text.specs.Lines.{item_bytes, items_bytes, right, file_of, line_at, line_rule, over};
ghost use Rattle.test_text.specs.Steps.{item_length, IsNextItem};

mod reading;

pub use reading::read_full;

// A line's letter, where the next line begins, and how many bytes of the file there are. Numbers and no `Option`, since `line_rule` gives
// numbers: 0 where there is no letter, and 0 bytes where there is no file.
#[derive(Clone, Copy)]
pub struct Described {
    pub letter: u8,
    pub next: usize,
    pub len: usize,
}

// Reads the file that the line at this place of the text describes into room.
#[tactic(auto, using(crate::proofs::Read::line_laws))]
pub fn read_line(text: &[u8], at: usize, room: &mut [u8]) -> Described
    ensures value { result ≡ line_rule text.now at (length room.old) }
    ensures room_after { room.new ≡ over (file_of (line_at text.now at) (length room.old)) room.old }
    ensures moves { (at ≤ result.next) × (at < length text.now → at < result.next) }
    ensures len_in_bounds { (result.len ≤ length room.new) × (length room.new ≡ length room.old) }
{
    if text.len() <= at {
        return Described {
            letter: 0,
            next: at,
            len: 0,
        };
    }
    let line = up_to(&text[at..], b'\n');
    let end = at + line.len();
    let letter = first(line);
    let len = read_file(line, room);
    let next = if end < text.len() { end + 1 } else { end };
    Described { letter, next, len }
}

// Reads the file that a line describes into room.
#[tactic(auto, using(crate::proofs::Read::file_written, crate::proofs::Read::file_empty, crate::proofs::Read::file_room, crate::proofs::Sizes::file_there))]
fn read_file(line: &[u8], room: &mut [u8]) -> usize
    ensures value { result ≡ length (file_of line.now (length room.old)) }
    ensures room_after { room.new ≡ over (file_of line.now (length room.old)) room.old }
    ensures upper_bound { (result ≤ length room.new) × (length room.new ≡ length room.old) }
{
    let len = file_len(line, room.len()).unwrap_or(0);
    if 0 < len {
        write_items(line, room);
    }
    len
}

// The first byte, or 0.
fn first(s: &[u8]) -> u8
    ensures { result ≡ get_or s.now 0 0 }
{
    s.first().copied().unwrap_or(0)
}

// Where this byte stands first.
fn find(s: &[u8], b: u8) -> Option<usize>
    ensures { result ≡ position (λ x. x == b) s.now }
{
    s.iter().position(|x| *x == b)
}

// What stands before the first such byte; all of it where there is none.
#[tactic(auto, using(crate::proofs::Before::before_laws))]
fn up_to(s: &[u8], b: u8) -> &[u8]
    ensures value { result.now ≡ before b s.now }
    ensures fits { length result.now ≤ length s.now }
{
    match find(s, b) {
        Some(end) => &s[..end],
        None => s,
    }
}

// The item behind the space at the start of a text, and what is left after it.
fn next_item(text: &[u8]) -> Option<(&[u8], &[u8])>
    ensures none { IfNone result (text.now ≡ []) }
    ensures some { IfSome result (λ r. IsNextItem text.now r.0.now r.1.now) }
{
    let (_, more) = text.split_first()?;
    let item = up_to(more, b' ');
    Some((item, &more[item.len()..]))
}

// How many bytes the file of a line has.
#[tactic(auto, using(crate::proofs::Before::items_first, crate::proofs::Before::turn_laws, crate::proofs::Sizes::size_laws))]
fn file_len(line: &[u8], room: usize) -> Option<usize>
    ensures { unwrap_or result 0 ≡ length (file_of line.now room) }
{
    let letter = up_to(line, b' ');
    if letter.len() != 1 {
        return None;
    }
    let mut left = &line[1..];
    let mut len: usize = 0;
    while let Some((item, more)) = next_item(left) {
        len += item_len(item, room - len)?;
        left = more;
    }
    Some(len)
}

// The digits of an item, and how often the bytes that they say stand there.
#[derive(Clone, Copy)]
struct Item<'a> {
    digits: &'a [u8],
    times: usize,
}

// An item of a line. Where no number stands after `*`, its bytes stand there 0 times.
#[tactic(auto, using(crate::proofs::Sizes::times_laws))]
fn item_of(text: &[u8]) -> Item<'_>
    ensures digits { result.digits.now ≡ digits_of text.now }
    ensures times { result.times ≡ times_of text.now }
{
    let digits = up_to(text, b'*');
    let times = match text.get(digits.len() + 1..) {
        Some(number) => decimal(number).unwrap_or(0),
        None => 1,
    };
    Item { digits, times }
}

// How many bytes an item has, where it has some, and there is so much room.
#[tactic(auto, using(crate::proofs::Sizes::item_laws))]
fn item_len(text: &[u8], room: usize) -> Option<usize>
    ensures value { unwrap_or result 0 ≡ item_length text.now room }
    ensures bounds { IfSome result (λ n. (0 < n) × (n ≤ room)) }
{
    let item = item_of(text);
    if !paired(item.digits) {
        return None;
    }
    let len = item.times.checked_mul(item.digits.len() / 2)?;
    if len == 0 || room < len {
        return None;
    }
    Some(len)
}

// A decimal number of at most 65,535.
#[tactic(auto, using(crate::proofs::Digits::decimal_laws))]
fn decimal(s: &[u8]) -> Option<usize>
    ensures { unwrap_or result 0 ≡ decimal_from 0 s.now }
{
    let mut value: usize = 0;
    for b in s {
        let digit = hex_digit(*b)? as usize;
        if 9 < digit {
            return None;
        }
        value = 10 * value + digit;
        if 65535 < value {
            return None;
        }
    }
    Some(value)
}

// Whether these are pairs of hex digits.
#[tactic(auto, using(crate::proofs::Digits::start_laws))]
fn paired(s: &[u8]) -> bool
    ensures { result ≡ paired s.now }
{
    let mut left = s;
    while let [high, low, more @ ..] = left {
        if hex_byte(*high, *low).is_none() {
            return false;
        }
        left = more;
    }
    left.is_empty()
}

// The byte of two hex digits.
#[tactic(auto, using(crate::proofs::Digits::byte_laws))]
fn hex_byte(high: u8, low: u8) -> Option<u8>
    ensures { unwrap_or result 256 ≡ hex_byte high low }
{
    Some(16 * hex_digit(high)? + hex_digit(low)?)
}

// The value of a hex digit.
#[tactic(auto, using(crate::proofs::Digits::digit_laws))]
fn hex_digit(b: u8) -> Option<u8>
    ensures value { unwrap_or result 16 ≡ hex_digit b }
    ensures upper_bound { IfSome result (λ d. d ≤ 15) }
{
    match b {
        b'0'..=b'9' => Some(b - b'0'),
        b'a'..=b'f' => Some(b - b'a' + 10),
        _ => None,
    }
}

// Writes the items of a line, which fit.
fn write_items(line: &[u8], room: &mut [u8])
    requires line_len { length (before 32 line.now) ≡ 1 }
    requires line_value { right (items line.now) ≡ true }
    requires line_in_bounds { length (items_bytes (items line.now)) ≤ length room.old }
    ensures { room.new ≡ over (items_bytes (items line.now)) room.old }
{
    let mut left = &line[1..];
    let mut len: usize = 0;
    while let Some((item, more)) = next_item(left) {
        len += write_item(item, &mut room[len..]);
        left = more;
    }
}

// Writes an item, which fits, and returns how many bytes it has.
fn write_item(text: &[u8], room: &mut [u8]) -> usize
    requires item_value { paired (digits_of text.now) ≡ true }
    requires item_in_bounds { length (item_bytes text.now) ≤ length room.old }
    ensures value { result ≡ length (item_bytes text.now) }
    ensures room_after { room.new ≡ over (item_bytes text.now) room.old }
{
    let item = item_of(text);
    let mut len = 0;
    for _ in 0..item.times {
        len += write_digits(item.digits, &mut room[len..]);
    }
    len
}

// Writes the bytes of pairs of hex digits, which fit, and returns how many they are.
#[tactic(auto, using(crate::proofs::Digits::bytes_none, crate::proofs::Digits::bytes_length, crate::proofs::Put::left_none))]
fn write_digits(digits: &[u8], room: &mut [u8]) -> usize
    requires digits_value { paired digits.now ≡ true }
    requires digits_in_bounds { length (hex_bytes digits.now) ≤ length room.old }
    ensures value { result ≡ length (hex_bytes digits.now) }
    ensures room_after { room.new ≡ over (hex_bytes digits.now) room.old }
{
    let n = digits.len() / 2;
    for i in 0..n {
        let high = hex_digit(digits[2 * i]).unwrap_or(0);
        let low = hex_digit(digits[2 * i + 1]).unwrap_or(0);
        room[i] = 16 * high + low;
    }
    n
}
