// The verdict as text in a lent buffer, and the version, for Rust or C.
//
// Owns: what becomes of the buffer. Must not own: the line, the words, the version's text.
// Defends: the whole text or nothing, and no byte beyond it is touched.
ghost use Rattle.std.specs.Prelude.{◌≡◌, ◌≤◌, length};
ghost use Rattle.resume.specs.Verdict.{verdict_rule};
ghost use Rattle.lines.specs.Line.{line_of};
ghost use Rattle.lines.specs.Words.{version_line};
ghost use Rattle.hiskurdo.specs.Texts.{lent, words_for, Sized, version_number, version_text};

use lines::Line;

// The text at the start of the buffer, or nothing where it does not fit; how many bytes were written.
#[tactic(auto, unfolding(crate::specs::Texts::lent))]
fn lend(room: &mut [u8], text: &[u8]) -> u64
    ensures { (result, room.new) ≡ lent text.now room.old }
{
    if room.len() < text.len() {
        return 0;
    }
    room[..text.len()].copy_from_slice(text);
    text.len() as u64
}

fn lend_line(room: &mut [u8], line: Line) -> u64
    ensures room_after { (result, room.new) ≡ lent line room.old }
    ensures len_bound { length line ≤ 128 }
{
    lend(room, line.as_bytes())
}

// The verdict's line, with its line feed.
pub fn hiskurdo_verdict_line(journal: &[u8], plan: &[u8], text: &mut [u8]) -> u64
    ensures text_after { (result, text.new) ≡ lent (line_of (verdict_rule journal.now plan.now)) text.old }
    ensures sized { Sized (line_of (verdict_rule journal.now plan.now)) }
{
    lend_line(text, lines::line_of(resume::verdict(journal, plan)))
}

// What the verdict means in plain words, without a line feed.
pub fn hiskurdo_verdict_words(journal: &[u8], plan: &[u8], text: &mut [u8]) -> u64
    ensures text_after { (result, text.new) ≡ lent (words_for journal.now plan.now) text.old }
    ensures sized { Sized (words_for journal.now plan.now) }
{
    let answer = resume::verdict(journal, plan);
    let telling = lines::telling::telling(journal, plan, answer);
    lend_line(text, lines::words::words_of(answer, telling))
}

// The version in one number, as the programs print it in text.
pub fn hiskurdo_version() -> u64
    ensures value { result ≡ version_number 0 2 0 }
    ensures version_text_value { version_text 0 2 0 ≡ version_line }
{
    2000
}
