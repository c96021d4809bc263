// The verdict's answer as the one line that is printed (01, "`verdict` .. prints one line").
//
// Owns: the words, the digits, the spaces and the line feed. Must not own: what the answer is, where the line goes.
// Defends: any answer at all has exactly its line, and nothing stands after it.
#![tactic(auto)]

pub mod columns;
pub mod telling;
mod text;
pub mod words;

ghost use Rattle.std.specs.Prelude.{◌≡◌, [], ◌∷◌, ◌++◌, ◌+◌, ◌≤◌, ◌<◌, length};
ghost use Rattle.endings.specs.Endings.{ending_word};
ghost use Rattle.lines.specs.Line.{decimal, spaced, line_of, Holds};
ghost use Rattle.lines.specs.Words.{version_line};

use endings::Ending;
use histories::{Accepted, Answer, Refused};
pub use text::Text;

// A line has room for the longest that any answer has.
pub type Line = Text<128>;

impl Line {
    // The digits of a number: those of the number divided by ten, where that is not 0, then the last one.
    pub(crate) fn number(&mut self, n: u64)
        requires { length self.old + length (decimal n) ≤ 128 }
        ensures value { self.new ≡ self.old ++ decimal n }
        ensures len_bound { length self.new ≤ length self.old + 20 }
    {
        if n >= 10 {
            self.number(n / 10);
        }
        self.push(48 + (n % 10) as u8);
    }

    // A number and the byte that ends its field.
    #[tactic(auto, using(crate::proofs::Decimal::twenty))]
    fn field(&mut self, n: u64, end: u8)
        requires { length self.old + 21 ≤ 128 }
        ensures value { self.new ≡ self.old ++ (decimal n ++ end ∷ []) }
        ensures len_bound { length self.new ≤ length self.old + 21 }
    {
        self.number(n);
        self.push(end);
    }

    // The last three fields, which are numbers in every line.
    fn numbers(&mut self, a: u64, b: u64, c: u64)
        requires { length self.old + 63 ≤ 128 }
        ensures value { self.new ≡ self.old ++ spaced (decimal a ∷ decimal b ∷ decimal c ∷ []) }
        ensures len_bound { length self.new ≤ length self.old + 63 }
    {
        self.field(a, b' ');
        self.field(b, b' ');
        self.field(c, b'\n');
    }

    pub(crate) fn word(&mut self, ending: Ending)
        requires { length self.old + 9 ≤ 128 }
        ensures value { self.new ≡ self.old ++ ending_word ending }
        ensures len_bound { length self.new ≤ length self.old + 9 }
    {
        match ending {
            Ending::Unstarted => self.write(b"unstarted"),
            Ending::Due => self.write(b"due"),
            Ending::Done => self.write(b"done"),
            Ending::Open => self.write(b"open"),
            Ending::Finished => self.write(b"finished"),
        }
    }
}

#[tactic(auto, unfolding(crate::specs::Line::line_of))]
fn accepted(answer: Accepted) -> Line
    ensures { Holds result (line_of (Ok answer)) }
{
    let mut line = Line::empty();
    line.write(b"ok ");
    line.word(answer.ending);
    line.push(b' ');
    line.field(answer.stop, b' ');
    line.numbers(answer.records, answer.calls, answer.failed);
    line
}

#[tactic(auto, unfolding(crate::specs::Line::line_of))]
fn refused(answer: Refused) -> Line
    ensures { Holds result (line_of (Err answer)) }
{
    let mut line = Line::empty();
    line.write(b"no ");
    line.field(answer.number, b' ');
    line.numbers(answer.place, answer.divergence, answer.calls);
    line
}

// The line of an answer.
pub fn line_of(answer: Answer) -> Line
    ensures { Holds result (line_of answer) }
{
    match answer {
        Ok(answer) => accepted(answer),
        Err(answer) => refused(answer),
    }
}

// The version, as both programs print it.
pub fn version() -> Line
    ensures { Holds result version_line }
{
    let mut line = Line::empty();
    line.write(b"hiskurdo 0.2.0\n");
    line
}
