// The row of a run folder with these files' bytes.
//
// Owns: the fields and what ends them, the name as it is shown. Must not own: the verdict, the words, where the row goes.
// Defends: no byte of a folder's name ends its field or the row.
ghost use Rattle.std.specs.Prelude.{◌≡◌, ◌++◌, ◌+◌, ◌≤◌, length};
ghost use Rattle.lines.specs.Words.{resume_of, words_of};
ghost use Rattle.index.specs.Row.{cleaned, ended, printed, answer_fields, row_of};

use histories::Answer;
use lines::Text;
use lines::words::Telling;

// A row has room for the longest path of a folder and three lines.
pub(crate) type Row = Text<4608>;

// Bytes for which the row has room.
fn put(row: &mut Row, bytes: &[u8])
    requires { length row.old + length bytes.now ≤ 4608 }
    ensures { row.new ≡ row.old ++ bytes.now }
{
    row.add(bytes);
}

// A field, and the byte that ends it.
fn field(row: &mut Row, text: &[u8], last: u8)
    requires { length row.old + length text.now + 1 ≤ 4608 }
    ensures { row.new ≡ row.old ++ ended text.now last }
{
    put(row, text);
    put(row, &[last]);
}

// The folder's name, as the first field. It is put whole: byte after byte, a long name took most of the row's time.
fn name_field(row: &mut Row, name: &[u8])
    requires { length row.old + length name.now + 1 ≤ 4608 }
    ensures { row.new ≡ row.old ++ ended (cleaned name.now) 9 }
{
    let mut shown = [0u8; 4608];
    for i in 0..name.len() {
        shown[i] = file_bytes::names::clean(name[i]);
    }
    put(row, &shown[..name.len()]);
    put(row, b"\t");
}

fn resume_field(row: &mut Row, answer: Answer)
    requires { length row.old + 129 ≤ 4608 }
    ensures value { row.new ≡ row.old ++ ended (resume_of answer) 9 }
    ensures len_bound { length row.new ≤ length row.old + 129 }
{
    let line = lines::words::resume_of(answer);
    field(row, line.as_bytes(), b'\t');
}

// The verdict's line without its line feed.
#[tactic(auto, using(lines::proofs::Laws::line_some))]
fn verdict_field(row: &mut Row, answer: Answer)
    requires { length row.old + 129 ≤ 4608 }
    ensures value { row.new ≡ row.old ++ ended (printed answer) 9 }
    ensures len_bound { length row.new ≤ length row.old + 129 }
{
    let line = lines::line_of(answer);
    let bytes = line.as_bytes();
    field(row, &bytes[..bytes.len() - 1], b'\t');
}

fn words_field(row: &mut Row, answer: Answer, telling: Telling)
    requires { length row.old + 129 ≤ 4608 }
    ensures value { row.new ≡ row.old ++ ended (words_of answer telling) 10 }
    ensures len_bound { length row.new ≤ length row.old + 129 }
{
    let line = lines::words::words_of(answer, telling);
    field(row, line.as_bytes(), b'\n');
}

// The fields after the name.
fn answer_fields(row: &mut Row, answer: Answer, telling: Telling)
    requires { length row.old + 387 ≤ 4608 }
    ensures { row.new ≡ row.old ++ answer_fields answer telling }
{
    resume_field(row, answer);
    verdict_field(row, answer);
    words_field(row, answer, telling);
}

// The row of a folder with these two files.
#[tactic(auto, unfolding(crate::specs::Row::row_of))]
pub(crate) fn row(name: &[u8], journal: &[u8], plan: &[u8]) -> Row
    requires { length name.now ≤ 4096 }
    ensures { result ≡ row_of name.now journal.now plan.now }
{
    let answer = resume::verdict(journal, plan);
    let telling = lines::telling::telling(journal, plan, answer);
    let mut row = Text::empty();
    name_field(&mut row, name);
    answer_fields(&mut row, answer, telling);
    row
}
