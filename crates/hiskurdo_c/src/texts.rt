// The verdict as text in a lent buffer, and the version, for Rust or C.
ghost use Rattle.std.specs.Prelude.{◌≡◌};
ghost use Rattle.resume.specs.Verdict.{verdict_rule};
ghost use Rattle.lines.specs.Line.{line_of};
ghost use Rattle.lines.specs.Words.{version_line};
ghost use Rattle.hiskurdo.specs.Texts.{lent, words_for, Sized, version_number, version_text};

use hiskurdo::texts;

// The verdict's line, with its line feed.
#[unsafe(no_mangle)]
pub extern "C" fn hiskurdo_verdict_line(journal: &[u8], plan: &[u8], text: &mut [u8]) -> u64
    ensures text_after { (result, text.new) ≡ lent (line_of (verdict_rule journal.now plan.now)) text.old }
    ensures sized { Sized (line_of (verdict_rule journal.now plan.now)) }
{
    texts::hiskurdo_verdict_line(journal, plan, text)
}

// What the verdict means in plain words, without a line feed.
#[unsafe(no_mangle)]
pub extern "C" fn hiskurdo_verdict_words(journal: &[u8], plan: &[u8], text: &mut [u8]) -> u64
    ensures text_after { (result, text.new) ≡ lent (words_for journal.now plan.now) text.old }
    ensures sized { Sized (words_for journal.now plan.now) }
{
    texts::hiskurdo_verdict_words(journal, plan, text)
}

// The version in one number, as the programs print it in text.
#[unsafe(no_mangle)]
pub extern "C" fn hiskurdo_version() -> u64
    ensures value { result ≡ version_number 0 2 0 }
    ensures version_text_value { version_text 0 2 0 ≡ version_line }
{
    texts::hiskurdo_version()
}
