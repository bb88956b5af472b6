// The answer lines of a sheet, written into a lent buffer. A call answers the length and leaves the bytes behind as they
// are, or refuses a buffer that is too short and leaves all of it. (There is no heap for a String to lie in.)
ghost use Rattle.std.specs.Prelude.{◌≡◌, ◌≤◌, ◌++◌, length, take};
ghost use Rattle.text.specs.Placed.{placed};
ghost use Rattle.sheet.specs.Answers.{said, number_line, reading_text, verdict_text, refusal_text};

use crate::answer::Answer;
use meter::Verdict;
use refusal::Refusal;
use text::Short;

// Writes the lines of an answer to the front of `out`; 64 bytes are always enough. (Inlined with what it calls: a caller that
// knows which answer it gives then has the code for that one alone.)
#[inline(always)]
pub fn write_answer(answer: Answer, out: &mut [u8]) -> Result<usize, Refusal>
    ensures answer { result ≡ (placed (said answer) out.old).0 }
    ensures after { out.new ≡ (placed (said answer) out.old).1 }
    ensures short { length (said answer) ≤ 64 }
{
    answer_lines(answer).write_to(out)
}

// The lines of an answer, as a text.
#[inline(always)]
pub fn answer_lines(answer: Answer) -> Short
    ensures { result ≡ said answer }
{
    match answer {
        Answer::Reading(low, high) => reading_lines(low, high),
        Answer::Judged(verdict) => verdict_line(verdict),
        Answer::Refused(refusal) => refusal_line(refusal),
    }
}

// The two bounds of a reading, a line each.
fn reading_lines(low: u64, high: u64) -> Short
    ensures { result ≡ reading_text low high }
{
    let mut text = Short::new();
    push_line(&mut text, b"low=", low);
    push_line(&mut text, b"high=", high);
    text
}

// What a reading says of a mark.
fn verdict_line(verdict: Verdict) -> Short
    ensures { result ≡ verdict_text verdict }
{
    let mut text = Short::new();
    text.push(b"mark=");
    match verdict {
        Verdict::Above => text.push(b"above"),
        Verdict::Below => text.push(b"below"),
        Verdict::Open => text.push(b"open"),
    }
    text.push(b"\n");
    text
}

// The number of a refusal.
fn refusal_line(refusal: Refusal) -> Short
    ensures { result ≡ refusal_text refusal }
{
    let mut text = Short::new();
    push_line(&mut text, b"refused=", u64::from(refusal.number()));
    text
}

// Puts a line with a number at the end of `text`. Not by `write!`: its contract tells the bytes only for Ok, and not that it
// answers Ok.
fn push_line(text: &mut Short, name: &[u8], n: u64)
    ensures { text.new ≡ take 64 (text.old ++ number_line name.now n) }
{
    text.push(name);
    text.push_number(n);
    text.push(b"\n");
}
