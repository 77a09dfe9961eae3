//! Why a question about a text has no answer: its lines are tested before its places.

ghost use Rattle.std.specs.Prelude.{◌≡◌};
ghost use Rattle.answer_defs.specs.Answers.{is_range, line_refusal, place_refusal, question_refusal, range_refusal};

use answer_defs::{MOST_LINES_OF_A_QUESTION, Question, QuestionRefusal};
use line_text::Text;
use text_pos::Pos;

/// Why a question about a text has no answer, if it has none.
pub(crate) fn question_refusal(text: &Text, question: &Question) -> Option<QuestionRefusal>
    ensures { result ≡ question_refusal text.now question.now }
{
    match *question {
        Question::Brackets { from, to }
        | Question::Pairs { from, to }
        | Question::Guides { from, to } => range_refusal(text, from, to),
        Question::Tokens { line } | Question::Line { line } => line_refusal(text, line),
        Question::Match { at }
        | Question::Around { at }
        | Question::Jump { at }
        | Question::Level { at } => place_refusal(text, at),
    }
}

/// Why a range of lines is refused.
fn range_refusal(text: &Text, from: u32, to: u32) -> Option<QuestionRefusal>
    ensures { result ≡ range_refusal text.now from to }
{
    let lines = text.lines();
    if is_range(lines, from, to) {
        None
    } else {
        Some(no_line(lines))
    }
}

/// Why a line is refused.
fn line_refusal(text: &Text, line: u32) -> Option<QuestionRefusal>
    ensures { result ≡ line_refusal text.now line }
{
    let lines = text.lines();
    if line < lines {
        None
    } else {
        Some(no_line(lines))
    }
}

fn no_line(lines: u32) -> QuestionRefusal
    ensures { result ≡ QuestionRefusal.Line lines }
{
    QuestionRefusal::Line {
        lines: u64::from(lines),
    }
}

/// Why a place is refused: its line is tested first.
fn place_refusal(text: &Text, at: Pos) -> Option<QuestionRefusal>
    ensures { result ≡ place_refusal text.now at }
{
    if at.line >= text.lines() {
        return line_refusal(text, at.line);
    }
    let length = text.line(at.line).chars().len() as u64;
    if u64::from(at.col) <= length {
        None
    } else {
        Some(QuestionRefusal::Place { length })
    }
}

/// Whether these lines, of so many, may be asked for.
fn is_range(lines: u32, from: u32, to: u32) -> bool
    ensures { result ≡ is_range lines from to }
{
    from <= to && to < lines && to - from < MOST_LINES_OF_A_QUESTION
}
