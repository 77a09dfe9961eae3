//! Answers to questions about a text: from its rows, its tokens and its characters.

ghost use Rattle.std.specs.Prelude.{◌≡◌, ◌<◌, ◌≤◌, ◌^◌, List, true, None, length, IfOk};
ghost use Rattle.text_defs.specs.Text.{line_count, line_of};
ghost use Rattle.scope_defs.specs.Frames.{Token};
ghost use Rattle.answer_defs.specs.Answers.{answer_among, question_refusal};
ghost use Rattle.answer_defs.specs.TokenAnswers.{tokens_in, type_number};
ghost use Rattle.document.specs.RowQuestions.{asks_for_rows};

use answer_defs::{Answer, MOST_TAB, Question, TypedToken, TypedTokens};
use line_text::Text;
use pair_queries::{around, brackets, guides, jump, level_at, match_at, pairs};
use pairing_defs::Row;
use scope_defs::StdType;
use scope_stack::Token;
use std::alloc::{AllocError, Global};
use text_pos::Chars;

/// The number of a standard type.
fn type_number(kind: StdType) -> u32
    ensures { result ≡ type_number kind }
{
    match kind {
        StdType::Other => 0,
        StdType::Comment => 1,
        StdType::Text => 2,
        StdType::RegEx => 3,
    }
}

/// Tokens as they are answered. They share their scopes.
pub(crate) fn typed_tokens(alloc: Global, tokens: &[Token]) -> Result<TypedTokens, AllocError>
    ensures { IfOk result (λ typed. typed ≡ tokens_in tokens.now) }
{
    let mut typed = TypedTokens::new(alloc);
    for token in tokens {
        typed.push(TypedToken {
            from: token.from,
            to: token.to,
            scopes: token.scopes.copy()?,
            kind: type_number(token.scopes.std_type()),
        })?;
    }
    Ok(typed)
}

/// The characters of line n.
pub(crate) fn line_chars(alloc: Global, text: &Text, n: u32) -> Result<Chars, AllocError>
    requires { n < line_count text.now }
    ensures { IfOk result (λ chars. chars ≡ line_of text.now n) }
{
    Chars::of(alloc, text.line(n).chars())
}

/// The answer to a question, of the rows of a text. Tokens play no part in it.
pub(crate) fn answer_of_rows(
    alloc: Global,
    rows: &[Row],
    text: &Text,
    tab: u32,
    question: &Question,
) -> Result<Answer, AllocError>
    requires of_rows { asks_for_rows question.now ≡ true }
    requires answered { question_refusal text.now question.now ≡ None }
    requires few { length rows.now < 2 ^ 32 }
    requires some_columns { 1 ≤ tab }
    requires few_columns { tab ≤ MOST_TAB }
    ensures { IfOk result (λ a. (tokens : List (List Token)) → a ≡ answer_among tab rows.now tokens text.now question.now) }
{
    match *question {
        Question::Brackets { from, to } => Ok(Answer::Brackets(brackets(alloc, rows, from, to)?)),
        Question::Pairs { from, to } => Ok(Answer::Pairs(pairs(alloc, rows, from, to)?)),
        Question::Guides { from, to } => {
            Ok(Answer::Guides(guides(alloc, rows, text, tab, from, to)?))
        }
        Question::Tokens { .. } | Question::Line { .. } => unreachable!(),
        Question::Match { at } => Ok(Answer::Match(match_at(rows, at))),
        Question::Around { at } => Ok(Answer::Around(around(rows, at))),
        Question::Jump { at } => Ok(Answer::Jump(jump(rows, at))),
        Question::Level { at } => Ok(Answer::Level(level_at(rows, at))),
    }
}
