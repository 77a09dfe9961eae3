//! The heads of forms in parentheses, and the options that hold within a form.

ghost use Rattle.std.specs.Prelude.{◌≡◌, ◌+◌, ◌*◌, ◌≤◌, drop, length, IfOk};
ghost use Rattle.std.specs.Char.{is_ascii_digit};
ghost use Rattle.std.specs.List.{list_all};
ghost use Rattle.syntax_defs.specs.Reading.{Answers};
ghost use Rattle.syntax_defs.specs.Heads.{angle_head, behind_letters, behind_word, closed_word, head_at, inside, is_name, is_name_or_number, is_number, letter_count, letter_head, letters, minus_head, named_head, option_end, option_head, question_head, switched, with_options, word, word_at, word_count};
ghost use Rattle.syntax_defs.specs.PatternSyntax.{word_from};
ghost use Rattle.syntax_defs.specs.Sights.{is_empty, is_number_start};
ghost use Rattle.syntax_defs.specs.Limits.{most_pattern_chars};

use crate::sight::begins_with;
use char_sets::is_word_char;
use syntax_defs::{Head, Options, PatternRefusal, Span};

/// Where an item begins in its text, and where the text ends.
#[derive(Clone, Copy, Debug, PartialEq, Eq)]
pub(crate) struct Extent {
    pub(crate) begin: usize,
    pub(crate) end: usize,
}

impl Extent {
    /// The item can't be read.
    pub(crate) fn bad(self) -> PatternRefusal
        ensures { result ≡ PatternRefusal.Syntax self.begin }
    {
        PatternRefusal::Syntax {
            at: self.begin as u64,
        }
    }

    /// The text ends within the item.
    pub(crate) fn open(self) -> PatternRefusal
        ensures { result ≡ PatternRefusal.Syntax self.end }
    {
        PatternRefusal::Syntax {
            at: self.end as u64,
        }
    }

    /// The item is of a form that is left out.
    pub(crate) fn left_out(self) -> PatternRefusal
        ensures { result ≡ PatternRefusal.LeftOut self.begin }
    {
        PatternRefusal::LeftOut {
            at: self.begin as u64,
        }
    }
}

fn word_count(cs: &[char]) -> usize
    ensures count { result ≡ word_count cs.now }
    ensures inside { result ≤ length cs.now }
{
    cs.iter().take_while(|c| is_word_char(**c)).count()
}

/// The word characters at the front, and what stands behind them.
fn split_word(cs: &[char]) -> (&[char], &[char])
    ensures short { length result.0.now ≤ length cs.now }
    ensures front { result.0.now ≡ word cs.now }
    ensures back { result.1.now ≡ behind_word cs.now }
{
    cs.split_at(word_count(cs))
}

/// What stands behind so many characters.
pub(crate) fn behind(cs: &[char], count: usize) -> &[char]
    ensures rest { result.now ≡ drop count cs.now }
    ensures shorter { length result.now ≤ length cs.now }
{
    let count = count.min(cs.len());
    &cs[count..]
}

/// The word characters from a place on.
pub(crate) fn word_from(text: &[char], from: usize) -> &[char]
    ensures { result.now ≡ word_from text.now from }
{
    split_word(behind(text, from)).0
}

/// Whether a name may begin so.
fn is_name(word: &[char]) -> bool
    ensures { result ≡ is_name word.now }
{
    match word {
        [] => true,
        [c, ..] => c.is_ascii_alphabetic() || *c == '_',
    }
}

fn is_number_start(c: char) -> bool
    ensures { result ≡ is_number_start c }
{
    matches!(c, '1'..='9')
}

fn are_digits(cs: &[char]) -> bool
    ensures { result ≡ list_all is_ascii_digit cs.now }
{
    cs.iter().all(|c| c.is_ascii_digit())
}

/// Whether a number without leading zero may begin so.
pub(crate) fn is_number(word: &[char]) -> bool
    ensures { result ≡ is_number word.now }
{
    match word {
        [] => true,
        [c, rest @ ..] => is_number_start(*c) && are_digits(rest),
    }
}

/// The place of a word that a character closes.
fn closed_word(
    item: Extent,
    close: char,
    from: usize,
    word: &[char],
    rest: &[char],
) -> Result<Span, PatternRefusal>
    requires from { from ≤ most_pattern_chars + 3 }
    requires word { length word.now ≤ most_pattern_chars }
    ensures place { Answers (λ x. x) result (closed_word close item.begin item.end from word.now rest.now) }
    ensures inside { IfOk result (λ span. span.to ≤ 2 * most_pattern_chars + 3) }
{
    match rest {
        [] => Err(item.open()),
        [c, ..] if *c == close && !word.is_empty() => Ok(Span {
            from,
            to: from + word.len(),
        }),
        _ => Err(item.bad()),
    }
}

/// The place of the name that begins at `from`, up to the character that closes it.
fn name_at(item: Extent, close: char, from: usize, cs: &[char]) -> Result<Span, PatternRefusal>
    requires from { from ≤ most_pattern_chars + 3 }
    requires short { length cs.now ≤ most_pattern_chars }
    ensures place { Answers (λ x. x) result (word_at is_name close item.begin item.end from cs.now) }
    ensures inside { IfOk result (λ span. span.to ≤ 2 * most_pattern_chars + 3) }
{
    let (word, rest) = split_word(cs);
    if is_name(word) {
        closed_word(item, close, from, word, rest)
    } else {
        Err(item.bad())
    }
}

/// The place of the name or the number that begins at `from`, up to the character that closes it.
pub(crate) fn target_at(
    item: Extent,
    close: char,
    from: usize,
    cs: &[char],
) -> Result<Span, PatternRefusal>
    requires from { from ≤ most_pattern_chars + 3 }
    requires short { length cs.now ≤ most_pattern_chars }
    ensures place { Answers (λ x. x) result (word_at is_name_or_number close item.begin item.end from cs.now) }
    ensures inside { IfOk result (λ span. span.to ≤ 2 * most_pattern_chars + 3) }
{
    let (word, rest) = split_word(cs);
    if is_name(word) || is_number(word) {
        closed_word(item, close, from, word, rest)
    } else {
        Err(item.bad())
    }
}

fn letter_count(cs: &[char]) -> usize
    ensures count { result ≡ letter_count cs.now }
    ensures inside { result ≤ length cs.now }
{
    cs.iter()
        .take_while(|c| matches!(**c, 'i' | 'm' | 'x'))
        .count()
}

/// The letters of options at the front, and what stands behind them.
fn split_letters(cs: &[char]) -> (&[char], &[char])
    ensures front { result.0.now ≡ letters cs.now }
    ensures back { result.1.now ≡ behind_letters cs.now }
{
    cs.split_at(letter_count(cs))
}

/// An option after letters that set options, and letters that clear them.
fn switched(letter: char, on: &[char], off: &[char], before: bool) -> bool
    ensures { result ≡ switched letter on.now off.now before }
{
    (before || on.contains(&letter)) && !off.contains(&letter)
}

fn with_options(options: Options, on: &[char], off: &[char]) -> Options
    ensures { result ≡ with_options options on.now off.now }
{
    Options {
        any_case: switched('i', on, off, options.any_case),
        dot_all: switched('m', on, off, options.dot_all),
        spaced: switched('x', on, off, options.spaced),
    }
}

/// What ends the letters of options, at `at`: a `:` or, where they change something, a `)`.
fn option_end(
    item: Extent,
    options: Options,
    changes: bool,
    at: usize,
    rest: &[char],
) -> Result<(Head, usize), PatternRefusal>
    requires { at ≤ 200_000 }
    ensures { Answers (λ x. x) result (option_end options changes item.begin item.end at rest.now) }
{
    match rest {
        [] => Err(item.open()),
        [':', ..] => Ok((Head::Plain(options), at + 1)),
        [')', ..] if changes => Ok((Head::Rest(options), at + 1)),
        _ => Err(item.left_out()),
    }
}

/// The letters behind the `-` of options.
fn minus_head(
    item: Extent,
    options: Options,
    on: &[char],
    cs: &[char],
) -> Result<(Head, usize), PatternRefusal>
    requires begin { item.begin ≤ most_pattern_chars }
    requires on { length on.now ≤ most_pattern_chars }
    requires short { length cs.now ≤ most_pattern_chars }
    ensures { Answers (λ x. x) result (minus_head options on.now item.begin item.end cs.now) }
{
    let (off, rest) = split_letters(cs);
    let at = item.begin + 3 + on.len() + letter_count(cs);
    option_end(item, with_options(options, on, off), true, at, rest)
}

/// The head of a form that changes options, what stands behind its `(?` given.
fn option_head(item: Extent, options: Options, cs: &[char]) -> Result<(Head, usize), PatternRefusal>
    requires begin { item.begin ≤ most_pattern_chars }
    requires short { length cs.now ≤ most_pattern_chars }
    ensures { Answers (λ x. x) result (option_head options item.begin item.end cs.now) }
{
    let (on, rest) = split_letters(cs);
    if let ['-', behind @ ..] = rest {
        return minus_head(item, options, on, behind);
    }
    let at = item.begin + 2 + on.len();
    let changed = with_options(options, on, &[]);
    option_end(item, changed, !on.is_empty(), at, rest)
}

fn named_head(item: Extent, close: char, cs: &[char]) -> Result<(Head, usize), PatternRefusal>
    requires begin { item.begin ≤ most_pattern_chars }
    requires short { length cs.now ≤ most_pattern_chars }
    ensures { Answers (λ x. x) result (named_head close item.begin item.end (item.begin + 3) cs.now) }
{
    let name = name_at(item, close, item.begin + 3, cs)?;
    Ok((Head::Numbered(Some(name)), name.to + 1))
}

/// What stands behind `(?<`.
fn angle_head(item: Extent, cs: &[char]) -> Result<(Head, usize), PatternRefusal>
    requires begin { item.begin ≤ most_pattern_chars }
    requires short { length cs.now ≤ most_pattern_chars }
    ensures { Answers (λ x. x) result (angle_head item.begin item.end cs.now) }
{
    match cs {
        [] => Err(item.open()),
        ['=', ..] => Ok((Head::Behind(true), item.begin + 4)),
        ['!', ..] => Ok((Head::Behind(false), item.begin + 4)),
        _ => named_head(item, '>', cs),
    }
}

/// What stands behind `(?`.
fn question_head(
    item: Extent,
    options: Options,
    cs: &[char],
) -> Result<(Head, usize), PatternRefusal>
    requires begin { item.begin ≤ most_pattern_chars }
    requires short { length cs.now ≤ most_pattern_chars }
    ensures { Answers (λ x. x) result (question_head options item.begin item.end cs.now) }
{
    match cs {
        [] => Err(item.open()),
        ['=', ..] => Ok((Head::Ahead(true), item.begin + 3)),
        ['!', ..] => Ok((Head::Ahead(false), item.begin + 3)),
        ['>', ..] => Ok((Head::Atomic, item.begin + 3)),
        ['<', rest @ ..] => angle_head(item, rest),
        ['\'', rest @ ..] => named_head(item, '\'', rest),
        _ => option_head(item, options, cs),
    }
}

/// The head of the form in parentheses that begins at an item's place, and the place behind the head. What stands
/// behind the `(` is given.
pub(crate) fn head_of(
    item: Extent,
    options: Options,
    cs: &[char],
) -> Result<(Head, usize), PatternRefusal>
    requires begin { item.begin ≤ most_pattern_chars }
    requires short { length cs.now ≤ most_pattern_chars }
    ensures { Answers (λ x. x) result (head_at options item.begin item.end cs.now) }
{
    match cs {
        ['?', rest @ ..] => question_head(item, options, rest),
        _ => Ok((Head::Numbered(None), item.begin + 1)),
    }
}

/// The options that hold within a form.
pub(crate) fn options_inside(head: Head, options: Options) -> Options
    ensures { result ≡ inside head options }
{
    match head {
        Head::Plain(changed) | Head::Rest(changed) => changed,
        _ => options,
    }
}
