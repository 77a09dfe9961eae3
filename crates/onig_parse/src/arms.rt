//! Taking remarks, comments, back references and repeats into a body.

ghost use Rattle.std.specs.Prelude.{◌≡◌, ◌+◌, ◌<◌, ◌≤◌, ◌∷◌, [], Some, None, false, drop, length, not, ◌==◌};
ghost use Rattle.std.specs.List.{prefix_len};
ghost use Rattle.syntax_defs.specs.Reading.{Answers};
ghost use Rattle.syntax_defs.specs.PatternSyntax.{add, adds, behind_comment, comment_length, go_on, number_item, is_lazy, is_possessive, past, quoted_item, reference_item, repeat_at, rest_of, signed, target_by, target_of};
ghost use Rattle.syntax_defs.specs.declared.items.Item.TheVariants as items;
ghost use Rattle.onig_parse.specs.Reading.{GivesStep, GivesNow};
ghost use Rattle.syntax_defs.specs.Limits.{most_repeats, most_pattern_chars};

use crate::body::OpenBody;
use crate::head::{behind, is_number, target_at, word_from};
use crate::reader::Reader;
use crate::sight::{digit_count, number_of, split_digits};
use crate::steps::{is_above, is_below, is_lazy, is_possessive, one_item};
use pattern_defs::Anchor;
use syntax_defs::{Bounds, Item, MOST_COUNT, MOST_REPEATS, Options, PatternRefusal, Span, Target};

/// Up to where a comment reaches whose characters from the `(?#` on are given, where it is closed. A backslash takes
/// the character after it along.
fn comment_length(cs: &[char]) -> Option<usize>
    requires { length cs.now ≤ most_pattern_chars }
    ensures { result ≡ comment_length false 3 cs.now }
{
    let mut escaped = false;
    for (i, c) in cs.iter().enumerate() {
        if escaped {
            escaped = false;
        } else if *c == ')' {
            return Some(i + 4);
        } else {
            escaped = *c == '\\';
        }
    }
    None
}

/// How many characters stand before the end of the line.
fn remark_length(cs: &[char]) -> usize
    ensures { result ≡ prefix_len (λ c. not (c == 10)) cs.now }
{
    cs.iter().take_while(|c| **c != '\n').count()
}

/// The group that a word speaks of, by its number or its name.
fn target_of(text: &[char], span: Span) -> Target
    ensures { result ≡ target_of text.now span }
{
    let word = word_from(text, span.from);
    if is_number(word) {
        Target::Number(number_of(word))
    } else {
        Target::Name(span)
    }
}

impl Reader {
    /// Takes an item of the body that is one node.
    pub(crate) fn take_one(
        &mut self,
        body: &mut OpenBody,
        item: Item,
    ) -> Result<bool, PatternRefusal>
        ensures { GivesStep result body.new self.new (add body.old (item ∷ [], self.old)) }
    {
        body.take_item(one_item(self.alloc(), item)?)?;
        Ok(true)
    }

    pub(crate) fn take_edge(
        &mut self,
        body: &mut OpenBody,
        anchor: Anchor,
        length: usize,
    ) -> Result<bool, PatternRefusal>
        ensures { GivesStep result body.new self.new (add body.old (items.At anchor ∷ [], past length self.old)) }
    {
        self.pass(length);
        self.take_one(body, Item::At(anchor))
    }

    /// Passes over a remark.
    pub(crate) fn pass_remark(&mut self)
        ensures { self.new ≡ past (prefix_len (λ c. not (c == 10)) (rest_of self.old)) self.old }
    {
        let length = remark_length(self.rest());
        self.pass(length);
    }

    /// Passes over a comment.
    pub(crate) fn take_comment(&mut self, body: &OpenBody) -> Result<bool, PatternRefusal>
        ensures { GivesStep result body.now self.new (behind_comment (comment_length false 3 (drop 3 (rest_of self.old))) body.now self.old) }
    {
        match comment_length(behind(self.rest(), 3)) {
            None => Err(self.here().open()),
            Some(count) => {
                self.pass(count);
                Ok(true)
            }
        }
    }

    /// A backslash and a number.
    pub(crate) fn take_number(
        &mut self,
        body: &mut OpenBody,
        options: Options,
    ) -> Result<bool, PatternRefusal>
        ensures { GivesStep result body.new self.new (add body.old (number_item options self.old)) }
    {
        let at = self.place();
        let rest = behind(self.rest(), 1);
        let count = digit_count(rest);
        let number = number_of(split_digits(rest).0);
        self.pass(count + 1);
        let item = Item::Back {
            at,
            target: Target::Number(number),
            fold: options.any_case,
        };
        self.take_one(body, item)
    }

    /// `\k` and a name or a number between quotes, the second of which is given.
    fn take_quoted(
        &mut self,
        body: &mut OpenBody,
        close: char,
        options: Options,
    ) -> Result<bool, PatternRefusal>
        ensures { GivesStep result body.new self.new (adds body.old (quoted_item close options self.old)) }
    {
        let here = self.here();
        let span = target_at(here, close, here.begin + 3, behind(self.rest(), 3))?;
        let target = target_of(self.text(), span);
        self.go_to(span.to + 1);
        let item = Item::Back {
            at: here.begin,
            target,
            fold: options.any_case,
        };
        self.take_one(body, item)
    }

    /// `\k` and what it speaks of.
    pub(crate) fn take_reference(
        &mut self,
        body: &mut OpenBody,
        options: Options,
    ) -> Result<bool, PatternRefusal>
        ensures { GivesStep result body.new self.new (adds body.old (reference_item options (drop 2 (rest_of self.old)) self.old)) }
    {
        match behind(self.rest(), 2) {
            ['<', ..] => self.take_quoted(body, '>', options),
            ['\'', ..] => self.take_quoted(body, '\'', options),
            _ => Err(self.here().left_out()),
        }
    }

    /// The last item repeated, with the sign behind the repeat.
    fn repeat_signed(
        &mut self,
        body: &mut OpenBody,
        bounds: Bounds,
        count: u32,
    ) -> Result<bool, PatternRefusal>
        requires few { count < most_repeats }
        ensures { GivesStep result body.new self.new
            (signed (is_lazy bounds.form (drop bounds.length (rest_of self.old))) (is_possessive bounds.form (drop bounds.length (rest_of self.old))) bounds count body.old self.old) }
    {
        let behind = behind(self.rest(), bounds.length as usize);
        let lazy = is_lazy(bounds.form, behind);
        let possessive = is_possessive(bounds.form, behind);
        match (lazy, possessive) {
            (true, _) => self.plain_repeat(body, bounds, false, 1, count),
            (false, false) => self.plain_repeat(body, bounds, true, 0, count),
            (false, true) => self.possessive_repeat(body, bounds, count),
        }
    }

    /// A repeat of the last item.
    pub(crate) fn take_repeat(
        &mut self,
        body: &mut OpenBody,
        bounds: Bounds,
    ) -> Result<bool, PatternRefusal>
        ensures { GivesStep result body.new self.new (repeat_at bounds body.old.repeats body.old self.old) }
    {
        let Some(count) = body.repeats() else {
            return Err(self.here().bad());
        };
        if bounds.least > MOST_COUNT || is_above(MOST_COUNT, bounds.most) {
            return Err(self.here().bad());
        }
        if count >= MOST_REPEATS {
            return Err(PatternRefusal::TooDeep {
                depth: u64::from(MOST_REPEATS) + 1,
            });
        }
        if is_below(bounds.most, bounds.least) {
            return Err(self.here().left_out());
        }
        self.repeat_signed(body, bounds, count)
    }
}
