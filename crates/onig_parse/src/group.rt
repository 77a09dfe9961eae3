//! Bodies and forms in parentheses.

ghost use Rattle.std.specs.Prelude.{◌≡◌, ◌+◌, ◌-◌, ◌≤◌, ◌<◌, ◌∷◌, [], Some, None, IfOk, drop, length};
ghost use Rattle.syntax_defs.specs.Reading.{Answers};
ghost use Rattle.syntax_defs.specs.PatternSyntax.{add, adds, body_at, closed, closed_by, empty_body, group_at, made, no_options, opened, parse, parsed_of, rest_of, single_item, start, step, step_by, steps, whole_by};
ghost use Rattle.onig_parse.specs.Reading.{GivesStep, GivesNow, GivesPlace};
ghost use Rattle.syntax_defs.specs.Limits.{most_levels};

use crate::body::OpenBody;
use crate::head::{Extent, behind, head_of, options_inside};
use crate::kept::KeptClass;
use crate::reader::Reader;
use crate::sight::sight_of;
use crate::single::read_single;
use crate::steps::one_item;
use char_sets::NamedSets;
use std::alloc::AllocError;
use syntax_defs::{Head, Item, MOST_LEVELS, Options, PatternRefusal, Sight};

impl Reader {
    /// What the head of a form does. A second group of one name is left out.
    fn begin_form(&mut self, here: Extent, head: Head) -> Result<(), PatternRefusal>
        ensures { GivesPlace result self.new (opened head here.begin self.old) }
    {
        let Head::Numbered(name) = head else {
            return Ok(());
        };
        if let Some(name) = name
            && self.has_name(name)
        {
            return Err(here.left_out());
        }
        self.begin_group(name)?;
        Ok(())
    }

    /// The `)` of a form.
    fn take_close(&mut self) -> Result<(), PatternRefusal>
        ensures { GivesPlace result self.new (closed_by (rest_of self.old) self.old) }
    {
        if self.rest().is_empty() {
            return Err(self.here().open());
        }
        self.pass(1);
        Ok(())
    }

    /// The end of a form, which the rest of an enclosing one has not.
    fn end_form(&mut self, head: Head) -> Result<(), PatternRefusal>
        ensures { GivesPlace result self.new (closed head self.old) }
    {
        match head {
            Head::Rest(_) => Ok(()),
            _ => self.take_close(),
        }
    }

    /// The items of a form that has ended.
    fn made(
        &mut self,
        head: Head,
        number: u32,
        begin: usize,
        body: OpenBody,
    ) -> Result<Vec<Item>, AllocError>
        ensures { IfOk result (λ items. made head number begin body self.old ≡ (items.items, self.new)) }
    {
        let alloc = self.alloc();
        let item = match head {
            Head::Plain(_) | Head::Rest(_) => return self.body_items(body),
            Head::Behind(wanted) => Item::Behind {
                at: begin,
                arms: self.body_arms(body)?,
                wanted,
            },
            Head::Numbered(_) => Item::Group {
                number,
                body: self.body_list(body)?,
            },
            Head::Ahead(wanted) => Item::Ahead {
                body: self.body_list(body)?,
                wanted,
            },
            Head::Atomic => Item::Atomic(self.body_list(body)?),
        };
        one_item(alloc, item)
    }

    /// A single character or a set.
    fn take_single(
        &mut self,
        sets: &mut NamedSets,
        body: &mut OpenBody,
        options: Options,
        depth: u32,
    ) -> Result<bool, PatternRefusal>
        requires { depth ≤ most_levels }
        ensures { GivesStep result body.new self.new (adds body.old (single_item options depth self.old)) }
    {
        let at = self.place();
        let (set, next) = read_single(self.alloc(), sets, self.text(), at, options, depth)?;
        self.keep_class(KeptClass {
            at,
            options,
            depth,
            set,
        })?;
        self.go_to(next);
        self.take_one(body, Item::One { at, options, depth })
    }

    /// The items of the form in parentheses that begins here. So many forms may open in it, one in another.
    #[cycle(forms)]
    fn group(
        &mut self,
        sets: &mut NamedSets,
        options: Options,
        levels: u32,
    ) -> Result<Vec<Item>, PatternRefusal>
        requires { levels ≤ most_levels }
        ensures { GivesNow (λ items. items.items) result self.new (group_at (body_at levels) options self.old) }
    {
        let here = self.here();
        let (head, next) = head_of(here, options, behind(self.rest(), 1))?;
        self.go_to(next);
        self.begin_form(here, head)?;
        let number = self.groups();
        let body = self.body(sets, options_inside(head, options), levels)?;
        self.end_form(head)?;
        Ok(self.made(head, number, here.begin, body)?)
    }

    /// A form in parentheses.
    #[cycle(forms)]
    fn take_group(
        &mut self,
        sets: &mut NamedSets,
        body: &mut OpenBody,
        options: Options,
        levels: u32,
    ) -> Result<bool, PatternRefusal>
        requires { levels ≤ most_levels }
        ensures { GivesStep result body.new self.new (adds body.old (group_at (body_at levels) options self.old)) }
    {
        let items = self.group(sets, options, levels)?;
        body.take_item(items)?;
        Ok(true)
    }

    /// What stands here; whether the body goes on behind it.
    #[cycle(forms)]
    fn step(
        &mut self,
        sets: &mut NamedSets,
        body: &mut OpenBody,
        options: Options,
        levels: u32,
    ) -> Result<bool, PatternRefusal>
        requires { levels ≤ most_levels }
        ensures { GivesStep result body.new self.new (step (body_at levels) levels options body.old self.old) }
    {
        match sight_of(options, self.rest()) {
            Sight::End | Sight::Close => Ok(false),
            Sight::Bar => self.take_bar(body),
            Sight::Blank => {
                self.pass(1);
                Ok(true)
            }
            Sight::Remark => {
                self.pass_remark();
                Ok(true)
            }
            Sight::Comment => self.take_comment(body),
            Sight::Repeat(bounds) => self.take_repeat(body, bounds),
            Sight::Open => self.take_group(sets, body, options, levels),
            Sight::Edge { anchor, length } => self.take_edge(body, anchor, length),
            Sight::Number => self.take_number(body, options),
            Sight::Reference => self.take_reference(body, options),
            Sight::Single => self.take_single(sets, body, options, MOST_LEVELS - levels),
        }
    }

    /// The body of a form, up to its `)` or the end of the text.
    #[cycle(forms)]
    pub(crate) fn body(
        &mut self,
        sets: &mut NamedSets,
        options: Options,
        levels: u32,
    ) -> Result<OpenBody, PatternRefusal>
        requires { levels ≤ most_levels + 1 }
        ensures { GivesNow (λ body. body) result self.new (body_at levels options self.old) }
    {
        if levels == 0 {
            return Err(PatternRefusal::TooDeep {
                depth: u64::from(MOST_LEVELS) + 1,
            });
        }
        let mut body = OpenBody::new(self.alloc());
        let mut left = self.text().len() + 1;
        while left > 0 {
            left -= 1;
            if !self.step(sets, &mut body, options, levels - 1)? {
                return Ok(body);
            }
        }
        Err(self.here().bad())
    }
}
