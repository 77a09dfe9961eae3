//! Items of a pattern text, before it is known which groups the text has, and what stands at a place of it.

use pattern_defs::{Anchor, ListId, ListIds};

/// The options that hold at a place of a pattern text: letters in any ASCII case, the dot for any character, and
/// blanks and remarks that are passed over.
#[derive(Clone, Copy, Debug, PartialEq, Eq)]
pub struct Options {
    pub any_case: bool,
    pub dot_all: bool,
    pub spaced: bool,
}

/// Part of a pattern text, in characters.
#[derive(Clone, Copy, Debug, PartialEq, Eq)]
pub struct Span {
    pub from: usize,
    pub to: usize,
}

/// A group with a name.
#[derive(Clone, Copy, Debug, PartialEq, Eq)]
pub struct GroupName {
    pub name: Span,
    pub number: u32,
}

/// Which group a back reference speaks of.
#[derive(Clone, Copy, Debug, PartialEq, Eq)]
pub enum Target {
    Number(u32),
    Name(Span),
}

/// One item of a pattern text, before it is known which groups the text has. The items in it stand in numbered lists.
#[derive(Debug, Drop)]
pub enum Item {
    /// A single character or a set of characters, at this place of the text and inside so many forms.
    One {
        at: usize,
        options: Options,
        depth: u32,
    },
    At(Anchor),
    Choice(ListIds),
    Group {
        number: u32,
        body: ListId,
    },
    Repeat {
        body: ListId,
        least: u32,
        most: Option<u32>,
        greedy: bool,
    },
    Ahead {
        body: ListId,
        wanted: bool,
    },
    /// Lookbehind, which begins at this place of the text.
    Behind {
        at: usize,
        arms: ListIds,
        wanted: bool,
    },
    Atomic(ListId),
    /// A back reference, which begins at this place of the text.
    Back {
        at: usize,
        target: Target,
        fold: bool,
    },
}

/// Which signs may follow a repeat: any after `? * +`, none after `{n}`, and `?` after another interval.
#[derive(Clone, Copy, Debug, PartialEq, Eq)]
pub enum Form {
    Sign,
    Count,
    Interval,
}

/// A repeat's bounds, and how many characters it has. A million stands for each greater number.
#[derive(Clone, Copy, Debug, PartialEq, Eq)]
pub struct Bounds {
    pub least: u32,
    pub most: Option<u32>,
    pub form: Form,
    pub length: u32,
}

/// What stands at a place of a pattern text.
#[derive(Clone, Copy, Debug, PartialEq, Eq)]
pub enum Sight {
    End,
    Bar,
    Close,
    /// One character that is passed over.
    Blank,
    /// A remark up to the end of its line.
    Remark,
    Comment,
    Repeat(Bounds),
    Open,
    /// An anchor of so many characters.
    Edge { anchor: Anchor, length: usize },
    /// A backslash and a number.
    Number,
    /// A backslash and `k`.
    Reference,
    /// A single character or a set.
    Single,
}

/// What the head of a form in parentheses opens.
#[derive(Clone, Copy, Debug, PartialEq, Eq)]
pub enum Head {
    /// A numbered group, with a name where there is one.
    Numbered(Option<Span>),
    Plain(Options),
    /// The rest of the enclosing group or pattern.
    Rest(Options),
    Ahead(bool),
    Behind(bool),
    Atomic,
}
