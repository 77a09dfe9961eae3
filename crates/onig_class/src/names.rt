//! The sets that names in brackets and properties stand for.

ghost use Rattle.std.specs.Prelude.{◌≡◌, ◌≤◌, ◌^◌, length, codes, IfOk};
ghost use Rattle.std.specs.Option.{option_map, option_or};
ghost use Rattle.std.specs.Str.{bytes_eq};
ghost use Rattle.syntax_defs.specs.Escapes.{first_names, further_names, named_bracket, group_by_word, group_by_letter, letter_by, mark_by, number_by, punctuation_by, symbol_by, separator_by, other_by, category_by, is_passed_over, plain_name, by_plain_name, with_sign, named_property, property_by};

use char_sets::NamedSet;
use std::alloc::{AllocError, Global};
use unicode::properties::{GeneralCategory, GeneralCategoryGroup};

/// Whether a name is this text.
fn is_text(name: &[char], text: &[u8]) -> bool
    ensures { result ≡ bytes_eq name.now text.now }
{
    match (name, text) {
        ([], []) => true,
        ([c, name @ ..], [b, text @ ..]) => *c as u32 == *b as u32 && is_text(name, text),
        _ => false,
    }
}

fn first_names(name: &[char]) -> Option<NamedSet>
    ensures { result ≡ first_names name.now }
{
    if is_text(name, b"digit") {
        Some(NamedSet::Digit)
    } else if is_text(name, b"word") {
        Some(NamedSet::Word)
    } else if is_text(name, b"space") {
        Some(NamedSet::Space)
    } else if is_text(name, b"xdigit") {
        Some(NamedSet::Xdigit)
    } else if is_text(name, b"alpha") {
        Some(NamedSet::Alpha)
    } else if is_text(name, b"alnum") {
        Some(NamedSet::Alnum)
    } else if is_text(name, b"upper") {
        Some(NamedSet::Upper)
    } else {
        None
    }
}

fn further_names(name: &[char]) -> Option<NamedSet>
    ensures { result ≡ further_names name.now }
{
    if is_text(name, b"lower") {
        Some(NamedSet::Lower)
    } else if is_text(name, b"blank") {
        Some(NamedSet::Blank)
    } else if is_text(name, b"cntrl") {
        Some(NamedSet::Cntrl)
    } else if is_text(name, b"punct") {
        Some(NamedSet::Punct)
    } else if is_text(name, b"graph") {
        Some(NamedSet::Graph)
    } else if is_text(name, b"print") {
        Some(NamedSet::Print)
    } else if is_text(name, b"ascii") {
        Some(NamedSet::Ascii)
    } else {
        None
    }
}

/// The set that has this name in a bracket, as `[:alpha:]`.
#[tactic(auto, unfolding(syntax_defs::specs::Escapes::named_bracket))]
pub(crate) fn named_bracket(name: &[char]) -> Option<NamedSet>
    ensures { result ≡ named_bracket name.now }
{
    first_names(name).or(further_names(name))
}

fn group_by_word(name: &[char]) -> Option<GeneralCategoryGroup>
    ensures { result ≡ group_by_word name.now }
{
    if is_text(name, b"letter") {
        Some(GeneralCategoryGroup::Letter)
    } else if is_text(name, b"mark") {
        Some(GeneralCategoryGroup::Mark)
    } else if is_text(name, b"number") {
        Some(GeneralCategoryGroup::Number)
    } else if is_text(name, b"punctuation") {
        Some(GeneralCategoryGroup::Punctuation)
    } else if is_text(name, b"symbol") {
        Some(GeneralCategoryGroup::Symbol)
    } else if is_text(name, b"separator") {
        Some(GeneralCategoryGroup::Separator)
    } else if is_text(name, b"other") {
        Some(GeneralCategoryGroup::Other)
    } else {
        None
    }
}

fn group_by_letter(a: char) -> Option<GeneralCategoryGroup>
    ensures { result ≡ group_by_letter a }
{
    match a {
        'l' => Some(GeneralCategoryGroup::Letter),
        'm' => Some(GeneralCategoryGroup::Mark),
        'n' => Some(GeneralCategoryGroup::Number),
        'p' => Some(GeneralCategoryGroup::Punctuation),
        's' => Some(GeneralCategoryGroup::Symbol),
        'z' => Some(GeneralCategoryGroup::Separator),
        'c' => Some(GeneralCategoryGroup::Other),
        _ => None,
    }
}

fn letter_by(b: char) -> Option<GeneralCategory>
    ensures { result ≡ letter_by b }
{
    match b {
        'u' => Some(GeneralCategory::UppercaseLetter),
        'l' => Some(GeneralCategory::LowercaseLetter),
        't' => Some(GeneralCategory::TitlecaseLetter),
        'm' => Some(GeneralCategory::ModifierLetter),
        'o' => Some(GeneralCategory::OtherLetter),
        _ => None,
    }
}

fn mark_by(b: char) -> Option<GeneralCategory>
    ensures { result ≡ mark_by b }
{
    match b {
        'n' => Some(GeneralCategory::NonspacingMark),
        'c' => Some(GeneralCategory::SpacingMark),
        'e' => Some(GeneralCategory::EnclosingMark),
        _ => None,
    }
}

fn number_by(b: char) -> Option<GeneralCategory>
    ensures { result ≡ number_by b }
{
    match b {
        'd' => Some(GeneralCategory::DecimalNumber),
        'l' => Some(GeneralCategory::LetterNumber),
        'o' => Some(GeneralCategory::OtherNumber),
        _ => None,
    }
}

fn punctuation_by(b: char) -> Option<GeneralCategory>
    ensures { result ≡ punctuation_by b }
{
    match b {
        'c' => Some(GeneralCategory::ConnectorPunctuation),
        'd' => Some(GeneralCategory::DashPunctuation),
        's' => Some(GeneralCategory::OpenPunctuation),
        'e' => Some(GeneralCategory::ClosePunctuation),
        'i' => Some(GeneralCategory::InitialPunctuation),
        'f' => Some(GeneralCategory::FinalPunctuation),
        'o' => Some(GeneralCategory::OtherPunctuation),
        _ => None,
    }
}

fn symbol_by(b: char) -> Option<GeneralCategory>
    ensures { result ≡ symbol_by b }
{
    match b {
        'm' => Some(GeneralCategory::MathSymbol),
        'c' => Some(GeneralCategory::CurrencySymbol),
        'k' => Some(GeneralCategory::ModifierSymbol),
        'o' => Some(GeneralCategory::OtherSymbol),
        _ => None,
    }
}

fn separator_by(b: char) -> Option<GeneralCategory>
    ensures { result ≡ separator_by b }
{
    match b {
        's' => Some(GeneralCategory::SpaceSeparator),
        'l' => Some(GeneralCategory::LineSeparator),
        'p' => Some(GeneralCategory::ParagraphSeparator),
        _ => None,
    }
}

fn other_by(b: char) -> Option<GeneralCategory>
    ensures { result ≡ other_by b }
{
    match b {
        'c' => Some(GeneralCategory::Control),
        'f' => Some(GeneralCategory::Format),
        's' => Some(GeneralCategory::Surrogate),
        'o' => Some(GeneralCategory::PrivateUse),
        'n' => Some(GeneralCategory::Unassigned),
        _ => None,
    }
}

fn category_by(a: char, b: char) -> Option<GeneralCategory>
    ensures { result ≡ category_by a b }
{
    match a {
        'l' => letter_by(b),
        'm' => mark_by(b),
        'n' => number_by(b),
        'p' => punctuation_by(b),
        's' => symbol_by(b),
        'z' => separator_by(b),
        'c' => other_by(b),
        _ => None,
    }
}

fn by_two_letters(a: char, b: char) -> Option<NamedSet>
    ensures { result ≡ option_map NamedSet.Category (category_by a b) }
{
    category_by(a, b).map(NamedSet::Category)
}

fn by_word(name: &[char]) -> Option<NamedSet>
    ensures { result ≡ option_or (named_bracket name.now) (option_map NamedSet.Group (group_by_word name.now)) }
{
    named_bracket(name).or(group_by_word(name).map(NamedSet::Group))
}

#[tactic(auto, unfolding(syntax_defs::specs::Escapes::by_plain_name))]
fn by_plain_name(name: &[char]) -> Option<NamedSet>
    ensures { result ≡ by_plain_name name.now }
{
    match name {
        [] => None,
        [a] => group_by_letter(*a).map(NamedSet::Group),
        [a, b] => by_two_letters(*a, *b),
        _ => by_word(name),
    }
}

fn is_passed_over(c: char) -> bool
    ensures { result ≡ is_passed_over c }
{
    c == ' ' || c == '_' || c == '-'
}

/// The name in lower case, without spaces, `_` and `-`.
fn plain_name(alloc: Global, name: &[char]) -> Result<Vec<char>, AllocError>
    ensures { IfOk result (λ plain. plain.items ≡ plain_name name.now) }
{
    name.iter()
        .copied()
        .filter(|c| !is_passed_over(*c))
        .map(|c| c.to_ascii_lowercase())
        .collect(alloc)
}

/// The set that has this name in a property, as `\p{Alpha}`, and the sign that is given.
fn named_property(
    alloc: Global,
    negated: bool,
    name: &[char],
) -> Result<Option<(NamedSet, bool)>, AllocError>
    ensures { IfOk result (λ set. set ≡ with_sign negated (named_property name.now)) }
{
    let plain = plain_name(alloc, name)?;
    match by_plain_name(&plain) {
        None => Ok(None),
        Some(set) => Ok(Some((set, negated))),
    }
}

/// The set that a property names, and whether its complement is meant.
#[tactic(auto, unfolding(syntax_defs::specs::Escapes::property_by))]
pub(crate) fn property_by(
    alloc: Global,
    negated: bool,
    name: &[char],
) -> Result<Option<(NamedSet, bool)>, AllocError>
    ensures { IfOk result (λ set. set ≡ property_by negated name.now) }
{
    if negated {
        return named_property(alloc, true, name);
    }
    match name {
        [] => named_property(alloc, false, name),
        ['^', plain @ ..] => named_property(alloc, true, plain),
        [_, ..] => named_property(alloc, false, name),
    }
}
