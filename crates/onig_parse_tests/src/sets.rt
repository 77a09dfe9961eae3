//! Cases of sets alone.
use char_sets::{CharSet, NamedSet, is_word_char};
use std::alloc::{AllocError, Global};
use unicode::properties::{GeneralCategory, GeneralCategoryGroup};

/// The sets that a case names.
const NAMED: [(&str, NamedSet); 20] = [
    ("Digit", NamedSet::Digit),
    ("Word", NamedSet::Word),
    ("Space", NamedSet::Space),
    ("Xdigit", NamedSet::Xdigit),
    ("Alpha", NamedSet::Alpha),
    ("Alnum", NamedSet::Alnum),
    ("Upper", NamedSet::Upper),
    ("Lower", NamedSet::Lower),
    ("Blank", NamedSet::Blank),
    ("Cntrl", NamedSet::Cntrl),
    ("Punct", NamedSet::Punct),
    ("Graph", NamedSet::Graph),
    ("Print", NamedSet::Print),
    ("Ascii", NamedSet::Ascii),
    (
        "Category(TitlecaseLetter)",
        NamedSet::Category(GeneralCategory::TitlecaseLetter),
    ),
    (
        "Category(Unassigned)",
        NamedSet::Category(GeneralCategory::Unassigned),
    ),
    (
        "Category(PrivateUse)",
        NamedSet::Category(GeneralCategory::PrivateUse),
    ),
    (
        "Group(Number)",
        NamedSet::Group(GeneralCategoryGroup::Number),
    ),
    ("Group(Other)", NamedSet::Group(GeneralCategoryGroup::Other)),
    (
        "Group(Symbol)",
        NamedSet::Group(GeneralCategoryGroup::Symbol),
    ),
];

/// The characters of ranges, of which each is given by its two ends. A range whose end is below its start has none.
fn of_ranges(alloc: Global, ends: &str) -> Result<CharSet, AllocError> {
    let mut set = CharSet::empty(alloc);
    let mut start = None;
    for c in ends.chars() {
        start = match start {
            None => Some(c),
            Some(first) => {
                if first <= c {
                    let range = CharSet::range(alloc, first, c)?;
                    set = set.union(alloc, &range)?;
                }
                None
            }
        };
    }
    Ok(set)
}

/// Those characters of a text that are in the set.
pub(crate) fn members(alloc: Global, set: &CharSet, text: &str) -> Result<String, AllocError> {
    let mut found = String::new(alloc);
    for c in text.chars() {
        if set.has(c) {
            found.push(c)?;
        }
    }
    Ok(found)
}

fn named(name: &str) -> Option<NamedSet> {
    for (text, set) in NAMED {
        if text == name {
            return Some(set);
        }
    }
    None
}

/// Those characters of a text that the set, its complement and the name alone have.
pub(crate) fn named_shown(alloc: Global, name: &str, text: &str) -> Result<String, AllocError> {
    let Some(name) = named(name) else {
        return String::from_str(alloc, "no set");
    };
    let set = CharSet::named(alloc, name)?;
    let others = set.complement(alloc)?;
    let mut alone = String::new(alloc);
    for c in text.chars() {
        if name.has(c) {
            alone.push(c)?;
        }
    }
    let (inside, outside) = (members(alloc, &set, text)?, members(alloc, &others, text)?);
    format!(in alloc; "{inside} / {outside} / {alone}")
}

/// Those characters of a text that are word characters, and those that are in the named set.
pub(crate) fn word_shown(alloc: Global, text: &str) -> Result<String, AllocError> {
    let mut words = String::new(alloc);
    for c in text.chars() {
        if is_word_char(c) {
            words.push(c)?;
        }
    }
    let inside = members(alloc, &CharSet::named(alloc, NamedSet::Word)?, text)?;
    format!(in alloc; "{words} / {inside}")
}

/// Those characters of a text that are in ranges, and in the complement of their complement.
pub(crate) fn ranges_shown(alloc: Global, ends: &str, text: &str) -> Result<String, AllocError> {
    let set = of_ranges(alloc, ends)?;
    let twice = set.complement(alloc)?.complement(alloc)?;
    let (once, twice) = (members(alloc, &set, text)?, members(alloc, &twice, text)?);
    format!(in alloc; "{once} / {twice}")
}

/// Those characters of a text that are in either of two sets, in both, in the first alone, and in its copy.
pub(crate) fn joined_shown(
    alloc: Global,
    first: &str,
    second: &str,
    text: &str,
) -> Result<String, AllocError> {
    let (first, second) = (of_ranges(alloc, first)?, of_ranges(alloc, second)?);
    let either = members(alloc, &first.union(alloc, &second)?, text)?;
    let both = members(alloc, &first.meet(alloc, &second)?, text)?;
    let alone = members(alloc, &first.without(alloc, &second)?, text)?;
    let same = members(alloc, &first.copy(alloc)?, text)?;
    format!(in alloc; "{either} / {both} / {alone} / {same}")
}

/// Those characters of a text that are in ranges, or are a letter there in its other case.
pub(crate) fn other_case_shown(
    alloc: Global,
    ends: &str,
    text: &str,
) -> Result<String, AllocError> {
    let joined = of_ranges(alloc, ends)?.with_other_case(alloc)?;
    members(alloc, &joined, text)
}
