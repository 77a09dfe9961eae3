//! The sets of characters that have names, by POSIX and by the general categories of Unicode.

ghost use Rattle.std.specs.Prelude.{◌≡◌, ◌<◌, ◌||◌, ℕ, true, IfOk};
ghost use Rattle.ucd_table.specs.Steps.{run_value, IsPartition};
ghost use Rattle.unicode.specs.GeneralCategory.{general_category};
ghost use Rattle.ucd_category.specs.GeneralCategory.{general_category_number};
ghost use Rattle.char_sets.specs.Ranges.{in_set, rises, IsSetOf};
ghost use Rattle.unicode.specs.GeneralCategoryGroup.{in_group};
ghost use Rattle.char_sets.specs.declared.named.NamedSet.TheVariants as NamedSet;
ghost use Rattle.char_sets.specs.Named.{is_word, is_ascii_symbol, in_named, has_number, has_category};

use crate::char_set::{CharRange, CharSet};
use crate::codes::{ASCII, ASCII_SYMBOLS, TAB, XDIGITS};
use crate::stretch::close;
use std::alloc::{AllocError, Global};
use unicode::properties::{GeneralCategory, GeneralCategoryGroup, is_white_space};

/// The sets of characters that have names. The names of brackets are those of POSIX; which general categories of
/// Unicode each has is this project's own.
#[derive(Clone, Copy, Debug, PartialEq, Eq)]
pub enum NamedSet {
    /// The decimal digits.
    Digit,
    /// The letters, the marks, the decimal digits and the connectors, of which `_` is one.
    Word,
    /// The characters of the property `White_Space`.
    Space,
    /// `0` to `9`, `A` to `F` and `a` to `f`.
    Xdigit,
    /// The letters and the marks.
    Alpha,
    /// The letters, the marks and the decimal digits.
    Alnum,
    /// The upper case letters.
    Upper,
    /// The lower case letters.
    Lower,
    /// The space separators and the tab.
    Blank,
    /// The control characters.
    Cntrl,
    /// The punctuation, and the symbols among the characters of ASCII.
    Punct,
    /// What is assigned, and neither white space, nor a control character, nor a surrogate.
    Graph,
    /// Those of `Graph`, and the space separators.
    Print,
    /// The codes below 128.
    Ascii,
    /// The characters of a general category.
    Category(GeneralCategory),
    /// The characters of a group of general categories.
    Group(GeneralCategoryGroup),
}

/// Whether the character is a letter, a mark, a decimal digit or a connector: a word character.
pub fn is_word_char(c: char) -> bool
    ensures { result ≡ is_word c }
{
    if c.is_ascii() {
        return c.is_ascii_alphanumeric() | (c == '_');
    }
    has(WORD, GeneralCategory::for_char(c).number())
}

// Which numbers of categories a set has, a bit for each.
const ALPHA: u32 = 0b1111_1111;

const ALNUM: u32 = ALPHA | DIGIT;

const WORD: u32 = ALNUM | 1 << 11;

const DIGIT: u32 = 1 << 8;

const UPPER: u32 = 1;

const LOWER: u32 = 1 << 1;

const PUNCTUATION: u32 = 0b111_1111 << 11;

const SPACE_SEPARATOR: u32 = 1 << 22;

const CONTROL: u32 = 1 << 25;

const GRAPH: u32 = 0x1FF_FFFF | 1 << 26 | 1 << 28;

/// Whether the bit of the number is set.
fn has(numbers: u32, number: u32) -> bool
    ensures { result ≡ has_number numbers number }
{
    number < 32 && (numbers >> number) & 1 == 1
}

/// The characters to which the runs give a number whose bit is set.
fn of_runs(alloc: Global, runs: &[u32], numbers: u32) -> Result<CharSet, AllocError>
    requires { IsPartition runs.now }
    ensures { IfOk result (λ s. IsSetOf s (λ c. has_number numbers (run_value runs.now c))) }
{
    let mut ranges = Vec::new(alloc);
    let mut start = 0;
    let mut at = 0;
    for run in runs {
        let end = run / 2048;
        if !has(numbers, run % 2048) {
            close(&mut ranges, start, at)?;
            start = end;
        }
        at = end;
    }
    close(&mut ranges, start, at)?;
    CharSet::of_ranges(ranges)
}

/// The characters whose general category has a number whose bit is set.
fn of_categories(alloc: Global, numbers: u32) -> Result<CharSet, AllocError>
    ensures { IfOk result (λ s. IsSetOf s (λ c. has_category numbers (general_category c))) }
{
    of_runs(alloc, GeneralCategory::runs(), numbers)
}

/// The characters of ranges that are written out.
fn of_codes(alloc: Global, ranges: &[CharRange]) -> Result<CharSet, AllocError>
    requires { rises 0 ranges.now ≡ true }
    ensures { IfOk result (λ s. s ≡ ranges.now) }
{
    CharSet::of_ranges(Vec::from_slice(alloc, ranges)?)
}

impl NamedSet {
    /// Whether the character is in the set.
    #[tactic(auto, unfolding(crate::specs::Named::is_word))]
    pub fn has(self, c: char) -> bool
        ensures { result ≡ in_named self c }
    {
        let number = GeneralCategory::for_char(c).number();
        match self {
            NamedSet::Digit => has(DIGIT, number),
            NamedSet::Word => has(WORD, number),
            NamedSet::Space => is_white_space(c),
            NamedSet::Xdigit => matches!(c, '0'..='9' | 'A'..='F' | 'a'..='f'),
            NamedSet::Alpha => has(ALPHA, number),
            NamedSet::Alnum => has(ALNUM, number),
            NamedSet::Upper => has(UPPER, number),
            NamedSet::Lower => has(LOWER, number),
            NamedSet::Blank => has(SPACE_SEPARATOR, number) | (c == '\t'),
            NamedSet::Cntrl => has(CONTROL, number),
            NamedSet::Punct => has(PUNCTUATION, number) | is_ascii_symbol(c),
            NamedSet::Graph => has(GRAPH, number) & !is_white_space(c),
            NamedSet::Print => (has(GRAPH, number) & !is_white_space(c))
                | has(SPACE_SEPARATOR, number),
            NamedSet::Ascii => c.is_ascii(),
            NamedSet::Category(category) => number == category.number(),
            NamedSet::Group(group) => has(numbers_of(group), number),
        }
    }
}

/// Whether the character is a sign of ASCII that is a symbol to Unicode and counts as punctuation here.
fn is_ascii_symbol(c: char) -> bool
    ensures { result ≡ is_ascii_symbol c }
{
    matches!(c, '$' | '+' | '<' | '=' | '>' | '^' | '`' | '|' | '~')
}

impl CharSet {
    /// A set with a name.
    pub fn named(alloc: Global, set: NamedSet) -> Result<CharSet, AllocError>
        ensures { IfOk result (λ s. IsSetOf s (in_named set)) }
    {
        match set {
            NamedSet::Digit => of_categories(alloc, DIGIT),
            NamedSet::Word => word(alloc),
            NamedSet::Space => white_space(alloc),
            NamedSet::Xdigit => of_codes(alloc, &XDIGITS),
            NamedSet::Alpha => of_categories(alloc, ALPHA),
            NamedSet::Alnum => of_categories(alloc, ALNUM),
            NamedSet::Upper => of_categories(alloc, UPPER),
            NamedSet::Lower => of_categories(alloc, LOWER),
            NamedSet::Blank => blank(alloc),
            NamedSet::Cntrl => of_categories(alloc, CONTROL),
            NamedSet::Punct => punct(alloc),
            NamedSet::Graph => graph(alloc),
            NamedSet::Print => print(alloc),
            NamedSet::Ascii => of_codes(alloc, &ASCII),
            NamedSet::Category(category) => of_category(alloc, category),
            NamedSet::Group(group) => of_group(alloc, group),
        }
    }
}

fn word(alloc: Global) -> Result<CharSet, AllocError>
    ensures { IfOk result (λ s. IsSetOf s (in_named NamedSet.Word)) }
{
    of_categories(alloc, WORD)
}

/// The characters of the property `White_Space`.
fn white_space(alloc: Global) -> Result<CharSet, AllocError>
    ensures { IfOk result (λ s. IsSetOf s (in_named NamedSet.Space)) }
{
    of_runs(alloc, unicode::runs::props::white_space(), 1 << 1)
}

fn of_category(alloc: Global, category: GeneralCategory) -> Result<CharSet, AllocError>
    ensures { IfOk result (λ s. IsSetOf s (in_named (NamedSet.Category category))) }
{
    of_categories(alloc, 1 << category.number())
}

fn of_group(alloc: Global, group: GeneralCategoryGroup) -> Result<CharSet, AllocError>
    ensures { IfOk result (λ s. IsSetOf s (in_named (NamedSet.Group group))) }
{
    of_categories(alloc, numbers_of(group))
}

/// The numbers of the categories in a group.
pub(crate) fn numbers_of(group: GeneralCategoryGroup) -> u32
    ensures { (k : GeneralCategory) → has_category result k ≡ in_group group k }
{
    match group {
        GeneralCategoryGroup::Other => 0b1_1111 << 25,
        GeneralCategoryGroup::Letter => 0b1_1111,
        GeneralCategoryGroup::CasedLetter => 0b111,
        GeneralCategoryGroup::Mark => 0b111 << 5,
        GeneralCategoryGroup::Number => 0b111 << 8,
        GeneralCategoryGroup::Punctuation => PUNCTUATION,
        GeneralCategoryGroup::Symbol => 0b1111 << 18,
        GeneralCategoryGroup::Separator => 0b111 << 22,
    }
}

fn blank(alloc: Global) -> Result<CharSet, AllocError>
    ensures { IfOk result (λ s. IsSetOf s (in_named NamedSet.Blank)) }
{
    let separators = of_categories(alloc, SPACE_SEPARATOR)?;
    separators.union(alloc, &of_codes(alloc, &TAB)?)
}

fn punct(alloc: Global) -> Result<CharSet, AllocError>
    ensures { IfOk result (λ s. IsSetOf s (in_named NamedSet.Punct)) }
{
    let punctuation = of_categories(alloc, PUNCTUATION)?;
    punctuation.union(alloc, &of_codes(alloc, &ASCII_SYMBOLS)?)
}

fn graph(alloc: Global) -> Result<CharSet, AllocError>
    ensures { IfOk result (λ s. IsSetOf s (in_named NamedSet.Graph)) }
{
    let shown = of_categories(alloc, GRAPH)?;
    shown.without(alloc, &white_space(alloc)?)
}

fn print(alloc: Global) -> Result<CharSet, AllocError>
    ensures { IfOk result (λ s. IsSetOf s (in_named NamedSet.Print)) }
{
    let shown = graph(alloc)?;
    shown.union(alloc, &of_categories(alloc, SPACE_SEPARATOR)?)
}
