//! Reads the text of a selector, character by character, as entries of signs.

ghost use Rattle.std.specs.Prelude.{◌≡◌, ◌+◌, ◌≤◌, ◌&&◌, ◌||◌, false, Some, None, IfOk};
ghost use Rattle.scope_defs.specs.SelectorSyntax.{begins_name, sign_of, priority_by};
ghost use Rattle.scope_defs.specs.StandardType.{is_word_char};
ghost use Rattle.selectors.specs.Machine.{is_even, nothing, with_path, ended, ends_operand, on_space, on_letter, one_minus, on_minus, opened, on_closing, on_alternative, on_bar, on_entry, on_comma, on_sign, begins_operand, minuses_before, is_deep, is_too_deep, step, at_end, read_kept};

use crate::pile::{Outer, Pile};
use crate::sign::{KeptEntry, Names, Sign};
use scope_defs::MOST_NESTED;
use std::alloc::{AllocError, Global};
use std::mem;
use text_pos::{Bytes, Items};

/// What stands directly before a place of a text.
#[derive(Drop)]
pub(crate) enum Stand {
    /// The start of an entry, and spaces.
    Start,
    /// A sign behind which an operand must come, and spaces.
    Wanting,
    /// A name, behind names of its path; it may begin its entry.
    Naming {
        names: Names,
        name: Bytes,
        begins: bool,
    },
    /// The names of a path, and spaces.
    Spaced {
        names: Names,
    },
    /// A parenthesis that closes, and spaces.
    Closed,
}

/// A selector that is read, up to a place.
#[derive(Drop)]
pub(crate) struct Reader {
    /// The entries before the one at hand.
    pub(crate) entries: Items<KeptEntry>,
    /// The priority of the entry at hand.
    pub(crate) priority: i8,
    /// The levels around the innermost parentheses.
    pub(crate) around: Pile,
    /// How many parentheses and minus signs stand around these.
    pub(crate) outside: u64,
    /// How many minus signs stand before the operand at hand.
    pub(crate) minuses: u64,
    /// The signs of the entry at hand.
    pub(crate) signs: Items<Sign>,
    pub(crate) stand: Stand,
}

fn is_word_char(c: u8) -> bool
    ensures { result ≡ is_word_char c }
{
    c.is_ascii_alphanumeric() || c == b'_'
}

fn begins_name(c: u8) -> bool
    ensures { result ≡ begins_name c }
{
    is_word_char(c) || c == b'.' || c == b':'
}

/// The priority that a character sets behind the start of an entry's first name.
fn priority_by(begins: bool, name: &[u8], c: u8) -> Option<i8>
    ensures { result ≡ priority_by begins name.now c }
{
    if !begins || c != b':' || name.len() != 1 {
        return None;
    }
    if name[0] == b'L' {
        Some(-1)
    } else if name[0] == b'R' {
        Some(1)
    } else {
        None
    }
}

impl Stand {
    /// Whether an operand may end there.
    fn ends_operand(&self) -> bool
        ensures { result ≡ ends_operand self.now }
    {
        !matches!(self, Stand::Start | Stand::Wanting)
    }

    /// The minus signs before an operand that begins there.
    fn minuses_before(&self, minuses: u64) -> u64
        ensures { result ≡ minuses_before self.now minuses }
    {
        match self {
            Stand::Naming { .. } | Stand::Spaced { .. } => 0,
            _ => minuses,
        }
    }

    /// Whether an operand begins with a character.
    fn begins_operand(&self, c: u8) -> bool
        ensures { result ≡ begins_operand (sign_of c) self.now }
    {
        if begins_name(c) {
            !matches!(self, Stand::Naming { .. } | Stand::Spaced { .. })
        } else if c == b'-' {
            !matches!(self, Stand::Naming { .. })
        } else {
            c == b'('
        }
    }
}

impl Reader {
    /// Nothing is read.
    fn new(alloc: Global) -> Reader
        ensures { result ≡ nothing }
    {
        Reader {
            entries: Items::new(alloc),
            priority: 0,
            around: Pile::new(alloc),
            outside: 0,
            minuses: 0,
            signs: Items::new(alloc),
            stand: Stand::Start,
        }
    }

    /// A path that ends, behind its minus signs.
    fn with_path(mut self, names: Names) -> Result<Reader, AllocError>
        ensures { IfOk result (λ r. r ≡ with_path names self) }
    {
        let wanted = self.minuses % 2 == 0;
        self.signs.push(Sign::Path { names, wanted })?;
        self.minuses = 0;
        self.stand = Stand::Wanting;
        Ok(self)
    }

    /// The operand at hand has ended.
    fn ended(mut self) -> Result<Reader, AllocError>
        ensures { IfOk result (λ r. r ≡ ended self) }
    {
        match mem::replace(&mut self.stand, Stand::Wanting) {
            Stand::Naming {
                mut names,
                name,
                ..
            } => {
                names.push(name)?;
                self.with_path(names)
            }
            Stand::Spaced { names } => self.with_path(names),
            other => {
                self.stand = other;
                Ok(self)
            }
        }
    }

    /// A space ends a name.
    fn on_space(mut self) -> Result<Reader, AllocError>
        ensures { IfOk result (λ r. r ≡ on_space self.stand self) }
    {
        match mem::replace(&mut self.stand, Stand::Wanting) {
            Stand::Naming {
                mut names,
                name,
                ..
            } => {
                names.push(name)?;
                self.stand = Stand::Spaced { names };
            }
            other => self.stand = other,
        }
        Ok(self)
    }

    /// A letter goes on with a name or begins one.
    fn on_letter(mut self, alloc: Global, c: u8) -> Result<Reader, AllocError>
        ensures { IfOk result (λ r. r ≡ on_letter c self.stand self) }
    {
        match mem::replace(&mut self.stand, Stand::Wanting) {
            Stand::Naming {
                names,
                mut name,
                begins,
            } => match priority_by(begins, name.as_slice(), c) {
                Some(priority) => self.priority = priority,
                None => {
                    name.push(c)?;
                    self.stand = Stand::Naming {
                        names,
                        name,
                        begins,
                    };
                }
            },
            Stand::Spaced { names } => {
                self.stand = Stand::Naming {
                    names,
                    name: Bytes::of(alloc, &[c])?,
                    begins: false,
                };
            }
            Stand::Start => {
                self.stand = Stand::Naming {
                    names: Items::new(alloc),
                    name: Bytes::of(alloc, &[c])?,
                    begins: true,
                };
            }
            Stand::Wanting | Stand::Closed => {
                self.stand = Stand::Naming {
                    names: Items::new(alloc),
                    name: Bytes::of(alloc, &[c])?,
                    begins: false,
                };
            }
        }
        Ok(self)
    }

    /// One more minus sign before an operand.
    fn one_minus(mut self) -> Reader
        requires { self.minuses ≤ 100 }
        ensures { result ≡ one_minus self }
    {
        self.minuses += 1;
        self.stand = Stand::Wanting;
        self
    }

    /// A minus goes on with a name, and else begins an operand.
    fn on_minus(mut self) -> Result<Reader, AllocError>
        requires { minuses_before self.stand self.minuses ≤ 100 }
        ensures { IfOk result (λ r. r ≡ on_minus self.stand self) }
    {
        match mem::replace(&mut self.stand, Stand::Wanting) {
            Stand::Naming {
                names,
                mut name,
                begins,
            } => {
                name.push(b'-')?;
                self.stand = Stand::Naming {
                    names,
                    name,
                    begins,
                };
                Ok(self)
            }
            other => {
                self.stand = other;
                Ok(self.ended()?.one_minus())
            }
        }
    }

    /// A parenthesis opens.
    fn opened(mut self) -> Result<Reader, AllocError>
        requires { self.outside + self.minuses ≤ 100 }
        ensures { IfOk result (λ r. r ≡ opened self) }
    {
        let outer = Outer {
            outside: self.outside,
            minuses: self.minuses,
        };
        self.around.push(outer)?;
        self.signs.push(Sign::Opens)?;
        self.outside += self.minuses + 1;
        self.minuses = 0;
        self.stand = Stand::Wanting;
        Ok(self)
    }

    /// A parenthesis closes.
    fn on_closing(self) -> Result<Option<Reader>, AllocError>
        ensures { IfOk result (λ r. r ≡ on_closing self) }
    {
        if !self.stand.ends_operand() {
            return Ok(None);
        }
        let mut reader = self.ended()?;
        match reader.around.pop() {
            None => Ok(None),
            Some(outer) => {
                let wanted = outer.minuses % 2 == 0;
                reader.signs.push(Sign::Closes { wanted })?;
                reader.outside = outer.outside;
                reader.minuses = 0;
                reader.stand = Stand::Closed;
                Ok(Some(reader))
            }
        }
    }

    /// A sign parts alternatives.
    fn on_alternative(mut self) -> Result<Reader, AllocError>
        ensures { IfOk result (λ r. r ≡ on_alternative self) }
    {
        self.signs.push(Sign::Next)?;
        self.minuses = 0;
        self.stand = Stand::Wanting;
        Ok(self)
    }

    /// A bar parts alternatives inside parentheses.
    fn on_bar(self) -> Result<Option<Reader>, AllocError>
        ensures { IfOk result (λ r. r ≡ on_bar self.around self) }
    {
        if self.around.is_empty() || !self.stand.ends_operand() {
            return Ok(None);
        }
        Ok(Some(self.ended()?.on_alternative()?))
    }

    /// The entry at hand has ended.
    fn on_entry(self, alloc: Global) -> Result<Reader, AllocError>
        ensures { IfOk result (λ r. r ≡ on_entry self) }
    {
        let mut reader = Reader::new(alloc);
        reader.entries = self.entries;
        reader.entries.push(KeptEntry {
            priority: self.priority,
            signs: self.signs,
        })?;
        Ok(reader)
    }

    /// A comma parts alternatives inside parentheses, and entries outside.
    fn on_comma(self, alloc: Global) -> Result<Option<Reader>, AllocError>
        ensures { IfOk result (λ r. r ≡ on_comma self.around self) }
    {
        if !self.stand.ends_operand() {
            return Ok(None);
        }
        let inside = !self.around.is_empty();
        let reader = self.ended()?;
        if inside {
            Ok(Some(reader.on_alternative()?))
        } else {
            Ok(Some(reader.on_entry(alloc)?))
        }
    }

    /// Whether an operand that begins here stands in too many parentheses and minus signs.
    fn is_deep(&self) -> bool
        ensures { result ≡ is_deep self.now }
    {
        let most = u64::from(MOST_NESTED);
        let minuses = self.stand.minuses_before(self.minuses);
        minuses > most || self.outside > most - minuses
    }

    /// Whether an operand begins with a character in too many parentheses and minus signs.
    fn is_too_deep(&self, c: u8) -> bool
        ensures { result ≡ is_too_deep c self.now }
    {
        self.stand.begins_operand(c) && self.is_deep()
    }

    /// What is read behind one more character that isn't too deep.
    fn on_sign(self, alloc: Global, c: u8) -> Result<Option<Reader>, AllocError>
        requires { is_too_deep c self ≡ false }
        ensures { IfOk result (λ r. r ≡ on_sign (sign_of c) c self) }
    {
        if c == b' ' {
            Ok(Some(self.on_space()?))
        } else if begins_name(c) {
            Ok(Some(self.on_letter(alloc, c)?))
        } else if c == b'-' {
            Ok(Some(self.on_minus()?))
        } else if c == b'(' {
            Ok(Some(self.ended()?.opened()?))
        } else if c == b')' {
            self.on_closing()
        } else if c == b'|' {
            self.on_bar()
        } else if c == b',' {
            self.on_comma(alloc)
        } else {
            Ok(None)
        }
    }

    /// What is read behind one more character, where it is one of a selector's.
    fn step(self, alloc: Global, c: u8) -> Result<Option<Reader>, AllocError>
        ensures { IfOk result (λ r. r ≡ step c self) }
    {
        if self.is_too_deep(c) {
            return Ok(None);
        }
        self.on_sign(alloc, c)
    }

    /// The entries, where a selector may end here.
    fn finish(self, alloc: Global) -> Result<Option<Items<KeptEntry>>, AllocError>
        ensures { IfOk result (λ entries. entries ≡ at_end self.around self) }
    {
        if !self.around.is_empty() || !self.stand.ends_operand() {
            return Ok(None);
        }
        Ok(Some(self.ended()?.on_entry(alloc)?.entries))
    }
}

/// The entries of a selector, or the place where it is refused.
pub(crate) fn read_signs(
    alloc: Global,
    text: &[u8],
) -> Result<Result<Items<KeptEntry>, u64>, AllocError>
    ensures { IfOk result (λ read. read ≡ read_kept text.now) }
{
    let mut reader = Reader::new(alloc);
    for (at, c) in text.iter().enumerate() {
        match reader.step(alloc, *c)? {
            None => return Ok(Err(at as u64)),
            Some(next) => reader = next,
        }
    }
    match reader.finish(alloc)? {
        None => Ok(Err(text.len() as u64)),
        Some(entries) => Ok(Ok(entries)),
    }
}
