//! The standard type that a scope name sets by a word in it.

ghost use Rattle.std.specs.Prelude.{◌≡◌, ◌≤◌, length, drop, codes};
ghost use Rattle.scope_defs.specs.StandardType.{is_word_char, has_word, type_at, type_of_name};

use scope_defs::StdType;

fn is_word_char(c: u8) -> bool
    ensures { result ≡ is_word_char c }
{
    c.is_ascii_alphanumeric() || c == b'_'
}

/// Whether a word stands at a place of a text and ends there.
fn has_word_at(text: &[u8], at: usize, word: &[u8]) -> bool
    requires { at ≤ length text.now }
    ensures { result ≡ has_word word.now (drop at text.now) }
{
    let rest = &text[at..];
    if !rest.starts_with(word) {
        return false;
    }
    match rest[word.len()..].first() {
        None => true,
        Some(next) => !is_word_char(*next),
    }
}

/// The type that the word at a place of a text sets.
fn type_at(text: &[u8], at: usize) -> Option<StdType>
    requires { at ≤ length text.now }
    ensures { result ≡ type_at (drop at text.now) }
{
    if has_word_at(text, at, b"comment") {
        Some(StdType::Comment)
    } else if has_word_at(text, at, b"string") {
        Some(StdType::Text)
    } else if has_word_at(text, at, b"regex") {
        Some(StdType::RegEx)
    } else if has_word_at(text, at, b"meta.embedded") {
        Some(StdType::Other)
    } else {
        None
    }
}

/// The type that a name sets.
pub(crate) fn type_of_name(name: &[u8]) -> Option<StdType>
    ensures { result ≡ type_of_name name.now }
{
    let mut begins = true;
    for (at, c) in name.iter().enumerate() {
        if begins {
            let found = type_at(name, at);
            if found.is_some() {
                return found;
            }
        }
        begins = !is_word_char(*c);
    }
    None
}
