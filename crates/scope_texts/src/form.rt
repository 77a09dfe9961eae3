//! Reads the forms of a scope text that stand for captures, with or without a change of case.

ghost use Rattle.std.specs.Prelude.{◌≡◌, ◌+◌, ◌≤◌, length, drop, IfSome};
ghost use Rattle.std.specs.Option.{option_map};
ghost use Rattle.line_defs.specs.ScopeTexts.{digits_at, short_form, cased_form, form_behind};
ghost use Rattle.scope_texts.specs.Forms.{kept_form};

use crate::digits::{digits_at, number_of};
use line_defs::Case;

/// A form: the number of its capture, its case, and how many characters it has behind its `$`.
#[derive(Clone, Copy, Debug, PartialEq, Eq)]
pub(crate) struct Form {
    pub number: u64,
    pub case: Case,
    pub more: usize,
}

/// What stands behind the number of a form that changes the case.
const DOWNCASE: [char; 11] = [':', '/', 'd', 'o', 'w', 'n', 'c', 'a', 's', 'e', '}'];

const UPCASE: [char; 9] = [':', '/', 'u', 'p', 'c', 'a', 's', 'e', '}'];

/// `$n`, behind its `$`.
fn short_form(text: &[char]) -> Option<Form>
    ensures form { result ≡ option_map kept_form (short_form (digits_at text.now)) }
    ensures inside { IfSome result (λ form. form.more ≤ length text.now) }
{
    let digits = digits_at(text);
    if digits.is_empty() {
        return None;
    }
    Some(Form {
        number: number_of(digits),
        case: Case::AsIs,
        more: digits.len(),
    })
}

/// `${n:/downcase}` and `${n:/upcase}`, behind their `{`.
fn cased_form(text: &[char]) -> Option<Form>
    ensures form { result ≡ option_map kept_form (cased_form (digits_at text.now)
        (drop (length (digits_at text.now)) text.now)) }
    ensures inside { IfSome result (λ form. form.more ≤ length text.now + 1) }
{
    let digits = digits_at(text);
    if digits.is_empty() {
        return None;
    }
    let behind = &text[digits.len()..];
    if behind.starts_with(&DOWNCASE) {
        return Some(Form {
            number: number_of(digits),
            case: Case::Lower,
            more: 1 + digits.len() + DOWNCASE.len(),
        });
    }
    if behind.starts_with(&UPCASE) {
        return Some(Form {
            number: number_of(digits),
            case: Case::Upper,
            more: 1 + digits.len() + UPCASE.len(),
        });
    }
    None
}

/// The form behind a `$`.
pub(crate) fn form_behind(text: &[char]) -> Option<Form>
    ensures form { result ≡ option_map kept_form (form_behind text.now) }
    ensures inside { IfSome result (λ form. form.more ≤ length text.now) }
{
    if text.is_empty() {
        return None;
    }
    if text[0] == '{' {
        cased_form(&text[1..])
    } else {
        short_form(text)
    }
}
