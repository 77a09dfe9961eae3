//! The text of a capture of the last hit, and the dots at the front of a text.

ghost use Rattle.std.specs.Prelude.{◌≡◌, ℕ, ◌^◌, ◌≤◌, length, drop, min, nat_eq, IfSome};
ghost use Rattle.std.specs.List.{prefix_len};
ghost use Rattle.pattern_defs.specs.Attempt.{capture_of};
ghost use Rattle.onig_match.specs.Works.{IsPart};
ghost use Rattle.line_defs.specs.ScopeTexts.{captured, without_dots};

use onig_match::Work;

/// The text of a capture of the last hit, empty where it is unset or isn't there. A number that no group has stands for
/// all greater ones.
pub(crate) fn captured<'a>(text: &'a [char], work: &Work, number: u64) -> &'a [char]
    requires { (n : ℕ) → IfSome (capture_of work.now.hit n) (IsPart (length text.now)) }
    ensures { (n : ℕ) → number ≡ min n (2 ^ 32) → result.now ≡ captured text.now work.now.hit n }
{
    if number > u64::from(work.groups()) {
        return &[];
    }
    match work.capture(number as u32) {
        Some(taken) => &text[taken.from as usize..taken.to as usize],
        None => &[],
    }
}

/// A text without so many characters at its front.
pub(crate) fn behind(text: &[char], count: usize) -> &[char]
    requires { count ≤ length text.now }
    ensures { result.now ≡ drop count text.now }
{
    &text[count..]
}

/// How many dots stand at the front of a text.
fn dot_count(text: &[char]) -> usize
    ensures count { result ≡ prefix_len (λ c. nat_eq c 46) text.now }
    ensures inside { result ≤ length text.now }
{
    text.iter().take_while(|c| **c == '.').count()
}

/// A text without the dots at its front.
pub(crate) fn without_dots(text: &[char]) -> &[char]
    ensures { result.now ≡ without_dots text.now }
{
    behind(text, dot_count(text))
}
