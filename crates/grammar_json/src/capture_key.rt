//! The number that a capture's key is.

ghost use Rattle.std.specs.Prelude.{◌≡◌, ◌≤◌, ◌+◌, ◌-◌, ◌*◌, Some, None, if◌then◌else◌, true, length};
ghost use Rattle.std.specs.List.{list_all};
ghost use Rattle.grammar_defs.specs.RuleShape.{is_digit, is_capture_key, number_after, begins_with_zero};

/// The number of a capture's key, where the key is one of so many digits, at most 5.
pub(crate) fn capture_number(key: &[u8], width: usize) -> Option<u32>
    requires { width ≤ 5 }
    ensures { result ≡ (if is_capture_key width key.now then Some (number_after 0 key.now) else None) }
{
    if is_key(key, width) {
        Some(number_of(key))
    } else {
        None
    }
}

fn is_key(key: &[u8], width: usize) -> bool
    ensures { result ≡ is_capture_key width key.now }
{
    key.len() == width && are_digits(key) && (width == 1 || !begins_with_zero(key))
}

fn are_digits(key: &[u8]) -> bool
    ensures { result ≡ list_all is_digit key.now }
{
    key.iter().all(is_digit)
}

fn is_digit(byte: &u8) -> bool
    ensures { result ≡ is_digit byte.now }
{
    b'0' <= *byte && *byte <= b'9'
}

fn begins_with_zero(key: &[u8]) -> bool
    ensures { result ≡ begins_with_zero key.now }
{
    match key {
        [] => false,
        [first, ..] => *first == b'0',
    }
}

/// The number that at most five digits are.
fn number_of(key: &[u8]) -> u32
    requires digits { list_all is_digit key.now ≡ true }
    requires few { length key.now ≤ 5 }
    ensures { result ≡ number_after 0 key.now }
{
    match key {
        [] => 0,
        [a] => digit(*a),
        [a, b] => 10 * digit(*a) + digit(*b),
        [a, b, c] => 10 * (10 * digit(*a) + digit(*b)) + digit(*c),
        [a, b, c, d] => 10 * (10 * (10 * digit(*a) + digit(*b)) + digit(*c)) + digit(*d),
        [a, b, c, d, e] => 10 * (10 * (10 * (10 * digit(*a) + digit(*b)) + digit(*c)) + digit(*d))
            + digit(*e),
        _ => 0,
    }
}

fn digit(byte: u8) -> u32
    requires { is_digit byte ≡ true }
    ensures value { result ≡ byte - 48 }
    ensures small { result ≤ 9 }
{
    u32::from(byte - b'0')
}
