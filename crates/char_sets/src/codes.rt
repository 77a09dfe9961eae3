//! Ranges of ASCII codes that named sets are made of.

// The ranges of the sets that are written out.
use crate::char_set::CharRange;

/// The codes below 128.
pub(crate) const ASCII: [CharRange; 1] = [CharRange {
    first: 0,
    last: 127,
}];

/// The tab.
pub(crate) const TAB: [CharRange; 1] = [CharRange { first: 9, last: 9 }];

/// `0` to `9`, `A` to `F` and `a` to `f`.
pub(crate) const XDIGITS: [CharRange; 3] = [
    CharRange {
        first: 48,
        last: 57,
    },
    CharRange {
        first: 65,
        last: 70,
    },
    CharRange {
        first: 97,
        last: 102,
    },
];

/// `$`, `+`, `<`, `=`, `>`, `^`, the grave accent, the bar and `~`.
pub(crate) const ASCII_SYMBOLS: [CharRange; 9] = [
    CharRange {
        first: 36,
        last: 36,
    },
    CharRange {
        first: 43,
        last: 43,
    },
    CharRange {
        first: 60,
        last: 60,
    },
    CharRange {
        first: 61,
        last: 61,
    },
    CharRange {
        first: 62,
        last: 62,
    },
    CharRange {
        first: 94,
        last: 94,
    },
    CharRange {
        first: 96,
        last: 96,
    },
    CharRange {
        first: 124,
        last: 124,
    },
    CharRange {
        first: 126,
        last: 126,
    },
];
