//! The most bytes of a script, and the usual, least and most values of the command line's options.

/// As many bytes of script as are taken at most: 2^32.
pub const MOST_SCRIPT_BYTES: u64 = 4_294_967_296;

/// How many brackets may be open at once, where no word says otherwise.
pub const USUAL_NESTING: u32 = 200;

/// The least and the most that the words may ask for.
pub const LEAST_NESTING: u32 = 1;

pub const MOST_NESTING: u32 = 300;

/// How many visits one attempt of a pattern has, where no word says otherwise.
pub const USUAL_BUDGET: u32 = 100_000;

/// The least and the most that the words may ask for.
pub const LEAST_BUDGET: u32 = 100;

pub const MOST_BUDGET: u32 = 1_000_000;

/// A line of so many characters has no tokens but one and no brackets, where no word says otherwise.
pub const USUAL_LONG: u32 = 20_000;

/// The least and the most that the words may ask for.
pub const LEAST_LONG: u32 = 1;

pub const MOST_LONG: u32 = 1_000_000;

/// How many columns a tab takes at most, where no word says otherwise.
pub const USUAL_TAB: u32 = 4;

/// The least and the most that the words may ask for.
pub const LEAST_TAB: u32 = 1;

pub const WIDEST_TAB: u32 = 32;

/// The most digits of a number among the words.
pub const MOST_DIGITS: usize = 10;
