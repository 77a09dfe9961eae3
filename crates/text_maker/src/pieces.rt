//! The pieces of which generated texts and edits are made: brackets, a letter and a space.

ghost use Rattle.std.specs.Prelude.{◌≡◌, ◌<◌};
ghost use Rattle.generator_defs.specs.GeneratedText.{piece};

/// Three openers, their closers, a letter and a space.
const PIECES: [u8; 8] = *b"([{)]}a ";

/// The piece of a number, which is an ASCII character.
pub(crate) fn piece(k: u32) -> u8
    ensures piece { result ≡ piece k }
    ensures ascii { result < 128 }
{
    PIECES[(k % 8) as usize]
}
