//! How a run ended, with the number of its status and its line on standard error.

ghost use Rattle.std.specs.Prelude.{◌≡◌};
ghost use Rattle.bracket_program.specs.declared.status.Status.TheVariants as status;

use std::alloc::AllocError;

/// How a run ended.
#[derive(Clone, Copy, Debug, PartialEq, Eq)]
pub enum Status {
    /// The script was read to its end, or all that tells of a text that is made was written.
    Done,
    /// The words are no command line.
    Words,
    /// The text file is too large or no UTF-8, or has too many characters or lines.
    TextFile,
    /// The grammar file is too large, or no grammar.
    GrammarFile,
    /// The bracket file is too large, or no bracket file, or has too many or too long brackets.
    BracketFile,
    /// A file or the script could not be read.
    ReadFault,
    /// The replies could not be written.
    WriteFault,
    /// The script is too long.
    ScriptFull,
    /// Memory was wanting.
    Memory,
}

impl Status {
    ghost use Rattle.std.specs.Prelude.{option_map};
    ghost use Rattle.bracket_program.specs.Statuses.{line_about, number_of};

    /// The number that the program ends with.
    pub fn number(self) -> u8
        ensures { result ≡ number_of self }
    {
        match self {
            Status::Done => 0,
            Status::Words => 2,
            Status::TextFile => 3,
            Status::GrammarFile => 4,
            Status::BracketFile => 5,
            Status::ReadFault => 6,
            Status::WriteFault => 7,
            Status::ScriptFull => 8,
            Status::Memory => 9,
        }
    }

    /// What is said of it on standard error.
    pub fn line(self) -> Option<&'static str>
        ensures { option_map (λ line. line.now) result ≡ line_about self }
    {
        match self {
            Status::Done => None,
            Status::Words => Some("brackets: words"),
            Status::TextFile => Some("brackets: text file"),
            Status::GrammarFile => Some("brackets: grammar file"),
            Status::BracketFile => Some("brackets: bracket file"),
            Status::ReadFault => Some("brackets: read fault"),
            Status::WriteFault => Some("brackets: write fault"),
            Status::ScriptFull => Some("brackets: script full"),
            Status::Memory => Some("brackets: memory"),
        }
    }
}

impl From<AllocError> for Status {
    ghost from_gives = { λ _ s. s ≡ status.Memory };

    fn from(_error: AllocError) -> Status {
        Status::Memory
    }
}
