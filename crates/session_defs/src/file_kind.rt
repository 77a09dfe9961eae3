//! What a file that is named on the command line is read as.

/// What a file that the words name is read as. The files are opened in this order.
#[derive(Clone, Copy, Debug, PartialEq, Eq)]
pub enum FileKind {
    /// The text whose brackets are asked for.
    Text,
    /// A TextMate grammar.
    Grammar,
    /// A language configuration, as VS Code has it, for its pairs of brackets.
    Brackets,
}
