//! Why a script line is refused, in the order of the tests.

/// Why a script line is refused, in the order of the tests: the words of a reply. The causes are this project's own.
#[derive(Clone, Copy, Debug, PartialEq, Eq)]
pub enum Refusal {
    /// The line has more bytes than a line may have.
    Long,
    /// The line isn't UTF-8, or no JSON text, or nests deeper than 127.
    Json,
    /// The JSON text is no command.
    Command,
    /// An edit's places aren't there, or its end is before its start.
    Range,
    /// An edit starts before the end of the one before it.
    Order,
    /// The text would have too many characters.
    Chars,
    /// The text would have too many lines.
    Lines,
    /// A question's lines aren't there, aren't in order, or are too many.
    Line,
    /// A question's place is behind the end of its line.
    Place,
}
