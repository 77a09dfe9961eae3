//! Why a question has no answer.

/// Why a question has no answer, in the order of the tests. The causes are this project's own.
#[derive(Clone, Copy, Debug, PartialEq, Eq)]
pub enum QuestionRefusal {
    /// A line of it isn't there, or its lines aren't in order or are more than `MOST_LINES_OF_A_QUESTION`; the
    /// text has so many lines.
    Line { lines: u64 },
    /// A place of it is behind the end of its line, which has so many characters.
    Place { length: u64 },
}
