//! The number of a rule, the standard types of tokens, and runs of one type in a line.

/// The number of a rule of a grammar.
#[derive(Clone, Copy, Debug, PartialEq, Eq)]
pub struct RuleId(pub u32);

/// What a piece of a line is to an editor, as vscode-textmate's StandardTokenType has it. `Text` is its String.
#[derive(Clone, Copy, Debug, PartialEq, Eq)]
pub enum StdType {
    Other,
    Comment,
    Text,
    RegEx,
}

/// The type of a line's characters from the end of the run before up to column `to`.
#[derive(Clone, Copy, Debug, PartialEq, Eq)]
pub struct TypeRun {
    pub to: u32,
    pub kind: StdType,
}
