//! Lengths of pieces of text, places in a text and spans between them.

ghost use Rattle.std.specs.Prelude.{◌≡◌, ◌+◌, ◌-◌, ◌^◌, ◌<◌, ◌↔◌, IsTrue};
ghost use Rattle.text_pos.specs.Lengths.{plus, IsLess};

/// The length of a piece of text: how many line ends it has, and how many characters follow the last
/// of them. This is the two-part length of VS Code's bracketPairsTree.
#[derive(Clone, Copy, Debug, PartialEq, Eq)]
pub struct Length {
    pub lines: u32,
    pub cols: u32,
}

/// A place in a text. Lines and columns count from 0, and a column counts Unicode scalar values.
#[derive(Clone, Copy, Debug, PartialEq, Eq)]
pub struct Pos {
    pub line: u32,
    pub col: u32,
}

/// What lies between two places.
#[derive(Clone, Copy, Debug, PartialEq, Eq)]
pub struct Span {
    pub from: Pos,
    pub to: Pos,
}

/// The length of a piece and the piece behind it.
pub fn add(a: Length, b: Length) -> Length
    requires lines { a.lines + b.lines < 2 ^ 32 }
    requires cols { a.cols + b.cols < 2 ^ 32 }
    ensures { result ≡ plus a b }
{
    if b.lines == 0 {
        Length {
            lines: a.lines,
            cols: a.cols + b.cols,
        }
    } else {
        Length {
            lines: a.lines + b.lines,
            cols: b.cols,
        }
    }
}

/// What is left of a length behind its front.
pub fn minus(whole: Length, front: Length) -> Length
    requires { ¬ IsLess whole front }
    ensures sum { plus front result ≡ whole }
    ensures only { (other : Length) → plus front other ≡ whole → other ≡ result }
{
    if whole.lines == front.lines {
        Length {
            lines: 0,
            cols: whole.cols - front.cols,
        }
    } else {
        Length {
            lines: whole.lines - front.lines,
            cols: whole.cols,
        }
    }
}

/// Whether a length is less than another, by lines and then by columns.
pub fn less(a: Length, b: Length) -> bool
    ensures { IsTrue result ↔ IsLess a b }
{
    a.lines < b.lines || (a.lines == b.lines && a.cols < b.cols)
}

/// Whether a length is that of the empty text.
pub fn is_zero(a: Length) -> bool
    ensures { IsTrue result ↔ ((a.lines ≡ 0) × (a.cols ≡ 0)) }
{
    a.lines == 0 && a.cols == 0
}

/// The place that a length leads to from a text's start.
pub fn at(a: Length) -> Pos
    ensures line { result.line ≡ a.lines }
    ensures col { result.col ≡ a.cols }
{
    Pos {
        line: a.lines,
        col: a.cols,
    }
}

/// The length from a text's start to a place.
pub fn length_to(p: Pos) -> Length
    ensures lines { result.lines ≡ p.line }
    ensures cols { result.cols ≡ p.col }
{
    Length {
        lines: p.line,
        cols: p.col,
    }
}
