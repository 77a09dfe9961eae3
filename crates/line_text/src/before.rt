//! What the next character adds to a text, by what stood before it.

ghost use Rattle.std.specs.Prelude.{◌≡◌, ◌≢◌, List, ℕ, ◌∷◌, ◌++◌, IfSome};
ghost use Rattle.std.specs.Option.{option_to_list};
ghost use Rattle.line_text.specs.LineEnds.{normed};

/// What stood before the next character of a file or of an edit's text.
#[derive(Clone, Copy, Debug)]
pub(crate) enum Before {
    FileStart,
    AfterCr,
    Other,
}

impl Before {
    /// What the next character adds to a text: nothing where it is the mark at a file's start or the LF
    /// of a CR LF, an LF where it is a CR, and else itself.
    pub(crate) fn take(&mut self, c: char) -> Option<char>
        ensures adds { (rest : List ℕ) → normed self.old (c ∷ rest) ≡ option_to_list result ++ normed self.new rest }
        ensures no_cr { IfSome result (λ added. added ≢ 13) }
    {
        let falls_away = match self {
            Before::FileStart => c == '\u{feff}',
            Before::AfterCr => c == '\n',
            Before::Other => false,
        };
        *self = if c == '\r' {
            Before::AfterCr
        } else {
            Before::Other
        };
        if falls_away {
            None
        } else if c == '\r' {
            Some('\n')
        } else {
            Some(c)
        }
    }
}
