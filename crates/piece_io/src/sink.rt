//! The trait of what takes bytes in pieces, as standard output does.

ghost use Rattle.std.specs.Prelude.{◌≡◌, ℕ, ◌<◌, ◌≤◌, List, Option, length, take, IfOk, OnOk, OnErr};
ghost use Rattle.piece_io.specs.Told.{appended, risen};

use crate::source::Failed;

/// What takes bytes in pieces, as standard output does.
pub trait Sink {
    /// The bytes that it holds, where the object tells them.
    ghost held: { Self → Option (List ℕ) };

    /// How many writes have failed.
    ghost faults: { Self → ℕ };

    /// Takes bytes from the front of `piece`, and answers how many: at least one.
    fn write(&mut self, piece: &[u8]) -> Result<usize, Failed>
        requires { 0 < length piece.now }
        ensures some { IfOk result (λ n. 0 < n) }
        ensures within { IfOk result (λ n. n ≤ length piece.now) }
        ensures takes { IfOk result (λ n. held self.new ≡ appended (held self.old) (take n piece.now)) }
        ensures stays { OnErr result (held self.new ≡ held self.old) }
        ensures counts { OnOk result (faults self.new ≡ faults self.old) }
        ensures rises { OnErr result (risen (faults self.old) ≤ faults self.new) }
        ensures never_falls { faults self.old ≤ faults self.new };
}
