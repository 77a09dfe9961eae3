//! The trait of bytes that come in pieces, as standard input does, and the failure of a call.

ghost use Rattle.std.specs.Prelude.{◌≡◌, ℕ, ◌<◌, ◌≤◌, List, Option, length, IfOk, OnOk, OnErr};
ghost use Rattle.piece_io.specs.Told.{GivesFront, risen};

/// A call of the outside failed. What failed is not said: the counts of faults say where.
#[derive(Clone, Copy, Debug, PartialEq, Eq)]
pub struct Failed;

/// Bytes that come in pieces, as standard input does.
pub trait Source {
    /// The bytes that are left, where the object tells them.
    ghost left: { Self → Option (List ℕ) };

    /// How many reads have failed.
    ghost faults: { Self → ℕ };

    /// Puts the next bytes at the front of `into`, and answers how many: 0 at the end.
    fn read(&mut self, into: &mut [u8]) -> Result<usize, Failed>
        requires { 0 < length into.old }
        ensures within { IfOk result (λ n. n ≤ length into.old) }
        ensures gives { IfOk result (λ n. GivesFront (left self.old) (left self.new) n into.new) }
        ensures stays { OnErr result (left self.new ≡ left self.old) }
        ensures counts { OnOk result (faults self.new ≡ faults self.old) }
        ensures rises { OnErr result (risen (faults self.old) ≤ faults self.new) }
        ensures never_falls { faults self.old ≤ faults self.new };
}
