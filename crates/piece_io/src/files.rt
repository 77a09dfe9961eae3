//! The trait of files that are read by name, from any place.

ghost use Rattle.std.specs.Prelude.{◌≡◌, ℕ, ◌<◌, ◌≤◌, List, length, IfOk, OnOk, OnErr};
ghost use Rattle.piece_io.specs.Told.{Told, GivesFrom, risen};

use crate::source::Failed;

/// Files that are read by name, from any place.
pub trait Files {
    /// What is told of the file of a name, given as the name's bytes.
    ghost contents: { Self → List ℕ → Told };

    /// How many reads of the file of a name have failed.
    ghost faults: { Self → List ℕ → ℕ };

    /// Puts the bytes of the file from a place on at the front of `into`, and answers how many: 0 at the
    /// end. Where no file has the name it fails.
    fn read_at(&mut self, name: &str, from: u64, into: &mut [u8]) -> Result<usize, Failed>
        requires { 0 < length into.old }
        ensures within { IfOk result (λ n. n ≤ length into.old) }
        ensures gives { IfOk result (λ n. GivesFrom (contents self.old name.now) from n into.new) }
        ensures same { (q : List ℕ) → contents self.new q ≡ contents self.old q }
        ensures counts { OnOk result ((q : List ℕ) → faults self.new q ≡ faults self.old q) }
        ensures rises { OnErr result (risen (faults self.old name.now) ≤ faults self.new name.now) }
        ensures never_falls { (q : List ℕ) → faults self.old q ≤ faults self.new q };
}
