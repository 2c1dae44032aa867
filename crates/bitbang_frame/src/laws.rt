//! Laws of the letters: each function's contract is the law, and its body is empty.

ghost use Rattle.std.specs.Prelude.{◌≡◌, ℕ};
ghost use Rattle.bitbang_frame.specs.declared.Letter.{Letter};
ghost use Rattle.bitbang_frame.specs.Letters.{letter};

/// Each letter is that of one byte.
pub fn letters_and_bytes_match_one_to_one()
    ensures one { (first second : ℕ) (meant : Letter) → letter first ≡ Some meant → letter second ≡ Some meant → first ≡ second }
    ensures each { (meant : Letter) → (byte : ℕ) × (letter byte ≡ Some meant) }
{}
