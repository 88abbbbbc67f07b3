//! What keeps one file whole.
ghost use Rattle.std.specs.Prelude.{◌≡◌, List, ℕ, true, false};

/// Keeps a file whose content is replaced whole: whoever reads it finds the old content or the new one, never a part.
pub trait Shelf: Drop {
    /// The file has these bytes.
    ghost holds: { Self → List ℕ → Type 0 };

    /// Replaces the content of the file. `false` where it could not be replaced: the file is as it was then.
    fn replace(&mut self, file: &[u8]) -> bool
        ensures put { result ≡ true → holds self.new file.now }
        ensures kept { result ≡ false → (bytes : List ℕ) → holds self.old bytes → holds self.new bytes };
}
