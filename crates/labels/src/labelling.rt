ghost use Rattle.std.specs.Prelude.{◌≡◌, ℕ, Bool};
ghost use Rattle.labels.specs.Laws.{OpenToAll, SeenAsBoth};

// Who sees which labels, and how labels are joined.
pub trait Labelling {
    ghost joined: { Self → ℕ → ℕ → ℕ };

    ghost seen: { Self → ℕ → ℕ → Bool };

    // Label 0 is hidden from no reader.
    ghost open: { (l : Self) → OpenToAll (seen l) };

    // A join is hidden from a reader exactly when one of its labels is.
    ghost both: { (l : Self) → SeenAsBoth (joined l) (seen l) };

    // The label of what is made of two values with these labels.
    fn join(&self, first: u8, second: u8) -> u8
        ensures { result ≡ joined self.now first second };

    // Whether a reader may see values with this label.
    fn sees(&self, reader: u8, label: u8) -> bool
        ensures { result ≡ seen self.now reader label };
}
