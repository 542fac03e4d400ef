//! The trait of a lock's value: its origin, its list of entries, and the pass that made each entry.
ghost use Rattle.std.specs.Prelude.{◌≡◌, ℕ, List, length};

/// A value that keeps a history. Contracts see it as an origin and a list of entries, all plain data. Each entry names
/// the pass under which it was made, by its number.
pub trait Kept {
    type Entry;

    type Origin;

    ghost origin: { Self → Self.Origin };

    ghost list: { Self → List Self.Entry };

    // The number of the pass that made the entry.
    ghost maker: { Self.Entry → ℕ };

    /// The length of the list of entries.
    fn entries(&self) -> u64
        ensures { result ≡ length (list self.now) };
}
