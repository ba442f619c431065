//! Values that represent a list which only grows.
ghost use Rattle.std.specs.Prelude.{◌≡◌, ℕ, List, length, Option};

/// A value that represents a list.
pub trait Grows: Drop {
    type Item: Drop;

    /// The list that the value represents.
    ghost list: { Self → List Self.Item };

    /// Numbers that stay the same from turn to turn, for contracts alone.
    ghost base: { Self → List ℕ };

    /// The number of the pass that an item names, or none.
    ghost name: { Self.Item → Option ℕ };

    /// The length of the list.
    fn front(&self) -> u64
        ensures { result ≡ length (list self.now) };
}
