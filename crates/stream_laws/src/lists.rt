//! Laws of what is among the elements of a list.
ghost use Rattle.std.specs.Prelude.{◌≡◌, ◌↔◌, ℕ, List, slice_get, Some};
ghost use Rattle.stream_model.specs.Lists.{IsAmong, AreDistinct};

/// What is among the elements stands at an index.
pub fn elements_have_an_index<X>()
    ensures { (x : X) (xs : List X) → IsAmong x xs ↔ ((i : ℕ) × (slice_get xs i ≡ Some x)) }
{}

/// Elements are distinct where none stands at two indexes.
pub fn distinct_elements_have_one_index<X>()
    ensures { (xs : List X) → AreDistinct xs ↔ ((i j : ℕ) (x : X)
        → slice_get xs i ≡ Some x → slice_get xs j ≡ Some x → i ≡ j) }
{}
