// What the definitions of the store come to.

ghost use Rattle.std.specs.Prelude.{◌≡◌, ℕ, List, Some, None, ◌↔◌};
ghost use Rattle.al_event.specs.Store.{Span, least, IsPlace, IsLeast};

/// The place of a new block is the least multiple of 8 at which it fits between the live blocks, and there is
/// none exactly where it fits nowhere.
pub fn places_are_least()
    ensures found { (region : ℕ) (spans : List Span) (n at : ℕ) → (least region spans n ≡ Some at) ↔ IsLeast region spans n at }
    ensures none { (region : ℕ) (spans : List Span) (n : ℕ) → (least region spans n ≡ None) ↔ ((at : ℕ) → ¬ IsPlace region spans n at) }
{}
