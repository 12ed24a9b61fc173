ghost use Rattle.std.specs.Prelude.{◌≡◌, ℕ, List, Contains, ◌↔◌};
ghost use Rattle.std.specs.List.Sorted.{IsStrictlyIncreasing};

/// Two rising lists that have the same numbers are the same list.
pub fn rising_lists_are_told_by_their_members()
    ensures { (xs ys : List ℕ) → IsStrictlyIncreasing xs → IsStrictlyIncreasing ys
        → ((n : ℕ) → Contains xs n ↔ Contains ys n) → xs ≡ ys }
{}
