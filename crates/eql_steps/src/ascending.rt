//! Places in ascending order, each once.
ghost use Rattle.std.specs.Prelude.{◌≡◌, ℕ, nat_eq};
ghost use Rattle.std.specs.List.{list_any};
ghost use Rattle.std.specs.List.Sorted.{IsStrictlyIncreasing};

/// Puts places into ascending order, each once.
pub fn ascend(places: &mut Vec<usize>)
    ensures rises { IsStrictlyIncreasing places.new.items }
    ensures same { (i : ℕ) → list_any (nat_eq i) places.new.items ≡ list_any (nat_eq i) places.old.items }
{
    places.sort_unstable();
    places.dedup();
}
