//! Whether two elements are the same.
ghost use Rattle.std.specs.Prelude.{◌≡◌};
ghost use Rattle.std.specs.Cmp.Lexicographic.{pointwise};

use ev_value::{List, Val, cmp_val};

/// Elements of which it can be told whether they are the same: where they are equal, and nowhere else.
pub trait Same {
    ghost use Rattle.std.specs.Prelude.{◌≡◌, ◌↔◌, Bool, true};

    ghost same: { Self → Self → Bool };

    fn is_same(&self, other: &Self) -> bool
        ensures { result ≡ same self.now other.now };

    ghost exact: { (x y : Self) → (same x y ≡ true) ↔ (x ≡ y) };
}

impl Same for Val {
    ghost use Rattle.std.specs.Ordering.{is_eq};
    ghost use Rattle.ev_value.specs.Order.{val_cmp};
    ghost use Rattle.ev_list.specs.Sames.{val_exact};

    ghost same = { λ v w. is_eq (val_cmp v w) };

    ghost exact = { val_exact };

    fn is_same(&self, other: &Val) -> bool {
        cmp_val(self, other).is_eq()
    }
}

impl<T: Same> Same for List<T> {
    ghost use Rattle.std.specs.Cmp.Lexicographic.{pointwise};
    ghost use Rattle.ev_list.specs.Sames.{list_exact};

    ghost same = { pointwise T.same };

    ghost exact = { list_exact T.same T.exact };

    fn is_same(&self, other: &List<T>) -> bool {
        are_same(self.as_slice(), other.as_slice())
    }
}

fn are_same<T: Same>(left: &[T], right: &[T]) -> bool
    ensures { result ≡ pointwise T.same left.now right.now }
{
    if left.len() != right.len() {
        return false;
    }
    for (i, item) in left.iter().enumerate() {
        if let Some(other) = right.get(i)
            && !item.is_same(other)
        {
            return false;
        }
    }
    true
}
