//! The laws of orders and of first occurrences, for proofs that cite them.
ghost use Rattle.ev_list.specs.Laws.{KeepsFirstOccurrences, SortIsStable};

use crate::same::Same;

/// A sort gives the same elements in order, and leaves those with the same keys as they stood.
pub fn sort_is_stable<T>()
    ensures { SortIsStable T }
{}

/// Of equal elements the first is kept, where it stands.
pub fn first_occurrences_are_kept<T: Same>()
    ensures { KeepsFirstOccurrences T.same }
{}
