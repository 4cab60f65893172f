//! Laws of the meaning, as the contracts of functions that do nothing.
ghost use Rattle.eql_sem.specs.Laws.{TuplesHaveTheirComponentsForms, PackedIsUnpacked};

/// The form of a tuple is the tuple of its components' forms.
#[tactic(auto, using(crate::proofs::ValueForms::form_of_tuple))]
pub fn tuples_have_their_components_forms()
    ensures { TuplesHaveTheirComponentsForms }
{}

/// What is packed into one array is unpacked as it was.
#[tactic(auto, using(crate::proofs::Elements::packed_is_unpacked))]
pub fn packed_is_unpacked()
    ensures { PackedIsUnpacked }
{}
