//! The laws of stores, for proofs that cite them.
ghost use Rattle.db_check.specs.Laws.{StoresStandInOrder, ExclusiveValuesStandOnce, StoresKeepPlaces, StoresFit};

/// The objects of a store stand in order of id, so no id stands twice.
pub fn stores_stand_in_order()
    ensures { StoresStandInOrder }
{}

/// Of an exclusive pointer no value stands twice.
pub fn exclusive_values_stand_once()
    ensures { ExclusiveValuesStandOnce }
{}

/// A store keeps for each type of its schema the places of its objects.
pub fn stores_keep_places()
    ensures { StoresKeepPlaces }
{}

/// The objects of a store fit the schema.
pub fn stores_fit()
    ensures { StoresFit }
{}
