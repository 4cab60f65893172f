//! The laws of loaded texts, for proofs that cite them.
ghost use Rattle.std.specs.Prelude.{ℕ, List};
ghost use Rattle.ev_list.specs.declared.param.Param.{Param};
ghost use Rattle.ev_schema.specs.declared.schema.Schema.{Schema};
ghost use Rattle.db_load.specs.Laws.{LoadedObjectsFit, IsDecided, AreDecided};

/// The objects that are loaded from a text fit the schema.
pub fn loaded_objects_fit()
    ensures { LoadedObjectsFit }
{}

/// Each text is loaded or refused by a rule, as data and as arguments: there is no third way.
pub fn each_text_is_loaded()
    ensures data { (text : List ℕ) (s : Schema) → IsDecided text s }
    ensures arguments { (text : List ℕ) (s : Schema) (ps : List Param) → AreDecided text s ps }
{}
