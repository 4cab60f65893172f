//! The laws of built schemas, for proofs that cite them.
ghost use Rattle.schema_laws.specs.Laws.{BuiltSchemasAreWellFormed, EmptySchemaIsWellFormed, StoresOfTextsFit};

/// A schema that is built from a text has what a store asks of it.
pub fn built_schemas_are_well_formed()
    ensures { BuiltSchemasAreWellFormed }
{}

/// The schema without types has it too.
pub fn empty_schema_is_well_formed()
    ensures { EmptySchemaIsWellFormed }
{}

/// The objects of a store fit the schema that is built from a text.
pub fn stores_of_texts_fit()
    ensures { StoresOfTextsFit }
{}
