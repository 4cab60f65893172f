//! What is true of the rules of types.
ghost use Rattle.type_infer.specs.Laws.{TypesAreByCases};

/// The rules derive types of a tree exactly where it has them by the cases of `specs/HasType`.
pub fn types_are_by_cases()
    ensures { TypesAreByCases }
{}
