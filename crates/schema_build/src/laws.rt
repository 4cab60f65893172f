//! The law of answers, for proofs that cite it.
ghost use Rattle.sdl_ast.specs.declared.declaration.SdlFile.{SdlFile};
ghost use Rattle.schema_build.specs.Verdict.{HasAnswer};

/// Each surface tree has an answer that is not want of memory: it is built as a schema, a rule fails, or it is not built yet.
pub fn each_file_is_answered()
    ensures { (file : SdlFile) → HasAnswer file }
{}
