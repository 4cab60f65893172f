//! Laws of the texts of schemas.
ghost use Rattle.std.specs.Prelude.{◌≡◌, ℕ, List};
ghost use Rattle.exact.specs.Promise.{IsRefused};
ghost use Rattle.exact.specs.declared.rule.Rule.{Rule};
ghost use Rattle.ev_lex.specs.declared.token.Token.{Token};
ghost use Rattle.sdl_ast.specs.declared.declaration.SdlFile.{SdlFile};
ghost use Rattle.sdl_grammar.specs.Promise.{SchemaText, IsSchema, IsRead};

/// Each text spells at most one schema.
pub fn one_schema_tree()
    ensures { (ts : List Token) (x y : SdlFile) → IsSchema ts x → IsSchema ts y → x ≡ y }
{}

/// Each text spells a schema, or is refused at a token or at its end: there is no third way.
pub fn each_schema_text()
    ensures { (ts : List Token) → IsRead ts }
{}

/// Each text is refused at most at one token, for one reason, and not at all where it spells a schema.
pub fn one_schema_refusal()
    ensures once { (ts : List Token) (r q : Rule) (j k : ℕ) → IsRefused SchemaText ts r j → IsRefused SchemaText ts q k → (r ≡ q) × (j ≡ k) }
    ensures apart { (ts : List Token) (x : SdlFile) (r : Rule) (k : ℕ) → IsSchema ts x → IsRefused SchemaText ts r k → ⊥ }
{}
