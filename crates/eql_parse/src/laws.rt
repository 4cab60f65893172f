//! Laws of the texts of queries and expressions.
ghost use Rattle.std.specs.Prelude.{◌≡◌, ◌≤◌, ℕ, List, length};
ghost use Rattle.exact.specs.Promise.{IsRefused};
ghost use Rattle.exact.specs.declared.rule.Rule.{Rule};
ghost use Rattle.ast.specs.declared.expression.Expr.{Expr};
ghost use Rattle.ast.specs.declared.statement.Query.{Query};
ghost use Rattle.ev_lex.specs.declared.token.Token.{Token};
ghost use Rattle.ev_lex.specs.Reading.{IsCut};
ghost use Rattle.eql_grammar.specs.Promise.{QueryText, IsQuery, IsRead, IsExprUpTo};

/// Each text spells at most one query.
pub fn one_tree()
    ensures { (ts : List Token) (x y : Query) → IsQuery ts x → IsQuery ts y → x ≡ y }
{}

/// Each text spells a query, or is refused at a token or at its end: there is no third way.
pub fn each_query_text()
    ensures { (ts : List Token) → IsRead ts }
{}

/// Each text is refused at most at one token, for one reason, and not at all where it spells a query.
pub fn one_refusal()
    ensures once { (ts : List Token) (r q : Rule) (j k : ℕ) → IsRefused QueryText ts r j → IsRefused QueryText ts q k → (r ≡ q) × (j ≡ k) }
    ensures apart { (ts : List Token) (x : Query) (r : Rule) (k : ℕ) → IsQuery ts x → IsRefused QueryText ts r k → ⊥ }
{}

/// At most one expression stands in front of tokens up to one with which none goes on.
pub fn one_expression()
    ensures { (ts : List Token) (x y : Expr) (j k : ℕ) → IsExprUpTo ts x j → IsExprUpTo ts y k → (x ≡ y) × (j ≡ k) }
{}

/// A text has no more tokens than bytes.
pub fn few_tokens()
    ensures { (text : List ℕ) (ts : List Token) → IsCut text ts → length ts ≤ length text }
{}
