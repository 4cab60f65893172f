//! Names with modules, which are read by the cursor alone.
ghost use Rattle.std.specs.Prelude.{◌≡◌};
ghost use Rattle.exact.specs.Reading.{Reads};
ghost use Rattle.eql_grammar.specs.Readers as spec;
ghost use Rattle.eql_grammar.specs.Trees as t;

use crate::cursor::Cursor;
use ast::{Name, QualifiedName};
use ev_lex::Sign;
use exact::ReadError;
use std::alloc::Global;

fn bare_name(name: Name) -> QualifiedName
    ensures { result ≡ t.bare_name name }
{
    QualifiedName { module: None, name }
}

fn in_module(module: Name, name: Name) -> QualifiedName
    ensures { result ≡ t.in_module «module» name }
{
    QualifiedName {
        module: Some(module),
        name,
    }
}

/// Reads a name, maybe with a module before it.
#[tactic(auto, unfolding(eql_grammar::specs::Readers::qname))]
pub fn qualified_name(alloc: Global, tokens: &mut Cursor<'_>) -> Result<QualifiedName, ReadError>
    ensures { Reads (spec.qname tokens.old) result tokens.new }
{
    let first = tokens.name(alloc)?;
    if !tokens.sees(Sign::Namespace) {
        return Ok(bare_name(first));
    }
    tokens.expect(false, Sign::Namespace)?;
    let second = tokens.name(alloc)?;
    Ok(in_module(first, second))
}
