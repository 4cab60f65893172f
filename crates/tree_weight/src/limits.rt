//! Which trees are over the limits.
ghost use Rattle.std.specs.Prelude.{◌≡◌};
ghost use Rattle.ev_schema.specs.declared.schema.Schema.{Schema};
ghost use Rattle.tree_weight.specs.Capped.{ForQueries, ForExpressions};
ghost use Rattle.tree_weight.specs.Heavy.{is_too_heavy as is_too_heavy_of, is_too_heavy_in_schema};

use crate::weights::Weights;
use core_ir::Core;

impl Weights {
    /// Whether a tree is too heavy or too deep: a query, or an expression of a schema, as these weights are for.
    pub fn is_too_heavy(&self, core: &Core) -> bool
        ensures query { (schema : Schema) → ForQueries schema self.now → result ≡ is_too_heavy_of schema core.now }
        ensures expression { (schema : Schema) → ForExpressions schema self.now → result ≡ is_too_heavy_in_schema schema core.now }
    {
        self.measured(core.root.body.get()).is_over()
    }
}
