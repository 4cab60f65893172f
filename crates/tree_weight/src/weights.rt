//! What a schema brings into a tree, made once.
ghost use Rattle.std.specs.Prelude.{◌≡◌, map, slice_get, unwrap_or, length, ◌<◌, ◌^◌, IfOk, OnOk};
ghost use Rattle.ev_schema.specs.Pointers.{target_of as target_of_body};
ghost use Rattle.ev_schema.specs.Facts.{with_computed as with_computed_in};
ghost use Rattle.ev_schema.specs.declared.schema.Schema.{Schema};
ghost use Rattle.tree_weight.specs.Brought.{with_target, by_types, with_computed, brought_over, without_rules as without_rules_of, by_rules};
ghost use Rattle.tree_weight.specs.Capped.{brought_of, capped_sizes, no_size, kept, ForQueries, ForExpressions};
ghost use Rattle.tree_weight.specs.Measure.{at_root as at_root_of, with_step as with_step_of, along as along_of};

use crate::rules::{rulings, rulings_alone, sizes_of_types};
use crate::ruling::Ruling;
use crate::size::Size;
use core_ir::{PtrId, Root, Step, Ty, TypeId};
use ev_schema::{Body, Computed, PtrInfo, Schema};
use ev_value::List;
use sqlite_items::at;
use std::alloc::{AllocError, Global};
use std::collections::BTreeMap;

/// What comes with a type, with a link and with a computed pointer, each by its number. Contracts see three functions.
#[derive(Drop)]
pub struct Weights {
    types: List<Size>,
    links: List<Size>,
    computed: BTreeMap<u32, Size>,
}

/// The size at a place, or that of nothing.
fn size_at(sizes: &[Size], place: u32) -> Size
    ensures { result ≡ unwrap_or (slice_get sizes.now place) no_size }
{
    match at(sizes, place as usize) {
        Some(size) => *size,
        None => Size::NONE,
    }
}

/// The type whose objects a stored link leads to.
fn target_of(body: &Body) -> Option<TypeId>
    ensures { result ≡ target_of_body body.now }
{
    match body {
        Body::Stored(Ty::Object(ty)) => Some(*ty),
        Body::Stored(Ty::Scalar(_) | Ty::Tuple(_) | Ty::Array(_)) | Body::Computed => None,
    }
}

/// What comes with a step to a pointer that is stored.
fn size_of_link(types: &[Size], info: &PtrInfo) -> Size
    ensures { result ≡ with_target capped_sizes (kept types.now) (target_of_body info.now.body) }
{
    match target_of(&info.body) {
        Some(ty) => size_at(types, ty.0),
        None => Size::NONE,
    }
}

/// The same of each pointer.
fn sizes_of_links(
    alloc: Global,
    types: &[Size],
    pointers: &[PtrInfo],
) -> Result<List<Size>, AllocError>
    ensures { IfOk result (λ l. l ≡ map (λ (info : PtrInfo). with_target capped_sizes (kept types.now) (target_of_body info.body)) pointers.now) }
{
    let mut sizes = List::new(alloc);
    for info in pointers {
        sizes.push(size_of_link(types, info))?;
    }
    Ok(sizes)
}

impl Weights {
    /// What some types bring, and the links to them.
    fn of_types(
        alloc: Global,
        types: List<Size>,
        pointers: &[PtrInfo],
    ) -> Result<Weights, AllocError>
        ensures { IfOk result (λ w. brought_of w ≡ by_types capped_sizes (kept types) pointers.now) }
    {
        let links = sizes_of_links(alloc, types.as_slice(), pointers)?;
        Ok(Weights {
            types,
            links,
            computed: BTreeMap::new(alloc),
        })
    }

    /// One more computed pointer with all that is brought so far.
    fn bring(&mut self, computed: &Computed) -> Result<(), AllocError>
        ensures { OnOk result (brought_of self.new ≡ with_computed capped_sizes (brought_of self.old) computed.now) }
    {
        let size = self.measured(computed.expr.typed.core.root.body.get());
        self.computed.insert(computed.pointer.0, size)?;
        Ok(())
    }

    /// One more computed pointer of a schema that is being built. Its expression names only pointers that came before.
    pub fn add(&mut self, computed: &Computed) -> Result<(), AllocError>
        ensures { OnOk result ((schema : Schema) → ForExpressions schema self.old → ForExpressions (with_computed_in computed.now schema) self.new) }
    {
        self.bring(computed)
    }

    /// What some types bring, and the computed pointers of a schema over them.
    fn over(alloc: Global, types: List<Size>, schema: &Schema) -> Result<Weights, AllocError>
        ensures { IfOk result (λ w. brought_of w ≡ brought_over capped_sizes (kept types) schema.now) }
    {
        let mut weights = Weights::of_types(alloc, types, schema.pointers())?;
        let listed = schema.all_computed();
        for computed in listed {
            weights.bring(computed)?;
        }
        Ok(weights)
    }

    /// What a schema brings where rules do not count.
    fn without_rules(alloc: Global, schema: &Schema) -> Result<Weights, AllocError>
        ensures { IfOk result (λ w. brought_of w ≡ without_rules_of capped_sizes schema.now) }
    {
        Weights::over(alloc, List::new(alloc), schema)
    }

    /// What some rules bring over a schema, and all else that it does.
    fn with_rules(
        alloc: Global,
        rules: &[Ruling<Size>],
        schema: &Schema,
    ) -> Result<Weights, AllocError>
        requires { length schema.now.types < 2 ^ 32 }
        ensures { IfOk result (λ w. brought_of w ≡ brought_over capped_sizes (by_rules capped_sizes schema.now rules.now) schema.now) }
    {
        let types = sizes_of_types(alloc, schema, rules)?;
        Weights::over(alloc, types, schema)
    }

    /// What a schema brings into a query.
    pub fn of_queries(alloc: Global, schema: &Schema) -> Result<Weights, AllocError>
        requires { length schema.now.types < 2 ^ 32 }
        ensures { IfOk result (λ w. ForQueries schema.now w) }
    {
        let plain = Weights::without_rules(alloc, schema)?;
        let rules = rulings(alloc, &plain, schema.conditions(), schema.policies())?;
        Weights::with_rules(alloc, rules.as_slice(), schema)
    }

    /// What a schema brings into its own expressions while they are checked.
    pub fn of_expressions(alloc: Global, schema: &Schema) -> Result<Weights, AllocError>
        requires { length schema.now.types < 2 ^ 32 }
        ensures { IfOk result (λ w. ForExpressions schema.now w) }
    {
        let rules = rulings_alone(alloc, schema.policies())?;
        Weights::with_rules(alloc, rules.as_slice(), schema)
    }

    /// What comes with a computed pointer.
    fn with_pointer(&self, pointer: PtrId) -> Size
        ensures { result ≡ (brought_of self.now).by_computed pointer }
    {
        match self.computed.get(&pointer.0) {
            Some(size) => *size,
            None => Size::NONE,
        }
    }

    /// The root of a path.
    pub fn at_root(&self, root: Root) -> Size
        ensures { result ≡ at_root_of capped_sizes (brought_of self.now) root }
    {
        match root {
            Root::Extent(ty) => size_at(self.types.as_slice(), ty.0).above(),
            Root::Alias(_) | Root::Var(_) | Root::Subject(_) | Root::Base(_) => Size::NONE.above(),
        }
    }

    /// What comes with a step.
    fn with_step(&self, step: &Step) -> Size
        ensures { result ≡ with_step_of capped_sizes (brought_of self.now) step.now }
    {
        match step {
            Step::Link(pointer) => size_at(self.links.as_slice(), pointer.0),
            Step::Comp(pointer) => self.with_pointer(*pointer),
            Step::Back(_, ty) => size_at(self.types.as_slice(), ty.0),
            Step::Is(ty) => size_at(self.types.as_slice(), ty.0),
            Step::Prop(_) => Size::NONE,
            Step::LinkProp(_) => Size::NONE,
            Step::Dot(_) => Size::NONE,
            Step::BackDot(_, _) => Size::NONE,
        }
    }

    /// The steps of a path from something on.
    pub fn along(&self, from: Size, steps: &[Step]) -> Size
        ensures { result ≡ along_of capped_sizes (brought_of self.now) from steps.now }
    {
        let mut reached = from;
        for step in steps {
            reached = reached.beside(self.with_step(step)).above();
        }
        reached
    }
}
