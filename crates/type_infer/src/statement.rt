//! Statements and shapes.
ghost use Rattle.std.specs.Prelude.{◌≡◌, Some, IfOk};
ghost use Rattle.core_ir.specs.declared.tree.Expr.TheVariants as form;
ghost use Rattle.core_ir.specs.declared.tree.Select.{out-Select};
ghost use Rattle.plan.specs.Plan.{tells};
ghost use Rattle.plan.specs.Ruled.{gives};
ghost use Rattle.type_infer.specs.Forms as rule;
ghost use Rattle.type_infer.specs.Rest as rest;
ghost use Rattle.type_rules.specs.Known.{Known, known_by};
ghost use Rattle.type_infer.specs.Typing.{infer_key, scope_of, alias_of as alias_rule, aliases_of, element_of as element_rule, elements_of, keys_of, clause_of, clause_if_there as clause_there, subject_of, rows_of, cut_of, select_of};
ghost use Rattle.type_rules.specs.Refusal.{Answers};

use crate::clause::Clause;
use crate::kinds::is_object;
use crate::typer::Typer;
use core_ir::{Alias, Element, Expr, Key, Scope, Select, Ty};
use ev_value::{Boxed, List};
use std::alloc::{AllocError, Global};
use type_rules::{Notes, TypeRefusal, TypeRule};

/// A form with a shape, and its type, which stands in its slot.
fn with_shape(
    alloc: Global,
    byte: u32,
    base: Expr,
    ty: Ty,
    number: u32,
    elements: List<Element>,
) -> Result<(Expr, Ty), AllocError>
    ensures { IfOk result (λ x. x ≡ (form.Shaped byte base (Some ty) number elements, ty)) }
{
    let base = Boxed::new(alloc, base)?;
    let slot = ty.copied(alloc)?;
    Ok((Expr::Shaped(byte, base, Some(slot), number, elements), ty))
}

/// A form with a shape, whose subject and elements have their types: only objects have one.
fn shape_of(
    alloc: Global,
    byte: u32,
    number: u32,
    base: (Expr, Ty),
    elements: List<Element>,
) -> Result<(Expr, Ty), TypeRefusal>
    ensures { (k : Known) → Answers (tells (rest.shape byte number base elements k)) result k }
{
    let (base, ty) = base;
    if !is_object(&ty) {
        return Err(TypeRefusal::Rule(TypeRule::T5, byte));
    }
    Ok(with_shape(alloc, byte, base, ty, number, elements)?)
}

/// The scope of a clause, if its type suits the clause.
fn suited(clause: Clause, start: u32, scope: (Scope, Ty)) -> Result<Scope, TypeRefusal>
    ensures { (k : Known) → Answers (tells (rest.suited clause start scope k)) result k }
{
    let (scope, ty) = scope;
    if !clause.suits(&ty) {
        return Err(TypeRefusal::Rule(clause.rule(), start));
    }
    Ok(scope)
}

/// An element whose value has its types, and whose slot takes the type.
fn element_of(alloc: Global, element: &Element, value: (Scope, Ty)) -> Result<Element, AllocError>
    ensures { IfOk result (λ x. x ≡ record { start = element.now.start; name = element.now.name; need = element.now.need; width = element.now.width; ty = Some value.1; card = element.now.card; value = value.0 }) }
{
    let name = element.name.copied(alloc)?;
    Ok(Element {
        start: element.start,
        name,
        need: element.need,
        width: element.width,
        ty: Some(value.1),
        card: element.card,
        value: value.0,
    })
}

/// An alias whose value has its types: from here on its number has the value's type.
#[tactic(auto, unfolding(crate::specs::Forms::alias))]
fn alias_of(
    alloc: Global,
    number: u32,
    value: (Scope, Ty),
    notes: &mut Notes,
) -> Result<Alias, TypeRefusal>
    ensures { Answers (tells (rule.alias number (gives value) (known_by notes.old))) result (known_by notes.new) }
{
    notes.note_type(alloc, number, &value.1)?;
    Ok(Alias {
        number,
        value: value.0,
    })
}

/// An expression that has its types: from here on a number has the type of its items.
fn noted(
    alloc: Global,
    number: u32,
    expr: (Expr, Ty),
    notes: &mut Notes,
) -> Result<(Expr, Ty), TypeRefusal>
    ensures { Answers (tells (rest.noted number expr.1 expr (known_by notes.old))) result (known_by notes.new) }
{
    notes.note_type(alloc, number, &expr.1)?;
    Ok(expr)
}

/// What stands before the body of a `for`: from here on its variable has the type of the iterator's items.
fn head_of(
    alloc: Global,
    number: u32,
    aliases: List<Alias>,
    iterator: (Scope, Ty),
    notes: &mut Notes,
) -> Result<Head, TypeRefusal>
    ensures { Answers (tells (rest.noted number iterator.1 (aliases, iterator) (known_by notes.old))) result (known_by notes.new) }
{
    notes.note_type(alloc, number, &iterator.1)?;
    Ok((aliases, iterator))
}

/// A `for` of what stands before its body, and of its body, whose type it has.
fn for_of(byte: u32, number: u32, head: Head, body: (Scope, Ty)) -> (Expr, Ty)
    ensures { result ≡ (form.For byte head.0 number head.1.0 body.0, body.1) }
{
    let (aliases, iterator) = head;
    let (body, ty) = body;
    (Expr::For(byte, aliases, number, iterator.0, body), ty)
}

/// A statement of its parts, and its type, which is its subject's and stands in its slot.
fn with_clauses(
    alloc: Global,
    number: u32,
    subject: (Expr, Ty),
    rows: (Option<Boxed<Scope>>, List<Key>),
    cut: (Option<Boxed<Scope>>, Option<Boxed<Scope>>),
) -> Result<(Select, Ty), AllocError>
    ensures { IfOk result (λ x. x ≡ rest.statement number subject rows cut) }
{
    let (subject, ty) = subject;
    let subject = Boxed::new(alloc, subject)?;
    let slot = ty.copied(alloc)?;
    let select = Select {
        subject,
        ty: Some(slot),
        number,
        filter: rows.0,
        keys: rows.1,
        offset: cut.0,
        limit: cut.1,
    };
    Ok((select, ty))
}

impl<'a> Typer<'a> {
    /// A clause, which fails at its own place as soon as it has a type.
    #[cycle(typing)]
    #[tactic(auto, unfolding(crate::specs::Forms::clause))]
    fn clause(&self, scope: &Scope, clause: Clause, notes: &mut Notes) -> Result<Scope, TypeRefusal>
        ensures { Answers (tells (clause_of self.now.index.now clause scope.now (known_by notes.old))) result (known_by notes.new) }
    {
        let start = scope.start;
        let scope = self.scope(scope, notes)?;
        suited(clause, start, scope)
    }

    /// A clause that may be absent.
    #[cycle(typing)]
    fn clause_if_there(
        &self,
        scope: &Option<Boxed<Scope>>,
        clause: Clause,
        notes: &mut Notes,
    ) -> Result<Option<Boxed<Scope>>, TypeRefusal>
        ensures { Answers (tells (clause_there self.now.index.now clause scope.now (known_by notes.old))) result (known_by notes.new) }
    {
        match scope {
            Some(scope) => {
                let scope = self.clause(scope.get(), clause, notes)?;
                Ok(Some(Boxed::new(self.alloc, scope)?))
            }
            None => Ok(None),
        }
    }

    /// A key of an order.
    #[cycle(typing)]
    #[tactic(auto, using(crate::proofs::Equations::keys))]
    fn key(&self, key: &Key, notes: &mut Notes) -> Result<Key, TypeRefusal>
        ensures { Answers (tells (infer_key self.now.index.now key.now (known_by notes.old))) result (known_by notes.new) }
    {
        match key {
            Key::Ascending(absent, scope) => {
                let scope = self.clause(scope, Clause::Key, notes)?;
                Ok(Key::Ascending(*absent, scope))
            }
            Key::Descending(absent, scope) => {
                let scope = self.clause(scope, Clause::Key, notes)?;
                Ok(Key::Descending(*absent, scope))
            }
        }
    }

    /// The keys of an order in turn.
    #[cycle(typing)]
    fn keys(&self, keys: &[Key], notes: &mut Notes) -> Result<List<Key>, TypeRefusal>
        ensures { Answers (tells (keys_of self.now.index.now keys.now (known_by notes.old))) result (known_by notes.new) }
    {
        let mut done = List::new(self.alloc);
        for key in keys {
            let typed = self.key(key, notes)?;
            done.push(typed)?;
        }
        Ok(done)
    }

    /// `name := value` before a statement.
    #[cycle(typing)]
    #[tactic(auto, unfolding(crate::specs::Forms::alias))]
    fn alias(&self, alias: &Alias, notes: &mut Notes) -> Result<Alias, TypeRefusal>
        ensures { Answers (tells (alias_rule self.now.index.now alias.now (known_by notes.old))) result (known_by notes.new) }
    {
        let value = self.scope(&alias.value, notes)?;
        alias_of(self.alloc, alias.number, value, notes)
    }

    /// The aliases before a statement in turn.
    #[cycle(typing)]
    pub fn aliases(&self, aliases: &[Alias], notes: &mut Notes) -> Result<List<Alias>, TypeRefusal>
        ensures { Answers (tells (aliases_of self.now.index.now aliases.now (known_by notes.old))) result (known_by notes.new) }
    {
        let mut done = List::new(self.alloc);
        for alias in aliases {
            let typed = self.alias(alias, notes)?;
            done.push(typed)?;
        }
        Ok(done)
    }

    /// An element of a shape.
    #[cycle(typing)]
    #[tactic(auto, unfolding(crate::specs::Forms::element))]
    fn element(&self, element: &Element, notes: &mut Notes) -> Result<Element, TypeRefusal>
        ensures { Answers (tells (element_rule self.now.index.now element.now (known_by notes.old))) result (known_by notes.new) }
    {
        let value = self.scope(&element.value, notes)?;
        Ok(element_of(self.alloc, element, value)?)
    }

    /// The elements of a shape in turn.
    #[cycle(typing)]
    fn elements(
        &self,
        elements: &[Element],
        notes: &mut Notes,
    ) -> Result<List<Element>, TypeRefusal>
        ensures { Answers (tells (elements_of self.now.index.now elements.now (known_by notes.old))) result (known_by notes.new) }
    {
        let mut done = List::new(self.alloc);
        for element in elements {
            let typed = self.element(element, notes)?;
            done.push(typed)?;
        }
        Ok(done)
    }

    /// A shape, whose subject has its types.
    #[cycle(typing)]
    #[tactic(auto, unfolding(crate::specs::Forms::shaped))]
    pub fn shaped(
        &self,
        elements: &[Element],
        byte: u32,
        number: u32,
        base: (Expr, Ty),
        notes: &mut Notes,
    ) -> Result<(Expr, Ty), TypeRefusal>
        ensures { Answers (tells (rule.shaped byte number (gives base) (elements_of self.now.index.now elements.now) (known_by notes.old))) result (known_by notes.new) }
    {
        let base = noted(self.alloc, number, base, notes)?;
        self.elements_behind(elements, byte, number, base, notes)
    }

    /// The elements of a shape, behind its subject, whose type is known to them.
    #[cycle(typing)]
    fn elements_behind(
        &self,
        elements: &[Element],
        byte: u32,
        number: u32,
        base: (Expr, Ty),
        notes: &mut Notes,
    ) -> Result<(Expr, Ty), TypeRefusal>
        ensures { Answers (tells (rest.elements_behind byte number base (elements_of self.now.index.now elements.now) (known_by notes.old))) result (known_by notes.new) }
    {
        let elements = self.elements(elements, notes)?;
        shape_of(self.alloc, byte, number, base, elements)
    }

    /// The iterator of a `for`, whose aliases have their types.
    #[cycle(typing)]
    pub fn iterated(
        &self,
        iterator: &Scope,
        number: u32,
        aliases: List<Alias>,
        notes: &mut Notes,
    ) -> Result<Head, TypeRefusal>
        ensures { Answers (tells (rest.iterated number aliases (scope_of self.now.index.now iterator.now) (known_by notes.old))) result (known_by notes.new) }
    {
        let iterator = self.scope(iterator, notes)?;
        head_of(self.alloc, number, aliases, iterator, notes)
    }

    /// The body of a `for`, behind what stands before it.
    #[cycle(typing)]
    pub fn each(
        &self,
        body: &Scope,
        byte: u32,
        number: u32,
        head: Head,
        notes: &mut Notes,
    ) -> Result<(Expr, Ty), TypeRefusal>
        ensures { Answers (tells (rest.body byte number head (scope_of self.now.index.now body.now) (known_by notes.old))) result (known_by notes.new) }
    {
        let body = self.scope(body, notes)?;
        Ok(for_of(byte, number, head, body))
    }

    /// The subject of a statement.
    #[cycle(typing)]
    #[tactic(auto, unfolding(crate::specs::Forms::subject))]
    fn subject(&self, select: &Select, notes: &mut Notes) -> Result<(Expr, Ty), TypeRefusal>
        ensures { Answers (tells (subject_of self.now.index.now select.now (known_by notes.old))) result (known_by notes.new) }
    {
        let subject = self.infer(select.subject.get(), notes)?;
        noted(self.alloc, select.number, subject, notes)
    }

    /// The filter and the keys of a statement.
    #[cycle(typing)]
    #[tactic(auto, unfolding(crate::specs::Forms::rows))]
    fn rows(
        &self,
        select: &Select,
        notes: &mut Notes,
    ) -> Result<(Option<Boxed<Scope>>, List<Key>), TypeRefusal>
        ensures { Answers (tells (rows_of self.now.index.now select.now (known_by notes.old))) result (known_by notes.new) }
    {
        let filter = self.clause_if_there(&select.filter, Clause::Filter, notes)?;
        let keys = self.keys(select.keys.as_slice(), notes)?;
        Ok((filter, keys))
    }

    /// The offset and the limit of a statement.
    #[cycle(typing)]
    #[tactic(auto, unfolding(crate::specs::Forms::cut))]
    fn cut(
        &self,
        select: &Select,
        notes: &mut Notes,
    ) -> Result<(Option<Boxed<Scope>>, Option<Boxed<Scope>>), TypeRefusal>
        ensures { Answers (tells (cut_of self.now.index.now select.now (known_by notes.old))) result (known_by notes.new) }
    {
        let offset = self.clause_if_there(&select.offset, Clause::Cut, notes)?;
        let limit = self.clause_if_there(&select.limit, Clause::Cut, notes)?;
        Ok((offset, limit))
    }

    /// A subject and the clauses of its statement.
    #[cycle(typing)]
    #[tactic(auto, unfolding(crate::specs::Forms::selected))]
    fn selected(&self, select: &Select, notes: &mut Notes) -> Result<(Select, Ty), TypeRefusal>
        ensures { Answers (tells (select_of self.now.index.now select.now (known_by notes.old))) result (known_by notes.new) }
    {
        let subject = self.subject(select, notes)?;
        self.rows_behind(select, subject, notes)
    }

    /// The clauses of a statement, behind its subject.
    #[cycle(typing)]
    fn rows_behind(
        &self,
        select: &Select,
        subject: (Expr, Ty),
        notes: &mut Notes,
    ) -> Result<(Select, Ty), TypeRefusal>
        ensures { Answers (tells (rest.rows_behind (out-Select select.now).number subject (rows_of self.now.index.now select.now) (cut_of self.now.index.now select.now) (known_by notes.old))) result (known_by notes.new) }
    {
        let rows = self.rows(select, notes)?;
        self.cut_behind(select, subject, rows, notes)
    }

    /// The offset and the limit of a statement, behind its other parts.
    #[cycle(typing)]
    fn cut_behind(
        &self,
        select: &Select,
        subject: (Expr, Ty),
        rows: (Option<Boxed<Scope>>, List<Key>),
        notes: &mut Notes,
    ) -> Result<(Select, Ty), TypeRefusal>
        ensures { Answers (tells (rest.cut_behind (out-Select select.now).number subject rows (cut_of self.now.index.now select.now) (known_by notes.old))) result (known_by notes.new) }
    {
        let cut = self.cut(select, notes)?;
        Ok(with_clauses(self.alloc, select.number, subject, rows, cut)?)
    }

    /// A statement, whose aliases have their types.
    #[cycle(typing)]
    #[tactic(auto, unfolding(crate::specs::Forms::select))]
    pub fn select(
        &self,
        select: &Select,
        byte: u32,
        aliases: List<Alias>,
        notes: &mut Notes,
    ) -> Result<(Expr, Ty), TypeRefusal>
        ensures { Answers (tells (rule.select byte (gives aliases) (select_of self.now.index.now select.now) (known_by notes.old))) result (known_by notes.new) }
    {
        let (select, ty) = self.selected(select, notes)?;
        Ok((Expr::Select(byte, aliases, select), ty))
    }
}

/// What stands before the body of a `for`, with its types: the aliases, and the iterator.
type Head = (List<Alias>, (Scope, Ty));
