//! The ARGs of a statement, and its parameters.
ghost use Rattle.std.specs.Prelude.{◌≡◌, [], ◌∷◌, ◌++◌, ◌≤◌, IfOk, IfSome, OnOk, fold, length};
ghost use Rattle.sql_ast.specs.ParamLaws.{ParamsAreThoseThatOccur};
ghost use Rattle.sql_ast.specs.ParamLists.{args_in_body, args_in_columns, args_in_exprs, args_in_items, args_in_keys, args_in_option, put_at};
ghost use Rattle.sql_ast.specs.Params.{args_of, args_of_core, args_of_cores_list, args_of_expr, args_of_item, args_of_key, param_of, params_of, scalar_params as scalar_params_of, with_param};

use crate::catalog::Typed;
use crate::expression::{Binary, Case, SqlExpr};
use crate::select::{Body, Column, Core, FromItem, Key, Stmt};
use crate::ty::SqlTy;
use ev_list::{Param, backward};
use ev_value::{List, Text};
use std::alloc::{AllocError, Global};
use std::cmp::Ordering;

/// Adds an ARG with its type.
fn add_arg(alloc: Global, name: &Text, ty: &SqlTy, all: &mut List<Typed>) -> Result<(), AllocError>
    ensures { OnOk result (all.new ≡ all.old ++ record { name = name.now; ty = ty.now } ∷ []) }
{
    let name = name.copied(alloc)?;
    let ty = ty.copied(alloc)?;
    all.push(Typed { name, ty })
}

/// Adds each ARG of an expression, in the order of the text.
#[cycle(args)]
#[tactic(auto, using(crate::proofs::ArgForms::of_int, crate::proofs::ArgForms::of_text, crate::proofs::ArgForms::of_bool, crate::proofs::ArgForms::of_uuid, crate::proofs::ArgForms::of_null, crate::proofs::ArgForms::of_column, crate::proofs::ArgForms::of_arg, crate::proofs::ArgForms::of_global, crate::proofs::ArgForms::of_array, crate::proofs::ArgForms::of_row, crate::proofs::ArgForms::of_part, crate::proofs::ArgForms::of_case, crate::proofs::ArgForms::of_cast, crate::proofs::ArgForms::of_unary, crate::proofs::ArgForms::of_binary, crate::proofs::ArgForms::of_call))]
fn add_expr(expr: &SqlExpr, alloc: Global, all: &mut List<Typed>) -> Result<(), AllocError>
    ensures { OnOk result (all.new ≡ all.old ++ args_of_expr expr.now) }
{
    match expr {
        SqlExpr::Int(_) => Ok(()),
        SqlExpr::Text(_) => Ok(()),
        SqlExpr::Bool(_) => Ok(()),
        SqlExpr::Uuid(_) => Ok(()),
        SqlExpr::Null(_) => Ok(()),
        SqlExpr::Column(_, _) => Ok(()),
        SqlExpr::Arg(name, ty) => add_arg(alloc, name, ty, all),
        SqlExpr::Global(_) => Ok(()),
        SqlExpr::Array(select) => add_cores(select.cores.as_slice(), alloc, all),
        SqlExpr::Row(parts) => add_exprs(parts.as_slice(), alloc, all),
        SqlExpr::Part(row, _) => add_expr(row.get(), alloc, all),
        SqlExpr::Case(form) => add_case(form, alloc, all),
        SqlExpr::Cast(operand, _) => add_expr(operand.get(), alloc, all),
        SqlExpr::Unary(_, operand) => add_expr(operand.get(), alloc, all),
        SqlExpr::Binary(form) => add_binary(form, alloc, all),
        SqlExpr::Call(_, operand) => add_expr(operand.get(), alloc, all),
    }
}

#[cycle(args)]
fn add_case(form: &Case, alloc: Global, all: &mut List<Typed>) -> Result<(), AllocError>
    ensures { OnOk result (all.new ≡ all.old ++ (args_of_expr form.now.condition ++ (args_of_expr form.now.value ++ args_of_expr form.now.other))) }
{
    add_expr(form.condition.get(), alloc, all)?;
    add_expr(form.value.get(), alloc, all)?;
    add_expr(form.other.get(), alloc, all)
}

#[cycle(args)]
fn add_binary(form: &Binary, alloc: Global, all: &mut List<Typed>) -> Result<(), AllocError>
    ensures { OnOk result (all.new ≡ all.old ++ (args_of_expr form.now.left ++ args_of_expr form.now.right)) }
{
    add_expr(form.left.get(), alloc, all)?;
    add_expr(form.right.get(), alloc, all)
}

#[cycle(args)]
fn add_exprs(exprs: &[SqlExpr], alloc: Global, all: &mut List<Typed>) -> Result<(), AllocError>
    ensures { OnOk result (all.new ≡ all.old ++ args_in_exprs exprs.now) }
{
    for expr in exprs {
        add_expr(expr, alloc, all)?;
    }
    Ok(())
}

#[cycle(args)]
fn add_cores(cores: &[Core], alloc: Global, all: &mut List<Typed>) -> Result<(), AllocError>
    ensures { OnOk result (all.new ≡ all.old ++ args_of_cores_list cores.now) }
{
    for core in cores {
        add_core(core, alloc, all)?;
    }
    Ok(())
}

#[cycle(args)]
#[tactic(auto, using(crate::proofs::ArgForms::of_all, crate::proofs::ArgForms::of_distinct))]
fn add_core(core: &Core, alloc: Global, all: &mut List<Typed>) -> Result<(), AllocError>
    ensures { OnOk result (all.new ≡ all.old ++ args_of_core core.now) }
{
    match core {
        Core::All(columns, body) => {
            add_columns(columns.as_slice(), alloc, all)?;
            add_body(body, alloc, all)
        }
        Core::Distinct(columns, body) => {
            add_columns(columns.as_slice(), alloc, all)?;
            add_body(body, alloc, all)
        }
    }
}

#[cycle(args)]
fn add_columns(columns: &[Column], alloc: Global, all: &mut List<Typed>) -> Result<(), AllocError>
    ensures { OnOk result (all.new ≡ all.old ++ args_in_columns columns.now) }
{
    for column in columns {
        add_expr(&column.value, alloc, all)?;
    }
    Ok(())
}

#[cycle(args)]
fn add_body(body: &Body, alloc: Global, all: &mut List<Typed>) -> Result<(), AllocError>
    ensures { OnOk result (all.new ≡ all.old ++ args_in_body body.now) }
{
    add_items(body.from.as_slice(), alloc, all)?;
    if let Some(condition) = &body.condition {
        add_expr(condition.get(), alloc, all)?;
    }
    add_keys(body.keys.as_slice(), alloc, all)?;
    add_bounds(body, alloc, all)
}

#[cycle(args)]
fn add_bounds(body: &Body, alloc: Global, all: &mut List<Typed>) -> Result<(), AllocError>
    ensures { OnOk result (all.new ≡ all.old ++ (args_in_option body.now.offset ++ args_in_option body.now.limit)) }
{
    if let Some(offset) = &body.offset {
        add_expr(offset.get(), alloc, all)?;
    }
    if let Some(limit) = &body.limit {
        add_expr(limit.get(), alloc, all)?;
    }
    Ok(())
}

#[cycle(args)]
fn add_items(items: &[FromItem], alloc: Global, all: &mut List<Typed>) -> Result<(), AllocError>
    ensures { OnOk result (all.new ≡ all.old ++ args_in_items items.now) }
{
    for item in items {
        add_item(item, alloc, all)?;
    }
    Ok(())
}

#[cycle(args)]
#[tactic(auto, using(crate::proofs::ArgForms::of_table, crate::proofs::ArgForms::of_lateral, crate::proofs::ArgForms::of_left, crate::proofs::ArgForms::of_unnest))]
fn add_item(item: &FromItem, alloc: Global, all: &mut List<Typed>) -> Result<(), AllocError>
    ensures { OnOk result (all.new ≡ all.old ++ args_of_item item.now) }
{
    match item {
        FromItem::Table(_, _) => Ok(()),
        FromItem::Lateral(select, _) => add_cores(select.cores.as_slice(), alloc, all),
        FromItem::LeftLateral(select, _) => add_cores(select.cores.as_slice(), alloc, all),
        FromItem::Unnest(array, _) => add_expr(array, alloc, all),
    }
}

#[cycle(args)]
fn add_keys(keys: &[Key], alloc: Global, all: &mut List<Typed>) -> Result<(), AllocError>
    ensures { OnOk result (all.new ≡ all.old ++ args_in_keys keys.now) }
{
    for key in keys {
        add_key(key, alloc, all)?;
    }
    Ok(())
}

#[cycle(args)]
#[tactic(auto, using(crate::proofs::ArgForms::of_ascending, crate::proofs::ArgForms::of_descending))]
fn add_key(key: &Key, alloc: Global, all: &mut List<Typed>) -> Result<(), AllocError>
    ensures { OnOk result (all.new ≡ all.old ++ args_of_key key.now) }
{
    match key {
        Key::Ascending(value, _) => add_expr(value, alloc, all),
        Key::Descending(value, _) => add_expr(value, alloc, all),
    }
}

/// Where a parameter belongs by the bytes of its name, if none with that name is there.
fn place(param: &Param, all: &[Param]) -> Option<usize>
    ensures within { IfSome result (λ at. at ≤ length all.now) }
    ensures placed { with_param all.now param.now ≡ put_at result param.now all.now }
{
    for (i, other) in all.iter().enumerate() {
        match param.name.cmp(&other.name) {
            Ordering::Less => return Some(i),
            Ordering::Equal => return None,
            Ordering::Greater => {}
        }
    }
    Some(all.len())
}

/// Each ARG of a statement with its type, in the order of the text.
pub fn all_args(alloc: Global, statement: &Stmt) -> Result<List<Typed>, AllocError>
    ensures { IfOk result (λ all. all ≡ args_of statement.now) }
{
    let mut all = List::new(alloc);
    add_cores(statement.select.cores.as_slice(), alloc, &mut all)?;
    Ok(all)
}

/// Adds an ARG as a parameter, where its type is scalar.
#[tactic(auto, using(crate::proofs::ArgForms::param_row, crate::proofs::ArgForms::param_array))]
fn add_param(alloc: Global, arg: &Typed, all: &mut List<Param>) -> Result<(), AllocError>
    ensures { OnOk result (all.new ≡ all.old ++ param_of arg.now.name arg.now.ty) }
{
    match &arg.ty {
        SqlTy::Scalar(ty) => all.push(Param {
            name: arg.name.copied(alloc)?,
            ty: *ty,
            optional: false,
        }),
        SqlTy::Row(_) => Ok(()),
        SqlTy::Array(_) => Ok(()),
    }
}

/// The ARGs with scalar types as parameters.
fn scalar_params(alloc: Global, args: &[Typed]) -> Result<List<Param>, AllocError>
    ensures { IfOk result (λ ps. ps ≡ scalar_params_of args.now) }
{
    let mut all = List::new(alloc);
    for arg in args {
        add_param(alloc, arg, &mut all)?;
    }
    Ok(all)
}

/// The parameters of a statement in the byte order of their names, each once, with the type of its first ARG.
pub fn params(alloc: Global, statement: &Stmt) -> Result<List<Param>, AllocError>
    ensures { IfOk result (λ ps. ps ≡ params_of statement.now) }
{
    let args = all_args(alloc, statement)?;
    let params = scalar_params(alloc, args.as_slice())?;
    in_name_order(alloc, params)
}

/// Each parameter once, in the byte order of the names; the first with a name counts.
fn in_name_order(alloc: Global, args: List<Param>) -> Result<List<Param>, AllocError>
    ensures { IfOk result (λ ps. ps ≡ fold with_param [] args) }
{
    let mut left = backward(alloc, args)?;
    let mut sorted = Vec::new(alloc);
    while let Some(param) = left.pop() {
        if let Some(at) = place(&param, sorted.as_slice()) {
            sorted.insert(at, param)?;
        }
    }
    Ok(List::from_vec(sorted))
}

/// The law of the parameters: their names rise by their bytes, so each stands once, and they are just those that occur.
pub fn params_are_those_that_occur()
    ensures { ParamsAreThoseThatOccur }
{}
