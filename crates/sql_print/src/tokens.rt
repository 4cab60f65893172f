//! The tokens of a statement, form by form.
ghost use Rattle.std.specs.Prelude.{◌≡◌, [], ◌∷◌, ◌++◌, true, false, OnOk, IfOk};
ghost use Rattle.ev_value.specs.JsonText.{id_text};
ghost use Rattle.sql_print.specs.Marks.{mark_of, left_level, right_level, operand_level, before, behind, is_loose, opening, closing, held, in_parens, name_of_function, name_of_scalar, truth, name_of_absent};
ghost use Rattle.sql_print.specs.Printed.{tokens_of_ty, tokens_of_expr, tokens_of_core, tokens_of_item, tokens_of_key, comma_before};
ghost use Rattle.sql_print.specs.Lists.{separator, listed, tokens_of_column, union, listed_cores, item_separator, listed_items, heading, from_tokens, keys_tokens, clause_tokens, body_tokens};

use crate::marks::{
    is_loose, left_level, mark_of, name_of_absent, name_of_function, name_of_scalar, operand_level,
    right_level, truth,
};
use ev_value::{List, Text};
use sql_ast::{Binary, Body, Case, Column, Core, FromItem, Key, SqlExpr, SqlTy, UnaryOp};
use sql_lex::{Keyword, Sign, TokenKind};
use std::alloc::{AllocError, Global};

fn add_word(keyword: Keyword, all: &mut List<TokenKind>) -> Result<(), AllocError>
    ensures { OnOk result (all.new ≡ all.old ++ TokenKind.Word keyword ∷ []) }
{
    all.push(TokenKind::Word(keyword))
}

fn add_sign(sign: Sign, all: &mut List<TokenKind>) -> Result<(), AllocError>
    ensures { OnOk result (all.new ≡ all.old ++ TokenKind.Sign sign ∷ []) }
{
    all.push(TokenKind::Sign(sign))
}

fn add_int(number: i64, all: &mut List<TokenKind>) -> Result<(), AllocError>
    ensures { OnOk result (all.new ≡ all.old ++ TokenKind.Int number ∷ []) }
{
    all.push(TokenKind::Int(number))
}

fn add_name(name: &Text, alloc: Global, all: &mut List<TokenKind>) -> Result<(), AllocError>
    ensures { OnOk result (all.new ≡ all.old ++ TokenKind.Name name.now ∷ []) }
{
    all.push(TokenKind::Name(name.copied(alloc)?))
}

fn add_text(text: &Text, alloc: Global, all: &mut List<TokenKind>) -> Result<(), AllocError>
    ensures { OnOk result (all.new ≡ all.old ++ TokenKind.Str text.now ∷ []) }
{
    all.push(TokenKind::Str(text.copied(alloc)?))
}

fn add_id(id: u128, alloc: Global, all: &mut List<TokenKind>) -> Result<(), AllocError>
    ensures { OnOk result (all.new ≡ all.old ++ TokenKind.Word Keyword.Uuid ∷ TokenKind.Str (id_text id) ∷ []) }
{
    add_word(Keyword::Uuid, all)?;
    all.push(TokenKind::Str(Text::of_id(alloc, id)?))
}

fn add_opening(loose: bool, all: &mut List<TokenKind>) -> Result<(), AllocError>
    ensures { OnOk result (all.new ≡ all.old ++ opening loose) }
{
    if loose {
        return add_sign(Sign::LeftParen, all);
    }
    Ok(())
}

fn add_closing(loose: bool, all: &mut List<TokenKind>) -> Result<(), AllocError>
    ensures { OnOk result (all.new ≡ all.old ++ closing loose) }
{
    if loose {
        return add_sign(Sign::RightParen, all);
    }
    Ok(())
}

fn add_reference(
    alias: &Text,
    name: &Text,
    alloc: Global,
    all: &mut List<TokenKind>,
) -> Result<(), AllocError>
    ensures { OnOk result (all.new ≡ all.old ++ TokenKind.Name alias.now ∷ TokenKind.Sign Sign.Dot ∷ TokenKind.Name name.now ∷ []) }
{
    add_name(alias, alloc, all)?;
    add_sign(Sign::Dot, all)?;
    add_name(name, alloc, all)
}

/// `AS name`
fn add_alias(name: &Text, alloc: Global, all: &mut List<TokenKind>) -> Result<(), AllocError>
    ensures { OnOk result (all.new ≡ all.old ++ TokenKind.Word Keyword.As ∷ TokenKind.Name name.now ∷ []) }
{
    add_word(Keyword::As, all)?;
    add_name(name, alloc, all)
}

fn add_before(operator: UnaryOp, all: &mut List<TokenKind>) -> Result<(), AllocError>
    ensures { OnOk result (all.new ≡ all.old ++ before operator) }
{
    match operator {
        UnaryOp::Neg => add_sign(Sign::Minus, all),
        UnaryOp::Not => add_word(Keyword::Not, all),
        UnaryOp::IsNull => Ok(()),
        UnaryOp::IsNotNull => Ok(()),
    }
}

fn add_behind(operator: UnaryOp, all: &mut List<TokenKind>) -> Result<(), AllocError>
    ensures { OnOk result (all.new ≡ all.old ++ behind operator) }
{
    match operator {
        UnaryOp::Neg => Ok(()),
        UnaryOp::Not => Ok(()),
        UnaryOp::IsNull => {
            add_word(Keyword::Is, all)?;
            add_word(Keyword::Null, all)
        }
        UnaryOp::IsNotNull => {
            add_word(Keyword::Is, all)?;
            add_word(Keyword::Not, all)?;
            add_word(Keyword::Null, all)
        }
    }
}

/// A word and an opening parenthesis.
fn open_form(keyword: Keyword, all: &mut List<TokenKind>) -> Result<(), AllocError>
    ensures { OnOk result (all.new ≡ all.old ++ TokenKind.Word keyword ∷ TokenKind.Sign Sign.LeftParen ∷ []) }
{
    add_word(keyword, all)?;
    add_sign(Sign::LeftParen, all)
}

fn close_part(number: i64, all: &mut List<TokenKind>) -> Result<(), AllocError>
    ensures { OnOk result (all.new ≡ all.old ++ TokenKind.Sign Sign.Comma ∷ TokenKind.Int number ∷ TokenKind.Sign Sign.RightParen ∷ []) }
{
    add_sign(Sign::Comma, all)?;
    add_int(number, all)?;
    add_sign(Sign::RightParen, all)
}

fn close_cast(ty: &SqlTy, alloc: Global, all: &mut List<TokenKind>) -> Result<(), AllocError>
    ensures { OnOk result (all.new ≡ all.old ++ (TokenKind.Word Keyword.As ∷ (tokens_of_ty ty.now ++ TokenKind.Sign Sign.RightParen ∷ []))) }
{
    add_word(Keyword::As, all)?;
    add_ty(ty, alloc, all)?;
    add_sign(Sign::RightParen, all)
}

fn open_unary(operator: UnaryOp, loose: bool, all: &mut List<TokenKind>) -> Result<(), AllocError>
    ensures { OnOk result (all.new ≡ all.old ++ (before operator ++ opening loose)) }
{
    add_before(operator, all)?;
    add_opening(loose, all)
}

fn close_unary(operator: UnaryOp, loose: bool, all: &mut List<TokenKind>) -> Result<(), AllocError>
    ensures { OnOk result (all.new ≡ all.old ++ (closing loose ++ behind operator)) }
{
    add_closing(loose, all)?;
    add_behind(operator, all)
}

fn close_left(mark: TokenKind, loose: bool, all: &mut List<TokenKind>) -> Result<(), AllocError>
    ensures { OnOk result (all.new ≡ all.old ++ (closing loose ++ mark ∷ [])) }
{
    add_closing(loose, all)?;
    all.push(mark)
}

fn add_null(ty: &SqlTy, alloc: Global, all: &mut List<TokenKind>) -> Result<(), AllocError>
    ensures { OnOk result (all.new ≡ all.old ++ (TokenKind.Word Keyword.Null ∷ TokenKind.Sign Sign.Cast ∷ tokens_of_ty ty.now)) }
{
    add_word(Keyword::Null, all)?;
    add_sign(Sign::Cast, all)?;
    add_ty(ty, alloc, all)
}

fn add_arg(
    name: &Text,
    ty: &SqlTy,
    alloc: Global,
    all: &mut List<TokenKind>,
) -> Result<(), AllocError>
    ensures { OnOk result (all.new ≡ all.old ++ (TokenKind.Word Keyword.Arg ∷ in_parens (TokenKind.Str name.now ∷ TokenKind.Sign Sign.Comma ∷ tokens_of_ty ty.now))) }
{
    open_form(Keyword::Arg, all)?;
    add_text(name, alloc, all)?;
    add_sign(Sign::Comma, all)?;
    add_ty(ty, alloc, all)?;
    add_sign(Sign::RightParen, all)
}

fn add_global(name: &Text, alloc: Global, all: &mut List<TokenKind>) -> Result<(), AllocError>
    ensures { OnOk result (all.new ≡ all.old ++ (TokenKind.Word Keyword.Global ∷ in_parens (TokenKind.Str name.now ∷ []))) }
{
    open_form(Keyword::Global, all)?;
    add_text(name, alloc, all)?;
    add_sign(Sign::RightParen, all)
}

fn add_separator(first: bool, all: &mut List<TokenKind>) -> Result<(), AllocError>
    ensures { OnOk result (all.new ≡ all.old ++ separator first) }
{
    if first {
        return Ok(());
    }
    add_sign(Sign::Comma, all)
}

fn add_union(first: bool, all: &mut List<TokenKind>) -> Result<(), AllocError>
    ensures { OnOk result (all.new ≡ all.old ++ union first) }
{
    if first {
        return Ok(());
    }
    add_word(Keyword::Union, all)?;
    add_word(Keyword::All, all)
}

#[tactic(auto, using(crate::proofs::Forms::comma_table, crate::proofs::Forms::comma_lateral, crate::proofs::Forms::comma_left, crate::proofs::Forms::comma_unnest))]
fn add_comma_before(item: &FromItem, all: &mut List<TokenKind>) -> Result<(), AllocError>
    ensures { OnOk result (all.new ≡ all.old ++ comma_before item.now) }
{
    match item {
        FromItem::LeftLateral(_, _) => Ok(()),
        FromItem::Table(_, _) => add_sign(Sign::Comma, all),
        FromItem::Lateral(_, _) => add_sign(Sign::Comma, all),
        FromItem::Unnest(_, _) => add_sign(Sign::Comma, all),
    }
}

fn add_item_separator(
    first: bool,
    item: &FromItem,
    all: &mut List<TokenKind>,
) -> Result<(), AllocError>
    ensures { OnOk result (all.new ≡ all.old ++ item_separator first item.now) }
{
    if first {
        return Ok(());
    }
    add_comma_before(item, all)
}

#[tactic(auto, using(crate::proofs::Heads::heading_some, crate::proofs::Heads::heading_none))]
fn add_from_heading(items: &[FromItem], all: &mut List<TokenKind>) -> Result<(), AllocError>
    ensures { OnOk result (all.new ≡ all.old ++ heading (TokenKind.Word Keyword.From ∷ []) items.now) }
{
    if items.len() == 0 {
        return Ok(());
    }
    add_word(Keyword::From, all)
}

#[tactic(auto, using(crate::proofs::Heads::heading_some, crate::proofs::Heads::heading_none))]
fn add_order_heading(keys: &[Key], all: &mut List<TokenKind>) -> Result<(), AllocError>
    ensures { OnOk result (all.new ≡ all.old ++ heading (TokenKind.Word Keyword.Order ∷ TokenKind.Word Keyword.By ∷ []) keys.now) }
{
    if keys.len() == 0 {
        return Ok(());
    }
    add_word(Keyword::Order, all)?;
    add_word(Keyword::By, all)
}

fn close_key(way: Keyword, nulls: Keyword, all: &mut List<TokenKind>) -> Result<(), AllocError>
    ensures { OnOk result (all.new ≡ all.old ++ TokenKind.Word way ∷ TokenKind.Word Keyword.Nulls ∷ TokenKind.Word nulls ∷ []) }
{
    add_word(way, all)?;
    add_word(Keyword::Nulls, all)?;
    add_word(nulls, all)
}

fn close_item(alias: &Text, alloc: Global, all: &mut List<TokenKind>) -> Result<(), AllocError>
    ensures { OnOk result (all.new ≡ all.old ++ TokenKind.Sign Sign.RightParen ∷ TokenKind.Word Keyword.As ∷ TokenKind.Name alias.now ∷ []) }
{
    add_sign(Sign::RightParen, all)?;
    add_alias(alias, alloc, all)
}

fn add_on_true(all: &mut List<TokenKind>) -> Result<(), AllocError>
    ensures { OnOk result (all.new ≡ all.old ++ TokenKind.Word Keyword.On ∷ TokenKind.Word Keyword.True ∷ []) }
{
    add_word(Keyword::On, all)?;
    add_word(Keyword::True, all)
}

fn open_left_join(all: &mut List<TokenKind>) -> Result<(), AllocError>
    ensures { OnOk result (all.new ≡ all.old ++ TokenKind.Word Keyword.Left ∷ TokenKind.Word Keyword.Join ∷ TokenKind.Word Keyword.Lateral ∷ TokenKind.Sign Sign.LeftParen ∷ []) }
{
    add_word(Keyword::Left, all)?;
    add_word(Keyword::Join, all)?;
    open_form(Keyword::Lateral, all)
}

fn add_table(
    name: &Text,
    alias: &Text,
    alloc: Global,
    all: &mut List<TokenKind>,
) -> Result<(), AllocError>
    ensures { OnOk result (all.new ≡ all.old ++ TokenKind.Name name.now ∷ TokenKind.Word Keyword.As ∷ TokenKind.Name alias.now ∷ []) }
{
    add_name(name, alloc, all)?;
    add_alias(alias, alloc, all)
}

/// The tokens of a type.
#[cycle(types)]
#[tactic(auto, using(crate::proofs::Forms::of_scalar, crate::proofs::Forms::of_row_ty, crate::proofs::Forms::of_array_ty))]
fn add_ty(ty: &SqlTy, alloc: Global, all: &mut List<TokenKind>) -> Result<(), AllocError>
    ensures { OnOk result (all.new ≡ all.old ++ tokens_of_ty ty.now) }
{
    match ty {
        SqlTy::Scalar(scalar) => add_word(name_of_scalar(*scalar), all),
        SqlTy::Row(parts) => {
            open_form(Keyword::Row, all)?;
            add_types(parts.as_slice(), alloc, all)?;
            add_sign(Sign::RightParen, all)
        }
        SqlTy::Array(element) => {
            open_form(Keyword::Array, all)?;
            add_ty(element.get(), alloc, all)?;
            add_sign(Sign::RightParen, all)
        }
    }
}

#[cycle(types)]
fn add_types(types: &[SqlTy], alloc: Global, all: &mut List<TokenKind>) -> Result<(), AllocError>
    ensures { OnOk result (all.new ≡ all.old ++ listed tokens_of_ty true types.now) }
{
    let mut first = true;
    for ty in types {
        add_separator(first, all)?;
        first = false;
        add_ty(ty, alloc, all)?;
    }
    Ok(())
}

/// The tokens of an expression.
#[cycle(tokens)]
#[tactic(auto, using(crate::proofs::Forms::of_int, crate::proofs::Forms::of_text, crate::proofs::Forms::of_bool, crate::proofs::Forms::of_uuid, crate::proofs::Forms::of_null, crate::proofs::Forms::of_column, crate::proofs::Forms::of_arg, crate::proofs::Forms::of_global, crate::proofs::Forms::of_array, crate::proofs::Forms::of_row, crate::proofs::Forms::of_part, crate::proofs::Forms::of_case, crate::proofs::Forms::of_cast, crate::proofs::Forms::of_unary, crate::proofs::Forms::of_binary, crate::proofs::Forms::of_call))]
fn add_expr(expr: &SqlExpr, alloc: Global, all: &mut List<TokenKind>) -> Result<(), AllocError>
    ensures { OnOk result (all.new ≡ all.old ++ tokens_of_expr expr.now) }
{
    match expr {
        SqlExpr::Int(number) => add_int(*number, all),
        SqlExpr::Text(text) => add_text(text, alloc, all),
        SqlExpr::Bool(b) => add_word(truth(*b), all),
        SqlExpr::Uuid(id) => add_id(*id, alloc, all),
        SqlExpr::Null(ty) => add_null(ty, alloc, all),
        SqlExpr::Column(alias, name) => add_reference(alias, name, alloc, all),
        SqlExpr::Arg(name, ty) => add_arg(name, ty, alloc, all),
        SqlExpr::Global(name) => add_global(name, alloc, all),
        SqlExpr::Array(select) => {
            open_form(Keyword::Array, all)?;
            add_cores(select.cores.as_slice(), alloc, all)?;
            add_sign(Sign::RightParen, all)
        }
        SqlExpr::Row(parts) => {
            open_form(Keyword::Row, all)?;
            add_exprs(parts.as_slice(), alloc, all)?;
            add_sign(Sign::RightParen, all)
        }
        SqlExpr::Part(row, number) => {
            open_form(Keyword::Part, all)?;
            add_expr(row.get(), alloc, all)?;
            close_part(*number, all)
        }
        SqlExpr::Case(form) => {
            add_condition(form, alloc, all)?;
            add_choices(form, alloc, all)
        }
        SqlExpr::Cast(operand, ty) => {
            open_form(Keyword::Cast, all)?;
            add_expr(operand.get(), alloc, all)?;
            close_cast(ty, alloc, all)
        }
        SqlExpr::Unary(operator, operand) => {
            let loose = is_loose(operand_level(*operator), operand.get());
            open_unary(*operator, loose, all)?;
            add_expr(operand.get(), alloc, all)?;
            close_unary(*operator, loose, all)
        }
        SqlExpr::Binary(form) => {
            add_left(form, alloc, all)?;
            add_right(form, alloc, all)
        }
        SqlExpr::Call(called, operand) => {
            open_form(name_of_function(*called), all)?;
            add_expr(operand.get(), alloc, all)?;
            add_sign(Sign::RightParen, all)
        }
    }
}

#[cycle(tokens)]
fn add_condition(form: &Case, alloc: Global, all: &mut List<TokenKind>) -> Result<(), AllocError>
    ensures { OnOk result (all.new ≡ all.old ++ (TokenKind.Word Keyword.Case ∷ TokenKind.Word Keyword.When ∷ (tokens_of_expr form.now.condition ++ TokenKind.Word Keyword.Then ∷ []))) }
{
    add_word(Keyword::Case, all)?;
    add_word(Keyword::When, all)?;
    add_expr(form.condition.get(), alloc, all)?;
    add_word(Keyword::Then, all)
}

#[cycle(tokens)]
fn add_choices(form: &Case, alloc: Global, all: &mut List<TokenKind>) -> Result<(), AllocError>
    ensures { OnOk result (all.new ≡ all.old ++ (tokens_of_expr form.now.value ++ TokenKind.Word Keyword.Else ∷ (tokens_of_expr form.now.other ++ TokenKind.Word Keyword.End ∷ []))) }
{
    add_expr(form.value.get(), alloc, all)?;
    add_word(Keyword::Else, all)?;
    add_expr(form.other.get(), alloc, all)?;
    add_word(Keyword::End, all)
}

#[cycle(tokens)]
fn add_left(form: &Binary, alloc: Global, all: &mut List<TokenKind>) -> Result<(), AllocError>
    ensures { OnOk result (all.new ≡ all.old ++ (opening (is_loose (left_level form.now.operator) form.now.left) ++ (tokens_of_expr form.now.left ++ (closing (is_loose (left_level form.now.operator) form.now.left) ++ mark_of form.now.operator ∷ [])))) }
{
    let loose = is_loose(left_level(form.operator), form.left.get());
    add_opening(loose, all)?;
    add_expr(form.left.get(), alloc, all)?;
    close_left(mark_of(form.operator), loose, all)
}

#[cycle(tokens)]
fn add_right(form: &Binary, alloc: Global, all: &mut List<TokenKind>) -> Result<(), AllocError>
    ensures { OnOk result (all.new ≡ all.old ++ held (is_loose (right_level form.now.operator) form.now.right) (tokens_of_expr form.now.right)) }
{
    let loose = is_loose(right_level(form.operator), form.right.get());
    add_opening(loose, all)?;
    add_expr(form.right.get(), alloc, all)?;
    add_closing(loose, all)
}

#[cycle(tokens)]
fn add_exprs(exprs: &[SqlExpr], alloc: Global, all: &mut List<TokenKind>) -> Result<(), AllocError>
    ensures { OnOk result (all.new ≡ all.old ++ listed tokens_of_expr true exprs.now) }
{
    let mut first = true;
    for expr in exprs {
        add_separator(first, all)?;
        first = false;
        add_expr(expr, alloc, all)?;
    }
    Ok(())
}

#[cycle(tokens)]
fn add_cores(cores: &[Core], alloc: Global, all: &mut List<TokenKind>) -> Result<(), AllocError>
    ensures { OnOk result (all.new ≡ all.old ++ listed_cores true cores.now) }
{
    let mut first = true;
    for core in cores {
        add_union(first, all)?;
        first = false;
        add_core(core, alloc, all)?;
    }
    Ok(())
}

/// The tokens of a core.
#[cycle(tokens)]
#[tactic(auto, using(crate::proofs::Forms::of_all, crate::proofs::Forms::of_distinct))]
fn add_core(core: &Core, alloc: Global, all: &mut List<TokenKind>) -> Result<(), AllocError>
    ensures { OnOk result (all.new ≡ all.old ++ tokens_of_core core.now) }
{
    match core {
        Core::All(columns, body) => {
            add_word(Keyword::Select, all)?;
            add_columns(columns.as_slice(), alloc, all)?;
            add_body(body, alloc, all)
        }
        Core::Distinct(columns, body) => {
            add_word(Keyword::Select, all)?;
            add_word(Keyword::Distinct, all)?;
            add_columns(columns.as_slice(), alloc, all)?;
            add_body(body, alloc, all)
        }
    }
}

#[cycle(tokens)]
fn add_columns(
    columns: &[Column],
    alloc: Global,
    all: &mut List<TokenKind>,
) -> Result<(), AllocError>
    ensures { OnOk result (all.new ≡ all.old ++ listed tokens_of_column true columns.now) }
{
    let mut first = true;
    for column in columns {
        add_separator(first, all)?;
        first = false;
        add_column(column, alloc, all)?;
    }
    Ok(())
}

#[cycle(tokens)]
fn add_column(column: &Column, alloc: Global, all: &mut List<TokenKind>) -> Result<(), AllocError>
    ensures { OnOk result (all.new ≡ all.old ++ tokens_of_column column.now) }
{
    add_expr(&column.value, alloc, all)?;
    add_alias(&column.name, alloc, all)
}

#[cycle(tokens)]
fn add_body(body: &Body, alloc: Global, all: &mut List<TokenKind>) -> Result<(), AllocError>
    ensures { OnOk result (all.new ≡ all.old ++ body_tokens body.now) }
{
    add_from(body.from.as_slice(), alloc, all)?;
    if let Some(condition) = &body.condition {
        add_word(Keyword::Where, all)?;
        add_expr(condition.get(), alloc, all)?;
    }
    add_keys(body.keys.as_slice(), alloc, all)?;
    add_bounds(body, alloc, all)
}

#[cycle(tokens)]
fn add_bounds(body: &Body, alloc: Global, all: &mut List<TokenKind>) -> Result<(), AllocError>
    ensures { OnOk result (all.new ≡ all.old ++ (clause_tokens Keyword.Offset body.now.offset ++ clause_tokens Keyword.Limit body.now.limit)) }
{
    if let Some(offset) = &body.offset {
        add_word(Keyword::Offset, all)?;
        add_expr(offset.get(), alloc, all)?;
    }
    if let Some(limit) = &body.limit {
        add_word(Keyword::Limit, all)?;
        add_expr(limit.get(), alloc, all)?;
    }
    Ok(())
}

#[cycle(tokens)]
fn add_from(items: &[FromItem], alloc: Global, all: &mut List<TokenKind>) -> Result<(), AllocError>
    ensures { OnOk result (all.new ≡ all.old ++ from_tokens items.now) }
{
    add_from_heading(items, all)?;
    add_items(items, alloc, all)
}

#[cycle(tokens)]
fn add_items(items: &[FromItem], alloc: Global, all: &mut List<TokenKind>) -> Result<(), AllocError>
    ensures { OnOk result (all.new ≡ all.old ++ listed_items true items.now) }
{
    let mut first = true;
    for item in items {
        add_item_separator(first, item, all)?;
        first = false;
        add_item(item, alloc, all)?;
    }
    Ok(())
}

/// The tokens of an item of `FROM`.
#[cycle(tokens)]
#[tactic(auto, using(crate::proofs::Forms::of_table, crate::proofs::Forms::of_lateral, crate::proofs::Forms::of_left, crate::proofs::Forms::of_unnest))]
fn add_item(item: &FromItem, alloc: Global, all: &mut List<TokenKind>) -> Result<(), AllocError>
    ensures { OnOk result (all.new ≡ all.old ++ tokens_of_item item.now) }
{
    match item {
        FromItem::Table(name, alias) => add_table(name, alias, alloc, all),
        FromItem::Lateral(select, alias) => {
            open_form(Keyword::Lateral, all)?;
            add_cores(select.cores.as_slice(), alloc, all)?;
            close_item(alias, alloc, all)
        }
        FromItem::LeftLateral(select, alias) => {
            open_left_join(all)?;
            add_cores(select.cores.as_slice(), alloc, all)?;
            close_item(alias, alloc, all)?;
            add_on_true(all)
        }
        FromItem::Unnest(array, alias) => {
            open_form(Keyword::Unnest, all)?;
            add_expr(array, alloc, all)?;
            close_item(alias, alloc, all)
        }
    }
}

#[cycle(tokens)]
fn add_keys(keys: &[Key], alloc: Global, all: &mut List<TokenKind>) -> Result<(), AllocError>
    ensures { OnOk result (all.new ≡ all.old ++ keys_tokens keys.now) }
{
    add_order_heading(keys, all)?;
    add_key_list(keys, alloc, all)
}

#[cycle(tokens)]
fn add_key_list(keys: &[Key], alloc: Global, all: &mut List<TokenKind>) -> Result<(), AllocError>
    ensures { OnOk result (all.new ≡ all.old ++ listed tokens_of_key true keys.now) }
{
    let mut first = true;
    for key in keys {
        add_separator(first, all)?;
        first = false;
        add_key(key, alloc, all)?;
    }
    Ok(())
}

/// The tokens of a key.
#[cycle(tokens)]
#[tactic(auto, using(crate::proofs::Forms::of_ascending, crate::proofs::Forms::of_descending))]
fn add_key(key: &Key, alloc: Global, all: &mut List<TokenKind>) -> Result<(), AllocError>
    ensures { OnOk result (all.new ≡ all.old ++ tokens_of_key key.now) }
{
    match key {
        Key::Ascending(value, nulls) => {
            add_expr(value, alloc, all)?;
            close_key(Keyword::Asc, name_of_absent(*nulls), all)
        }
        Key::Descending(value, nulls) => {
            add_expr(value, alloc, all)?;
            close_key(Keyword::Desc, name_of_absent(*nulls), all)
        }
    }
}

/// The tokens of a statement.
pub fn tokens_of(alloc: Global, cores: &[Core]) -> Result<List<TokenKind>, AllocError>
    ensures { IfOk result (λ all. all ≡ listed_cores true cores.now) }
{
    let mut all = List::new(alloc);
    add_cores(cores, alloc, &mut all)?;
    Ok(all)
}
