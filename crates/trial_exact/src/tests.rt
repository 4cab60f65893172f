//! Texts written out by hand, and where each is refused: at most 3 parts are open, and no tree is higher than 4.

use crate::read::{one_refusal, one_tree, parse};
use crate::{Expr, Operator, Refusal, Sign, Token};
use exact::Rule;
use std::alloc::Global;
use std::test::Fail;

const ONE: Token = Token::Int(1);

const PLUS: Token = Token::Sign(Sign::Plus);

const MINUS: Token = Token::Sign(Sign::Minus);

const COALESCE: Token = Token::Sign(Sign::Coalesce);

const COMMA: Token = Token::Sign(Sign::Comma);

const OPEN: Token = Token::Sign(Sign::LeftParen);

const CLOSE: Token = Token::Sign(Sign::RightParen);

const BRACE: Token = Token::Sign(Sign::LeftBrace);

const END_BRACE: Token = Token::Sign(Sign::RightBrace);

const IF: Token = Token::Sign(Sign::If);

const ELSE: Token = Token::Sign(Sign::Else);

fn is_refused(alloc: Global, text: &[Token], rule: Rule, token: usize) -> bool {
    match parse(alloc, text) {
        Err(
            Refusal::Syntax {
                rule: found,
                token: place,
            },
        ) => found == rule && place == token,
        _ => false,
    }
}

fn height_of(alloc: Global, text: &[Token]) -> usize {
    match parse(alloc, text) {
        Ok(found) => found.height,
        Err(_) => 0,
    }
}

#[test]
fn names_what_fits_no_text(rt: HostRuntime) -> Result<(), Fail> {
    one_tree();
    one_refusal();
    let alloc = rt.alloc();
    assert!(rt; is_refused(alloc, &[], Rule::Unexpected, 0), "no token");
    assert!(rt;
        is_refused(alloc, &[ONE, PLUS], Rule::Unexpected, 2),
        "the end behind a plus"
    );
    assert!(rt;
        is_refused(alloc, &[OPEN, ONE, PLUS, CLOSE], Rule::Unexpected, 3),
        "a bracket behind a plus"
    );
    assert!(rt;
        is_refused(alloc, &[BRACE, ONE, COMMA, COMMA], Rule::Unexpected, 3),
        "two commas"
    );
    assert!(rt;
        is_refused(alloc, &[BRACE, ONE, ONE], Rule::Unexpected, 2),
        "no comma"
    );
    assert!(rt;
        is_refused(alloc, &[BRACE, COMMA], Rule::Unexpected, 1),
        "a comma alone"
    );
    assert!(rt;
        is_refused(alloc, &[ONE, IF, ONE, CLOSE], Rule::Unexpected, 3),
        "no else"
    );
    Ok(())
}

#[test]
fn names_what_opens_a_fourth_part(rt: HostRuntime) -> Result<(), Fail> {
    let alloc = rt.alloc();
    let text = [OPEN, OPEN, OPEN, OPEN, ONE, CLOSE, CLOSE, CLOSE, CLOSE];
    assert!(rt; is_refused(alloc, &text, Rule::TooDeep, 3), "four brackets");
    let text = [
        OPEN, OPEN, OPEN, ONE, IF, ONE, ELSE, ONE, CLOSE, CLOSE, CLOSE,
    ];
    assert!(rt;
        is_refused(alloc, &text, Rule::TooDeep, 6),
        "the part behind else"
    );
    let text = [OPEN, MINUS, BRACE, ONE, COALESCE, ONE, END_BRACE, CLOSE];
    assert!(rt;
        is_refused(alloc, &text, Rule::TooDeep, 4),
        "a part of each kind"
    );
    Ok(())
}

#[test]
fn names_what_stands_behind_a_high_tree(rt: HostRuntime) -> Result<(), Fail> {
    let alloc = rt.alloc();
    let high = [ONE, PLUS, ONE, PLUS, ONE, PLUS, ONE, PLUS, ONE];
    assert!(rt; is_refused(alloc, &high, Rule::TooDeep, 9), "the end");
    let text = [ONE, PLUS, ONE, PLUS, ONE, PLUS, ONE, PLUS, ONE, PLUS];
    assert!(rt; is_refused(alloc, &text, Rule::TooDeep, 9), "a plus");
    let text = [ONE, PLUS, ONE, PLUS, ONE, PLUS, ONE, PLUS, ONE, CLOSE];
    assert!(rt;
        is_refused(alloc, &text, Rule::Unexpected, 9),
        "what does not fit there"
    );
    let text = [
        BRACE, ONE, PLUS, ONE, PLUS, ONE, PLUS, ONE, PLUS, ONE, COMMA, ONE, END_BRACE,
    ];
    assert!(rt; is_refused(alloc, &text, Rule::TooDeep, 10), "a comma");
    Ok(())
}

#[test]
fn reads_what_keeps_the_limits(rt: HostRuntime) -> Result<(), Fail> {
    let alloc = rt.alloc();
    assert!(rt;
        height_of(alloc, &[ONE, PLUS, ONE, PLUS, ONE, PLUS, ONE]) == 4,
        "three operators"
    );
    assert!(rt; height_of(alloc, &[BRACE, END_BRACE]) == 1, "an empty set");
    assert!(rt;
        height_of(alloc, &[BRACE, ONE, COMMA, MINUS, ONE, COMMA, END_BRACE]) == 3,
        "a last comma"
    );
    assert!(rt;
        height_of(alloc, &[ONE, IF, ONE, ELSE, ONE, IF, ONE, ELSE, ONE]) == 3,
        "a choice in a choice"
    );
    let found = parse(alloc, &[ONE, PLUS, Token::Name(7), PLUS, ONE]);
    let is_left = match &found {
        Ok(found) => match &found.expr {
            Expr::Binary(Operator::Add, left, _) => matches!(
                left.get(),
                Expr::Binary(Operator::Add, _, _)
            ),
            _ => false,
        },
        _ => false,
    };
    assert!(rt; is_left, "grouped from the left");
    Ok(())
}
