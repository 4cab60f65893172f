//! A cursor over the tokens of a text.

ghost use Rattle.std.specs.Prelude.{◌≡◌, length, not};
ghost use Rattle.exact.specs.Reading.{Takes, heads, one_within, one, inside};
ghost use Rattle.trial_exact.specs.Words.{is, sign_of, name_of, int_of, Finds};

use crate::token::{Sign, Token};
use exact::Rule;
use std::marker::Model;

#[derive(Drop)]
pub struct Tokens<'a> {
    rest: &'a [Token],
}

impl<'a> Model for Tokens<'a> {
    ghost use Rattle.std.specs.Prelude.{List};
    ghost use Rattle.trial_exact.specs.declared.token.Token.{Token};

    ghost Value = { List Token };

    ghost view = { λ t. t.rest.now };
}

#[tactic(auto, unfolding(crate::specs::Words::same_sign))]
fn same(a: Sign, b: Sign) -> bool
    ensures { result ≡ is a (Token.Sign b) }
{
    a == b
}

impl<'a> Tokens<'a> {
    pub fn new(tokens: &'a [Token]) -> Tokens<'a>
        ensures { result ≡ tokens.now }
    {
        Tokens { rest: tokens }
    }

    /// How many tokens are left.
    pub fn left(&self) -> usize
        ensures { result ≡ length self.now }
    {
        self.rest.len()
    }

    pub fn sees(&self, sign: Sign) -> bool
        ensures { result ≡ heads (is sign) self.now }
    {
        match self.rest {
            [Token::Sign(next), ..] => same(sign, *next),
            _ => false,
        }
    }

    /// Whether what is read is over: the sign comes next, or no token does.
    pub fn closes(&self, sign: Sign) -> bool
        ensures { result ≡ not (heads (inside (is sign)) self.now) }
    {
        match self.rest {
            [] => true,
            [Token::Sign(next), ..] => same(sign, *next),
            _ => false,
        }
    }

    /// Takes the sign, which is too deep where `over` says so.
    pub fn expect(&mut self, over: bool, sign: Sign) -> Result<(), Rule>
        ensures { Takes (one_within over (sign_of sign) self.old) result self.new }
    {
        match self.rest {
            [Token::Sign(next), rest @ ..] if same(sign, *next) => {
                if over {
                    return Err(Rule::TooDeep);
                }
                self.rest = rest;
                Ok(())
            }
            _ => Err(Rule::Unexpected),
        }
    }

    pub fn name(&mut self) -> Result<u32, Rule>
        ensures { Takes (one name_of self.old) result self.new }
    {
        match self.rest {
            [Token::Name(name), rest @ ..] => {
                self.rest = rest;
                Ok(*name)
            }
            _ => Err(Rule::Unexpected),
        }
    }

    /// Takes a number, if one comes next.
    pub fn int(&mut self) -> Option<u64>
        ensures { Finds int_of self.old result self.new }
    {
        match self.rest {
            [Token::Int(n), rest @ ..] => {
                self.rest = rest;
                Some(*n)
            }
            _ => None,
        }
    }
}
