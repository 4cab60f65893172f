//! A cursor over the tokens of a text, which keeps the class of the next one.
ghost use Rattle.std.specs.Prelude.{◌≡◌, length, not, false};
ghost use Rattle.exact.specs.Reading.{Takes, Reads, heads, has, inside, one_within, one};
ghost use Rattle.eql_grammar.specs.Words as words;
ghost use Rattle.eql_cursor.specs.Front.{IsAhead, taken_as};
ghost use Rattle.eql_cursor.specs.Front as front;

use crate::class::{class_of, is_postfix, is_sign, is_word};
use crate::literals::{is_literal, literal_of, name_of, parameter_of};
use crate::table::{
    comma_of, direction_of, infix_of, need_of, place_of, prefix_of, sign_of, width_of, word_of,
};
use ast::{Expr, Name, Span};
use eql_grammar::{Class, Direction, Infix, Placement, Prefix, Qualified};
use ev_lex::{Keyword, Sign, Token};
use exact::{ReadError, Rule};
use std::alloc::Global;
use std::marker::Model;

/// The tokens that are left.
#[derive(Drop)]
pub struct Cursor<'a> {
    rest: &'a [Token],
    /// The class of the next token; at the end it says nothing.
    ahead: Class,
}

impl<'a> Model for Cursor<'a> {
    ghost use Rattle.std.specs.Prelude.{List};
    ghost use Rattle.ev_lex.specs.declared.token.Token.{Token};
    ghost use Rattle.eql_cursor.specs.Front.{IsAhead};

    ghost Value = { List Token };

    ghost view = { λ t. t.rest.now };

    ghost invariant = { λ t. IsAhead t.rest.now t.ahead };
}

fn class_ahead(tokens: &[Token]) -> Class
    ensures { IsAhead tokens.now result }
{
    match tokens {
        [] => Class::Literal,
        [next, ..] => class_of(next),
    }
}

impl<'a> Cursor<'a> {
    /// At the front of the tokens.
    pub fn new(tokens: &'a [Token]) -> Cursor<'a>
        ensures { result ≡ tokens.now }
    {
        Cursor {
            rest: tokens,
            ahead: class_ahead(tokens),
        }
    }

    /// How many tokens are left.
    pub fn left(&self) -> usize
        ensures { result ≡ length self.now }
    {
        self.rest.len()
    }

    /// Takes the next token, if it stands for something. That is too deep where `over` says so.
    fn take_as<A: Drop>(&mut self, over: bool, found: Option<A>) -> Result<A, Rule>
        ensures { Takes (taken_as over found self.old) result self.new }
    {
        match self.rest {
            [] => Err(Rule::Unexpected),
            [_, rest @ ..] => {
                let Some(value) = found else {
                    return Err(Rule::Unexpected);
                };
                if over {
                    return Err(Rule::TooDeep);
                }
                self.rest = rest;
                self.ahead = class_ahead(rest);
                Ok(value)
            }
        }
    }

    /// Whether the sign comes next.
    pub fn sees(&self, sign: Sign) -> bool
        ensures { result ≡ heads (words.is_sign sign) self.now }
    {
        match self.rest {
            [] => false,
            [_, ..] => is_sign(sign, self.ahead),
        }
    }

    /// Whether the keyword comes next.
    pub fn sees_word(&self, keyword: Keyword) -> bool
        ensures { result ≡ heads (words.is_word keyword) self.now }
    {
        match self.rest {
            [] => false,
            [_, ..] => is_word(keyword, self.ahead),
        }
    }

    /// Takes the sign, which is too deep where `over` says so.
    pub fn expect(&mut self, over: bool, sign: Sign) -> Result<Span, Rule>
        ensures { Takes (one_within over (words.sign_of sign) self.old) result self.new }
    {
        match self.rest {
            [] => Err(Rule::Unexpected),
            [next, ..] => {
                let found = sign_of(sign, self.ahead, next);
                self.take_as(over, found)
            }
        }
    }

    /// Whether an operator of the level comes next.
    pub fn sees_infix(&self, level: usize) -> bool
        ensures { result ≡ heads (has (words.infix_of level)) self.now }
    {
        match self.rest {
            [] => false,
            [next, ..] => matches!(infix_of(level, self.ahead, next), Some(_)),
        }
    }

    /// Takes an operator of the level, which is too deep where `over` says so.
    pub fn infix(&mut self, over: bool, level: usize) -> Result<Infix, Rule>
        ensures { Takes (one_within over (words.infix_of level) self.old) result self.new }
    {
        match self.rest {
            [] => Err(Rule::Unexpected),
            [next, ..] => {
                let found = infix_of(level, self.ahead, next);
                self.take_as(over, found)
            }
        }
    }

    /// Takes the keyword, which is too deep where `over` says so.
    pub fn expect_word(&mut self, over: bool, keyword: Keyword) -> Result<Span, Rule>
        ensures { Takes (one_within over (words.word_of keyword) self.old) result self.new }
    {
        match self.rest {
            [] => Err(Rule::Unexpected),
            [next, ..] => {
                let found = word_of(keyword, self.ahead, next);
                self.take_as(over, found)
            }
        }
    }

    /// Takes a comma, which is too deep where `over` says so.
    pub fn comma(&mut self, over: bool) -> Result<(), Rule>
        ensures { Takes (one_within over words.comma_of self.old) result self.new }
    {
        match self.rest {
            [] => Err(Rule::Unexpected),
            [next, ..] => {
                let found = comma_of(self.ahead, next);
                self.take_as(over, found)
            }
        }
    }

    /// Whether what is read is over: the sign comes next, or no token does.
    pub fn closes(&self, sign: Sign) -> bool
        ensures { result ≡ not (heads (inside (words.is_sign sign)) self.now) }
    {
        match self.rest {
            [] => true,
            [_, ..] => is_sign(sign, self.ahead),
        }
    }

    /// Whether aliases are over: `for` or `select` comes next, or no token does.
    pub fn ends_aliases(&self) -> bool
        ensures { result ≡ not (heads (inside words.ends_aliases) self.now) }
    {
        match self.rest {
            [] => true,
            [_, ..] => is_word(Keyword::For, self.ahead) || is_word(Keyword::Select, self.ahead),
        }
    }

    /// Whether a statement comes next.
    pub fn sees_statement(&self) -> bool
        ensures { result ≡ heads words.is_statement self.now }
    {
        match self.rest {
            [] => false,
            [_, ..] => is_word(Keyword::With, self.ahead)
                || (is_word(Keyword::For, self.ahead) || is_word(Keyword::Select, self.ahead)),
        }
    }

    /// Whether a postfix comes next.
    pub fn sees_postfix(&self) -> bool
        ensures { result ≡ heads front.is_postfix self.now }
    {
        match self.rest {
            [] => false,
            [_, ..] => is_postfix(self.ahead),
        }
    }

    /// Whether a comparison comes next, behind its left side.
    pub fn sees_comparison(&self) -> bool
        ensures { result ≡ heads front.compares self.now }
    {
        match self.rest {
            [] => false,
            [next, ..] => matches!(infix_of(6, self.ahead, next), Some(_))
                || is_word(Keyword::Not, self.ahead),
        }
    }

    /// Whether an operator before an operand comes next.
    pub fn sees_prefix(&self) -> bool
        ensures { result ≡ heads (has words.prefix_of) self.now }
    {
        match self.rest {
            [] => false,
            [next, ..] => matches!(prefix_of(self.ahead, next), Some(_)),
        }
    }

    /// Takes an operator before an operand, which is too deep where `over` says so.
    pub fn prefix(&mut self, over: bool) -> Result<Prefix, Rule>
        ensures { Takes (one_within over words.prefix_of self.old) result self.new }
    {
        match self.rest {
            [] => Err(Rule::Unexpected),
            [next, ..] => {
                let found = prefix_of(self.ahead, next);
                self.take_as(over, found)
            }
        }
    }

    /// Whether `required` or `optional` comes next.
    pub fn sees_need(&self) -> bool
        ensures { result ≡ heads (has words.need_of) self.now }
    {
        match self.rest {
            [] => false,
            [next, ..] => matches!(need_of(self.ahead, next), Some(_)),
        }
    }

    /// Takes `required` or `optional`.
    pub fn need(&mut self) -> Result<Qualified, Rule>
        ensures { Takes (one_within false words.need_of self.old) result self.new }
    {
        match self.rest {
            [] => Err(Rule::Unexpected),
            [next, ..] => {
                let found = need_of(self.ahead, next);
                self.take_as(false, found)
            }
        }
    }

    /// Whether `single` or `multi` comes next.
    pub fn sees_width(&self) -> bool
        ensures { result ≡ heads (has words.width_of) self.now }
    {
        match self.rest {
            [] => false,
            [next, ..] => matches!(width_of(self.ahead, next), Some(_)),
        }
    }

    /// Takes `single` or `multi`.
    pub fn width(&mut self) -> Result<Qualified, Rule>
        ensures { Takes (one_within false words.width_of self.old) result self.new }
    {
        match self.rest {
            [] => Err(Rule::Unexpected),
            [next, ..] => {
                let found = width_of(self.ahead, next);
                self.take_as(false, found)
            }
        }
    }

    /// Whether a word that stands before a computed element comes next.
    pub fn sees_qualifier(&self) -> bool
        ensures { result ≡ heads front.is_qualifier self.now }
    {
        match self.rest {
            [] => false,
            [next, ..] => matches!(need_of(self.ahead, next), Some(_))
                || matches!(width_of(self.ahead, next), Some(_)),
        }
    }

    /// Whether `asc` or `desc` comes next.
    pub fn sees_direction(&self) -> bool
        ensures { result ≡ heads (has words.direction_of) self.now }
    {
        match self.rest {
            [] => false,
            [next, ..] => matches!(direction_of(self.ahead, next), Some(_)),
        }
    }

    /// Takes `asc` or `desc`, which is too deep where `over` says so.
    pub fn direction(&mut self, over: bool) -> Result<Direction, Rule>
        ensures { Takes (one_within over words.direction_of self.old) result self.new }
    {
        match self.rest {
            [] => Err(Rule::Unexpected),
            [next, ..] => {
                let found = direction_of(self.ahead, next);
                self.take_as(over, found)
            }
        }
    }

    /// Takes `first` or `last`.
    pub fn place(&mut self) -> Result<Placement, Rule>
        ensures { Takes (one_within false words.place_of self.old) result self.new }
    {
        match self.rest {
            [] => Err(Rule::Unexpected),
            [next, ..] => {
                let found = place_of(self.ahead, next);
                self.take_as(false, found)
            }
        }
    }

    /// Whether a literal comes next.
    pub fn sees_literal(&self) -> bool
        ensures { result ≡ heads (has words.literal_of) self.now }
    {
        match self.rest {
            [] => false,
            [next, ..] => is_literal(self.ahead, next),
        }
    }

    /// Takes a literal.
    pub fn literal(&mut self, alloc: Global) -> Result<Expr, ReadError>
        ensures { Reads (one words.literal_of self.old) result self.new }
    {
        match self.rest {
            [] => Err(ReadError::Refused(Rule::Unexpected)),
            [next, ..] => {
                let found = literal_of(alloc, self.ahead, next)?;
                Ok(self.take_as(false, found)?)
            }
        }
    }

    /// Takes a name.
    pub fn name(&mut self, alloc: Global) -> Result<Name, ReadError>
        ensures { Reads (one words.name_of self.old) result self.new }
    {
        match self.rest {
            [] => Err(ReadError::Refused(Rule::Unexpected)),
            [next, ..] => {
                let found = name_of(alloc, self.ahead, next)?;
                Ok(self.take_as(false, found)?)
            }
        }
    }

    /// Takes the name of a parameter.
    pub fn parameter_name(&mut self, alloc: Global) -> Result<Name, ReadError>
        ensures { Reads (one words.parameter_of self.old) result self.new }
    {
        match self.rest {
            [] => Err(ReadError::Refused(Rule::Unexpected)),
            [next, ..] => {
                let found = parameter_of(alloc, self.ahead, next)?;
                Ok(self.take_as(false, found)?)
            }
        }
    }
}
