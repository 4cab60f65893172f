//! A cursor over the tokens of a text.
ghost use Rattle.std.specs.Prelude.{◌≡◌, length, false};
ghost use Rattle.exact.specs.Reading.{Takes, Reads, heads, has, one_within, one};
ghost use Rattle.sql_grammar.specs.Words as words;
ghost use Rattle.sql_grammar.specs.Readers.{goes_on_items};
ghost use Rattle.sql_cursor.specs.Front.{taken_as};

use crate::class::{class_of, is_sign, is_word, starts};
use crate::literals::{id_of, literal_of, name_of, number_of, text_of};
use crate::table::{
    absent_of, direction_of, function_of, operator_of, scalar_of, sign_of, word_of,
};
use ev_list::{Absent, Direction};
use ev_value::{ScalarTy, Text};
use exact::{ReadError, Rule};
use sql_ast::BinaryOp;
use sql_grammar::{Called, Class, Grown, Name, Start};
use sql_lex::{Keyword, Sign, Token};
use std::alloc::Global;
use std::marker::Model;

/// The tokens that are left.
#[derive(Drop)]
pub struct Cursor<'a> {
    rest: &'a [Token],
}

impl<'a> Model for Cursor<'a> {
    ghost use Rattle.std.specs.Prelude.{List};
    ghost use Rattle.sql_lex.specs.declared.token.Token.{Token};

    ghost Value = { List Token };

    ghost view = { λ t. t.rest.now };
}

impl<'a> Cursor<'a> {
    /// At the front of the tokens.
    pub fn new(tokens: &'a [Token]) -> Cursor<'a>
        ensures { result ≡ tokens.now }
    {
        Cursor { rest: tokens }
    }

    /// How many tokens are left.
    pub fn left(&self) -> usize
        ensures { result ≡ length self.now }
    {
        self.rest.len()
    }

    /// Takes the next token, if it stands for something. That is too deep where `over` says so.
    fn take_as<A: Drop>(&mut self, over: bool, found: Option<A>) -> Result<A, Rule>
        ensures { Takes (taken_as over found self.old) result self.new }
    {
        match self.rest {
            [] => Err(Rule::Unexpected),
            [_, rest @ ..] => {
                let Some(value) = found else {
                    return Err(Rule::Unexpected);
                };
                if over {
                    return Err(Rule::TooDeep);
                }
                self.rest = rest;
                Ok(value)
            }
        }
    }

    /// Whether the sign comes next.
    pub fn sees(&self, sign: Sign) -> bool
        ensures { result ≡ heads (words.is_sign sign) self.now }
    {
        match self.rest {
            [] => false,
            [next, ..] => is_sign(sign, class_of(next)),
        }
    }

    /// Whether the keyword comes next.
    pub fn sees_word(&self, keyword: Keyword) -> bool
        ensures { result ≡ heads (words.is_word keyword) self.now }
    {
        match self.rest {
            [] => false,
            [next, ..] => is_word(keyword, class_of(next)),
        }
    }

    /// Whether such an expression comes next.
    pub fn sees_start(&self, start: Start) -> bool
        ensures { result ≡ heads (words.starts start) self.now }
    {
        match self.rest {
            [] => false,
            [next, ..] => starts(start, class_of(next)),
        }
    }

    /// Whether an operator of the level comes next.
    pub fn sees_operator(&self, level: usize) -> bool
        ensures { result ≡ heads (has (words.operator_of level)) self.now }
    {
        match self.rest {
            [] => false,
            [next, ..] => matches!(operator_of(level, next), Some(_)),
        }
    }

    /// Whether a scalar type comes next.
    pub fn sees_scalar(&self) -> bool
        ensures { result ≡ heads (has words.scalar_of) self.now }
    {
        match self.rest {
            [] => false,
            [next, ..] => matches!(scalar_of(next), Some(_)),
        }
    }

    /// Whether a name comes next.
    pub fn sees_name(&self) -> bool
        ensures { result ≡ heads (has words.name_of) self.now }
    {
        match self.rest {
            [] => false,
            [next, ..] => matches!(class_of(next), Class::Name),
        }
    }

    /// Whether the items of `FROM` go on.
    pub fn goes_on_items(&self) -> bool
        ensures { result ≡ heads (goes_on_items) self.now }
    {
        match self.rest {
            [] => false,
            [next, ..] => is_sign(Sign::Comma, class_of(next))
                || is_word(Keyword::Left, class_of(next)),
        }
    }

    /// Takes the sign, which is too deep where `over` says so.
    pub fn expect(&mut self, over: bool, sign: Sign) -> Result<u32, Rule>
        ensures { Takes (one_within over (words.sign_of sign) self.old) result self.new }
    {
        match self.rest {
            [] => Err(Rule::Unexpected),
            [next, ..] => {
                let found = sign_of(sign, next);
                self.take_as(over, found)
            }
        }
    }

    /// Takes the keyword, which is too deep where `over` says so.
    pub fn expect_word(&mut self, over: bool, keyword: Keyword) -> Result<u32, Rule>
        ensures { Takes (one_within over (words.word_of keyword) self.old) result self.new }
    {
        match self.rest {
            [] => Err(Rule::Unexpected),
            [next, ..] => {
                let found = word_of(keyword, next);
                self.take_as(over, found)
            }
        }
    }

    /// Takes an operator of the level, which is too deep where `over` says so.
    pub fn operator(&mut self, over: bool, level: usize) -> Result<BinaryOp, Rule>
        ensures { Takes (one_within over (words.operator_of level) self.old) result self.new }
    {
        match self.rest {
            [] => Err(Rule::Unexpected),
            [next, ..] => {
                let found = operator_of(level, next);
                self.take_as(over, found)
            }
        }
    }

    /// Takes the name of a function.
    pub fn function(&mut self) -> Result<Called, Rule>
        ensures { Takes (one_within false (words.function_of) self.old) result self.new }
    {
        match self.rest {
            [] => Err(Rule::Unexpected),
            [next, ..] => {
                let found = function_of(next);
                self.take_as(false, found)
            }
        }
    }

    /// Takes a scalar type.
    pub fn scalar(&mut self) -> Result<ScalarTy, Rule>
        ensures { Takes (one_within false (words.scalar_of) self.old) result self.new }
    {
        match self.rest {
            [] => Err(Rule::Unexpected),
            [next, ..] => {
                let found = scalar_of(next);
                self.take_as(false, found)
            }
        }
    }

    /// Takes `ASC` or `DESC`.
    pub fn direction(&mut self) -> Result<Direction, Rule>
        ensures { Takes (one_within false (words.direction_of) self.old) result self.new }
    {
        match self.rest {
            [] => Err(Rule::Unexpected),
            [next, ..] => {
                let found = direction_of(next);
                self.take_as(false, found)
            }
        }
    }

    /// Takes `FIRST` or `LAST`.
    pub fn absent(&mut self) -> Result<Absent, Rule>
        ensures { Takes (one_within false (words.absent_of) self.old) result self.new }
    {
        match self.rest {
            [] => Err(Rule::Unexpected),
            [next, ..] => {
                let found = absent_of(next);
                self.take_as(false, found)
            }
        }
    }

    /// Takes a number.
    pub fn number(&mut self) -> Result<i64, Rule>
        ensures { Takes (one_within false (words.number_of) self.old) result self.new }
    {
        match self.rest {
            [] => Err(Rule::Unexpected),
            [next, ..] => {
                let found = number_of(next);
                self.take_as(false, found)
            }
        }
    }

    /// Takes a name.
    pub fn name(&mut self, alloc: Global) -> Result<Name, ReadError>
        ensures { Reads (one words.name_of self.old) result self.new }
    {
        match self.rest {
            [] => Err(ReadError::Refused(Rule::Unexpected)),
            [next, ..] => {
                let found = name_of(alloc, next)?;
                Ok(self.take_as(false, found)?)
            }
        }
    }

    /// Takes a text.
    pub fn text(&mut self, alloc: Global) -> Result<Text, ReadError>
        ensures { Reads (one words.text_of self.old) result self.new }
    {
        match self.rest {
            [] => Err(ReadError::Refused(Rule::Unexpected)),
            [next, ..] => {
                let found = text_of(alloc, next)?;
                Ok(self.take_as(false, found)?)
            }
        }
    }

    /// Takes a number, a text, `TRUE` or `FALSE`.
    pub fn literal(&mut self, alloc: Global) -> Result<Grown, ReadError>
        ensures { Reads (one words.literal_of self.old) result self.new }
    {
        match self.rest {
            [] => Err(ReadError::Refused(Rule::Unexpected)),
            [next, ..] => {
                let found = literal_of(alloc, next)?;
                Ok(self.take_as(false, found)?)
            }
        }
    }

    /// Takes the text of a uuid.
    pub fn id(&mut self, alloc: Global) -> Result<u128, ReadError>
        ensures { Reads (one words.id_of self.old) result self.new }
    {
        match self.rest {
            [] => Err(ReadError::Refused(Rule::Unexpected)),
            [next, ..] => {
                let found = id_of(alloc, next)?;
                Ok(self.take_as(false, found)?)
            }
        }
    }
}
