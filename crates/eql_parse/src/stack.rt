//! A stack, which contracts see as the list of its items from the top on.
ghost use Rattle.std.specs.Prelude.{◌≡◌, [], ◌∷◌, IfOk, MatchOption};

use ev_value::List;
use std::alloc::{AllocError, Global};
use std::marker::Model;

#[derive(Drop)]
pub struct Stack<T> {
    items: List<T>,
}

impl<T> Model for Stack<T> {
    ghost use Rattle.std.specs.Prelude.{List, reverse};

    ghost Value = { List T };

    ghost view = { λ s. reverse s.items };
}

impl<T: Drop> Stack<T> {
    pub fn new(alloc: Global) -> Stack<T>
        ensures { result ≡ [] }
    {
        Stack {
            items: List::new(alloc),
        }
    }

    /// The stack with the item on top.
    pub fn push(self, item: T) -> Result<Stack<T>, AllocError>
        ensures { IfOk result (λ made. made ≡ item ∷ self) }
    {
        let Stack { mut items } = self;
        items.push(item)?;
        Ok(Stack { items })
    }

    /// The item on top, and the rest.
    pub fn pop(self) -> Option<(T, Stack<T>)>
        ensures { MatchOption result (self ≡ []) (λ top. self ≡ top.0 ∷ top.1) }
    {
        let Stack { mut items } = self;
        match items.pop() {
            None => None,
            Some(item) => Some((item, Stack { items })),
        }
    }
}
