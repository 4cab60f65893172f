//! Lists of names with a quick first place.
ghost use Rattle.std.specs.Prelude.{◌≡◌, ◌++◌, ◌∷◌, [], true, None, OnOk};
ghost use Rattle.ev_names.specs.Names as spec;

use ev_value::{List, Text};
use std::alloc::{AllocError, Global};
use std::collections::BTreeMap;
use std::marker::Model;

/// Names in the order in which they came, with a quick way to find the first place of one. Contracts see the list.
#[derive(Drop)]
pub struct Names {
    order: List<Text>,
    places: BTreeMap<Text, usize>,
}

impl Model for Names {
    ghost use Rattle.std.specs.Prelude.{ℕ, List};
    ghost use Rattle.ev_names.specs.Names.{FindsFirst};

    ghost Value = { List (List ℕ) };

    ghost view = { λ n. n.order };

    ghost invariant = { λ n. FindsFirst n.places n.order };
}

impl Names {
    /// No names.
    pub fn new(alloc: Global) -> Names
        ensures { result ≡ [] }
    {
        Names {
            order: List::new(alloc),
            places: BTreeMap::new(alloc),
        }
    }

    /// The first place of a name.
    pub fn find(&self, name: &Text) -> Option<usize>
        ensures { result ≡ spec.place_of name.now self.now }
    {
        self.places.get(name).copied()
    }

    /// Whether a name is among them.
    pub fn has(&self, name: &Text) -> bool
        ensures { result ≡ spec.is_among name.now self.now }
    {
        self.find(name).is_some()
    }

    /// Puts a new name behind the others.
    fn add_new(&mut self, alloc: Global, name: &Text) -> Result<(), AllocError>
        requires { spec.place_of name.now self.old ≡ None }
        ensures { OnOk result (self.new ≡ self.old ++ name.now ∷ []) }
    {
        let place = self.order.len();
        let key = name.copied(alloc)?;
        let kept = name.copied(alloc)?;
        self.order.push(kept)?;
        match self.places.insert(key, place) {
            Ok(_) => Ok(()),
            Err(_) => {
                let _ = self.order.pop();
                Err(AllocError)
            }
        }
    }

    /// Puts a name behind the others that is among them.
    fn add_again(&mut self, alloc: Global, name: &Text) -> Result<(), AllocError>
        requires { spec.is_among name.now self.old ≡ true }
        ensures { OnOk result (self.new ≡ self.old ++ name.now ∷ []) }
    {
        self.order.push(name.copied(alloc)?)
    }

    /// Puts a name behind the others.
    pub fn add(&mut self, alloc: Global, name: &Text) -> Result<(), AllocError>
        ensures { OnOk result (self.new ≡ self.old ++ name.now ∷ []) }
    {
        match self.find(name) {
            None => self.add_new(alloc, name),
            Some(_) => self.add_again(alloc, name),
        }
    }
}
