//! Values by name, of which the first that came with a name stays.
ghost use Rattle.std.specs.Prelude.{◌≡◌, None, OnOk};
ghost use Rattle.std.specs.Str.{bytes_eq};
ghost use Rattle.ev_index.specs.First.{nothing, with_one};
ghost use Rattle.ev_index.specs.Index.{by_name};

use ev_value::Text;
use std::alloc::{AllocError, Global};
use std::collections::BTreeMap;

/// A value for each of some names.
#[derive(Drop)]
pub struct ByName<V> {
    found: BTreeMap<Text, V>,
}

impl<V: Copy> ByName<V> {
    /// No names.
    pub fn new(alloc: Global) -> ByName<V>
        ensures { by_name result ≡ nothing }
    {
        ByName {
            found: BTreeMap::new(alloc),
        }
    }

    /// The value of a name.
    pub fn find(&self, name: &Text) -> Option<V>
        ensures { result ≡ by_name self.now name.now }
    {
        self.found.get(name).copied()
    }

    fn put(&mut self, alloc: Global, name: &Text, value: V) -> Result<(), AllocError>
        requires { by_name self.old name.now ≡ None }
        ensures { OnOk result (by_name self.new ≡ with_one bytes_eq (by_name self.old) name.now value) }
    {
        self.found.insert(name.copied(alloc)?, value)?;
        Ok(())
    }

    /// The value of a name that has none yet; else the first one stays.
    pub fn add(&mut self, alloc: Global, name: &Text, value: V) -> Result<(), AllocError>
        ensures { OnOk result (by_name self.new ≡ with_one bytes_eq (by_name self.old) name.now value) }
    {
        match self.find(name) {
            Some(_) => Ok(()),
            None => self.put(alloc, name, value),
        }
    }
}
