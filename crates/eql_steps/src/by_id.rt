//! Lists by id.
ghost use Rattle.std.specs.Prelude.{◌≡◌, OnOk};
ghost use Rattle.eql_steps.specs.ById.{by_id, nothing, with_one};

use ev_value::List;
use std::alloc::{AllocError, Global};
use std::collections::BTreeMap;

/// A list for each id.
#[derive(Drop)]
pub struct ById<T> {
    lists: BTreeMap<u128, List<T>>,
}

impl<T: Drop> ById<T> {
    /// An empty list for each id.
    pub fn new(alloc: Global) -> ById<T>
        ensures { by_id result ≡ nothing }
    {
        ById {
            lists: BTreeMap::new(alloc),
        }
    }

    /// The list of an id.
    pub fn at(&self, id: u128) -> &[T]
        ensures { result.now ≡ by_id self.now id }
    {
        match self.lists.get(&id) {
            Some(list) => list.as_slice(),
            None => &[],
        }
    }

    /// Puts one more behind the list of an id.
    pub fn add(&mut self, alloc: Global, id: u128, value: T) -> Result<(), AllocError>
        ensures { OnOk result (by_id self.new ≡ with_one (by_id self.old) id value) }
    {
        match self.lists.remove(&id) {
            Some(before) => {
                let mut list = before;
                list.push(value)?;
                self.lists.insert(id, list)?;
                Ok(())
            }
            None => {
                let mut list = List::new(alloc);
                list.push(value)?;
                self.lists.insert(id, list)?;
                Ok(())
            }
        }
    }
}
