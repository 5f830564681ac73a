//! New numbers of old keys.
ghost use Rattle.std.specs.Prelude.{◌≡◌, ◌<◌, ◌≤◌, ◌∷◌, ◌++◌, [], true, false, length, replicate, IfOk, OnOk, OnErr};
ghost use Rattle.task_graph.specs.Orders.{is_in, position};
ghost use Rattle.task_graph.specs.Numbers.{Numbers, number_of, AreOnce};

use std::alloc::{AllocError, Global};
use std::marker::Model;

/// New numbers of old keys: which of so many keys are kept, in the order of their new numbers. Each stands there once.
#[derive(Drop)]
pub struct Renumber {
    order: Vec<u32>,
    places: Vec<Option<u32>>,
}

impl Model for Renumber {
    ghost use Rattle.std.specs.Prelude.{length};
    ghost use Rattle.task_graph.specs.Numbers.{Numbers, AreNumbered};

    ghost Value = { Numbers };

    ghost view = { λ s. record { keys = length s.places.items; order = s.order.items } };

    ghost invariant = { λ s. AreNumbered s.order.items s.places.items };
}

impl Renumber {
    /// None of so many keys.
    ///
    /// # Errors
    /// Where no memory is left.
    pub fn none(alloc: Global, keys: u32) -> Result<Renumber, AllocError>
        requires { keys ≤ 32768 }
        ensures { IfOk result (λ numbers. numbers ≡ record { keys = keys; order = [] }) }
    {
        let places = empty(alloc, keys as usize)?;
        Ok(Renumber {
            order: Vec::new(alloc),
            places,
        })
    }

    /// Keeps one more key, under the next number.
    ///
    /// # Errors
    /// Where no memory is left; the numbers are then as before.
    pub fn add(&mut self, old: u32) -> Result<(), AllocError>
        requires there { old < self.old.keys }
        requires fresh { is_in self.old.order old ≡ false }
        ensures ok { OnOk result (self.new ≡ record { keys = self.old.keys; order = self.old.order ++ old ∷ [] }) }
        ensures err { OnErr result (self.new ≡ self.old) }
    {
        let number = self.count();
        self.order.push(old)?;
        self.places[old as usize] = Some(number);
        Ok(())
    }

    /// The new number of an old key, or `None` exactly where it isn't kept. No memory.
    pub fn get(&self, old: u32) -> Option<u32>
        requires { old < self.now.keys }
        ensures { result ≡ number_of self.now.order old }
    {
        self.places[old as usize]
    }

    /// The new number of a key that is kept. No memory.
    pub fn number(&self, old: u32) -> u32
        requires there { old < self.now.keys }
        requires kept { is_in self.now.order old ≡ true }
        ensures { result ≡ position self.now.order old }
    {
        match self.get(old) {
            Some(number) => number,
            None => unreachable!(),
        }
    }

    /// How many keys are kept. No memory.
    pub fn count(&self) -> u32
        ensures { result ≡ length self.now.order }
    {
        self.order.as_slice().len() as u32
    }

    /// Whether an old key is kept. No memory.
    pub fn has(&self, old: u32) -> bool
        requires { old < self.now.keys }
        ensures { result ≡ is_in self.now.order old }
    {
        self.get(old).is_some()
    }

    /// How many old keys there are. No memory.
    pub fn keys(&self) -> u32
        ensures { result ≡ self.now.keys }
    {
        self.places.len() as u32
    }

    /// The kept keys, in the order of their new numbers. No memory.
    pub fn order(&self) -> &[u32]
        ensures { result.now ≡ self.now.order }
    {
        self.order.as_slice()
    }

    /// Each kept key is one of the old keys, and stands once.
    pub fn sound(&self)
        ensures { AreOnce self.now.keys self.now.order }
    {
        let _order = &self.order;
    }
}

// No new number for each of so many keys.
fn empty(alloc: Global, keys: usize) -> Result<Vec<Option<u32>>, AllocError>
    ensures { IfOk result (λ places. places.items ≡ replicate keys None) }
{
    vec![in alloc; None; keys]
}
