//! Tables of names.

ghost use Rattle.std.specs.Prelude.{◌≡◌, ◌<◌, ◌≤◌, ◌+◌, ◌-◌, ◌^◌, [], ◌∷◌, ◌++◌, IfSome, is_some, length, take};
ghost use Rattle.cw_model.specs.Names.{is_among};
ghost use Rattle.cw_types.specs.Grows.{Becomes};
ghost use Rattle.cw_tree.specs.Resolved.{slot_of};

use std::alloc::{AllocError, Global};
use std::collections::HashMap;
use std::marker::Model;

/// Holds fewer than 2^32 names in order, and finds each by its bytes.
#[derive(Drop)]
pub struct Table<'a> {
    names: Vec<&'a [u8]>,
    places: HashMap<&'a [u8], u32>,
}

impl<'a> Model for Table<'a> {
    ghost use Rattle.std.specs.Prelude.{List, ℕ, map, length, ◌<◌, ◌^◌, ◌≡◌};
    ghost use Rattle.cw_types.specs.Places.{ArePlaces};

    ghost Value = { List (List ℕ) };

    ghost view = { λ t. map (λ k. k.now) t.names.items };

    ghost invariant = { λ t. ArePlaces t.places (map (λ k. k.now) t.names.items) };
}

impl<'a> Table<'a> {
    /// Returns an empty table.
    pub fn new(alloc: Global) -> Table<'a>
        ensures { result ≡ [] }
    {
        Table {
            names: Vec::new(alloc),
            places: HashMap::new(alloc),
        }
    }

    /// Returns the first position of a name, from 0, or the number of names if it is not found.
    #[tactic(auto, using(crate::proofs::Places::found, std::proofs::lemmas::Grind::common_steps))]
    pub fn find(&self, name: &[u8]) -> u32
        ensures { result ≡ slot_of name.now self.now }
    {
        match self.places.get(name) {
            Some(place) => *place,
            None => self.names.len() as u32,
        }
    }

    /// Returns the first position of a name, from 0, if the name is found.
    pub fn place(&self, name: &[u8]) -> Option<u32>
        ensures there { is_some result ≡ is_among name.now self.now }
        ensures first { IfSome result (λ place. place ≡ slot_of name.now self.now) }
    {
        self.places.get(name).copied()
    }

    /// Returns the number of names.
    pub fn len(&self) -> u32
        ensures { result ≡ length self.now }
    {
        self.names.len() as u32
    }

    /// Reports whether the table has this name.
    pub fn has(&self, name: &[u8]) -> bool
        ensures { result ≡ is_among name.now self.now }
    {
        self.places.contains_key(name)
    }

    /// Appends a name.
    ///
    /// # Errors
    ///
    /// Returns an error if memory runs out; the table is unchanged then.
    pub fn add(&mut self, name: &'a [u8]) -> Result<(), AllocError>
        requires { length self.old + 1 < 2 ^ 32 }
        ensures { Becomes (self.old ++ name.now ∷ []) self.old self.new result }
    {
        let place = self.names.len() as u32;
        self.names.push(name)?;
        if self.places.contains_key(name) {
            return Ok(());
        }
        match self.places.insert(name, place) {
            Ok(_) => Ok(()),
            Err(_) => {
                self.names.pop();
                Err(AllocError)
            }
        }
    }

    /// Removes the last name. Requires that there is a name.
    pub fn forget(&mut self)
        requires { 1 ≤ length self.old }
        ensures { self.new ≡ take (length self.old - 1) self.old }
    {
        if let Some(name) = self.names.pop() {
            let len = self.names.len() as u32;
            if let Some(place) = self.places.get(name).copied() {
                if place == len {
                    self.places.remove(name);
                }
            }
        }
    }

    /// Removes all names except the first `len`.
    pub fn leave(&mut self, len: u32)
        requires { len ≤ length self.old }
        ensures { self.new ≡ take len self.old }
    {
        while self.len() > len {
            self.forget();
        }
    }
}
