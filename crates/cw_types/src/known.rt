//! The known names; a newer name hides older names of the same spelling.

ghost use Rattle.std.specs.Prelude.{◌≡◌, ◌≤◌, ◌-◌, [], length, is_some, option_map};
ghost use Rattle.std.specs.Prelude.{MatchOption, None, Some};
ghost use Rattle.cw_model.specs.Names.{is_among};
ghost use Rattle.cw_types.specs.Grows.{Becomes};
ghost use Rattle.cw_types.specs.Names.{IsUnknown, known_as, known_names};
ghost use Rattle.cw_types.specs.Scope.{kind_and_line, kinds, newest, oldest, with_local};

use cw_model::syntax::NameKind;
use std::alloc::{AllocError, Global};
use std::collections::HashMap;
use std::marker::Model;

/// Holds the kind of a known name and the line of its declaration.
#[derive(Clone, Copy)]
pub struct Local {
    pub kind: NameKind,
    pub line: u32,
}

// Holds a known name.
#[derive(Clone, Copy)]
struct Entry<'a> {
    name: &'a [u8],
    local: Local,
    // The older name of this spelling that it hides.
    shadowed: Option<Local>,
}

/// Holds names in the order of their declaration, each with its kind, and finds the newest name of a spelling by its
/// bytes.
#[derive(Drop)]
pub struct Known<'a> {
    entries: Vec<Entry<'a>>,
    newest: HashMap<&'a [u8], Local>,
}

impl<'a> Model for Known<'a> {
    ghost use Rattle.std.specs.Prelude.{List, []};
    ghost use Rattle.cw_types.specs.Scope.{Declared};
    ghost use Rattle.cw_types.specs.Shadows.{AreNewest, known_from};

    ghost Value = { List Declared };

    ghost view = { λ t. known_from [] t.entries.items };

    ghost invariant = { λ t. AreNewest t.newest t.entries.items };
}

impl<'a> Known<'a> {
    /// Returns a `Known` that holds no name.
    pub fn new(alloc: Global) -> Known<'a>
        ensures { result ≡ [] }
    {
        Known {
            entries: Vec::new(alloc),
            newest: HashMap::new(alloc),
        }
    }

    /// Returns the kind and the line of the newest name of this spelling, if there is one.
    pub fn newest(&self, name: &[u8]) -> Option<Local>
        ensures there { is_some result ≡ is_among name.now (known_names (kinds self.now)) }
        ensures kinds { MatchOption result (IsUnknown name.now (kinds self.now))
            (λ local. known_as name.now local.kind (kinds self.now)) }
        ensures newest { MatchOption result (newest name.now self.now ≡ None)
            (λ local. option_map kind_and_line (newest name.now self.now)
            ≡ Some (local.kind, local.line)) }
    {
        self.newest.get(name).copied()
    }

    /// Reports whether a name of this spelling is known.
    pub fn has(&self, name: &[u8]) -> bool
        ensures { result ≡ is_among name.now (known_names (kinds self.now)) }
    {
        self.newest.contains_key(name)
    }

    /// Returns the number of names.
    pub fn len(&self) -> usize
        ensures { result ≡ length self.now }
    {
        self.entries.len()
    }

    /// Declares a name.
    ///
    /// # Errors
    ///
    /// Returns an error if memory runs out; the names are unchanged then.
    pub fn declare(&mut self, name: &'a [u8], kind: NameKind, line: u32) -> Result<(), AllocError>
        ensures { Becomes (with_local name.now kind line self.old) self.old self.new result }
    {
        let local = Local { kind, line };
        let shadowed = self.newest.get(name).copied();
        self.entries.push(Entry {
            name,
            local,
            shadowed,
        })?;
        match self.newest.insert(name, local) {
            Ok(_) => Ok(()),
            Err(_) => {
                self.entries.pop();
                Err(AllocError)
            }
        }
    }

    /// Removes the newest name, so that it no longer hides an older name of its spelling. Requires that there is a
    /// name.
    pub fn forget(&mut self)
        requires { 1 ≤ length self.old }
        ensures { self.new ≡ oldest (length self.old - 1) self.old }
    {
        if let Some(entry) = self.entries.pop() {
            match entry.shadowed {
                Some(local) => {
                    // the spelling has an entry, so the insertion cannot fail
                    let _again = self.newest.insert(entry.name, local);
                }
                None => {
                    self.newest.remove(entry.name);
                }
            }
        }
    }

    /// Removes all names except the oldest `len`.
    pub fn leave(&mut self, len: usize)
        requires { len ≤ length self.old }
        ensures { self.new ≡ oldest len self.old }
    {
        while self.len() > len {
            self.forget();
        }
    }
}
