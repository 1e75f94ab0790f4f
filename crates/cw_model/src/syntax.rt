//! Parts of a program's syntax tree that all stages share.

ghost use Rattle.std.specs.Prelude.{◌≡◌, IfOk};
ghost use Rattle.std.specs.Arc.{arc_value};

use std::alloc::{AllocError, Global};
use std::marker::Model;
use std::sync::Arc;

/// A name, as bytes in shared memory.
#[derive(Drop, Debug)]
pub struct Name {
    text: Arc<Vec<u8>>,
}

impl Model for Name {
    ghost use Rattle.std.specs.Prelude.{List, ℕ};
    ghost use Rattle.std.specs.Arc.{arc_value};

    ghost Value = { List ℕ };

    ghost view = { λ name. (arc_value name.text).items };
}

impl Name {
    /// Returns the name with a copy of these bytes.
    ///
    /// # Errors
    ///
    /// Returns an `AllocError` if memory runs out.
    pub fn new(alloc: Global, text: &[u8]) -> Result<Name, AllocError>
        ensures { IfOk result (λ name. name ≡ text.now) }
    {
        let text = Arc::new(alloc, Vec::from_slice(alloc, text)?)?;
        Ok(Name { text })
    }

    /// Returns the same name, with shared bytes. It allocates memory only if 2^63 names share the bytes already; then
    /// it copies them.
    ///
    /// # Errors
    ///
    /// Returns an `AllocError` if memory runs out.
    pub fn share(&self, alloc: Global) -> Result<Name, AllocError>
        ensures { IfOk result (λ name. name ≡ self.now) }
    {
        match Arc::try_clone(&self.text) {
            Ok(text) => Ok(Name { text }),
            Err(_) => Name::new(alloc, self.as_bytes()),
        }
    }

    /// Returns the bytes of the name.
    pub fn as_bytes(&self) -> &[u8]
        ensures { result.now ≡ self.now }
    {
        self.text.as_slice()
    }
}

/// A binary operator. docs/DEVELOPING.md lists what a new operator touches.
#[derive(Clone, Copy, Debug, PartialEq, Eq)]
pub enum Operator {
    Equal,
    Unequal,
    Less,
    AtMost,
    Greater,
    AtLeast,
    Plus,
    Minus,
    Times,
    Divide,
    Modulo,
}

/// How a reducer combines the values of its updates into a total. docs/DEVELOPING.md lists what a new kind touches.
#[derive(Clone, Copy, Debug, PartialEq, Eq)]
pub enum Reduction {
    /// The sum of the values.
    Sum,
    /// The maximum of the values, if there are any.
    Max,
}

/// The kind of a local name.
#[derive(Clone, Copy, Debug, PartialEq, Eq)]
pub enum NameKind {
    Integer,
    /// An array that may be written, cut and passed to any parameter for an array.
    Array,
    /// A read-only array: a parameter that is declared `const`.
    Const,
}

/// Whether a call may run in parallel with the statements after it.
#[derive(Clone, Copy, Debug, PartialEq, Eq)]
pub enum CallKind {
    Plain,
    Spawned,
}
