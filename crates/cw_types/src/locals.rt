//! The known locals.

ghost use Rattle.std.specs.Prelude.{◌≡◌, ◌<◌, ◌+◌, ◌^◌, [], OnOk};
ghost use Rattle.cw_tree.specs.SyntaxView.{stmt_of};
ghost use Rattle.cw_tree.specs.Declares.{declares_in};
ghost use Rattle.cw_types.specs.Found.{Declared};
ghost use Rattle.cw_types.specs.Locals.{locals_count};

use crate::table::Table;
use cw_tree::syntax::Stmt;
use std::alloc::{AllocError, Global};

/// Holds the known integers and the known arrays, each in the order of declaration.
#[derive(Drop)]
pub struct Locals<'a> {
    pub ints: Table<'a>,
    pub arrays: Table<'a>,
}

impl<'a> Locals<'a> {
    /// Returns a `Locals` that holds no name.
    pub fn new(alloc: Global) -> Locals<'a>
        ensures ints { result.ints ≡ [] }
        ensures arrays { result.arrays ≡ [] }
    {
        Locals {
            ints: Table::new(alloc),
            arrays: Table::new(alloc),
        }
    }
}

/// Declares the local that the statement declares, if it declares one.
///
/// # Errors
///
/// Returns an error if memory runs out.
pub fn declare<'a>(locals: &mut Locals<'a>, stmt: &'a Stmt) -> Result<(), AllocError>
    requires { locals_count locals.old + declares_in (stmt_of stmt.now) < 2 ^ 32 }
    ensures { OnOk result (Declared stmt.now locals.old locals.new) }
{
    match stmt {
        Stmt::Declare(x, _) => locals.ints.add(x.as_bytes()),
        Stmt::DeclareArray(a, _) => locals.arrays.add(a.as_bytes()),
        _ => Ok(()),
    }
}
