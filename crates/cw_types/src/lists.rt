//! The names that a program lists.

ghost use Rattle.std.specs.Prelude.{◌≡◌, map};
ghost use Rattle.cw_tree.specs.Resolved as spec;
ghost use Rattle.cw_tree.specs.SyntaxView.{function_of};

use crate::table::Table;
use cw_tree::syntax::Function;

/// Holds the functions of a program, and the names of its functions, its reducers and its distinct tags, each in
/// order.
#[derive(Drop)]
pub struct Lists<'a> {
    pub callees: &'a [Function],
    pub functions: Table<'a>,
    pub reducers: Table<'a>,
    pub tags: Table<'a>,
    // The table holds the names of the functions in order.
    pub ghost functions_named: { functions ≡ spec.function_names (map function_of callees.now) },
}
