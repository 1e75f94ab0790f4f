//! The parameters of the functions that a program lists.

ghost use Rattle.std.specs.Prelude.{◌≡◌, map};
ghost use Rattle.cw_model.specs.Typing.{called};
ghost use Rattle.cw_tree.specs.Resolved as spec;
ghost use Rattle.cw_tree.specs.SyntaxView.{function_of, param_of};
ghost use Rattle.cw_types.specs.Globals.{option_function, params_in};
ghost use Rattle.cw_types.specs.Locals.{lists_view};

use crate::lists::Lists;
use cw_tree::syntax::{Function, Param};

// Returns the first function with this name, if there is one.
fn function<'a>(lists: &Lists<'a>, name: &[u8]) -> Option<&'a Function>
    ensures { option_function result ≡ called name.now (map function_of lists.now.callees.now) }
{
    let index = lists.functions.find(name) as usize;
    lists.callees.get(index)
}

/// Returns the parameters of the first function with this name, or an empty slice if there is no such function.
#[tactic(auto, using(crate::proofs::Noting::params_of_found))]
pub fn params_of<'a>(lists: &Lists<'a>, name: &[u8]) -> &'a [Param]
    ensures { map param_of result.now ≡ spec.params_of (lists_view lists.now) name.now }
{
    let found = function(lists, name);
    params_in(found)
}

// Returns the parameters of the function, or an empty slice.
fn params_in<'a>(found: Option<&'a Function>) -> &'a [Param]
    ensures { map param_of result.now ≡ params_in (option_function found.entry) }
{
    match found {
        None => &[],
        Some(function) => function.params.as_slice(),
    }
}
