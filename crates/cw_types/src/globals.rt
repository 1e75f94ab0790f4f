//! The names of a whole program.

ghost use Rattle.std.specs.Prelude.{◌≡◌, ◌<◌, ◌^◌, Contains, IfOk, IfSome, MatchOption, None, Some, is_some, length, map, option_map};
ghost use Rattle.cw_model.specs.Names.{is_among};
ghost use Rattle.cw_model.specs.Typing.{globals as globals_of, called, reducer_called};
ghost use Rattle.cw_tree.specs.SyntaxView.{program_of, function_of, reducer_of};
ghost use Rattle.cw_tree.specs.Resolved as spec;
ghost use Rattle.cw_types.specs.Names.{function_names as names_of_functions};
ghost use Rattle.cw_types.specs.Scope.{name_and_line};

use crate::table::Table;
use cw_tree::syntax::{Ast, Function, Reducer};
use std::alloc::{AllocError, Global};

/// Holds a program with tables of the names of its functions and reducers.
#[derive(Drop)]
pub struct Globals<'a> {
    pub ast: &'a Ast,
    pub functions: Table<'a>,
    pub reducers: Table<'a>,
    // Each table holds the names in the order of the program.
    pub ghost functions_named: { functions ≡ spec.function_names (program_of ast.now).functions },
    pub ghost reducers_named: { reducers ≡ spec.reducer_names (program_of ast.now).reducers },
}

impl<'a> Globals<'a> {
    /// Returns the tables of a program.
    ///
    /// # Errors
    ///
    /// Returns an error if memory runs out.
    pub fn new(alloc: Global, ast: &'a Ast) -> Result<Globals<'a>, AllocError>
        requires few_functions { length ast.now.functions.items < 2 ^ 32 }
        requires few_reducers { length ast.now.reducers.items < 2 ^ 32 }
        ensures { IfOk result (λ globals. globals.ast.now ≡ ast.now) }
    {
        let functions = function_names(alloc, &ast.functions)?;
        let reducers = reducer_names(alloc, &ast.reducers)?;
        Ok(Globals {
            ast,
            functions,
            reducers,
        })
    }

    /// Reports whether a function or a reducer has this name.
    pub fn has(&self, name: &[u8]) -> bool
        ensures { result ≡ is_among name.now (globals_of (program_of self.now.ast.now)) }
    {
        self.functions.has(name) || self.reducers.has(name)
    }

    /// Returns the first function with this name, if there is one.
    pub fn function(&self, name: &[u8]) -> Option<&'a Function>
        ensures there { is_some result
            ≡ is_among name.now (names_of_functions (program_of self.now.ast.now).functions) }
        ensures first { MatchOption result
            (called name.now (program_of self.now.ast.now).functions ≡ None)
            (λ function. called name.now (program_of self.now.ast.now).functions
            ≡ Some (function_of function.now)) }
    {
        let index = self.functions.find(name) as usize;
        self.ast.functions.get(index)
    }

    /// Returns the first reducer with this name, if there is one.
    pub fn reducer(&self, name: &[u8]) -> Option<&'a Reducer>
        ensures there { is_some result
            ≡ is_among name.now (map (λ r. r.name) (program_of self.now.ast.now).reducers) }
        ensures is { option_map (λ r. reducer_of r.now) result
            ≡ reducer_called name.now (program_of self.now.ast.now).reducers }
        ensures of_line { IfSome result (λ reducer.
            Contains (map name_and_line (program_of self.now.ast.now).reducers)
            (name.now, reducer.now.line)) }
    {
        let index = self.reducers.find(name) as usize;
        self.ast.reducers.get(index)
    }
}

/// Returns a table of the names of functions, in order.
///
/// # Errors
///
/// Returns an error if memory runs out.
pub fn function_names<'a>(alloc: Global, functions: &'a [Function]) -> Result<Table<'a>, AllocError>
    requires { length functions.now < 2 ^ 32 }
    ensures { IfOk result (λ names. names ≡ spec.function_names (map function_of functions.now)) }
{
    let mut names = Table::new(alloc);
    for function in functions {
        names.add(function.name.as_bytes())?;
    }
    Ok(names)
}

/// Returns a table of the names of reducers, in order.
///
/// # Errors
///
/// Returns an error if memory runs out.
pub fn reducer_names<'a>(alloc: Global, reducers: &'a [Reducer]) -> Result<Table<'a>, AllocError>
    requires { length reducers.now < 2 ^ 32 }
    ensures { IfOk result (λ names. names ≡ spec.reducer_names (map reducer_of reducers.now)) }
{
    let mut names = Table::new(alloc);
    for reducer in reducers {
        names.add(reducer.name.as_bytes())?;
    }
    Ok(names)
}
