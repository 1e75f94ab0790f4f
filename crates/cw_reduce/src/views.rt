//! The results of a run other than its value.

ghost use Rattle.std.specs.Prelude.{◌≡◌, ◌≤◌, ◌++◌, ◌∷◌, ◌<◌, [], length, map, IfOk, OnOk};
ghost use Rattle.cw_reduce.specs.ReducerState.{as_total, held};
ghost use Rattle.cw_reduce.specs.PieceResults.{nothing_shown, shown_joined, held_of, total_of, AreJoined, SameTotals, TellsTotals, TellsValue};

use crate::lines::Lines;
use crate::totals::{joined, read_as, single_total};
use cw_model::monoid::Monoid;
use cw_model::syntax::Reduction;
use cw_model::total::Total;
use std::alloc::{AllocError, Global};
use std::marker::Model;

/// The totals of the reducers, by their number in source order, and the printed lines. A reducer without a total had
/// no updates.
#[derive(Debug, Drop)]
pub struct Views {
    totals: Vec<Total>,
    lines: Lines,
}

impl Model for Views {
    ghost use Rattle.std.specs.Prelude.{map};
    ghost use Rattle.cw_reduce.specs.ReducerState.{held};
    ghost use Rattle.cw_reduce.specs.PieceResults.{PieceResults};

    ghost Value = { PieceResults };

    ghost view = { λ v. record { totals = map held v.totals.items; lines = v.lines } };
}

impl Views {
    /// Returns no totals and no lines. Allocates no memory.
    pub fn new(alloc: Global) -> Views
        ensures { result ≡ nothing_shown }
    {
        Views {
            totals: Vec::new(alloc),
            lines: Lines::new(alloc),
        }
    }

    /// Updates a reducer with this reduction with a value.
    ///
    /// # Errors
    ///
    /// Returns an `AllocError` if memory runs out.
    pub fn tell(&mut self, reducer: u32, how: Reduction, value: i64) -> Result<(), AllocError>
        ensures totals { OnOk result (TellsValue self.old self.new reducer how value) }
        ensures lines { OnOk result (self.new.lines ≡ self.old.lines) }
    {
        tell_total(&mut self.totals, reducer, single_total(how, value))?;
        Ok(())
    }

    /// Returns the total of a reducer with this reduction.
    pub fn total(&self, reducer: u32, how: Reduction) -> Total
        ensures { result ≡ as_total how (held_of self.now.totals reducer) }
    {
        let total = total_at(&self.totals, reducer);
        read_as(how, total)
    }

    /// Appends a line.
    ///
    /// # Errors
    ///
    /// Returns an `AllocError` if memory runs out.
    pub fn print(&mut self, value: i64) -> Result<(), AllocError>
        ensures lines { OnOk result (self.new.lines ≡ self.old.lines ++ value ∷ []) }
        ensures totals { OnOk result (self.new.totals ≡ self.old.totals) }
    {
        self.lines.print(value)?;
        Ok(())
    }

    /// Returns the printed values, in serial order.
    pub fn lines(&self) -> &[i64]
        ensures { result.now ≡ self.now.lines }
    {
        self.lines.values()
    }
}

// Returns the total at a place; the total without updates after the end.
fn total_at(totals: &Vec<Total>, reducer: u32) -> Total
    ensures { result ≡ total_of totals.now.items reducer }
{
    let place = reducer as usize;
    if place < totals.len() {
        totals[place]
    } else {
        Total::Max(None)
    }
}

// Adds a total to the total at a place.
fn tell_total(totals: &mut Vec<Total>, reducer: u32, more: Total) -> Result<(), AllocError>
    ensures { OnOk result (TellsTotals totals.old.items totals.new.items reducer more) }
{
    reach(totals, reducer)?;
    let place = reducer as usize;
    totals[place] = joined(totals[place], more);
    Ok(())
}

// Extends the totals to this place; missing totals are those without updates.
fn reach(totals: &mut Vec<Total>, reducer: u32) -> Result<(), AllocError>
    ensures same { OnOk result (SameTotals totals.old.items totals.new.items) }
    ensures within { OnOk result (reducer < length totals.new.items) }
{
    let needed = reducer as usize + 1;
    if totals.len() < needed {
        totals.resize(needed, Total::Max(None))?;
    }
    Ok(())
}

// Joins the totals of both; the shorter list is joined to the longer one.
fn join_totals(left: Vec<Total>, right: Vec<Total>) -> Vec<Total>
    ensures { AreJoined left.items right.items result.items }
{
    if left.len() <= right.len() {
        join_all(right, &left)
    } else {
        join_all(left, &right)
    }
}

// Joins totals to a list that is at least as long.
fn join_all(into: Vec<Total>, from: &Vec<Total>) -> Vec<Total>
    requires { length from.now.items ≤ length into.items }
    ensures { AreJoined from.now.items into.items result.items }
{
    let mut into = into;
    for i in 0..from.len() {
        into[i] = joined(from[i], into[i]);
    }
    into
}

impl Monoid for Views {
    ghost use Rattle.cw_reduce.specs.PieceResults.{nothing_shown, shown_joined};
    ghost use Rattle.cw_reduce.specs.ShownLaws.{shown-first, shown-last, shown-assoc};

    ghost empty = { nothing_shown };

    ghost joined = { shown_joined };

    fn unit(alloc: Global) -> Self
        ensures value { result ≡ nothing_shown }
    {
        Views::new(alloc)
    }

    fn join(self, right: Self) -> Result<Self, AllocError>
        ensures value { IfOk result (λ whole. whole ≡ shown_joined self right) }
    {
        let lines = self.lines.join(right.lines)?;
        let totals = join_totals(self.totals, right.totals);
        Ok(Views { totals, lines })
    }

    ghost unit_first = { shown-first };

    ghost unit_last = { shown-last };

    ghost associative = { shown-assoc };
}
