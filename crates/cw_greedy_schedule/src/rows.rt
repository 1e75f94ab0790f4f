//! Rows of optional numbers, one for each place. A row above holds the minimum of each group of the row below.

ghost use Rattle.std.specs.Prelude.{◌≡◌, ◌↔◌, ◌<◌, ◌≤◌, ◌/◌, ℕ, length, Some, None, IfOk, IsTrue, slice_set};
ghost use Rattle.cw_greedy.specs.Slots.{nones, ready_slots};
ghost use Rattle.cw_greedy_schedule.specs.Boards.{least_slot, left_at, lesser, NoneFrom};
ghost use Rattle.cw_greedy_schedule.specs.MinTrees.{group, HasFrom, IsLast, Leasts};

use std::alloc::{AllocError, Global};
use std::marker::Model;

// The number of places in a group: small enough to be scanned, and large enough that there are few rows.
const GROUP: usize = 8;

/// An optional number for each place. The minimum and the last number are found in a few steps.
#[cycle(rows)]
#[derive(Drop)]
pub(crate) struct MinTree {
    row: Row,
}

#[cycle(rows)]
#[derive(Drop)]
enum Row {
    // At most one group.
    Few(Vec<Option<u64>>),
    // More than one group, with the minimum of each group.
    Many(Vec<Option<u64>>, Box<MinTree>),
}

impl Model for MinTree {
    ghost use Rattle.cw_greedy.specs.Slots.{Slots};
    ghost use Rattle.std.specs.Prelude.{length};

    ghost Value = { Slots };

    ghost use Rattle.cw_greedy_schedule.specs.MinTrees.{numbers_of, IsRows};

    ghost view = { λ r. numbers_of r.row };

    ghost invariant = { λ r. IsRows r.row };

    ghost size = { length };

    ghost use Rattle.cw_greedy_schedule.specs.Falls.{depth_le-length-numbers};

    ghost size_decreases = { λ r h. depth_le-length-numbers r.row h };
}

impl MinTree {
    // Creates this number of places, without numbers.
    pub(crate) fn new(alloc: Global, places: usize) -> Result<MinTree, AllocError>
        ensures { IfOk result (λ r. r ≡ nones places) }
    {
        let mut row = Vec::with_capacity(alloc, places)?;
        row.resize(places, None)?;
        if places <= GROUP {
            return Ok(MinTree { row: Row::Few(row) });
        }
        let above = Box::new(alloc, MinTree::new(alloc, places / GROUP + 1)?)?;
        Ok(MinTree {
            row: Row::Many(row, above),
        })
    }

    // Returns the number at a place, if there is one.
    pub(crate) fn at(&self, place: usize) -> Option<u64>
        requires { place < length self.now }
        ensures { result ≡ left_at self.now place }
    {
        match &self.row {
            Row::Few(row) => row[place],
            Row::Many(row, _) => row[place],
        }
    }

    // Returns the minimum, if there is a number.
    pub(crate) fn least(&self) -> Option<u64>
        ensures { result ≡ least_slot self.now }
    {
        match &self.row {
            Row::Few(row) => least_of(row),
            Row::Many(_, above) => above.least(),
        }
    }

    // Sets or removes the number at a place.
    #[cycle(set)]
    pub(crate) fn set(&mut self, place: usize, number: Option<u64>)
        requires { place < length self.old }
        ensures { self.new ≡ slice_set self.old place number }
    {
        match &mut self.row {
            Row::Few(row) => row[place] = number,
            Row::Many(row, above) => set_in_rows(row, above, place, number),
        }
    }

    // Returns a place that holds the minimum.
    pub(crate) fn find(&self, least: u64) -> usize
        requires { least_slot self.now ≡ Some least }
        ensures { left_at self.now result ≡ Some least }
    {
        match &self.row {
            Row::Few(row) => find_from(row, 0, least),
            Row::Many(row, above) => find_in_group(row, above.find(least), least),
        }
    }

    // Returns the place of the last number.
    pub(crate) fn last(&self) -> usize
        requires { 1 ≤ ready_slots self.now }
        ensures { IsLast self.now result }
    {
        match &self.row {
            Row::Few(row) => last_before(row, row.len()),
            Row::Many(row, above) => last_in_group(row, above.last()),
        }
    }
}

// Most numbers are not the minimum of their group, so that usually no row above changes.
#[cycle(set)]
fn set_in_rows(row: &mut [Option<u64>], above: &mut MinTree, place: usize, number: Option<u64>)
    requires rows { Leasts row.old above.old }
    requires place { place < length row.old }
    ensures rows { Leasts row.new above.new }
    ensures row { row.new ≡ slice_set row.old place number }
{
    let was = above.at(place / GROUP);
    let least = change(row, place, number, was);
    if !is_equal(was, least) {
        above.set(place / GROUP, least);
    }
}

// Sets or removes the number at a place, whose group had the minimum `least`. Returns the new minimum of the group.
fn change(
    row: &mut [Option<u64>],
    place: usize,
    number: Option<u64>,
    least: Option<u64>,
) -> Option<u64>
    requires place { place < length row.old }
    requires least { least ≡ least_slot (group row.old (place / 8)) }
    ensures row { row.new ≡ slice_set row.old place number }
    ensures least { result ≡ least_slot (group row.new (place / 8)) }
{
    let was = row[place];
    row[place] = number;
    if was.is_none() {
        return lesser_of(least, number);
    }
    least_near(row, place)
}

// Returns the minimum of two optional numbers; `None` counts as no number.
fn lesser_of(one: Option<u64>, other: Option<u64>) -> Option<u64>
    ensures { result ≡ lesser one other }
{
    match (one, other) {
        (Some(a), Some(b)) => Some(a.min(b)),
        (Some(a), None) => Some(a),
        (None, b) => b,
    }
}

// Whether both are the same number, or both are `None`.
pub(crate) fn is_equal(one: Option<u64>, other: Option<u64>) -> bool
    ensures { IsTrue result ↔ one ≡ other }
{
    match (one, other) {
        (Some(a), Some(b)) => a == b,
        (None, None) => true,
        _ => false,
    }
}

// Returns the minimum of a few numbers.
fn least_of(row: &[Option<u64>]) -> Option<u64>
    ensures { result ≡ least_slot row.now }
{
    let mut least = None;
    for number in row {
        least = lesser_of(least, *number);
    }
    least
}

// Returns the minimum of the group that contains a place.
fn least_near(row: &[Option<u64>], place: usize) -> Option<u64>
    requires { place < length row.now }
    ensures { result ≡ least_slot (group row.now (place / 8)) }
{
    let from = place / GROUP * GROUP;
    let to = from + (row.len() - from).min(GROUP);
    least_of(&row[from..to])
}

// Returns the place of a number, searched from a place on.
fn find_from(row: &[Option<u64>], from: usize, number: u64) -> usize
    requires { HasFrom from number row.now }
    ensures { left_at row.now result ≡ Some number }
{
    let mut place = from;
    while !is_equal(row[place], Some(number)) {
        place += 1;
    }
    place
}

// Returns the place of the minimum of a group.
fn find_in_group(row: &[Option<u64>], at: usize, least: u64) -> usize
    requires { least_slot (group row.now at) ≡ Some least }
    ensures { left_at row.now result ≡ Some least }
{
    let place = find_from(row, at * GROUP, least);
    place
}

// Returns the place of the last number, if there is none from this place on.
fn last_before(row: &[Option<u64>], end: usize) -> usize
    requires end { end ≤ length row.now }
    requires some { 1 ≤ ready_slots row.now }
    requires none { NoneFrom end row.now }
    ensures { IsLast row.now result }
{
    let mut place = end - 1;
    while row[place].is_none() {
        place -= 1;
    }
    place
}

// Returns the place of the last number, if no later group has a number.
fn last_in_group(row: &[Option<u64>], at: usize) -> usize
    requires some { least_slot (group row.now at) ≡ None → ⊥ }
    requires none { (g : ℕ) → at < g → least_slot (group row.now g) ≡ None }
    ensures { IsLast row.now result }
{
    let from = at * GROUP;
    let place = last_before(row, from + (row.len() - from).min(GROUP));
    place
}
