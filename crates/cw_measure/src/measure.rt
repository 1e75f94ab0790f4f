//! The measures of a piece of one sync block.

ghost use Rattle.std.specs.Prelude.{◌≡◌, ℕ, [], IsOk, IfOk};
ghost use Rattle.cw_model.specs.declared.burden.Burden.{Burden};
ghost use Rattle.cw_model.specs.Trees.{Join, Work};
ghost use Rattle.cw_measure.specs.Measured.{after_work, after_part, after_child, after_join, nothing, joined, span_read, burdened_read};
ghost use Rattle.cw_measure.specs.Measured.{AddsChild, AddsEvent, AddsPart, JoinsEvents, Measures, ReadsEvents};

use crate::burdened::Burdened;
use crate::plain::Plain;
use cw_model::burden::Burden;
use cw_model::monoid::Monoid;
use std::alloc::{AllocError, Global};
use std::marker::Model;

/// Work, span and burdened span of a piece of one sync block so far: the readings are always those of the strand tree
/// of the events so far. A reading above the maximum of its type is this maximum.
#[derive(Debug, Drop)]
pub struct Measure {
    work: u64,
    plain: Plain,
    burdened: Burdened,
}

impl Model for Measure {
    ghost use Rattle.cw_measure.specs.Measured.{Measured};

    ghost Value = { Measured };

    ghost view = { λ a. record { work = a.work; plain = a.plain; burdened = a.burdened } };
}

impl Measure {
    /// Returns the measure of an empty piece.
    pub fn new() -> Measure
        ensures value { result ≡ nothing }
        ensures events { (burden : Burden) → Measures burden result [] }
    {
        Measure {
            work: 0,
            plain: Plain::new(),
            burdened: Burdened::new(),
        }
    }

    /// Adds `n` instructions.
    pub fn tick(&mut self, n: u64)
        ensures value { self.new ≡ after_work n self.old }
        ensures events { AddsEvent self.old self.new (Work n) }
    {
        self.work = self.work.saturating_add(n);
        self.plain.tick(n);
        self.burdened.tick(n as u128);
    }

    /// Adds a part in series: a call, a scope or a region.
    pub fn called(&mut self, part: &Measure)
        ensures value { self.new ≡ after_part part.now self.old }
        ensures events { AddsPart self.old self.new part.now }
    {
        self.work = self.work.saturating_add(part.work);
        self.plain.tick(part.plain.heaviest());
        self.burdened.tick(part.burdened.heaviest());
    }

    /// Adds a spawned child, then begins the continuation. With a burden, both get their charges.
    pub fn spawned(&mut self, burden: Burden, child: &Measure)
        ensures value { self.new ≡ after_child burden child.now self.old }
        ensures events { AddsChild burden self.old self.new child.now }
    {
        self.work = self.work.saturating_add(child.work);
        self.plain.fork(child.plain.heaviest());
        self.burdened.fork(burden, child.burdened.heaviest());
    }

    /// Adds a join.
    pub fn sync(&mut self)
        ensures value { self.new ≡ after_join self.old }
        ensures events { AddsEvent self.old self.new Join }
    {
        self.plain.sync();
        self.burdened.sync();
    }

    /// Returns the work, the sum of all strands.
    pub fn work(&self) -> u64
        ensures value { result ≡ self.now.work }
        ensures reads { ReadsEvents self.now }
    {
        self.work
    }

    /// Returns the span, the weight of a heaviest path.
    pub fn span(&self) -> u64
        ensures value { result ≡ span_read self.now }
        ensures reads { ReadsEvents self.now }
    {
        self.plain.heaviest()
    }

    /// Returns the burdened span, the weight of a heaviest path with the charge for each fork that it goes through.
    pub fn burdened(&self) -> u128
        ensures value { result ≡ burdened_read self.now }
        ensures reads { ReadsEvents self.now }
    {
        self.burdened.heaviest()
    }
}

impl Monoid for Measure {
    ghost use Rattle.cw_measure.specs.Measured.{nothing, joined};
    ghost use Rattle.cw_measure.specs.JoinLaws.{joined-first, joined-last, joined-assoc};

    ghost empty = { nothing };

    ghost joined = { joined };

    fn unit(_alloc: Global) -> Self
        ensures value { result ≡ nothing }
        ensures events { (burden : Burden) → Measures burden result [] }
    {
        Measure::new()
    }

    fn join(self, right: Self) -> Result<Self, AllocError>
        ensures always { IsOk result }
        ensures value { IfOk result (λ whole. whole ≡ joined self right) }
        ensures events { IfOk result (λ whole. JoinsEvents self right whole) }
    {
        Ok(Measure {
            work: self.work.saturating_add(right.work),
            plain: self.plain.onward(right.plain),
            burdened: self.burdened.onward(right.burdened),
        })
    }

    ghost unit_first = { joined-first };

    ghost unit_last = { joined-last };

    ghost associative = { joined-assoc };
}
