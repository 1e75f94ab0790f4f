//! Merging of steps by site, so that a path has at most as many steps as there are sites.

ghost use Rattle.std.specs.Prelude.{◌≡◌, ◌+◌, ◌≤◌, ◌<◌, ◌^◌, ℕ, length, IfOk, OnOk};
ghost use Rattle.cw_sites.specs.Compacting.{AddsTo, AddsUpWithin, CountsOn, EndsWithinSites, GathersIn, IsGathered, NoMoreThanSites, StaysWithin, SumsUpWithin};
ghost use Rattle.cw_sites.specs.StepSums.{sum_at, StaysBelow};

use crate::steps::{Steps, take_out};
use cw_facts::Table;
use std::alloc::AllocError;

/// Merges the steps from one place up to another, or up to the end, by site. Returns the place where they then end.
/// Takes memory for the sites of these steps, and releases it.
///
/// # Errors
///
/// Returns an `AllocError` if memory runs out.
pub fn add_up(steps: &mut Vec<Steps>, from: usize, to: usize) -> Result<usize, AllocError>
    ensures all { IfOk result (λ end. AddsUpWithin from to steps.old.items steps.new.items end) }
    ensures short { IfOk result (λ end. EndsWithinSites from steps.old.items end) }
    ensures count { IfOk result (λ end. CountsOn to steps.old.items steps.new.items end) }
    ensures kept { OnOk result (StaysBelow steps.old.items steps.new.items) }
{
    let last = to.min(steps.len());
    if from > last {
        return Ok(last);
    }
    let end = gather(steps, from, last)?;
    take_out(steps, end, last);
    Ok(end)
}

// Merges each site's steps from one place up to another into one, from the first place on. Returns the place where
// they end.
fn gather(steps: &mut Vec<Steps>, from: usize, to: usize) -> Result<usize, AllocError>
    requires order { from ≤ to }
    requires within { to ≤ length steps.old.items }
    ensures { IfOk result (λ end. IsGathered from to steps.old.items steps.new.items end) }
{
    let alloc = *steps.allocator();
    let mut places = Table::new(alloc);
    let mut end = from;
    for i in from..to {
        end = gather_one(steps, &mut places, to, i, end)?;
    }
    Ok(end)
}

// Adds the step at the place `i` to the merged steps, which end at `end`: to the step of its site, whose place is in
// `places`, or after all of them. Returns the place where they end.
#[inline(always)]
fn gather_one(
    steps: &mut Vec<Steps>,
    places: &mut Table<usize>,
    to: usize,
    i: usize,
    end: usize,
) -> Result<usize, AllocError>
    requires order { end ≤ i }
    requires before { i < to }
    requires within { to ≤ length steps.old.items }
    ensures { IfOk result (GathersIn to steps.old places.old i end steps.new places.new) }
{
    let one = steps[i];
    let at = places.get(one.site as usize, to);
    if at < to {
        steps[at] = Steps {
            site: one.site,
            count: steps[at].count.wrapping_add(one.count),
        };
        return Ok(end);
    }
    places.set(one.site as usize, end, to)?;
    steps[end] = one;
    Ok(end + 1)
}

/// Replaces `sums` by the sum of each site over the steps from one place up to another.
///
/// # Errors
///
/// Returns an `AllocError` if memory runs out. The sums are then incomplete.
pub fn sum_up(
    steps: &Vec<Steps>,
    from: usize,
    to: usize,
    sums: &mut Vec<u64>,
) -> Result<(), AllocError>
    ensures sums { OnOk result (SumsUpWithin from to steps.now.items sums.new.items) }
    ensures words { OnOk result (length sums.new.items ≤ 2 ^ 32) }
    ensures sites { OnOk result (NoMoreThanSites steps.now.items sums.new.items) }
{
    sums.clear();
    let end = to.min(steps.len());
    for i in from..end {
        let one = steps[i];
        add_to(sums, one.site, one.count)?;
    }
    Ok(())
}

// Adds `count` to the sum of a site.
fn add_to(sums: &mut Vec<u64>, site: u32, count: u64) -> Result<(), AllocError>
    ensures sums { OnOk result (AddsTo site count sums.old.items sums.new.items) }
    ensures longest { OnOk result (StaysWithin site sums.old.items sums.new.items) }
    ensures words { OnOk result (length sums.old.items ≤ 2 ^ 32 → length sums.new.items ≤ 2 ^ 32) }
{
    reach(sums, site)?;
    let place = site as usize;
    sums[place] = sums[place].saturating_add(count);
    Ok(())
}

// Extends the sums to this site; missing sums are 0.
fn reach(sums: &mut Vec<u64>, site: u32) -> Result<(), AllocError>
    ensures same { OnOk result ((q : ℕ) → sum_at q sums.new.items ≡ sum_at q sums.old.items) }
    ensures within { OnOk result (site < length sums.new.items) }
    ensures longest { OnOk result (StaysWithin site sums.old.items sums.new.items) }
{
    let needed = site as usize + 1;
    if sums.len() < needed {
        sums.resize(needed, 0)?;
    }
    Ok(())
}
