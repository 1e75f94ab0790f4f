//! Parts that are cut, lent and shared, and joined again, by one thread and by two.

ghost use Rattle.std.specs.Prelude.{◌≡◌, ◌<◌, ◌∷◌, [], ℤ, length, replicate, pos, None, Some, slice_get, slice_set};
ghost use Rattle.cw_slices.specs.Placed.{IsOwn};
ghost use Rattle.cw_slices.specs.Blocks.{IsIn, IsWhole};

use cw_slices::{ArrayBlock, Slice};
use std::test::Fail;
use std::thread;

// Returns whether three zeros can be cut at their beginning, at their end, and where nothing is left, and joined
// again.
fn is_cut_at_its_ends(mut whole: Slice) -> bool
    requires own { IsOwn whole }
    requires items { whole.items ≡ replicate 3 (pos 0) }
{
    whole.set(2, 9);
    let (none, all) = whole.cut(0);
    let is_none = none.len() == 0;
    let (none, nothing) = none.cut(0);
    let (all, end) = all.cut(3);
    let is_end = end.len() == 0;
    let mut whole = Slice::join(Slice::join(none, nothing), Slice::join(all, end));
    let moved = whole.take();
    let last = moved.get(2);
    is_none && is_end && whole.len() == 0 && last == 9
}

// Returns whether a slice without numbers can be cut into two slices without numbers.
fn is_cut_into_none(whole: Slice) -> bool
    requires own { IsOwn whole }
    requires items { whole.items ≡ [] }
{
    let (left, right) = whole.cut(0);
    Slice::join(left, right).len() == 0
}

#[test]
fn parts_may_be_empty(rt: HostRuntime) -> Result<(), Fail> {
    let three = Slice::zeros(rt.alloc(), 3)?;
    assert!(rt; is_cut_at_its_ends(three));
    let none = Slice::zeros(rt.alloc(), 0)?;
    assert!(rt; is_cut_into_none(none));
    Ok(())
}

fn write_first(mut part: Slice, number: i64) -> Slice
    requires own { IsOwn part }
    requires some { 0 < length part.items }
    ensures spot { result.spot ≡ part.spot }
    ensures len { length result.items ≡ length part.items }
{
    part.set(0, number);
    part
}

// Nested cuts, whose parts two threads write, joined from the inside.
#[test]
#[tactic(auto, using(cw_slices::specs::lemmas::Sent::slice_send))]
fn two_threads_write(rt: HostRuntime) -> Result<(), Fail> {
    let whole = Slice::zeros(rt.alloc(), 5)?;
    let (left, rest) = whole.cut(2);
    let (middle, right) = rest.cut(1);
    let (left, middle) = thread::join(
        &rt,
        || -> Slice
            requires own { IsOwn left }
            requires some { 0 < length left.items }
            ensures spot { result.spot ≡ left.spot }
            ensures len { length result.items ≡ length left.items }
        { write_first(left, 7) },
        || -> Slice
            requires own { IsOwn middle }
            requires some { 0 < length middle.items }
            ensures spot { result.spot ≡ middle.spot }
            ensures len { length result.items ≡ length middle.items }
        { write_first(middle, 8) },
    );
    let whole = Slice::join(left, Slice::join(middle, right));
    assert_eq!(rt; whole.len(), 5);
    assert_eq!(rt; whole.get(0), 7);
    assert_eq!(rt; whole.get(1), 0);
    assert_eq!(rt; whole.get(2), 8);
    assert_eq!(rt; whole.get(3), 0);
    Ok(())
}

fn both_ends(part: Slice) -> (Slice, i64)
    ensures { result.0 ≡ part }
{
    let n = part.len();
    let sum = if n > 1 {
        part.get(0) / 2 + part.get(n - 1) / 2
    } else {
        0
    };
    (part, sum)
}

// Shares a share further, reads it, and merges it.
fn shared_on(part: Slice) -> (Slice, i64)
    ensures items { result.0.items ≡ part.items }
    ensures spot { result.0.spot ≡ part.spot }
{
    let mut block = ArrayBlock::of(part);
    let n = block.len();
    let share = block.share(0, n);
    let (share, sum) = both_ends(share);
    block.merge(0, share);
    (block.whole(), sum)
}

fn read_first(block: ArrayBlock) -> (ArrayBlock, i64)
    requires { IsIn block.cells 0 }
    ensures { result.0 ≡ block }
{
    let first = block.get(0);
    (block, first)
}

// Two threads read one block, one of them through a share, which it shares further; then the owner writes the block.
#[test]
#[tactic(auto, using(cw_slices::specs::lemmas::Sent::slice_send, cw_slices::specs::lemmas::Sent::block_send))]
fn two_threads_read(rt: HostRuntime) -> Result<(), Fail> {
    let mut slice = Slice::zeros(rt.alloc(), 4)?;
    slice.set(0, 6);
    slice.set(3, 8);
    let mut block = ArrayBlock::of(slice);
    let yours = block.share(0, 4);
    let ((block, here), (yours, there)) = thread::join(
        &rt,
        || -> (ArrayBlock, i64)
            requires { IsIn block.cells 0 }
            ensures { result.0 ≡ block }
        { read_first(block) },
        || -> (Slice, i64)
            ensures items { result.0.items ≡ yours.items }
            ensures spot { result.0.spot ≡ yours.spot }
        { shared_on(yours) },
    );
    let mut block = block;
    block.merge(0, yours);
    block.set(1, here);
    assert_eq!(rt; here, 6);
    assert_eq!(rt; there, 7);
    assert_eq!(rt; block.get(1), 6);
    assert_eq!(rt; block.get(3), 8);
    Ok(())
}

fn write_last(mut block: ArrayBlock, number: i64) -> ArrayBlock
    requires there { IsIn block.cells 3 }
    requires own { slice_get block.rights 3 ≡ Some 0 }
    ensures cells { result.cells ≡ slice_set block.cells 3 (Some number) }
    ensures rights { result.rights ≡ block.rights }
    ensures spot { result.spot ≡ block.spot }
{
    block.set(3, number);
    block
}

// One thread writes a part that is lent, and another one the block from which it was lent.
#[test]
#[tactic(auto, using(cw_slices::specs::lemmas::Sent::slice_send, cw_slices::specs::lemmas::Sent::block_send))]
fn a_part_is_lent(rt: HostRuntime) -> Result<(), Fail> {
    let mut block = ArrayBlock::zeros(rt.alloc(), 4)?;
    let part = block.lend(1, 2);
    let (part, mut block) = thread::join(
        &rt,
        || -> Slice
            requires own { IsOwn part }
            requires some { 0 < length part.items }
            ensures spot { result.spot ≡ part.spot }
            ensures len { length result.items ≡ length part.items }
        { write_first(part, 7) },
        || -> ArrayBlock
            requires there { IsIn block.cells 3 }
            requires own { slice_get block.rights 3 ≡ Some 0 }
            ensures cells { result.cells ≡ slice_set block.cells 3 (Some (pos 9)) }
            ensures rights { result.rights ≡ block.rights }
            ensures spot { result.spot ≡ block.spot }
        { write_last(block, 9) },
    );
    block.give_back(1, part);
    assert_eq!(rt; block.len(), 4);
    assert_eq!(rt; block.get(1), 7);
    assert_eq!(rt; block.get(2), 0);
    assert_eq!(rt; block.get(3), 9);
    Ok(())
}

// Returns whether an empty part at the end and the last of three numbers can be lent and given back, while the first
// number is out.
fn are_lent_at_the_end(block: &mut ArrayBlock) -> bool
    requires cells { (x y : ℤ) × (block.old.cells ≡ None ∷ Some x ∷ Some y ∷ []) }
    requires whole { IsWhole block.old }
    ensures cells { (x y : ℤ) × (block.new.cells ≡ None ∷ Some x ∷ Some y ∷ []) }
    ensures whole { IsWhole block.new }
    ensures spot { block.new.spot ≡ block.old.spot }
{
    let end = block.lend(3, 0);
    let last = block.lend(2, 1);
    let is_end = end.len() == 0;
    block.give_back(2, last);
    block.give_back(3, end);
    is_end
}

// Returns whether the first number, which is 4, and an empty part at the beginning can be lent and given back, while
// the others are lent too.
fn are_lent_at_both_ends(block: &mut ArrayBlock) -> bool
    requires cells { (x y z : ℤ) × (block.old.cells ≡ Some x ∷ Some y ∷ Some z ∷ []) }
    requires whole { IsWhole block.old }
    ensures cells { (x y z : ℤ) × (block.new.cells ≡ Some x ∷ Some y ∷ Some z ∷ []) }
    ensures whole { IsWhole block.new }
{
    let first = block.lend(0, 1);
    let none = block.lend(0, 0);
    let is_end = are_lent_at_the_end(block);
    let is_none = none.len() == 0;
    let number = first.get(0);
    block.give_back(0, none);
    block.give_back(0, first);
    is_end && is_none && number == 4
}

// Returns whether the whole block can be taken out after that.
fn is_taken_whole(mut slice: Slice) -> bool
    requires own { IsOwn slice }
    requires items { slice.items ≡ replicate 3 (pos 0) }
{
    slice.set(0, 4);
    let mut block = ArrayBlock::of(slice);
    let are_lent = are_lent_at_both_ends(&mut block);
    let whole = block.take();
    let first = whole.get(0);
    are_lent && block.len() == 0 && whole.len() == 3 && first == 4
}

// Parts are lent at the beginning and at the end, and empty parts; then the whole block is taken out.
#[test]
fn parts_are_lent_at_the_ends(rt: HostRuntime) -> Result<(), Fail> {
    let slice = Slice::zeros(rt.alloc(), 3)?;
    assert!(rt; is_taken_whole(slice));
    Ok(())
}

// The memory is not freed, so the share can still be read.
#[test]
fn dropped_with_a_share_out(rt: HostRuntime) -> Result<(), Fail> {
    let mut slice = Slice::zeros(rt.alloc(), 2)?;
    slice.set(1, 5);
    let mut block = ArrayBlock::of(slice);
    let share = block.share(1, 1);
    let again = block.share(1, 1);
    drop(block);
    assert_eq!(rt; share.get(0), 5);
    assert_eq!(rt; again.get(0), 5);
    Ok(())
}

// The memory is not freed, so the part can still be used.
#[test]
fn dropped_with_a_part_out(rt: HostRuntime) -> Result<(), Fail> {
    let mut block = ArrayBlock::zeros(rt.alloc(), 2)?;
    let mut part = block.lend(1, 1);
    drop(block);
    part.set(0, 6);
    assert_eq!(rt; part.get(0), 6);
    let empty = ArrayBlock::empty(rt.alloc());
    assert_eq!(rt; empty.whole().len(), 0);
    Ok(())
}
