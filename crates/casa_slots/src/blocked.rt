//! Which slots issued flights block, and how many flights each.

ghost use Rattle.std.specs.Prelude.{◌≡◌, ◌<◌, ◌≤◌, ◌==◌, ◌↔◌, ℕ, false, IfOk, IfSome, IsTrue, OnOk, replicate, length, map, sum, vec_len, vec_capacity};
ghost use Rattle.std.specs.List.{All, AllByRecursion, slice_get};
ghost use Rattle.casa_grid.specs.Profile.{IsProfile};
ghost use Rattle.casa_grid.specs.Slots.{slots, window_of};
ghost use Rattle.casa_slots.specs.Blocked.{raised, lowered, counts, times_in};
ghost use Rattle.casa_slots.specs.Seat.{HoldsTime, issued_in};
ghost use Rattle.casa_slots.specs.Walk.{clear_from};
ghost use Rattle.casa_slots.specs.Sparse.{AreBlocked, count_before, count_in, passed, put_one, take_one};
ghost use Rattle.std.specs.Option.{option_map_or};

use crate::copies::copied;
use crate::grid::SharedGrid;
use crate::seat::Seat;
use casa_time::Moment;
use std::alloc::{AllocError, Global};
use std::marker::Model;

/// A slot that issued flights block, and how many.
type Block = (usize, usize);

/// Which slots issued flights block, and how many flights each: the blocked slots alone, in their order.
///
/// Contracts see the number for each slot, 0 for one that is clear, and for how many blocked slots there is room.
#[derive(Drop)]
pub struct Blocked {
    slots: usize,
    blocks: Vec<Block>,
}

impl Model for Blocked {
    ghost use Rattle.std.specs.Prelude.{◌≤◌, vec_capacity};
    ghost use Rattle.std.below.core.specs.declared.int.u32.TheConstants.{MAX};
    ghost use Rattle.casa_slots.specs.Sparse.{Blocks, dense, AreBlocked};

    ghost Value = { Blocks };

    ghost view = { λ b. record { counts = dense b.slots b.blocks.items; room = vec_capacity b.blocks } };

    ghost invariant = { λ b. AreBlocked 0 b.slots b.blocks.items × (b.slots ≤ MAX) };
}

/// How many of these blocks, which are in their order, are of slots before this one.
fn count_before(blocks: &[Block], slot: usize, slots: usize) -> usize
    requires { AreBlocked 0 slots blocks.now }
    ensures value { result ≡ count_before blocks.now slot }
    ensures within { result ≤ length blocks.now }
{
    blocks.partition_point(|(other, _)| *other < slot)
}

/// The first slot from this one on that is none of these, which are in their order.
fn passed(blocks: &[Block], slot: usize, slots: usize) -> usize
    requires { AreBlocked 0 slots blocks.now }
    ensures { result ≡ passed blocks.now slot }
{
    let from = count_before(blocks, slot, slots);
    let mut clear = slot;
    for i in from..blocks.len() {
        if blocks[i].0 != clear {
            return clear;
        }
        clear += 1;
    }
    clear
}

impl Blocked {
    /// So many slots, of which none is blocked, with room for this many that are. `AllocError` where there is no memory
    /// for that.
    fn none(alloc: Global, slots: usize, room: usize) -> Result<Blocked, AllocError>
        requires { slots ≤ u32.MAX }
        ensures counts { IfOk result (λ blocked. blocked.counts ≡ replicate slots 0) }
        ensures room { IfOk result (λ blocked. room ≤ blocked.room) }
    {
        Ok(Blocked {
            slots,
            blocks: Vec::with_capacity(alloc, room)?,
        })
    }

    /// How many slots there are, blocked and clear.
    pub(crate) fn slots(&self) -> usize
        ensures { result ≡ length self.now.counts }
    {
        self.slots
    }

    /// The first clear slot from `k` on.
    pub(crate) fn clear_from(&self, k: usize) -> Option<usize>
        ensures value { result ≡ clear_from self.now.counts k }
        ensures few { IfSome result (λ slot. slot < u32.MAX) }
    {
        if k >= self.slots {
            return None;
        }
        let slot = passed(&self.blocks, k, self.slots);
        (slot < self.slots).then_some(slot)
    }

    /// Whether one flight blocks a slot, and no other.
    fn has_one(&self, slot: usize) -> bool
        ensures { result ≡ option_map_or (λ (n : ℕ). n == 1) (slice_get self.now.counts slot)
            false }
    {
        let at = count_before(&self.blocks, slot, self.slots);
        has_at(&self.blocks, at, slot) && self.blocks[at].1 == 1
    }

    /// The first clear slot from `k` on, once a flight has left this slot, if it had one.
    pub(crate) fn clear_once_left(&self, k: usize, left: Option<usize>) -> Option<usize>
        ensures { result ≡ clear_from (lowered self.now.counts left) k }
    {
        let clear = self.clear_from(k);
        let Some(slot) = left else {
            return clear;
        };
        if is_sooner(slot, k, clear) && self.has_one(slot) {
            Some(slot)
        } else {
            clear
        }
    }

    /// Makes room for so many blocked slots in all; the numbers of flights stay. `AllocError` where there is no memory for
    /// that; nothing is lost then, neither a number nor room.
    pub fn reserve(&mut self, room: usize) -> Result<(), AllocError>
        ensures counts { self.new.counts ≡ self.old.counts }
        ensures ok { OnOk result (room ≤ self.new.room) }
        ensures room { self.old.room ≤ self.new.room }
    {
        let more = room.saturating_sub(self.blocks.len());
        self.blocks.reserve(more)?;
        Ok(())
    }

    /// Counts one more flight in a slot.
    fn raise(&mut self, slot: Option<usize>)
        requires few { AllByRecursion (λ n. n < usize.MAX) self.old.counts }
        requires room { sum self.old.counts < self.old.room }
        ensures counts { self.new.counts ≡ raised self.old.counts slot }
        ensures room { self.old.room ≤ self.new.room }
    {
        if let Some(k) = slot {
            if k < self.slots {
                let at = count_before(&self.blocks, k, self.slots);
                raise_at(&mut self.blocks, at, k);
            }
        }
    }

    /// Counts one flight less in a slot.
    fn lower(&mut self, slot: Option<usize>)
        ensures counts { self.new.counts ≡ lowered self.old.counts slot }
        ensures room { self.new.room ≡ self.old.room }
    {
        if let Some(k) = slot {
            if k < self.slots {
                let at = count_before(&self.blocks, k, self.slots);
                lower_at(&mut self.blocks, at, k);
            }
        }
    }

    /// The same numbers of flights, with room for so many blocked slots. `AllocError` where there is no memory for that.
    pub fn try_clone(&self, room: usize) -> Result<Blocked, AllocError>
        ensures counts { IfOk result (λ copy. copy.counts ≡ self.now.counts) }
        ensures room { IfOk result (λ copy. room ≤ copy.room) }
    {
        Ok(Blocked {
            slots: self.slots,
            blocks: copied(*self.blocks.allocator(), &self.blocks, room)?,
        })
    }
}

/// Whether a slot is from number `k` on and before the other, if there is one.
fn is_sooner(slot: usize, k: usize, other: Option<usize>) -> bool
    ensures { IsTrue result ↔ (k ≤ slot) × IfSome other (λ i. slot < i) }
{
    k <= slot && other.is_none_or(|i| slot < i)
}

/// Whether block number `at` is of this slot.
fn has_at(blocks: &[Block], at: usize, slot: usize) -> bool
    ensures { result ≡ option_map_or (λ (e : ℕ × ℕ). e.0 == slot) (slice_get blocks.now at) false }
{
    match blocks.get(at) {
        Some((other, _)) => *other == slot,
        None => false,
    }
}

/// Counts one more flight in a slot, whose block is number `at` or goes there.
fn raise_at(blocks: &mut Vec<Block>, at: usize, slot: usize)
    requires at { at ≡ count_before blocks.old.items slot }
    requires few { count_in blocks.old.items slot < usize.MAX }
    requires room { vec_len blocks.old < vec_capacity blocks.old }
    ensures items { blocks.new.items ≡ put_one blocks.old.items slot }
    ensures capacity { vec_capacity blocks.old ≤ vec_capacity blocks.new }
{
    if has_at(blocks, at, slot) {
        let (_slot, count) = blocks[at];
        blocks[at] = (slot, count + 1);
    } else {
        blocks.insert(at, (slot, 1)).unwrap();
    }
}

/// Counts one flight less in a slot, whose block, if it has one, is number `at`.
fn lower_at(blocks: &mut Vec<Block>, at: usize, slot: usize)
    requires at { at ≡ count_before blocks.old.items slot }
    ensures items { blocks.new.items ≡ take_one blocks.old.items slot }
    ensures capacity { vec_capacity blocks.new ≡ vec_capacity blocks.old }
{
    if has_at(blocks, at, slot) {
        let (_slot, count) = blocks[at];
        if count == 1 {
            blocks.remove(at);
        } else {
            blocks[at] = (slot, count.saturating_sub(1));
        }
    }
}

/// The number of the slot whose window holds this moment, in a grid of a valid profile; `None` where no window does.
pub fn slot_of(grid: &SharedGrid, at: Moment) -> Option<usize>
    ensures value { result ≡ window_of (slots grid.now) at }
    ensures valid { IsProfile grid.now }
{
    grid.get().window_of(at)
}

/// Counts one more flight in the slot whose window holds this moment, and gives that slot; `None` where no window does, and
/// then no number changes. There must be room for one more blocked slot than there are flights.
pub fn block(grid: &SharedGrid, blocked: &mut Blocked, at: Moment) -> Option<usize>
    requires few { AllByRecursion (λ n. n < usize.MAX) blocked.old.counts }
    requires room { IsProfile grid.now → sum blocked.old.counts < blocked.old.room }
    ensures slot { result ≡ window_of (slots grid.now) at }
    ensures counts { blocked.new.counts ≡ raised blocked.old.counts
        (window_of (slots grid.now) at) }
    ensures room { blocked.old.room ≤ blocked.new.room }
    ensures valid { IsProfile grid.now }
{
    let slot = slot_of(grid, at);
    blocked.raise(slot);
    slot
}

/// Counts one flight less in the slot whose window holds this moment, and gives that slot; `None` where no window does, and
/// then no number changes. The room stays as it is.
pub fn unblock(grid: &SharedGrid, blocked: &mut Blocked, at: Moment) -> Option<usize>
    ensures slot { result ≡ window_of (slots grid.now) at }
    ensures counts { blocked.new.counts ≡ lowered blocked.old.counts
        (window_of (slots grid.now) at) }
    ensures room { blocked.new.room ≡ blocked.old.room }
    ensures valid { IsProfile grid.now }
{
    let slot = slot_of(grid, at);
    blocked.lower(slot);
    slot
}

/// Counts these issued flights in their slots, which nothing blocks yet.
fn raise_all(grid: &SharedGrid, blocked: &mut Blocked, issued: &[Seat])
    requires times { All HoldsTime issued.now }
    requires none { blocked.old.counts ≡ replicate (length (slots grid.now)) 0 }
    requires room { length issued.now ≤ blocked.old.room }
    ensures counts { blocked.new.counts ≡ counts (slots grid.now)
        (times_in (map issued_in issued.now)) }
    ensures room { blocked.old.room ≤ blocked.new.room }
{
    for i in 0..issued.len() {
        let slot = slot_of(grid, issued[i].cto());
        blocked.raise(slot);
    }
}

/// How many of these issued flights block each slot: those whose calculated times over lie in its window. With room for so
/// many blocked slots, which are no fewer than the flights. `AllocError` where there is no memory for that.
pub fn counted(
    alloc: Global,
    grid: &SharedGrid,
    issued: &[Seat],
    room: usize,
) -> Result<Blocked, AllocError>
    requires times { All HoldsTime issued.now }
    requires room { length issued.now ≤ room }
    ensures counts { IfOk result (λ blocked. blocked.counts
        ≡ counts (slots grid.now) (times_in (map issued_in issued.now))) }
    ensures room { IfOk result (λ blocked. room ≤ blocked.room) }
{
    let _periods = grid.get().profile().periods();
    let mut blocked = Blocked::none(alloc, grid.get().len(), room)?;
    raise_all(grid, &mut blocked, issued);
    Ok(blocked)
}
