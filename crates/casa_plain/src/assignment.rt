//! Places: the earliest open slot that no earlier competitor has, competitor by competitor.

ghost use Rattle.std.specs.Prelude.{◌≡◌, ℕ, false, IfOk, length, option_copied};
ghost use Rattle.std.specs.List.{find, range_with_len, slice_get};
ghost use Rattle.std.specs.Option.{option_map_or};
ghost use Rattle.casa_grid.specs.Slots.{slots, wanted, is_within};
ghost use Rattle.casa_flight.specs.declared.comp.Assigned.{Assigned};
ghost use Rattle.casa_flight.specs.Assignment.{assignment, is_blocked, is_free, is_from, is_open, is_taken};
ghost use Rattle.casa_flight.specs.Assignment.{place_after};
ghost use Rattle.casa_filing.specs.Text.{same_text};

use casa_flight::{Assigned, Comp, Key};
use casa_grid::{Grid, Place};
use casa_time::Moment;
use std::alloc::{AllocError, Global};

/// Whether the window of slot `k` holds this moment.
fn is_in_slot(grid: &Grid, at: Moment, k: usize) -> bool
    ensures { result ≡ option_map_or (is_within at) (slice_get (slots grid.now) k) false }
{
    grid.window_of(at) == Some(k)
}

/// Whether an issued time blocks slot `k`.
fn is_blocked(grid: &Grid, issued: &[Moment], k: usize) -> bool
    ensures { result ≡ is_blocked (record { slots = slots grid.now; issued = issued.now }) k }
{
    issued.iter().any(|at| is_in_slot(grid, *at, k))
}

/// Whether slot `k` is the asked one or a later one.
fn is_from(asked: Option<usize>, k: usize) -> bool
    ensures { result ≡ is_from asked k }
{
    match asked {
        Some(asked) => asked <= k,
        None => false,
    }
}

/// Whether slot `k` is open to a flight that asks for this slot.
fn is_open(grid: &Grid, issued: &[Moment], asked: Option<usize>, k: usize) -> bool
    ensures { (eto : ℕ) → asked ≡ wanted (slots grid.now) eto →
        result ≡ is_open (record { slots = slots grid.now; issued = issued.now }) eto k }
{
    k < grid.len() && is_from(asked, k) && !is_blocked(grid, issued, k)
}

/// Whether an earlier competitor has slot `k`.
fn is_taken(earlier: &[Assigned], k: usize) -> bool
    ensures { result ≡ is_taken earlier.now k }
{
    earlier.iter().any(|assigned| match assigned.place {
        Place::Slot(j) => k == j,
        Place::Over => false,
    })
}

/// Whether slot `k` is open to a flight that asks for this slot, and no earlier competitor has it.
fn is_free(
    grid: &Grid,
    issued: &[Moment],
    earlier: &[Assigned],
    asked: Option<usize>,
    k: usize,
) -> bool
    ensures { (eto : ℕ) → asked ≡ wanted (slots grid.now) eto →
        result ≡ is_free (record {
          slots = slots grid.now;
          issued = issued.now;
        }) earlier.now eto k }
{
    is_open(grid, issued, asked, k) && !is_taken(earlier, k)
}

/// The earliest free slot.
fn first_free(grid: &Grid, issued: &[Moment], earlier: &[Assigned], eto: Moment) -> Option<usize>
    ensures { result ≡ find (is_free
        (record { slots = slots grid.now; issued = issued.now }) earlier.now eto)
        (range_with_len 0 (length (slots grid.now))) }
{
    let asked = grid.wanted(eto);
    (0..grid.len()).find(|k| is_free(grid, issued, earlier, asked, *k))
}

/// The place of a flight after those of the earlier competitors: the earliest free slot, and over without one.
fn place_after(grid: &Grid, issued: &[Moment], earlier: &[Assigned], eto: Moment) -> Place
    ensures { result ≡ place_after
        (record { slots = slots grid.now; issued = issued.now }) earlier.now eto }
{
    match first_free(grid, issued, earlier, eto) {
        Some(k) => Place::Slot(k),
        None => Place::Over,
    }
}

/// The assignment of these competitors, in their order.
pub fn assignment(
    alloc: Global,
    grid: &Grid,
    issued: &[Moment],
    comps: &[Comp],
) -> Result<Vec<Assigned>, AllocError>
    ensures { IfOk result (λ all. all.items ≡
        assignment (record { slots = slots grid.now; issued = issued.now }) comps.now) }
{
    let mut all = Vec::new(alloc);
    for comp in comps {
        let place = place_after(grid, issued, all.as_slice(), comp.eto);
        all.push(Assigned { comp: *comp, place })?;
    }
    Ok(all)
}

/// The competitor with this key.
fn assigned_to(all: &[Assigned], key: Key) -> Option<&Assigned>
    ensures { option_copied result ≡ find (λ (a : Assigned). same_text key a.comp.key) all.now }
{
    all.iter().find(|assigned| key == assigned.comp.key)
}

/// The place of the competitor with this key; over where there is none.
pub fn place_among(all: &[Assigned], key: Key) -> Place
    ensures { result ≡
        option_map_or (λ (a : Assigned). a.place)
        (find (λ (a : Assigned). same_text key a.comp.key) all.now) Place.Over }
{
    match assigned_to(all, key) {
        Some(assigned) => assigned.place,
        None => Place::Over,
    }
}
