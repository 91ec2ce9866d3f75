//! Whether all versions of a view are the present ones.

ghost use Rattle.std.specs.Prelude.{◌≡◌, ◌↔◌, IsTrue, MatchOption};
ghost use Rattle.casa_view.specs.Board.{versions};
ghost use Rattle.casa_view.specs.View.{same_held, IsSamePart, ShowsPart, IsCurrent, ShowsSame};

use crate::catalogue_seen::CatalogueSeen;
use crate::items::Items;
use crate::view::{Part, View};
use casa_table::{Index, Table, Version, same_all, same_named};

/// Whether a version is the one that a view holds, if it holds one.
fn same_held<V: Version>(version: &V, held: &Option<V>) -> bool
    ensures same { result ≡ same_held V.is_same version.now held.now }
    ensures shows { IsTrue result → MatchOption held.now (Unit {0})
        (λ w. V.item_of version.now ≡ V.item_of w) }
{
    match held {
        Some(held) => version.same(held),
        None => true,
    }
}

/// Whether a version of the catalogue is the one that a view holds, if it holds one.
fn same_catalogue<V: Version>(version: &V, held: &Option<CatalogueSeen<V>>) -> bool
    ensures same { result ≡ same_held V.is_same version.now held.now }
    ensures shows { IsTrue result → MatchOption held.now (Unit {0})
        (λ w. V.item_of version.now ≡ V.item_of w) }
{
    match held {
        Some(held) => version.same(held.version()),
        None => true,
    }
}

/// Whether the versions of a part are the present ones.
fn same_part<Kind: Copy, V: Version, I: Index<Kind, V>>(
    table: &Table<Kind, V, I>,
    part: &Part<Kind, V, I>,
) -> bool
    ensures same { IsTrue result ↔ IsSamePart V.is_same table.now.entries part.now }
    ensures shows { IsTrue result → ShowsPart V.item_of table.now.entries part.now }
{
    match part {
        Part::All(shared) => same_all(table, shared),
        Part::Named(named) => same_named(table, named),
    }
}

/// Whether all versions of the view are the present ones.
pub(crate) fn same_items<V: Version>(items: &Items<V>, view: &View<V>) -> bool
    ensures current { IsTrue result ↔ IsCurrent V.is_same (versions items.now) view.now }
    ensures shows { IsTrue result → ShowsSame V.item_of (versions items.now) view.now }
{
    if !same_held(&items.clock, &view.clock) {
        return false;
    }
    if !same_catalogue(&items.catalogue, &view.catalogue) {
        return false;
    }
    if !same_part(&items.lists, &view.lists) {
        return false;
    }
    same_part(&items.rows, &view.rows)
}
