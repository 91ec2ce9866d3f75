//! Whether versions that were read are still the present ones.

ghost use Rattle.std.specs.Prelude.{◌≡◌, ◌↔◌, Option, Some, true, IsTrue};
ghost use Rattle.std.specs.Option.{option_copied, option_map};
ghost use Rattle.casa_filing.specs.Text.{Text, at_name};
ghost use Rattle.casa_table.specs.Same.{same_version};

use crate::index::Index;
use crate::table::{Shared, Sides, Table, Values};
use casa_flight::Name;
use casa_item::Version;
use casa_named::Few;
use std::collections::BTreeMap;

/// Whether two versions are the same, or there is none on either side.
pub fn same_version<V: Version>(one: Option<&V>, other: Option<&V>) -> bool
    ensures same { result ≡ same_version V.is_same (option_copied one.entry)
        (option_copied other.entry) }
    ensures shows { IsTrue result →
        option_map V.item_of (option_copied one.entry)
        ≡ option_map V.item_of (option_copied other.entry) }
{
    match (one, other) {
        (None, None) => true,
        (Some(one), Some(other)) => one.same(other),
        _ => false,
    }
}

/// Whether the present version under a name is the shared one.
fn same_at<Kind: Copy, V: Version, I: Index<Kind, V>>(
    table: &Table<Kind, V, I>,
    shared: &Shared<Kind, V, I>,
    name: &Name<Kind>,
) -> bool
    ensures same { result ≡ same_version V.is_same (at_name table.now.entries name.now)
        (at_name shared.now name.now) }
    ensures shows { IsTrue result →
        option_map V.item_of (at_name table.now.entries name.now)
        ≡ option_map V.item_of (at_name shared.now name.now) }
{
    same_version(table.get(name), shared.get(name))
}

/// Whether they are the same under all names that these entries have.
fn same_under<Kind: Copy, V: Version, I: Index<Kind, V>, X>(
    table: &Table<Kind, V, I>,
    shared: &Shared<Kind, V, I>,
    entries: &BTreeMap<Name<Kind>, X>,
) -> bool
    ensures same { IsTrue result → (q : Text) (x : X) → at_name entries.now.entries q ≡ Some x →
        same_version V.is_same (at_name table.now.entries q) (at_name shared.now q) ≡ true }
    ensures shows { IsTrue result → (q : Text) (x : X) → at_name entries.now.entries q ≡ Some x →
        option_map V.item_of (at_name table.now.entries q)
        ≡ option_map V.item_of (at_name shared.now q) }
    ensures every { ((q : Text) →
        same_version V.is_same (at_name table.now.entries q) (at_name shared.now q) ≡ true)
        → IsTrue result }
{
    for (name, _) in entries {
        if !same_at(table, shared, name) {
            return false;
        }
    }
    true
}

/// Whether both have the same versions under the same names.
fn same_values<Kind, V: Version>(ours: &Values<Kind, V>, theirs: &Values<Kind, V>) -> bool
    ensures same { IsTrue result → (q : Text) →
        same_version V.is_same (at_name ours.now.entries q) (at_name theirs.now.entries q) ≡ true }
    ensures shows { IsTrue result → (q : Text) →
        option_map V.item_of (at_name ours.now.entries q)
        ≡ option_map V.item_of (at_name theirs.now.entries q) }
{
    let mut others = theirs.iter();
    for (name, version) in ours {
        let Some((other_name, other)) = others.next() else {
            return false;
        };
        if name != other_name || !version.same(other) {
            return false;
        }
    }
    others.next().is_none()
}

/// Whether both bases have the same versions under the same names, which is known already where they are alike.
fn same_base<Kind, V: Version>(sides: &Sides<'_, Kind, V>) -> bool
    requires { IsTrue sides.now.alike → sides.now.ours.now.entries ≡ sides.now.theirs.now.entries }
    ensures same { IsTrue result → (q : Text) →
        same_version V.is_same (at_name sides.now.ours.now.entries q)
        (at_name sides.now.theirs.now.entries q) ≡ true }
    ensures shows { IsTrue result → (q : Text) →
        option_map V.item_of (at_name sides.now.ours.now.entries q)
        ≡ option_map V.item_of (at_name sides.now.theirs.now.entries q) }
{
    sides.alike || same_values(sides.ours, sides.theirs)
}

/// Whether all shared versions are the present ones, and no other name has one.
///
/// Mostly both have the same base, which seals tell at once, or the same versions in two: then these are compared side by
/// side, and only the names that have changed are looked up.
pub fn same_all<Kind: Copy, V: Version, I: Index<Kind, V>>(
    table: &Table<Kind, V, I>,
    shared: &Shared<Kind, V, I>,
) -> bool
    ensures same { IsTrue result ↔ ((q : Text) →
        same_version V.is_same (at_name table.now.entries q) (at_name shared.now q) ≡ true) }
    ensures shows { IsTrue result → (q : Text) →
        option_map V.item_of (at_name table.now.entries q)
        ≡ option_map V.item_of (at_name shared.now q) }
{
    let sides = table.sides(shared);
    if !same_under(table, shared, sides.our_changes)
        || !same_under(table, shared, sides.their_changes)
    {
        return false;
    }
    if same_base(&sides) {
        return true;
    }
    same_under(table, shared, sides.ours) && same_under(table, shared, sides.theirs)
}

/// Whether the versions under these names are the present ones, where none stands for a name that has none.
pub fn same_named<Kind: Copy, V: Version, I: Index<Kind, V>>(
    table: &Table<Kind, V, I>,
    named: &Few<Kind, Option<V>>,
) -> bool
    ensures same { IsTrue result ↔ ((q : Text) (w : Option V) → at_name named.now q ≡ Some w →
        same_version V.is_same (at_name table.now.entries q) w ≡ true) }
    ensures shows { IsTrue result → (q : Text) (w : Option V) → at_name named.now q ≡ Some w →
        option_map V.item_of (at_name table.now.entries q) ≡ option_map V.item_of w }
{
    for (name, version) in named.iter() {
        if !same_version(table.get(name), version.as_ref()) {
            return false;
        }
    }
    true
}
