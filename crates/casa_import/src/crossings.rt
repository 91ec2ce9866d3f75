//! The crossings of a file, by the flights that make them.

ghost use Rattle.std.specs.Prelude.{◌≡◌, ◌||◌, ◌∷◌, ◌++◌, IfOk, OnOk, true, false, [], if◌then◌else◌, ◌<◌, Ok};
ghost use Rattle.std.specs.List.{list_any};
ghost use Rattle.casa_filing.specs.Text.{Text, same_text};
ghost use Rattle.casa_rows.specs.declared.row.Row.{Row as FileRow};
ghost use Rattle.casa_import.specs.Crossings.{IsRead, is_named};
ghost use Rattle.casa_import.specs.Fields.{crossing_of};
ghost use Rattle.casa_import.specs.Keyed.{has_key};
ghost use Rattle.casa_import.specs.Taking.{Takes};

use crate::columns::{CrossingColumns, FlightColumns};
use crate::fields::crossing_of;
use crate::reason::LeftOut;
use casa_filing::{Crossing, Key, Loc};
use casa_rows::Row;
use jiff::civil::Date;
use std::alloc::{AllocError, Global};
use std::collections::{BTreeMap, BTreeSet};

/// Keys of flights.
#[derive(Drop)]
pub struct Keys {
    keys: BTreeSet<Key>,
}

impl Keys {
    ghost use Rattle.casa_import.specs.Keyed.{has_key};

    /// No keys.
    pub fn new(alloc: Global) -> Keys
        ensures { (key : Text) → has_key result key ≡ false }
    {
        Keys {
            keys: BTreeSet::new(alloc),
        }
    }

    /// Whether this key is there.
    pub fn contains(&self, key: &Key) -> bool
        ensures { result ≡ has_key self.now key.now }
    {
        self.keys.contains(key)
    }

    /// Takes in a key. `AllocError` where there is no memory for it.
    pub fn insert(&mut self, key: Key) -> Result<(), AllocError>
        ensures { OnOk result ((other : Text) →
            has_key self.new other ≡ (same_text key other || has_key self.old other)) }
    {
        self.keys.insert(key)?;
        Ok(())
    }
}

/// The keys that rows of flights have in their column, be they left out or not.
pub fn named(alloc: Global, columns: &FlightColumns, rows: &[Row]) -> Result<Keys, AllocError>
    ensures { IfOk result (λ keys. (key : Text) →
        has_key keys key ≡ is_named columns.now.key rows.now key) }
{
    let mut keys = Keys::new(alloc);
    for row in rows {
        if let Some(key) = Key::new(row.text(columns.key)) {
            keys.insert(key)?;
        }
    }
    Ok(keys)
}

/// Crossings by the keys of their flights.
#[derive(Drop)]
pub struct Crossings {
    flights: BTreeMap<Key, Vec<Crossing>>,
}

impl Crossings {
    ghost use Rattle.casa_import.specs.Keyed.{flown};

    /// No crossings.
    pub fn new(alloc: Global) -> Crossings
        ensures { (key : Text) → flown result key ≡ [] }
    {
        Crossings {
            flights: BTreeMap::new(alloc),
        }
    }

    /// The crossings of a key, in the order of the file.
    pub fn of(&self, key: &Key) -> &[Crossing]
        ensures { result.now ≡ flown self.now key.now }
    {
        match self.flights.get(key) {
            Some(via) => via.as_slice(),
            None => &[],
        }
    }

    /// Takes in a crossing, behind those of its key. `AllocError` where there is no memory for it.
    fn push(&mut self, alloc: Global, key: Key, crossing: Crossing) -> Result<(), AllocError>
        ensures { OnOk result ((other : Text) → flown self.new other
            ≡ (if same_text key other then flown self.old other ++ crossing ∷ [] else flown self.old other)) }
    {
        if let Some(via) = self.flights.get_mut(&key) {
            via.push(crossing)?;
            return Ok(());
        }
        let mut via = Vec::new(alloc);
        via.push(crossing)?;
        self.flights.insert(key, via)?;
        Ok(())
    }

    /// Whether a flight has entered this location.
    fn has_entered(&self, key: &Key, loc: &Loc) -> bool
        ensures { result ≡ list_any (λ c. same_text c.loc loc.now) (flown self.now key.now) }
    {
        self.of(key).iter().any(|crossing| crossing.loc == *loc)
    }
}

/// What rows of crossings say.
#[derive(Drop)]
pub struct CrossingsRead {
    /// The crossings of the flights that are named.
    pub crossings: Crossings,
    /// The rows that are left out, in the order of the file.
    pub left_out: Vec<LeftOut>,
    /// How many crossings are of no flight that is named.
    pub of_no_flight: usize,
    /// How many crossings of named flights enter a location again.
    pub entered_again: usize,
}

/// The crossings of the flights with these keys, and the rows that are left out.
pub fn read_crossings(
    alloc: Global,
    day: Date,
    columns: &CrossingColumns,
    named: &Keys,
    rows: &[Row],
) -> Result<CrossingsRead, AllocError>
    ensures { IfOk result (IsRead day columns.now (has_key named.now) rows.now) }
{
    let mut read = CrossingsRead {
        crossings: Crossings::new(alloc),
        left_out: Vec::new(alloc),
        of_no_flight: 0,
        entered_again: 0,
    };
    for row in rows {
        take(alloc, &mut read, day, columns, named, row)?;
    }
    Ok(read)
}

/// Takes in a row of crossings. `AllocError` where there is no memory for it; some of it may then be taken in.
fn take(
    alloc: Global,
    read: &mut CrossingsRead,
    day: Date,
    columns: &CrossingColumns,
    named: &Keys,
    row: &Row,
) -> Result<(), AllocError>
    requires of_no_flight { read.old.of_no_flight < usize.MAX }
    requires entered_again { read.old.entered_again < usize.MAX }
    ensures { OnOk result
        (Takes (has_key named.now) row.now (crossing_of day columns.now row.now) read.old read.new) }
{
    match crossing_of(day, columns, row) {
        Ok(entry) => {
            take_crossing(alloc, read, named, entry)?;
            Ok(())
        }
        Err(reason) => {
            let line = row.line;
            read.left_out.push(LeftOut { line, reason })?;
            Ok(())
        }
    }
}

/// Takes in a crossing, with the key of its flight.
fn take_crossing(
    alloc: Global,
    read: &mut CrossingsRead,
    named: &Keys,
    entry: (Key, Crossing),
) -> Result<(), AllocError>
    requires of_no_flight { read.old.of_no_flight < usize.MAX }
    requires entered_again { read.old.entered_again < usize.MAX }
    ensures { OnOk result ((row : FileRow) → Takes (has_key named.now) row (Ok entry) read.old read.new) }
{
    let (key, crossing) = entry;
    if !named.contains(&key) {
        read.of_no_flight += 1;
        return Ok(());
    }
    if read.crossings.has_entered(&key, &crossing.loc) {
        read.entered_again += 1;
    }
    read.crossings.push(alloc, key, crossing)
}
