//! The regulations that a plan crosses.

ghost use Rattle.std.specs.Prelude.{◌≡◌, ◌++◌, ◌∷◌, [], List, ℕ, IfOk, OnOk, is_some};
ghost use Rattle.std.specs.List.Sorted.{IsPermutation};
ghost use Rattle.casa_filing.specs.Text.{Text, at_name};
ghost use Rattle.casa_flight.specs.Good.{AreInOrder};

use casa_flight::RegId;
use casa_time::Moment;
use std::alloc::{AllocError, Global};
use std::marker::Model;

/// Regulations with times over, in a row. One alone takes no memory, and mostly there is no other.
///
/// Contracts see the entries.
#[derive(Drop)]
pub struct Entries {
    alone: Option<[(RegId, Moment); 1]>,
    all: Vec<(RegId, Moment)>,
}

impl Model for Entries {
    ghost use Rattle.std.specs.Prelude.{List, ℕ, unwrap_or};
    ghost use Rattle.casa_filing.specs.Text.{Text};
    ghost use Rattle.casa_item.specs.Row.{IsRow};

    ghost Value = { List (Text × ℕ) };

    ghost view = { λ e. unwrap_or e.alone e.all.items };

    ghost invariant = { λ e. IsRow e.alone e.all.items };
}

impl Entries {
    /// No entries.
    pub fn new(alloc: Global) -> Entries
        ensures { result ≡ [] }
    {
        Entries {
            alone: None,
            all: Vec::new(alloc),
        }
    }

    /// The entries.
    pub fn as_slice(&self) -> &[(RegId, Moment)]
        ensures { result.now ≡ self.now }
    {
        match &self.alone {
            Some(one) => one,
            None => &self.all,
        }
    }

    /// Adds an entry behind the others. `AllocError` where there is no memory for it.
    pub fn push(&mut self, id: RegId, eto: Moment) -> Result<(), AllocError>
        ensures { OnOk result (self.new ≡ self.old ++ (id, eto) ∷ []) }
    {
        if self.alone.is_none() && self.all.is_empty() {
            self.alone = Some([(id, eto)]);
            return Ok(());
        }
        if let Some(one) = self.alone.take() {
            self.all.push(one[0])?;
        }
        self.all.push((id, eto))?;
        Ok(())
    }

    /// The same entries. `AllocError` where there is no memory for them.
    pub fn try_clone(&self, alloc: Global) -> Result<Entries, AllocError>
        ensures { IfOk result (λ copy. copy ≡ self.now) }
    {
        Ok(Entries {
            alone: self.alone,
            all: Vec::from_slice(alloc, &self.all)?,
        })
    }

    /// Puts the entries in the order of the identifiers: those of a map, in whatever order, are the map then.
    pub fn sort(&mut self)
        ensures { (es : List (Text × ℕ)) → AreInOrder es → IsPermutation self.old es →
            self.new ≡ es }
    {
        self.all.sort_unstable_by(|one, other| one.0.cmp(&other.0));
    }
}

/// The regulations to which a flight is subject, in the order of their identifiers, with its times over.
///
/// Contracts see each identifier with its time over, each identifier once.
#[derive(Drop)]
pub struct Crossings {
    entries: Entries,
}

impl Model for Crossings {
    ghost use Rattle.std.specs.Prelude.{List, ℕ};
    ghost use Rattle.casa_filing.specs.Text.{Text};
    ghost use Rattle.casa_flight.specs.Good.{AreInOrder};

    ghost Value = { List (Text × ℕ) };

    ghost view = { λ c. c.entries };

    ghost invariant = { λ c. AreInOrder c.entries };
}

impl Crossings {
    /// None.
    pub fn new(alloc: Global) -> Crossings
        ensures { result ≡ [] }
    {
        Crossings {
            entries: Entries::new(alloc),
        }
    }

    /// These, which are in the order of their identifiers.
    pub(crate) fn of(entries: Entries) -> Crossings
        requires { AreInOrder entries }
        ensures { result ≡ entries }
    {
        Crossings { entries }
    }

    /// The regulations with the times over, in the order of their identifiers.
    pub fn as_slice(&self) -> &[(RegId, Moment)]
        ensures crossings { result.now ≡ self.now }
        ensures ordered { AreInOrder self.now }
    {
        self.entries.as_slice()
    }

    /// The same crossings. `AllocError` where there is no memory for them.
    pub fn try_clone(&self, alloc: Global) -> Result<Crossings, AllocError>
        ensures { IfOk result (λ copy. copy ≡ self.now) }
    {
        Ok(Crossings {
            entries: self.entries.try_clone(alloc)?,
        })
    }

    /// Whether the regulation with this identifier is one of them.
    pub fn contains(&self, id: &RegId) -> bool
        ensures { result ≡ is_some (at_name self.now id.now) }
    {
        self.as_slice()
            .binary_search_by(|crossing| crossing.0.cmp(id))
            .is_ok()
    }
}
