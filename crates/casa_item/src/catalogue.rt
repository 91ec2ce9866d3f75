//! The open regulations, with an index by location.

ghost use Rattle.std.specs.Prelude.{◌≡◌, ◌++◌, ◌∷◌, [], IfOk, OnOk};
ghost use Rattle.std.specs.List.{AllPairs};
ghost use Rattle.std.specs.Option.{option_copied, option_map_or};
ghost use Rattle.casa_filing.specs.Text.{Text, at_name, put, without};
ghost use Rattle.casa_footprint.specs.Finding.{crossed};
ghost use Rattle.casa_footprint.specs.Finding.{by_id};
ghost use Rattle.casa_item.specs.Crossed.{before, after, others, AreListed, HasPlaces};
ghost use Rattle.casa_item.specs.Crossed.{at_place, place_with, covering, covering_along};

use crate::crossings::{Crossings, Entries};
use casa_flight::{Crossing, Loc, Plan, RegId, Regulation};
use std::alloc::{AllocError, Global};
use std::collections::BTreeMap;
use std::marker::Model;

/// The open regulations in the order of their identifiers, with an index by location.
///
/// Contracts see them as a list.
pub struct Catalogue {
    regulations: Vec<Regulation>,
    places: BTreeMap<Loc, Vec<Regulation>>,
}

impl Model for Catalogue {
    ghost use Rattle.std.specs.Prelude.{List};
    ghost use Rattle.casa_filing.specs.declared.regulation.Regulation.{Regulation};
    ghost use Rattle.casa_item.specs.Crossed.{IsCatalogue, at_place};

    ghost Value = { List Regulation };

    ghost view = { λ c. c.regulations.items };

    ghost invariant = { λ c. IsCatalogue c.regulations.items (at_place (λ v. v.items) c.places.entries) };
}

impl Drop for Catalogue {
    fn drop(self) {
        let Catalogue {
            regulations: _,
            places: _,
        } = self;
    }
}

impl Catalogue {
    /// The catalogue with no regulation.
    pub fn new(alloc: Global) -> Catalogue
        ensures { result ≡ [] }
    {
        Catalogue {
            regulations: Vec::new(alloc),
            places: BTreeMap::new(alloc),
        }
    }

    /// The catalogue of these regulations. `AllocError` where there is no memory for its index.
    fn of(alloc: Global, regulations: Vec<Regulation>) -> Result<Catalogue, AllocError>
        requires { AreListed regulations.items }
        ensures { IfOk result (λ catalogue. catalogue ≡ regulations.items) }
    {
        let places = places_of(alloc, regulations.as_slice())?;
        Ok(Catalogue {
            regulations,
            places,
        })
    }

    /// The regulations, in the order of their identifiers.
    pub fn as_slice(&self) -> &[Regulation]
        ensures regulations { result.now ≡ self.now }
        ensures listed { AreListed self.now }
    {
        self.regulations.as_slice()
    }

    /// The regulation with this identifier.
    pub fn get(&self, id: &RegId) -> Option<&Regulation>
        ensures regulation { option_copied result ≡ at_name (by_id self.now) id.now }
        ensures listed { AreListed self.now }
    {
        let found = self
            .regulations
            .binary_search_by(|regulation| regulation.id.cmp(id));
        match found {
            Ok(at) => Some(&self.regulations[at]),
            Err(_) => None,
        }
    }

    /// These regulations with this one, in place of the one with its identifier if there is one. `AllocError` where there
    /// is no memory for the catalogue of them.
    pub fn with(&self, alloc: Global, regulation: Regulation) -> Result<Catalogue, AllocError>
        ensures { IfOk result (λ catalogue. by_id catalogue
            ≡ put (by_id self.now) regulation.id regulation) }
    {
        let regulations = all_with(alloc, self.as_slice(), regulation)?;
        Catalogue::of(alloc, regulations)
    }

    /// These regulations but for the one with this identifier. `AllocError` where there is no memory for the catalogue of
    /// them.
    pub fn without(&self, alloc: Global, id: &RegId) -> Result<Catalogue, AllocError>
        ensures { IfOk result (λ catalogue. by_id catalogue ≡ without (by_id self.now) id.now) }
    {
        let regulations = all_without(alloc, self.as_slice(), id)?;
        Catalogue::of(alloc, regulations)
    }

    /// The regulations to which a flight with this plan is subject, by identifiers, with the plan's time over. It looks
    /// only at those that are at a location of the plan. `AllocError` where there is no memory for what it finds.
    pub fn crossed(&self, alloc: Global, plan: &Plan) -> Result<Crossings, AllocError>
        ensures { IfOk result (λ found. found ≡ crossed plan.now self.now) }
    {
        let mut found = covering_along(alloc, &self.places, plan)?;
        found.sort();
        Ok(Crossings::of(found))
    }
}

impl PartialEq for Catalogue {
    ghost use Rattle.std.specs.Cmp.{partial_equiv_from_equiv};
    ghost use Rattle.std.specs.Cmp.Lexicographic.{pointwise};
    ghost use Rattle.std.proofs.lemmas.Cmp.{lists_equiv};
    ghost use Rattle.casa_filing.specs.contracts.regulation.RegulationEq.TheImpl.Laws.{laws-law as regulation_laws};

    ghost eq = { pointwise ⟦<Regulation as PartialEq>⟧.eq };

    ghost laws = { partial_equiv_from_equiv (lists_equiv regulation_laws) };

    fn eq(&self, other: &Catalogue) -> bool {
        self.as_slice() == other.as_slice()
    }
}

impl Eq for Catalogue {
    ghost use Rattle.std.proofs.lemmas.Cmp.{lists_equiv};
    ghost use Rattle.casa_filing.specs.contracts.regulation.RegulationEq.TheImpl.Laws.{laws-law as regulation_laws};

    ghost laws = { lists_equiv regulation_laws };
}

/// The regulations with this one, in place of the one with its identifier if there is one.
fn all_with(
    alloc: Global,
    regulations: &[Regulation],
    regulation: Regulation,
) -> Result<Vec<Regulation>, AllocError>
    ensures { IfOk result (λ all. all.items ≡
        before regulation.id regulations.now ++ regulation ∷ after regulation.id regulations.now) }
{
    let mut all = all_before(alloc, regulations, &regulation.id)?;
    all.push(regulation)?;
    for later in regulations {
        if regulation.id < later.id {
            all.push(*later)?;
        }
    }
    Ok(all)
}

/// The regulations whose identifiers come before this one.
fn all_before(
    alloc: Global,
    regulations: &[Regulation],
    id: &RegId,
) -> Result<Vec<Regulation>, AllocError>
    ensures { IfOk result (λ all. all.items ≡ before id.now regulations.now) }
{
    regulations
        .iter()
        .copied()
        .filter(|regulation| regulation.id < *id)
        .collect(alloc)
}

/// The regulations but for the one with this identifier.
fn all_without(
    alloc: Global,
    regulations: &[Regulation],
    id: &RegId,
) -> Result<Vec<Regulation>, AllocError>
    ensures { IfOk result (λ all. all.items ≡ others id.now regulations.now) }
{
    regulations
        .iter()
        .copied()
        .filter(|regulation| regulation.id != *id)
        .collect(alloc)
}

/// The regulations by location, in their order.
fn places_of(
    alloc: Global,
    regulations: &[Regulation],
) -> Result<BTreeMap<Loc, Vec<Regulation>>, AllocError>
    ensures { IfOk result (λ places. HasPlaces regulations.now
        (at_place (λ v. v.items) places.entries)) }
{
    let mut places = BTreeMap::new(alloc);
    for regulation in regulations {
        add(alloc, &mut places, regulation)?;
    }
    Ok(places)
}

/// Adds a regulation behind those at its location.
fn add(
    alloc: Global,
    places: &mut BTreeMap<Loc, Vec<Regulation>>,
    regulation: &Regulation,
) -> Result<(), AllocError>
    ensures { OnOk result ((loc : Text) → at_place (λ v. v.items) places.new.entries loc ≡
        place_with (at_place (λ v. v.items) places.old.entries) regulation.now loc) }
{
    let there = places.remove(&regulation.loc);
    let new = with_one(alloc, there, regulation)?;
    places.insert(regulation.loc, new)?;
    Ok(())
}

/// The regulations of a location with one more behind them.
fn with_one(
    alloc: Global,
    there: Option<Vec<Regulation>>,
    regulation: &Regulation,
) -> Result<Vec<Regulation>, AllocError>
    ensures { IfOk result (λ new. new.items
        ≡ option_map_or (λ v. v.items) there [] ++ regulation.now ∷ []) }
{
    let mut there = match there {
        Some(there) => there,
        None => Vec::new(alloc),
    };
    there.push(*regulation)?;
    Ok(there)
}

/// The regulations to which a flight with this plan is subject, as its crossings come to them.
fn covering_along(
    alloc: Global,
    places: &BTreeMap<Loc, Vec<Regulation>>,
    plan: &Plan,
) -> Result<Entries, AllocError>
    ensures covering { IfOk result (λ found. found
        ≡ covering_along (at_place (λ v. v.items) places.now.entries) plan.now.via) }
    ensures apart { AllPairs (λ a b. a.loc ≡ b.loc → ⊥) plan.now.via }
{
    let mut found = Entries::new(alloc);
    for crossing in plan.via() {
        add_at(&mut found, places, crossing)?;
    }
    Ok(found)
}

/// Adds the regulations at the location of a crossing that cover it.
fn add_at(
    found: &mut Entries,
    places: &BTreeMap<Loc, Vec<Regulation>>,
    crossing: &Crossing,
) -> Result<(), AllocError>
    ensures { OnOk result (found.new ≡ found.old ++
        covering (at_place (λ v. v.items) places.now.entries crossing.now.loc) crossing.now) }
{
    match places.get(&crossing.loc) {
        Some(regulations) => add_covering(found, regulations.as_slice(), crossing),
        None => Ok(()),
    }
}

/// Adds those of the regulations that cover a crossing, which is at their location.
fn add_covering(
    found: &mut Entries,
    regulations: &[Regulation],
    crossing: &Crossing,
) -> Result<(), AllocError>
    ensures { OnOk result (found.new ≡ found.old ++ covering regulations.now crossing.now) }
{
    for regulation in regulations {
        if let Some(eto) = crossing.covered_by(regulation) {
            found.push(regulation.id, eto)?;
        }
    }
    Ok(())
}
