//! How the versions of what a call reads are taken.

ghost use Rattle.std.specs.Prelude.{◌≡◌, ◌||◌, ◌&&◌, Bool, OnOk, IfOk, is_some, if◌then◌else◌, true, false, Some, None};
ghost use Rattle.std.specs.Option.{option_copied, option_map, option_and_then};
ghost use Rattle.casa_flight.specs.declared.row.Row.{Row as FlightRow};
ghost use Rattle.casa_filing.specs.Text.{Text, at_name, same_text};
ghost use Rattle.casa_footprint.specs.Footprint.{is_forced};
ghost use Rattle.casa_item.specs.Crossed.{meets};
ghost use Rattle.casa_view.specs.Board.{versions};
ghost use Rattle.casa_item.specs.Versions.{IsInOrder, regulations_of, row_of, list_of, list_at};
ghost use Rattle.casa_view.specs.View.{IsTaken};
ghost use Rattle.casa_view.specs.Taking.{Sees, SeesAlso, meets_if, meets_either, is_of, name_test, IsRead};
ghost use Rattle.casa_view.specs.Taking.{plan_at, governing_at, has_forced, forced_at, governs_forced_at};
ghost use Rattle.casa_view.specs.Taking.{extends_in, read_by_rates};

use crate::catalogue_seen::{CatalogueSeen, crossed};
use crate::contents::list_in;
use crate::items::Items;
use crate::rows::row_of;
use crate::view::{Part, View};
use casa_flight::{Call, Key, OfFlight, OfRegulation, Plan, RegId, Row, Stance};
use casa_grid::Profile;
use casa_list::SlotList;
use casa_named::Few;
use casa_table::{Crossings, Item, Version};
use std::alloc::{AllocError, Global};

/// Versions of some names that a view reads, or that there is none.
type Noted<Kind, V> = Few<Kind, Option<V>>;

/// Whether a view for the call may be one of all items.
pub(crate) fn may_read_all(call: &Call) -> bool {
    matches!(
        call,
        Call::OpenReg(_, _, _) | Call::CloseReg(_) | Call::Tick(_) | Call::Rates(_, _)
    )
}

/// The version once more, if it is wanted.
fn version_if<V: Version>(version: &V, wanted: bool) -> Result<Option<V>, AllocError>
    ensures { IfOk result (λ copy. copy ≡ (if wanted then Some version.now else None)) }
{
    if wanted {
        Ok(Some(version.try_clone()?))
    } else {
        Ok(None)
    }
}

/// The version once more, if there is one.
fn version_again<V: Version>(version: Option<&V>) -> Result<Option<V>, AllocError>
    ensures { IfOk result (λ copy. copy ≡ option_copied version.entry) }
{
    match version {
        Some(version) => Ok(Some(version.try_clone()?)),
        None => Ok(None),
    }
}

/// The catalogue as a call sees it, if it is wanted.
fn catalogue_if<V: Version>(
    alloc: Global,
    version: &V,
    wanted: bool,
) -> Result<Option<CatalogueSeen<V>>, AllocError>
    ensures { IfOk result (λ seen. seen ≡ (if wanted then Some version.now else None)) }
{
    match version_if(version, wanted)? {
        Some(version) => Ok(Some(CatalogueSeen::new(alloc, version))),
        None => Ok(None),
    }
}

/// Whether a profile ends later than the regulation that a catalogue has under this identifier.
fn extends(catalogue: &Item, id: &RegId, profile: &Profile) -> bool
    ensures { result ≡ extends_in (regulations_of catalogue.now) id.now profile.now }
{
    let Item::Catalogue(catalogue) = catalogue else {
        return false;
    };
    let Some(regulation) = catalogue.get(id) else {
        return false;
    };
    let (_, end) = profile.span();
    regulation.end < end
}

/// The plan of a flight with this row, if there is one.
fn plan_of(row: Option<&Row>) -> Option<&Plan>
    ensures { option_copied result
        ≡ option_map (λ (r : FlightRow). r.plan) (option_copied row.entry) }
{
    Some(&row?.plan)
}

/// The regulation that governs a flight with this row, if there is one.
fn governing_of(row: Option<&Row>) -> Option<RegId>
    ensures { result ≡ option_and_then (λ (r : FlightRow). r.governing) (option_copied row.entry) }
{
    row?.governing
}

impl<V: Version> Items<V> {
    /// The list of a regulation.
    fn list(&self, id: &RegId) -> Option<&SlotList>
        ensures { option_copied result ≡ list_at V.item_of (versions self.now) id.now }
    {
        match self.lists.get(id) {
            Some(version) => list_in(version.item()),
            None => None,
        }
    }

    /// Notes the row of a key, which has this version.
    fn see_row(
        &self,
        noted: &mut Noted<OfFlight, V>,
        key: &Key,
        version: Option<&V>,
    ) -> Result<(), AllocError>
        requires { option_copied version ≡ at_name (versions self.now).rows key.now }
        ensures { OnOk result (SeesAlso (versions self.now).rows
            (same_text key.now) noted.old noted.new) }
    {
        noted.put(*key, version_again(version)?)
    }

    /// Notes the list of a regulation.
    fn see_list(&self, noted: &mut Noted<OfRegulation, V>, id: &RegId) -> Result<(), AllocError>
        ensures { OnOk result (SeesAlso (versions self.now).lists
            (same_text id.now) noted.old noted.new) }
    {
        noted.put(*id, version_again(self.lists.get(id))?)
    }

    /// Notes the list of a regulation, if there is one.
    fn see_list_if(
        &self,
        noted: &mut Noted<OfRegulation, V>,
        id: Option<RegId>,
    ) -> Result<(), AllocError>
        ensures { OnOk result (SeesAlso (versions self.now).lists (is_of id) noted.old noted.new) }
    {
        match id {
            Some(id) => self.see_list(noted, &id),
            None => Ok(()),
        }
    }

    /// Notes the lists of these regulations.
    fn see_lists(
        &self,
        noted: &mut Noted<OfRegulation, V>,
        ids: &Crossings,
    ) -> Result<(), AllocError>
        ensures { OnOk result (SeesAlso (versions self.now).lists
            (λ q. is_some (at_name ids.now q))
            noted.old noted.new) }
    {
        for (id, _) in ids.as_slice() {
            self.see_list(noted, id)?;
        }
        Ok(())
    }

    /// Notes the lists of a plan, if there is one, and keeps which they are with the catalogue.
    fn see_lists_of(
        &self,
        alloc: Global,
        noted: &mut Noted<OfRegulation, V>,
        catalogue: &mut CatalogueSeen<V>,
        plan: Option<&Plan>,
    ) -> Result<(), AllocError>
        requires { catalogue.old ≡ self.now.catalogue }
        ensures kept { catalogue.new ≡ catalogue.old }
        ensures seen { OnOk result (SeesAlso (versions self.now).lists
            (meets_if (regulations_of (V.item_of self.now.catalogue)) (option_copied plan.entry))
            noted.old noted.new) }
    {
        if let Some(plan) = plan {
            let ids = crossed(alloc, self.catalogue.item(), plan)?;
            self.see_lists(noted, &ids)?;
            catalogue.keep(plan, ids)?;
        }
        Ok(())
    }

    /// The lists of two plans, which are kept with the catalogue.
    fn lists_of(
        &self,
        alloc: Global,
        catalogue: &mut CatalogueSeen<V>,
        old: Option<&Plan>,
        new: Option<&Plan>,
    ) -> Result<Noted<OfRegulation, V>, AllocError>
        requires { catalogue.old ≡ self.now.catalogue }
        ensures kept { catalogue.new ≡ catalogue.old }
        ensures seen { IfOk result (λ noted. Sees (versions self.now).lists
            (meets_either (regulations_of (V.item_of self.now.catalogue)) (option_copied old.entry)
            (option_copied new.entry))
            noted) }
    {
        let mut noted = Few::new(alloc);
        self.see_lists_of(alloc, &mut noted, catalogue, new)?;
        self.see_lists_of(alloc, &mut noted, catalogue, old)?;
        Ok(noted)
    }

    /// The row of a key alone, which has this version.
    fn one_row(
        &self,
        alloc: Global,
        key: &Key,
        version: Option<&V>,
    ) -> Result<Noted<OfFlight, V>, AllocError>
        requires { option_copied version ≡ at_name (versions self.now).rows key.now }
        ensures { IfOk result (λ noted. Sees (versions self.now).rows (same_text key.now) noted) }
    {
        let mut noted = Few::new(alloc);
        self.see_row(&mut noted, key, version)?;
        Ok(noted)
    }

    /// The list of a regulation alone, if there is one.
    fn one_list(
        &self,
        alloc: Global,
        id: Option<RegId>,
    ) -> Result<Noted<OfRegulation, V>, AllocError>
        ensures { IfOk result (λ noted. Sees (versions self.now).lists (is_of id) noted) }
    {
        let mut noted = Few::new(alloc);
        self.see_list_if(&mut noted, id)?;
        Ok(noted)
    }

    /// The view with these rows and lists, and the clock and the catalogue where they are wanted.
    fn view_with(
        &self,
        alloc: Global,
        clock: bool,
        catalogue: bool,
        rows: Noted<OfFlight, V>,
        lists: Noted<OfRegulation, V>,
    ) -> Result<View<V>, AllocError>
        ensures { IfOk result (λ v. (t u : Text → Bool) →
            Sees (versions self.now).rows t rows → Sees (versions self.now).lists u lists →
            IsTaken (versions self.now) (name_test clock catalogue t u) v) }
    {
        Ok(View {
            clock: version_if(&self.clock, clock)?,
            catalogue: catalogue_if(alloc, &self.catalogue, catalogue)?,
            rows: Part::Named(rows),
            lists: Part::Named(lists),
        })
    }

    /// The view with the catalogue, these rows and lists, and the clock where it is wanted.
    fn view_of_plans(
        &self,
        clock: bool,
        catalogue: CatalogueSeen<V>,
        rows: Noted<OfFlight, V>,
        lists: Noted<OfRegulation, V>,
    ) -> Result<View<V>, AllocError>
        requires { catalogue ≡ self.now.catalogue }
        ensures { IfOk result (λ v. (t u : Text → Bool) →
            Sees (versions self.now).rows t rows → Sees (versions self.now).lists u lists →
            IsTaken (versions self.now) (name_test clock true t u) v) }
    {
        Ok(View {
            clock: version_if(&self.clock, clock)?,
            catalogue: Some(catalogue),
            rows: Part::Named(rows),
            lists: Part::Named(lists),
        })
    }

    /// What is read as a flight is filed.
    fn file_view(&self, alloc: Global, plan: &Plan) -> Result<View<V>, AllocError>
        ensures { IfOk result (IsTaken (versions self.now)
            (name_test true true (same_text plan.now.key)
            (meets_either (regulations_of (V.item_of self.now.catalogue)) None (Some plan.now)))) }
    {
        let key = plan.key();
        let mut catalogue = CatalogueSeen::new(alloc, self.catalogue.try_clone()?);
        let lists = self.lists_of(alloc, &mut catalogue, None, Some(plan))?;
        let row = self.one_row(alloc, &key, self.rows.get(&key))?;
        self.view_of_plans(true, catalogue, row, lists)
    }

    /// What a call reads on a flight that was filed, and gets a new plan if there is one.
    fn flight_view(
        &self,
        alloc: Global,
        clock: bool,
        key: &Key,
        new: Option<&Plan>,
    ) -> Result<View<V>, AllocError>
        ensures { IfOk result (IsTaken (versions self.now) (name_test clock true (same_text key.now)
            (meets_either (regulations_of (V.item_of self.now.catalogue))
            (plan_at V.item_of (versions self.now) key.now) (option_copied new.entry)))) }
    {
        let version = self.rows.get(key);
        let mut catalogue = CatalogueSeen::new(alloc, self.catalogue.try_clone()?);
        let lists = self.lists_of(alloc, &mut catalogue, plan_of(row_of(version)), new)?;
        let row = self.one_row(alloc, key, version)?;
        self.view_of_plans(clock, catalogue, row, lists)
    }

    /// The catalogue and the list of a regulation.
    fn regulation_view(&self, alloc: Global, id: &RegId) -> Result<View<V>, AllocError>
        ensures { IfOk result (IsTaken (versions self.now)
            (name_test false true (λ q. false) (same_text id.now))) }
    {
        let lists = self.one_list(alloc, Some(*id))?;
        let none = Few::new(alloc);
        self.view_with(alloc, false, true, none, lists)
    }

    /// What it reads to show a flight.
    fn show_view(&self, alloc: Global, key: &Key) -> Result<View<V>, AllocError>
        ensures { IfOk result (IsTaken (versions self.now)
            (name_test false false (same_text key.now)
            (is_of (governing_at V.item_of (versions self.now) key.now)))) }
    {
        let version = self.rows.get(key);
        let lists = self.one_list(alloc, governing_of(row_of(version)))?;
        let row = self.one_row(alloc, key, version)?;
        self.view_with(alloc, false, false, row, lists)
    }

    /// Notes the row of a flight, and the list that governs it.
    fn see_flight(
        &self,
        rows: &mut Noted<OfFlight, V>,
        lists: &mut Noted<OfRegulation, V>,
        key: &Key,
    ) -> Result<(), AllocError>
        ensures rows { OnOk result (SeesAlso (versions self.now).rows
            (same_text key.now) rows.old rows.new) }
        ensures lists { OnOk result (SeesAlso (versions self.now).lists
            (is_of (governing_at V.item_of (versions self.now) key.now))
            lists.old lists.new) }
    {
        let version = self.rows.get(key);
        self.see_row(rows, key, version)?;
        self.see_list_if(lists, governing_of(row_of(version)))
    }

    /// Notes the row of a flight that stands so in a list, and the list that governs it, if it is forced there.
    fn see_if_forced(
        &self,
        rows: &mut Noted<OfFlight, V>,
        lists: &mut Noted<OfRegulation, V>,
        key: &Key,
        stance: &Stance,
    ) -> Result<(), AllocError>
        ensures rows { OnOk result (SeesAlso (versions self.now).rows
            (λ q. is_forced stance.now && same_text key.now q)
            rows.old rows.new) }
        ensures lists { OnOk result (SeesAlso (versions self.now).lists
            (λ q. is_forced stance.now
            && is_of (governing_at V.item_of (versions self.now) key.now) q)
            lists.old lists.new) }
    {
        match stance {
            Stance::Forced { .. } => self.see_flight(rows, lists, key),
            _ => Ok(()),
        }
    }

    /// Notes the rows of the flights that are forced in a list, and the lists that govern them, if there is a list.
    fn see_forced(
        &self,
        rows: &mut Noted<OfFlight, V>,
        lists: &mut Noted<OfRegulation, V>,
        list: Option<&SlotList>,
    ) -> Result<(), AllocError>
        ensures rows { OnOk result (SeesAlso (versions self.now).rows
            (λ q. has_forced (λ k. same_text k q) (option_copied list.entry))
            rows.old rows.new) }
        ensures lists { OnOk result (SeesAlso (versions self.now).lists
            (λ q. has_forced (λ k. is_of (governing_at V.item_of (versions self.now) k) q)
            (option_copied list.entry))
            lists.old lists.new) }
    {
        let Some(list) = list else {
            return Ok(());
        };
        for member in list.flights() {
            self.see_if_forced(rows, lists, &member.key(), &member.stance())?;
        }
        Ok(())
    }

    /// What it reads to list the flights of a regulation.
    fn list_view(&self, alloc: Global, id: &RegId) -> Result<View<V>, AllocError>
        ensures { IfOk result (IsTaken (versions self.now) (name_test false true
            (forced_at V.item_of (versions self.now) id.now)
            (λ q. same_text id.now q
            || governs_forced_at V.item_of (versions self.now) id.now q))) }
    {
        let mut rows = Few::new(alloc);
        let mut lists = Few::new(alloc);
        self.see_forced(&mut rows, &mut lists, self.list(id))?;
        self.see_list(&mut lists, id)?;
        self.view_with(alloc, false, true, rows, lists)
    }

    /// What an exchange of slots between two flights reads.
    fn swap_view(&self, alloc: Global, key: &Key, other: &Key) -> Result<View<V>, AllocError>
        ensures { IfOk result (IsTaken (versions self.now) (name_test true false
            (λ q. same_text key.now q || same_text other.now q)
            (λ q. is_of (governing_at V.item_of (versions self.now) key.now) q
            || is_of (governing_at V.item_of (versions self.now) other.now) q))) }
    {
        let mut rows = Few::new(alloc);
        let mut lists = Few::new(alloc);
        self.see_flight(&mut rows, &mut lists, other)?;
        self.see_flight(&mut rows, &mut lists, key)?;
        self.view_with(alloc, true, false, rows, lists)
    }

    /// All items: a few counts, whatever their number.
    fn whole_view(&self, alloc: Global) -> Result<View<V>, AllocError>
        ensures { IfOk result (IsTaken (versions self.now) (λ i. true)) }
    {
        Ok(View {
            clock: Some(self.clock.try_clone()?),
            catalogue: Some(CatalogueSeen::new(alloc, self.catalogue.try_clone()?)),
            rows: Part::All(self.rows.share()?),
            lists: Part::All(self.lists.share()?),
        })
    }

    /// What new rates read: all items where they end later than the catalogue has it, for flights may then enter, and
    /// else the catalogue and the list.
    fn rates_view(
        &self,
        alloc: Global,
        id: &RegId,
        profile: &Profile,
    ) -> Result<View<V>, AllocError>
        ensures { IfOk result (IsTaken (versions self.now) (read_by_rates id.now
            (extends_in (regulations_of (V.item_of self.now.catalogue)) id.now profile.now))) }
    {
        if extends(self.catalogue.item(), id, profile) {
            self.whole_view(alloc)
        } else {
            self.regulation_view(alloc, id)
        }
    }

    /// What a call reads.
    pub(crate) fn view(&self, alloc: Global, call: &Call) -> Result<View<V>, AllocError>
        requires { IsInOrder (versions self.now) }
        ensures { IfOk result (IsRead V.item_of V.stamp_of (versions self.now) call.now) }
    {
        match call {
            Call::File(plan) => self.file_view(alloc, plan),
            Call::Amend(plan) => self.flight_view(alloc, true, &plan.key(), Some(plan)),
            Call::Cancel(key) => self.flight_view(alloc, false, key, None),
            Call::Revise(key) => self.flight_view(alloc, true, key, None),
            Call::Exempt(key) => self.flight_view(alloc, false, key, None),
            Call::OpenReg(_, _, _) => self.whole_view(alloc),
            Call::CloseReg(_) => self.whole_view(alloc),
            Call::Tick(_) => self.whole_view(alloc),
            Call::Rates(id, profile) => self.rates_view(alloc, id, profile),
            Call::Show(key) => self.show_view(alloc, key),
            Call::List(id) => self.list_view(alloc, id),
            Call::Swap(key, other) => self.swap_view(alloc, key, other),
        }
    }
}
