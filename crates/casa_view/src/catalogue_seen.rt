//! The catalogue as a call sees it.

ghost use Rattle.std.specs.Prelude.{◌≡◌, IfOk, is_some};
ghost use Rattle.casa_filing.specs.Text.{Text, at_name};
ghost use Rattle.casa_footprint.specs.Finding.{crossed};
ghost use Rattle.casa_item.specs.Crossed.{meets};
ghost use Rattle.casa_item.specs.Versions.{regulations_of};

use casa_flight::Plan;
use casa_table::{Crossings, Item, Version};
use std::alloc::{AllocError, Global};
use std::marker::Model;

/// A version of the catalogue, with the regulations that the plans of the call cross where they are worked out already.
///
/// Contracts see the version.
pub struct CatalogueSeen<V: Version> {
    version: V,
    worked_out: Vec<(Plan, Crossings)>,
}

impl<V: Version> Model for CatalogueSeen<V> {
    ghost use Rattle.casa_item.specs.Versions.{regulations_of};
    ghost use Rattle.casa_view.specs.Seen.{AreCrossed};

    ghost Value = { V };

    ghost view = { λ s. s.version };

    ghost invariant = { λ s. AreCrossed (regulations_of (V.item_of s.version)) s.worked_out.items };
}

impl<V: Version> Drop for CatalogueSeen<V> {
    fn drop(self) {
        let CatalogueSeen {
            version: _,
            worked_out: _,
        } = self;
    }
}

/// The regulations to which a plan is subject, among those of a catalogue.
pub(crate) fn crossed(alloc: Global, catalogue: &Item, plan: &Plan) -> Result<Crossings, AllocError>
    ensures crossed { IfOk result (λ found. found ≡ crossed plan.now (regulations_of catalogue.now)) }
    ensures met { IfOk result (λ found. (id : Text) →
        is_some (at_name found id) ≡ meets (regulations_of catalogue.now) plan.now id) }
{
    match catalogue {
        Item::Catalogue(catalogue) => catalogue.crossed(alloc, plan),
        _ => Ok(Crossings::new(alloc)),
    }
}

impl<V: Version> CatalogueSeen<V> {
    /// A version of the catalogue, with nothing worked out.
    pub(crate) fn new(alloc: Global, version: V) -> CatalogueSeen<V>
        ensures { result ≡ version }
    {
        CatalogueSeen {
            version,
            worked_out: Vec::new(alloc),
        }
    }

    /// The version.
    pub(crate) fn version(&self) -> &V
        ensures { result.now ≡ self.now }
    {
        &self.version
    }

    /// Keeps the regulations that a plan crosses. `AllocError` where there is no memory for them.
    pub(crate) fn keep(&mut self, plan: &Plan, found: Crossings) -> Result<(), AllocError>
        requires { found ≡ crossed plan.now (regulations_of (V.item_of self.old)) }
        ensures { self.new ≡ self.old }
    {
        self.worked_out.push((plan.try_clone()?, found))?;
        Ok(())
    }

    /// The regulations to which a flight with this plan is subject, as of `Catalogue::crossed`. `AllocError` where there
    /// is no memory for them.
    pub fn crossed(&self, alloc: Global, plan: &Plan) -> Result<Crossings, AllocError>
        ensures { IfOk result (λ found. found ≡
            crossed plan.now (regulations_of (V.item_of self.now))) }
    {
        for (known, found) in self.worked_out.as_slice() {
            if known == plan {
                return found.try_clone(alloc);
            }
        }
        crossed(alloc, self.version.item(), plan)
    }
}
