ghost use Rattle.std.specs.Prelude.{◌≡◌, ◌≢◌, ◌↔◌, ◌⊎◌, ◌<◌, ℕ, true, [], length, map, All, Contains, IsTrue, IfSome, IfOk, IfErr};
ghost use Rattle.casa_history.specs.declared.entry.Entry.{Entry};
ghost use Rattle.casa_history.specs.declared.pass.Pass.{Pass};
ghost use Rattle.casa_history.specs.Entries.{entries, receipts, receipts_of, desk_of};
ghost use Rattle.casa_history.specs.Settlement.{passes_of, IsSettled, Precedes};

use crate::entry::{Entry, Receipt};
use crate::history::History;
use crate::pass::{Holds, Pass};
use thiserror::Error;

/// History and passes tell the same story.
#[derive(Clone, Copy, PartialEq, Eq, Debug)]
pub struct Settled {
    /// How many passes there are, one for each desk.
    pub desks: usize,
    /// How many entries the history has.
    pub entries: usize,
}

/// The least desk whose entries in the history are not the receipts of its one pass.
#[derive(Clone, Copy, PartialEq, Eq, Debug, Error)]
#[error("the entries of desk {0} are not the receipts of its one pass")]
pub struct Torn(pub u32);

/// Whether for each desk its entries in the history, with their positions, are the receipts of its one pass.
///
/// A desk without a pass is settled if it has no entry. It is torn where it has entries and no pass, where it has
/// two passes, and where entries and receipts differ; `Torn` names the least such desk.
pub fn settle<C: PartialEq, R: PartialEq, P: Holds<C, R>>(
    history: &History<C, R>,
    passes: &[P],
) -> Result<Settled, Torn>
    requires calls { (x y : C) → C.eq x y ≡ true ↔ x ≡ y }
    requires replies { (x y : R) → R.eq x y ≡ true ↔ x ≡ y }
    ensures settled { IfOk result (λ s. (d : ℕ)
        → IsSettled d (entries history.now) (map P.held passes.now)) }
    ensures counts { IfOk result (λ s. (s.desks ≡ length passes.now)
        × (s.entries ≡ length (entries history.now))) }
    ensures torn { IfErr result (λ t. ¬
        (IsSettled t.0 (entries history.now) (map P.held passes.now))) }
    ensures least { IfErr result (λ t. (d : ℕ) → d < t.0 →
        IsSettled d (entries history.now) (map P.held passes.now)) }
{
    let desks = passes.len();
    let entries = history.len();
    let pass = torn_pass(history, passes);
    let entry = torn_entry(history, passes);
    match earlier(pass, entry) {
        Some(desk) => Err(Torn(desk)),
        None => Ok(Settled { desks, entries }),
    }
}

/// The least desk that has a pass and is not settled.
fn torn_pass<C: PartialEq, R: PartialEq, P: Holds<C, R>>(
    history: &History<C, R>,
    passes: &[P],
) -> Option<u32>
    requires calls { (x y : C) → C.eq x y ≡ true ↔ x ≡ y }
    requires replies { (x y : R) → R.eq x y ≡ true ↔ x ≡ y }
    ensures torn { IfSome result (λ d. ¬
        (IsSettled d (entries history.now) (map P.held passes.now))) }
    ensures others { All (λ (p : Pass C R). Precedes (desk_of p) result →
        IsSettled (desk_of p) (entries history.now) (map P.held passes.now))
        (map P.held passes.now) }
{
    let mut torn = None;
    for holder in passes {
        let pass = holder.pass();
        if precedes(pass.desk(), torn) && !is_settled(history, passes, pass) {
            torn = Some(pass.desk());
        }
    }
    torn
}

/// The least desk that has an entry and no pass.
#[tactic(auto, using(crate::proofs::Settling::torn_without_pass))]
fn torn_entry<C, R, P: Holds<C, R>>(history: &History<C, R>, passes: &[P]) -> Option<u32>
    ensures torn { IfSome result (λ d. ¬
        (IsSettled d (entries history.now) (map P.held passes.now))) }
    ensures others { All (λ (e : Entry C R). Precedes e.desk result →
        passes_of e.desk (map P.held passes.now) ≢ []) (entries history.now) }
{
    let mut torn = None;
    for entry in history.entries() {
        let desk = entry.desk;
        if precedes(desk, torn) && !has_pass(passes, desk) {
            torn = Some(desk);
        }
    }
    torn
}

/// Whether a desk comes before the torn one, or there is no torn one.
fn precedes(desk: u32, torn: Option<u32>) -> bool
    ensures { IsTrue result ↔ Precedes desk torn }
{
    match torn {
        Some(torn) => desk < torn,
        None => true,
    }
}

/// The lesser of two torn desks.
fn earlier(one: Option<u32>, other: Option<u32>) -> Option<u32>
    ensures before { (d : ℕ) → Precedes d result → Precedes d one × Precedes d other }
    ensures either { (result ≡ one) ⊎ (result ≡ other) }
{
    match (one, other) {
        (Some(a), Some(b)) if b < a => other,
        (Some(_), _) => one,
        (None, _) => other,
    }
}

/// Whether the desk of this pass, one of these, is settled.
fn is_settled<C: PartialEq, R: PartialEq, P: Holds<C, R>>(
    history: &History<C, R>,
    passes: &[P],
    pass: &Pass<C, R>,
) -> bool
    requires calls { (x y : C) → C.eq x y ≡ true ↔ x ≡ y }
    requires replies { (x y : R) → R.eq x y ≡ true ↔ x ≡ y }
    requires among { Contains (map P.held passes.now) pass.now }
    ensures { IsTrue result ↔ IsSettled (desk_of pass.now) (entries history.now)
        (map P.held passes.now) }
{
    count_passes(passes, pass.desk()) == 1 && are_receipts(history, pass)
}

/// Whether a desk has a pass.
#[tactic(auto, using(crate::proofs::Settling::passes_of_some))]
fn has_pass<C, R, P: Holds<C, R>>(passes: &[P], desk: u32) -> bool
    ensures { IsTrue result ↔ (passes_of desk (map P.held passes.now) ≢ []) }
{
    for holder in passes {
        if holder.pass().desk() == desk {
            return true;
        }
    }
    false
}

/// How many passes a desk has.
fn count_passes<C, R, P: Holds<C, R>>(passes: &[P], desk: u32) -> usize
    ensures { result ≡ length (passes_of desk (map P.held passes.now)) }
{
    let mut count = 0;
    for holder in passes {
        if holder.pass().desk() == desk {
            count += 1;
        }
    }
    count
}

/// Whether the entries of the pass's desk, with their positions, are the receipts of the pass.
fn are_receipts<C: PartialEq, R: PartialEq>(history: &History<C, R>, pass: &Pass<C, R>) -> bool
    requires calls { (x y : C) → C.eq x y ≡ true ↔ x ≡ y }
    requires replies { (x y : R) → R.eq x y ≡ true ↔ x ≡ y }
    ensures { IsTrue result ↔ (receipts pass.now
        ≡ receipts_of (desk_of pass.now) (entries history.now)) }
{
    let desk = pass.desk();
    let mut rest = pass.receipts();
    for (k, entry) in history.entries().iter().enumerate() {
        if entry.desk == desk {
            let Some((receipt, others)) = rest.split_first() else {
                return false;
            };
            if receipt.position != k + 1 || !is_same(&receipt.entry, entry) {
                return false;
            }
            rest = others;
        }
    }
    rest.is_empty()
}

/// Whether two entries are equal.
fn is_same<C: PartialEq, R: PartialEq>(one: &Entry<C, R>, other: &Entry<C, R>) -> bool
    requires calls { (x y : C) → C.eq x y ≡ true ↔ x ≡ y }
    requires replies { (x y : R) → R.eq x y ≡ true ↔ x ≡ y }
    ensures { IsTrue result ↔ (one.now ≡ other.now) }
{
    one.desk == other.desk && one.call == other.call && one.reply == other.reply
}
