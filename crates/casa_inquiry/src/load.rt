//! Demand and capacity of a regulation, step by step.

ghost use Rattle.std.specs.Prelude.{◌≡◌, ◌<◌, ◌≤◌, ◌^◌, ℕ, List, All, IfOk, count_by, length, sum_by};
ghost use Rattle.casa_time.specs.Moment.{last_moment};
ghost use Rattle.casa_grid.specs.declared.period.Period.{Period};
ghost use Rattle.casa_grid.specs.Profile.{IsProfile, start_of};
ghost use Rattle.casa_grid.specs.Slots.{slots};
ghost use Rattle.casa_flight.specs.declared.reply.ListRow.{ListRow};
ghost use Rattle.casa_inquiry.specs.declared.load.Step.{Step};
ghost use Rattle.casa_inquiry.specs.Load.{begins, is_in, span_at, step, step_count, steps};

use casa_flight::ListRow;
use casa_grid::{Grid, Profile};
use casa_time::Moment;
use std::alloc::{AllocError, Global};

/// Some time: from a moment to before another, or from a moment on.
#[derive(Clone, Copy)]
pub struct Span {
    pub from: Moment,
    /// `None` where it does not end.
    pub until: Option<Moment>,
}

/// What is planned over a regulation's location in some time, what the rates give, and what is calculated.
#[derive(Clone, Copy)]
pub struct Step {
    pub span: Span,
    /// How many flights have their estimated time over in it.
    pub planned: usize,
    /// How many slots begin in it.
    pub slots: usize,
    /// How many flights have their calculated time over in it.
    pub calculated: usize,
}

/// Demand and capacity of a regulation.
#[derive(Drop)]
pub struct Load {
    /// Steps of one length, one after the other, from the start to the end, of which the last may be shorter; and behind
    /// them what is from the end on, where the flights stand for which no slot was left.
    pub steps: Vec<Step>,
    /// How many flights there are.
    pub flights: usize,
    /// How many slots there are.
    pub slots: usize,
}

impl Load {
    /// Demand and capacity of the regulation with these slots, whose list has these rows, by steps of so many minutes; 0
    /// counts as one minute. `AllocError` where there is no memory for the steps.
    pub fn of(
        alloc: Global,
        grid: &Grid,
        rows: &[ListRow],
        minutes: u32,
    ) -> Result<Load, AllocError>
        ensures steps { IfOk result (λ load. load.steps.items ≡ steps grid.now rows.now minutes) }
        ensures flights { IfOk result (λ load. load.flights ≡ length rows.now) }
        ensures slots { IfOk result (λ load. load.slots ≡ length (slots grid.now)) }
    {
        let (begins, profile) = (begins_of(alloc, grid)?, grid.profile());
        let secs = minutes.max(1) as usize * 60;
        let count = step_count(profile, secs);
        let mut steps = Vec::with_capacity(alloc, count + 1)?;
        'steps: for k in 0..count {
            steps.push(count_step(&begins, rows, span_at(profile, secs, k)))?;
        }
        let (_start, end) = profile.span();
        let after = Span {
            from: end,
            until: None,
        };
        steps.push(count_step(&begins, rows, after))?;
        Ok(Load {
            steps,
            flights: rows.len(),
            slots: grid.len(),
        })
    }
}

impl Span {
    /// Whether a time in seconds from midnight UTC is in it.
    fn contains(&self, secs: u32) -> bool
        ensures { result ≡ is_in self.now secs }
    {
        self.from.secs() <= secs && self.until.is_none_or(|until| secs < until.secs())
    }
}

/// Where the slots begin.
fn begins_of(alloc: Global, grid: &Grid) -> Result<Vec<Moment>, AllocError>
    ensures { IfOk result (λ all. all.items ≡ begins grid.now) }
{
    let mut all = Vec::with_capacity(alloc, grid.len())?;
    'slots: for k in 0..grid.len() {
        all.push(grid.begin(k))?;
    }
    Ok(all)
}

/// How many steps of so many seconds there are.
fn step_count(profile: &Profile, secs: usize) -> usize
    requires { 0 < secs }
    ensures count { result ≡ step_count profile.now secs }
    ensures few { result ≤ last_moment }
{
    let (start, end) = profile.span();
    let span = end.secs().saturating_sub(start.secs());
    (span as usize).div_ceil(secs)
}

/// When the step with this number is.
fn span_at(profile: &Profile, secs: usize, k: usize) -> Span
    requires some { 0 < secs }
    requires short { secs < 2 ^ 40 }
    requires step { k < step_count profile.now secs }
    ensures { result ≡ span_at profile.now secs k }
{
    let (start, end) = profile.span();
    let from = start.secs() as usize + k * secs;
    let until = (from + secs).min(end.secs() as usize);
    Span {
        from: moment(from),
        until: Some(moment(until)),
    }
}

/// The moment so many seconds after midnight UTC.
fn moment(secs: usize) -> Moment
    requires { secs ≤ last_moment }
    ensures { result ≡ secs }
{
    Moment::new(secs as u32).unwrap()
}

/// The step at some time.
fn count_step(begins: &[Moment], rows: &[ListRow], span: Span) -> Step
    ensures { result ≡ step begins.now rows.now span }
{
    Step {
        span,
        planned: count_planned(rows, &span),
        slots: count_begun(begins, &span),
        calculated: count_calculated(rows, &span),
    }
}

/// How many flights have their estimated time over then.
fn count_planned(rows: &[ListRow], span: &Span) -> usize
    ensures { result ≡ count_by (λ (row : ListRow). is_in span.now row.eto) rows.now }
{
    rows.iter()
        .filter(|row| span.contains(row.eto.secs()))
        .count()
}

/// How many slots begin then.
fn count_begun(begins: &[Moment], span: &Span) -> usize
    ensures { result ≡ count_by (is_in span.now) begins.now }
{
    begins
        .iter()
        .filter(|begin| span.contains(begin.secs()))
        .count()
}

/// How many flights have their calculated time over then.
fn count_calculated(rows: &[ListRow], span: &Span) -> usize
    ensures { result ≡ count_by (λ (row : ListRow). is_in span.now row.cto) rows.now }
{
    rows.iter().filter(|row| span.contains(row.cto)).count()
}

/// The steps, with what is behind the last, have each flight of a list once as planned, and once as calculated, where no
/// time over is before the start; and they have each slot once.
pub fn steps_have_each_once()
    ensures planned { (ps : List Period) (rows : List ListRow) (minutes : ℕ)
        → All (λ row. start_of ps ≤ row.eto) rows →
        sum_by (λ (s : Step). s.planned) (steps ps rows minutes) ≡ length rows }
    ensures calculated { (ps : List Period) (rows : List ListRow) (minutes : ℕ)
        → All (λ row. start_of ps ≤ row.cto) rows →
        sum_by (λ (s : Step). s.calculated) (steps ps rows minutes) ≡ length rows }
    ensures slots { (ps : List Period) (rows : List ListRow) (minutes : ℕ) → IsProfile ps →
        sum_by (λ (s : Step). s.slots) (steps ps rows minutes) ≡ length (slots ps) }
{}
