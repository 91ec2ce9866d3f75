//! Laws of the definitions, each on a function that does nothing.

ghost use Rattle.std.specs.Prelude.{◌≡◌, ◌+◌, List, [], false, length, map};
ghost use Rattle.std.specs.List.{IsDistinct};
ghost use Rattle.casa_filing.specs.FlightPlan.{FlightPlan};
ghost use Rattle.casa_filing.specs.PlanFaults.{has_twice};
ghost use Rattle.casa_filing.specs.Text.{Text};
ghost use Rattle.casa_filing.specs.declared.plan.Crossing.{Crossing};
ghost use Rattle.casa_flight.specs.declared.call.Call.TheVariants.{File};
ghost use Rattle.casa_flight.specs.declared.state.State.{State};
ghost use Rattle.casa_import.specs.declared.columns.FlightColumns.{FlightColumns};
ghost use Rattle.casa_import.specs.declared.columns.ImportOptions.{ImportOptions};
ghost use Rattle.casa_rows.specs.declared.row.Row.{Row};
ghost use Rattle.casa_import.specs.Entered.{first_named, least_at, time_at};
ghost use Rattle.casa_import.specs.Filing.{earliest};
ghost use Rattle.casa_import.specs.Filings.{IsByOffBlockTime, have_one_key, outcome};
ghost use Rattle.casa_import.specs.Opened.{AllMayOpen};
ghost use Rattle.casa_import.specs.Taken.{AreTaken};

/// Each location that is entered stands once among the earliest entries, where it was first named, at the least of its times.
pub fn locations_stand_once()
    ensures places { (entries : List Crossing) →
        map (λ (c : Crossing). c.loc) (earliest entries)
        ≡ first_named (map (λ (c : Crossing). c.loc) entries) }
    ensures times { (entries : List Crossing) (loc : Text) →
        time_at loc (earliest entries) ≡ least_at loc entries }
    ensures apart { (entries : List Crossing) → has_twice (earliest entries) ≡ false }
{}

/// Each row makes a filing or is left out, and no two filings have one key.
pub fn rows_are_filed_or_left_out()
    ensures all { (options : ImportOptions) (columns : FlightColumns) (crossings : Text → List Crossing) (rows : List Row) →
        length (outcome options columns crossings rows).plans + length (outcome options columns crossings rows).left_out
        ≡ length rows }
    ensures keys { (options : ImportOptions) (columns : FlightColumns) (crossings : Text → List Crossing) (rows : List Row) →
        IsDistinct have_one_key (outcome options columns crossings rows).plans }
{}

/// The filings are taken one after another, none of them refused, where the clock stands at midnight and no flight is filed:
/// in the order of the file, and sorted by their off-block times.
pub fn filings_are_taken()
    ensures in_order { (m : State) → m.clock ≡ 0 → m.rows ≡ [] →
        (options : ImportOptions) (columns : FlightColumns) (crossings : Text → List Crossing) (rows : List Row) →
        AreTaken m (map (λ (plan : FlightPlan). File plan) (outcome options columns crossings rows).plans) }
    ensures sorted { (m : State) → m.clock ≡ 0 → m.rows ≡ [] →
        (options : ImportOptions) (columns : FlightColumns) (crossings : Text → List Crossing) (rows : List Row) →
        (plans : List FlightPlan) → IsByOffBlockTime (outcome options columns crossings rows).plans plans →
        AreTaken m (map (λ (plan : FlightPlan). File plan) plans) }
{}

/// The regulations that rows open may all be open at once: there are 256 at most, and no two have one identifier.
pub fn openings_may_stand()
    ensures { AllMayOpen }
{}
