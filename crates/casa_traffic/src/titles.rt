//! The columns of tables, by their titles.

ghost use Rattle.std.specs.Prelude.{◌≡◌, ◌+◌, ◌≤◌, ◌++◌, OnOk, option_to_list, position};
ghost use Rattle.casa_traffic.specs.Faults.{title_fault_name};
ghost use Rattle.casa_traffic.specs.Gives.{GivesAs};
ghost use Rattle.casa_traffic.specs.Steps.{and_pairs, is_number};
ghost use Rattle.casa_traffic.specs.Titles.{archive, column, crossing_columns, flight_columns, is_title, is_titled, number, optional_column, pair, pairs, places_of, regulation_columns, simple, times, word};

use casa_import::{CrossingColumns, EntryColumns, FlightColumns, RegulationColumns};
use itoa::Buffer;
use std::alloc::{AllocError, Global};
use std::fmt;
use std::fmt::{Display, Formatter};

/// How many pairs of a location and a time a row of flights may have.
const PAIRS: u32 = 32;

/// The title of a column.
#[derive(Clone, Copy, PartialEq, Eq, Debug)]
pub enum Title {
    Reg,
    Loc,
    From,
    To,
    Rate,
    EctrlId,
    AuaId,
    EntryTime,
    Adep,
    Ades,
    FiledOffBlockTime,
    FiledArrivalTime,
    Key,
    Eobt,
    Taxi,
    Sts,
    /// The location of a pair, as `loc1`.
    LocOf(u32),
    /// The time of a pair, as `eto1`.
    EtoOf(u32),
}

/// Why a table lacks a column that is needed.
#[derive(Clone, Copy, PartialEq, Eq, Debug)]
pub enum TitleFault {
    /// No column has this title.
    NoColumn(Title),
    /// More than one has.
    TwoColumns(Title),
}

/// Why a table lacks columns, or is not looked at to its end.
#[derive(Clone, Copy, PartialEq, Eq, Debug)]
pub(crate) enum ColumnsFault {
    Title(TitleFault),
    NoMemory,
}

impl From<TitleFault> for ColumnsFault {
    ghost use Rattle.casa_traffic.specs.declared.titles.ColumnsFault.TheVariants.{Title as of_title};

    ghost from_gives = { λ cause fault. fault ≡ of_title cause };

    fn from(cause: TitleFault) -> ColumnsFault {
        ColumnsFault::Title(cause)
    }
}

impl From<AllocError> for ColumnsFault {
    ghost use Rattle.casa_traffic.specs.declared.titles.ColumnsFault.TheVariants.{NoMemory};

    ghost from_gives = { λ _ fault. fault ≡ NoMemory };

    fn from(_refused: AllocError) -> ColumnsFault {
        ColumnsFault::NoMemory
    }
}

/// The title as it stands in a file.
impl Display for Title {
    fn fmt<W: fmt::Write>(&self, f: &mut Formatter<W>) -> fmt::Result {
        match self {
            Title::LocOf(number) => write!(f, "loc{number}"),
            Title::EtoOf(number) => write!(f, "eto{number}"),
            title => f.write_str(title.word()),
        }
    }
}

/// The fault and the title, as in `NoColumn eobt`.
impl Display for TitleFault {
    fn fmt<W: fmt::Write>(&self, f: &mut Formatter<W>) -> fmt::Result {
        let (TitleFault::NoColumn(title) | TitleFault::TwoColumns(title)) = self;
        write!(f, "{} {title}", self.name())
    }
}

impl TitleFault {
    /// The name of the fault, as in `"NoColumn"`.
    pub fn name(self) -> &'static str
        ensures { result.now ≡ title_fault_name self }
    {
        match self {
            TitleFault::NoColumn(_) => "NoColumn",
            TitleFault::TwoColumns(_) => "TwoColumns",
        }
    }
}

impl Title {
    /// The title, without the number that one of a pair has.
    fn word(self) -> &'static str
        ensures { result.now ≡ word self }
    {
        match self {
            Title::Reg => "reg",
            Title::Loc => "loc",
            Title::From => "from",
            Title::To => "to",
            Title::Rate => "rate",
            Title::EctrlId => "ECTRL ID",
            Title::AuaId => "AUA ID",
            Title::EntryTime => "Entry Time",
            Title::Adep => "ADEP",
            Title::Ades => "ADES",
            Title::FiledOffBlockTime => "FILED OFF BLOCK TIME",
            Title::FiledArrivalTime => "FILED ARRIVAL TIME",
            Title::Key => "key",
            Title::Eobt => "eobt",
            Title::Taxi => "taxi",
            Title::Sts => "sts",
            Title::LocOf(_) => "loc",
            Title::EtoOf(_) => "eto",
        }
    }

    /// The number of the pair of which it is.
    fn number(self) -> Option<u32>
        ensures { result ≡ number self }
    {
        match self {
            Title::LocOf(number) | Title::EtoOf(number) => Some(number),
            _ => None,
        }
    }

    /// Whether a text is this title.
    fn is(self, text: &[u8]) -> bool
        ensures { result ≡ is_title self text.now }
    {
        let Some(rest) = text.strip_prefix(self.word().as_bytes()) else {
            return false;
        };
        is_number(self.number(), rest)
    }
}

/// Whether a text is this number; without a number, whether it is empty.
fn is_number(number: Option<u32>, text: &[u8]) -> bool
    ensures { result ≡ is_number number text.now }
{
    let Some(number) = number else {
        return text.is_empty();
    };
    let mut buffer = Buffer::new();
    text == buffer.format(number).as_bytes()
}

/// How many columns have a title.
fn times(header: &[Vec<u8>], title: Title) -> usize
    ensures { result ≡ times header.now title }
{
    header.iter().filter(|text| title.is(text)).count()
}

/// The place of the first column that has a title.
fn place(header: &[Vec<u8>], title: Title) -> Option<usize>
    ensures { result ≡ position (is_titled title) header.now }
{
    header.iter().position(|text| title.is(text))
}

/// The column of a title.
fn column(header: &[Vec<u8>], title: Title) -> Result<usize, TitleFault>
    ensures { result ≡ column header.now title }
{
    let Some(at) = place(header, title) else {
        return Err(TitleFault::NoColumn(title));
    };
    if times(header, title) == 1 {
        Ok(at)
    } else {
        Err(TitleFault::TwoColumns(title))
    }
}

/// The column of a title, if there is one.
fn optional_column(header: &[Vec<u8>], title: Title) -> Result<Option<usize>, TitleFault>
    ensures { result ≡ optional_column header.now title }
{
    if times(header, title) == 0 {
        return Ok(None);
    }
    let at = column(header, title)?;
    Ok(Some(at))
}

/// The columns of a file of regulations.
pub(crate) fn regulation_columns(header: &[Vec<u8>]) -> Result<RegulationColumns, TitleFault>
    ensures { result ≡ regulation_columns header.now }
{
    let reg = column(header, Title::Reg)?;
    let loc = column(header, Title::Loc)?;
    let from = column(header, Title::From)?;
    let to = column(header, Title::To)?;
    let rate = column(header, Title::Rate)?;
    Ok(RegulationColumns {
        width: header.len(),
        reg,
        loc,
        from,
        to,
        rate,
    })
}

/// The columns of a file of crossings.
pub(crate) fn crossing_columns(header: &[Vec<u8>]) -> Result<CrossingColumns, TitleFault>
    ensures { result ≡ crossing_columns header.now }
{
    let key = column(header, Title::EctrlId)?;
    let loc = column(header, Title::AuaId)?;
    let eto = column(header, Title::EntryTime)?;
    Ok(CrossingColumns {
        width: header.len(),
        key,
        loc,
        eto,
    })
}

/// The columns of a file of flights, of the archive form where it has the first column of that, and else of the simple one.
#[tactic(auto, unfolding(crate::specs::Titles::flight_columns))]
pub(crate) fn flight_columns(
    alloc: Global,
    header: &[Vec<u8>],
) -> Result<FlightColumns, ColumnsFault>
    ensures { GivesAs places_of result (flight_columns header.now) }
{
    if times(header, Title::EctrlId) == 0 {
        simple(alloc, header)
    } else {
        archive(alloc, header)
    }
}

fn archive(alloc: Global, header: &[Vec<u8>]) -> Result<FlightColumns, ColumnsFault>
    ensures { GivesAs places_of result (archive header.now) }
{
    let key = column(header, Title::EctrlId)?;
    let departure = column(header, Title::Adep)?;
    let loc = column(header, Title::Ades)?;
    let eobt = column(header, Title::FiledOffBlockTime)?;
    let eto = column(header, Title::FiledArrivalTime)?;
    let mut entries = Vec::new(alloc);
    let entry = EntryColumns {
        loc,
        eto,
        may_be_empty: false,
    };
    push(&mut entries, Some(entry))?;
    Ok(FlightColumns {
        width: header.len(),
        key,
        eobt,
        taxi: None,
        sts: None,
        entries,
        departure: Some(departure),
    })
}

fn simple(alloc: Global, header: &[Vec<u8>]) -> Result<FlightColumns, ColumnsFault>
    ensures { GivesAs places_of result (simple header.now) }
{
    let key = column(header, Title::Key)?;
    let eobt = column(header, Title::Eobt)?;
    let taxi = optional_column(header, Title::Taxi)?;
    let sts = optional_column(header, Title::Sts)?;
    let entries = pairs(alloc, header)?;
    Ok(FlightColumns {
        width: header.len(),
        key,
        eobt,
        taxi,
        sts,
        entries,
        departure: None,
    })
}

/// The columns of a pair, if it is there.
fn pair(header: &[Vec<u8>], number: u32) -> Result<Option<EntryColumns>, TitleFault>
    ensures { result ≡ pair header.now number }
{
    if times(header, Title::LocOf(number)) == 0 && times(header, Title::EtoOf(number)) == 0 {
        return Ok(None);
    }
    let loc = column(header, Title::LocOf(number))?;
    let eto = column(header, Title::EtoOf(number))?;
    Ok(Some(EntryColumns {
        loc,
        eto,
        may_be_empty: true,
    }))
}

/// The columns of all pairs.
fn pairs(alloc: Global, header: &[Vec<u8>]) -> Result<Vec<EntryColumns>, ColumnsFault>
    ensures { GivesAs (λ all. all.items) result (pairs header.now 1 32) }
{
    with_pairs(Vec::new(alloc), header, 1, PAIRS)
}

/// These entries, and behind them so many pairs, of which `first` is the number of the first.
#[tactic(auto, unfolding(crate::specs::Titles::pairs))]
fn with_pairs(
    entries: Vec<EntryColumns>,
    header: &[Vec<u8>],
    first: u32,
    count: u32,
) -> Result<Vec<EntryColumns>, ColumnsFault>
    requires { first + count ≤ 33 }
    ensures { GivesAs (λ all. all.items) result
        (and_pairs entries.items header.now first count) }
{
    if count == 0 {
        return Ok(entries);
    }
    let mut entries = entries;
    push(&mut entries, pair(header, first)?)?;
    with_pairs(entries, header, first + 1, count - 1)
}

/// Adds the columns of an entry, if there are any.
fn push(entries: &mut Vec<EntryColumns>, entry: Option<EntryColumns>) -> Result<(), AllocError>
    ensures { OnOk result (entries.new.items ≡ entries.old.items ++ option_to_list entry) }
{
    match entry {
        Some(entry) => entries.push(entry)?,
        None => {}
    }
    Ok(())
}
