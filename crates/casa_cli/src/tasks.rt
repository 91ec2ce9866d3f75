use casa_flight::{Key, Loc, RegId};
use jiff::civil::Date;
use thiserror::Error;

/// What the words of the command line ask for.
#[derive(Drop)]
pub enum Task<'a> {
    /// `casa run`: a session on standard input and output.
    Run {
        /// The journal to keep, if one is given.
        journal: Option<Journal<'a>>,
    },
    /// `casa import`: command lines that are made of tables.
    Import(Import<'a>),
    /// `casa report`: the list of a regulation, or all lists, under a heading with the day.
    Report {
        /// The regulation; none: all that are open.
        reg: Option<RegId>,
        /// The day, for the heading.
        day: Date,
        /// The order of the rows.
        sort: Sort,
        /// How many of the rows are printed at most, 1 to 1,000,000; none: all of them.
        top: Option<u32>,
        /// The form in which it is printed.
        format: Format,
        /// Whether `--strict` was given.
        strict: bool,
    },
    /// `casa load`: the demand on a regulation and its capacity, under a heading with the day.
    Load {
        /// The regulation.
        reg: RegId,
        /// The day, for the heading.
        day: Date,
        /// The length of a step in minutes, 1 to 1,440.
        step: u32,
        /// The form in which it is printed.
        format: Format,
        /// Whether `--strict` was given.
        strict: bool,
    },
    /// `casa summary`: what each open regulation costs, under a heading with the day.
    Summary {
        /// The day, for the heading.
        day: Date,
        /// The form in which it is printed.
        format: Format,
        /// Whether `--strict` was given.
        strict: bool,
    },
    /// `casa messages`: each slot message, with the number of the call that caused it.
    Messages {
        /// The day.
        day: Date,
        /// The form in which they are printed: CSV or JSON.
        format: Format,
        /// Whether `--strict` was given.
        strict: bool,
    },
    /// `casa compare`: what differs between two days, under a heading with the day.
    Compare {
        /// The path of the file with the command lines of the first day, as it was given.
        base: &'a str,
        /// The path of the file with those of the second.
        variant: &'a str,
        /// The day, for the heading.
        day: Date,
        /// The form in which it is printed.
        format: Format,
        /// Whether `--strict` was given.
        strict: bool,
    },
    /// `casa page`: a page of the day.
    Page {
        /// The day.
        day: Date,
        /// Whether `--strict` was given.
        strict: bool,
    },
    /// `casa why`: why a flight waits, under a heading with the day.
    Why {
        /// The flight.
        key: Key,
        /// The day, for the heading.
        day: Date,
        /// The form in which it is printed.
        format: Format,
        /// Whether `--strict` was given.
        strict: bool,
    },
    /// `casa serve` without `--stay`: the desks of a day, each over a connection of its own.
    Serve {
        /// The port to listen on, 1 to 65,535.
        port: u16,
        /// How many connections to accept before the end.
        connections: u32,
        /// How often to move the clock, once a second.
        turns: u32,
        /// The day from whose midnight UTC the clock counts; it is there where the clock is to be moved.
        day: Option<Date>,
        /// The journal to keep, if one is given.
        journal: Option<Journal<'a>>,
    },
    /// `casa serve --stay`: desks that come and go until the server is ended.
    Stay(Service<'a>),
    /// `casa journal check`: the calls of a journal, answered again.
    CheckJournal {
        /// The path of its file, as it was given.
        path: &'a str,
    },
}

/// The form in which something is printed.
#[derive(Clone, Copy)]
pub enum Format {
    /// A table for readers.
    Table,
    /// CSV, as RFC 4180 has it.
    Csv,
    /// JSON.
    Json,
}

/// The order in which `casa report` prints rows.
#[derive(Clone, Copy)]
pub enum Sort {
    /// As they stand in their list.
    List,
    /// The longest delay first.
    Delay,
}

/// What `casa import` is asked for. It has a file of flights or one of regulations, or both, and one of crossings at most
/// beside one of flights.
#[derive(Drop)]
pub struct Import<'a> {
    /// The path of the file of the flights, as it was given.
    pub flights: Option<&'a str>,
    /// That of the file of the airspaces that they cross.
    pub crossings: Option<&'a str>,
    /// That of the file of the regulations.
    pub regs: Option<&'a str>,
    /// The day from whose midnight UTC all seconds count.
    pub day: Date,
    /// The taxi time in seconds for flights whose row gives none, 0 to 3,600.
    pub taxi: u64,
    /// The locations that stay in a flight with too many, besides those of regulations.
    pub locations: Vec<Loc>,
    /// The order of the filings.
    pub order: Order,
    /// Whether `--strict` was given.
    pub strict: bool,
}

/// The order of the filings that `casa import` writes.
#[derive(Clone, Copy)]
pub enum Order {
    /// As in the file.
    File,
    /// By the off-block time.
    Eobt,
}

/// What a server that stays is to do. It has a port or a socket, or both; with both at most 500 seats.
#[derive(Clone, Copy)]
pub struct Service<'a> {
    /// The port to listen on, 1 to 65,535.
    pub port: Option<u16>,
    /// The socket to listen on.
    pub socket: Option<Socket<'a>>,
    /// Where it serves a page of the day, if it does.
    pub page: Option<PagePort<'a>>,
    /// How many connections it has at a time at each address, 1 to 1,000.
    pub seats: u32,
    /// After how many seconds of silence it gives a connection up, 1 to 86,400; none: never.
    pub idle: Option<u32>,
    /// Whether it is to say nothing of what it does.
    pub quiet: bool,
    /// How its clock is moved, if it is.
    pub clock: Option<Ticking>,
    /// The journal to keep, if one is given.
    pub journal: Option<Journal<'a>>,
}

/// A socket in the file system.
#[derive(Clone, Copy)]
pub struct Socket<'a> {
    /// Its path.
    pub path: &'a str,
    /// Whether the socket's group may connect too.
    pub group: bool,
}

/// Where a server that stays serves a page of the day.
#[derive(Clone, Copy)]
pub struct PagePort<'a> {
    /// The port to listen on for browsers, 1 to 65,535.
    pub port: u16,
    /// A further host under which browsers may ask for it, as it was given.
    pub host: Option<&'a str>,
}

/// The file of a day's journal.
#[derive(Clone, Copy)]
pub struct Journal<'a> {
    /// Its path, as it was given.
    pub path: &'a str,
    /// Whether more than a torn line may be set aside, too.
    pub force: bool,
}

/// How the clock of a server that stays is moved.
#[derive(Clone, Copy)]
pub struct Ticking {
    /// The day from whose midnight UTC the clock counts.
    pub day: Date,
    /// The seconds from one move to the next, 1 to 3,600.
    pub every: u32,
}

/// Why the words ask for nothing, in the order of the checks.
#[derive(Debug, Drop, Error)]
pub enum TaskFault {
    /// The words are none that the program knows, have options that do not go together, ask for help or the version, or
    /// there is no memory to read them.
    #[error("{0}")]
    Words(clap::Error),
    /// What stands after `--reg` is no identifier: 1 to 10 characters of A to Z and 0 to 9.
    #[error("the regulation is not 1 to 10 characters of A to Z and 0 to 9")]
    BadReg,
    /// What stands after `--key` is no key of a flight: 1 to 10 characters of A to Z and 0 to 9.
    #[error("the flight is not 1 to 10 characters of A to Z and 0 to 9")]
    BadKey,
    /// What stands after `--locations` is not names with commas between: each 1 to 10 characters of A to Z and 0 to 9.
    #[error("the locations are not names of 1 to 10 characters of A to Z and 0 to 9, with commas between")]
    BadLocation,
    /// What stands after `--day` is no date in the form `YYYY-MM-DD`, or the clock is to be moved and no day is given.
    #[error("the day is no date in the form YYYY-MM-DD, or is missing")]
    BadDay,
}
