//! The subcommands of `casa` and the words that each of them takes.

use crate::help;
use crate::subcommands::{Subcommand, Word};

/// `casa run`.
pub const RUN: Subcommand<'static> = Subcommand {
    name: "run",
    about: help::RUN_ABOUT,
    usage: Some(help::RUN_USAGE),
    after_help: help::RUN_AFTER_HELP,
    words: &[
        Word::Value("journal", "FILE", help::JOURNAL_HELP),
        Word::Flag("force", help::FORCE_HELP),
    ],
};

/// `casa import`.
pub const IMPORT: Subcommand<'static> = Subcommand {
    name: "import",
    about: help::IMPORT_ABOUT,
    usage: Some(help::IMPORT_USAGE),
    after_help: help::IMPORT_AFTER_HELP,
    words: &[
        Word::Value("flights", "F", help::FLIGHTS_HELP),
        Word::Value("crossings", "C", help::CROSSINGS_HELP),
        Word::Value("regs", "R", help::REGS_HELP),
        Word::Needed("day", "YYYY-MM-DD", help::MIDNIGHT_HELP),
        Word::Number("taxi", "S", help::TAXI_HELP, 0, 3600),
        Word::Value("locations", "L,L,..", help::LOCATIONS_HELP),
        Word::Value("by", "ORDER", help::BY_HELP),
        Word::Flag("strict", help::IMPORT_STRICT_HELP),
    ],
};

/// `casa report`.
pub const REPORT: Subcommand<'static> = Subcommand {
    name: "report",
    about: help::REPORT_ABOUT,
    usage: Some(help::REPORT_USAGE),
    after_help: help::REPORT_AFTER_HELP,
    words: &[
        Word::Value("reg", "R", help::REG_HELP),
        Word::Flag("all", help::ALL_HELP),
        Word::Needed("day", "YYYY-MM-DD", help::DAY_HELP),
        Word::Value("sort", "ORDER", help::SORT_HELP),
        Word::Number("top", "N", help::TOP_HELP, 1, 1_000_000),
        Word::Value("format", "FORMAT", help::FORMAT_HELP),
        Word::Flag("strict", help::STRICT_HELP),
    ],
};

/// `casa load`.
pub const LOAD: Subcommand<'static> = Subcommand {
    name: "load",
    about: help::LOAD_ABOUT,
    usage: None,
    after_help: help::LOAD_AFTER_HELP,
    words: &[
        Word::Needed("reg", "R", help::REG_HELP),
        Word::Needed("day", "YYYY-MM-DD", help::DAY_HELP),
        Word::Number("step", "MINUTES", help::STEP_HELP, 1, 1440),
        Word::Value("format", "FORMAT", help::FORMAT_HELP),
        Word::Flag("strict", help::STRICT_HELP),
    ],
};

/// `casa summary`.
pub const SUMMARY: Subcommand<'static> = Subcommand {
    name: "summary",
    about: help::SUMMARY_ABOUT,
    usage: None,
    after_help: help::SUMMARY_AFTER_HELP,
    words: &[
        Word::Needed("day", "YYYY-MM-DD", help::DAY_HELP),
        Word::Value("format", "FORMAT", help::FORMAT_HELP),
        Word::Flag("strict", help::STRICT_HELP),
    ],
};

/// `casa why`.
pub const WHY: Subcommand<'static> = Subcommand {
    name: "why",
    about: help::WHY_ABOUT,
    usage: None,
    after_help: help::WHY_AFTER_HELP,
    words: &[
        Word::Needed("key", "K", help::KEY_HELP),
        Word::Needed("day", "YYYY-MM-DD", help::DAY_HELP),
        Word::Value("format", "FORMAT", help::FORMAT_HELP),
        Word::Flag("strict", help::STRICT_HELP),
    ],
};

/// `casa messages`.
pub const MESSAGES: Subcommand<'static> = Subcommand {
    name: "messages",
    about: help::MESSAGES_ABOUT,
    usage: None,
    after_help: help::MESSAGES_AFTER_HELP,
    words: &[
        Word::Needed("day", "YYYY-MM-DD", help::MIDNIGHT_HELP),
        Word::Value("format", "FORMAT", help::MESSAGES_FORMAT_HELP),
        Word::Flag("strict", help::STRICT_HELP),
    ],
};

/// `casa compare`.
pub const COMPARE: Subcommand<'static> = Subcommand {
    name: "compare",
    about: help::COMPARE_ABOUT,
    usage: None,
    after_help: help::COMPARE_AFTER_HELP,
    words: &[
        Word::Alone("base", "BASE", help::BASE_HELP),
        Word::Alone("variant", "VARIANT", help::VARIANT_HELP),
        Word::Needed("day", "YYYY-MM-DD", help::DAY_HELP),
        Word::Value("format", "FORMAT", help::FORMAT_HELP),
        Word::Flag("strict", help::STRICT_HELP),
    ],
};

/// `casa page`.
pub const PAGE: Subcommand<'static> = Subcommand {
    name: "page",
    about: help::PAGE_ABOUT,
    usage: None,
    after_help: help::PAGE_AFTER_HELP,
    words: &[
        Word::Needed("day", "YYYY-MM-DD", help::PAGE_DAY_HELP),
        Word::Flag("strict", help::STRICT_HELP),
    ],
};

/// `casa serve`.
pub const SERVE: Subcommand<'static> = Subcommand {
    name: "serve",
    about: help::SERVE_ABOUT,
    usage: Some(help::SERVE_USAGE),
    after_help: help::SERVE_AFTER_HELP,
    words: &[
        Word::Port("port", "P", help::PORT_HELP),
        Word::Number("connections", "N", help::CONNECTIONS_HELP, 0, 4_294_967_295),
        Word::Value("day", "YYYY-MM-DD", help::CLOCK_DAY_HELP),
        Word::Number("turns", "T", help::TURNS_HELP, 0, 4_294_967_295),
        Word::Value("journal", "FILE", help::JOURNAL_HELP),
        Word::Flag("force", help::FORCE_HELP),
        Word::Flag("stay", help::STAY_HELP),
        Word::Value("socket", "PATH", help::SOCKET_HELP),
        Word::Flag("group", help::GROUP_HELP),
        Word::Port("page", "Q", help::PAGE_PORT_HELP),
        Word::Value("page-host", "NAME:PORT", help::PAGE_HOST_HELP),
        Word::Number("seats", "S", help::SEATS_HELP, 1, 1000),
        Word::Number("idle", "SECONDS", help::IDLE_HELP, 1, 86_400),
        Word::Flag("quiet", help::QUIET_HELP),
        Word::Flag("clock", help::CLOCK_HELP),
        Word::Number("every", "SECONDS", help::EVERY_HELP, 1, 3600),
    ],
};

/// `casa journal`.
pub const JOURNAL: Subcommand<'static> = Subcommand {
    name: "journal",
    about: help::JOURNAL_ABOUT,
    usage: Some(help::JOURNAL_USAGE),
    after_help: help::JOURNAL_AFTER_HELP,
    words: &[
        Word::Alone("action", "ACTION", help::ACTION_HELP),
        Word::Alone("file", "FILE", help::FILE_HELP),
    ],
};

/// All of them, in the order of the help.
pub const SUBCOMMANDS: [Subcommand<'static>; 11] = [
    RUN, IMPORT, REPORT, LOAD, SUMMARY, WHY, MESSAGES, COMPARE, PAGE, SERVE, JOURNAL,
];
