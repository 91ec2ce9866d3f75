//! The texts of `--help`.

/// The version that `casa --version` prints.
pub const VERSION: &str = "0.2.0";

/// What the program is for.
pub const ABOUT: &str =
    "Casa gives flights their calculated take-off times under ATFM regulations, as CASA does.";

/// What stands below the subcommands.
pub const AFTER_HELP: &str = "\
Examples:
  casa run < examples/first.jsonl
  casa import --flights examples/traffic.flights.csv --day 2025-06-01 > traffic.jsonl
  casa report --reg R1 --day 2025-06-01 < examples/first.jsonl
  casa load --reg R1 --day 2025-06-01 < examples/first.jsonl
  casa summary --day 2025-06-01 < examples/first.jsonl
  casa why --key A --day 2025-06-01 < examples/first.jsonl
  casa messages --day 2025-06-01 < examples/first.jsonl
  casa compare examples/first.jsonl examples/morning.jsonl --day 2025-06-01
  casa page --day 2025-06-01 < examples/first.jsonl > day.html
  casa serve --port 4750 --connections 8
  casa serve --port 4750 --stay
  casa serve --port 4750 --stay --journal day.journal
  casa journal check day.journal

Commands are lines of JSON, on standard input or over a connection; docs/COMMANDS.md describes each, and its reply.";

/// What `run` does.
pub const RUN_ABOUT: &str = "Answers the command lines on standard input, each by a reply line";

/// How `run` is called.
pub const RUN_USAGE: &str = "casa run [OPTIONS]";

/// What stands below the options of `run`.
pub const RUN_AFTER_HELP: &str = "\
Examples:
  casa run < examples/first.jsonl
  echo '{\"cmd\":\"tick\",\"at\":22800}' | casa run
  casa run --journal day.journal < examples/first.jsonl

A command is a line of JSON, and so is its reply; docs/COMMANDS.md describes each.";

/// What `import` does.
pub const IMPORT_ABOUT: &str =
    "Makes command lines of tables: of flights, of the airspaces that they cross, and of regulations";

/// How `import` is called.
pub const IMPORT_USAGE: &str =
    "casa import [OPTIONS] --day <YYYY-MM-DD> <--flights <F>|--regs <R>>";

/// What stands below the options of `import`.
pub const IMPORT_AFTER_HELP: &str = "\
Examples:
  casa import --flights examples/traffic.flights.csv --day 2025-06-01 > traffic.jsonl
  casa import --regs examples/traffic.regulations.csv --flights examples/traffic.flights.csv --day 2025-06-01 --by eobt > traffic.jsonl

The tables are files of comma-separated values, and each command is a line on standard output: an `open` for each
regulation, and then a `file` for each flight. Which rows are left out, and why, is told on standard error;
docs/IMPORT.md describes the columns, and what a row becomes.";

/// What stands after `--flights`.
pub const FLIGHTS_HELP: &str = "The file of the flights; needed unless --regs is given";

/// What stands after `--crossings`.
pub const CROSSINGS_HELP: &str = "With --flights: a file of the airspaces that they cross";

/// What stands after `--regs`.
pub const REGS_HELP: &str = "The file of the regulations, a row for each of their periods";

/// What stands after `--day` of `import` and `messages`.
pub const MIDNIGHT_HELP: &str = "The day from whose midnight UTC all times count: as 2025-06-01";

/// What stands after `--taxi`.
pub const TAXI_HELP: &str =
    "The taxi time in seconds of flights whose row gives none: 0 to 3600, 600 if not given";

/// What stands after `--locations`.
pub const LOCATIONS_HELP: &str =
    "The locations that stay in a flight with more than 32, besides those of regulations: as EBBUW,EHAM";

/// What stands after `--by`.
pub const BY_HELP: &str =
    "The order of the filings: file, as in the file of the flights, or eobt, by the off-block time; file if not given";

/// What stands after `--strict` of `import`.
pub const IMPORT_STRICT_HELP: &str =
    "Write nothing and end with status 1 if a row of any file is left out";

/// What `report` does.
pub const REPORT_ABOUT: &str =
    "Prints a regulation's list, or all lists, as they stand after the command lines";

/// How `report` is called.
pub const REPORT_USAGE: &str = "casa report [OPTIONS] --day <YYYY-MM-DD> <--reg <R>|--all>";

/// What stands below the options of `report`.
pub const REPORT_AFTER_HELP: &str = "\
Examples:
  casa report --reg R1 --day 2025-06-01 < examples/first.jsonl
  casa report --reg R1 --day 2025-06-01 --format csv < examples/first.jsonl
  casa report --all --day 2025-06-01 --sort delay --top 20 < examples/morning.jsonl

The command lines come on standard input, as those of `casa run`, and their replies are not printed;
docs/COMMANDS.md describes them and what is printed.";

/// What stands after `--all`.
pub const ALL_HELP: &str =
    "All open regulations, in the order of their identifiers, in place of --reg";

/// What stands after `--sort`.
pub const SORT_HELP: &str =
    "The order of the rows: list, as they stand in their list, or delay, the longest first; list if not given";

/// What stands after `--top`.
pub const TOP_HELP: &str = "Print the first N rows alone: 1 to 1000000, all if not given";

/// What `load` does.
pub const LOAD_ABOUT: &str =
    "Prints the demand on a regulation and its capacity, step by step, as planned and as calculated";

/// What stands below the options of `load`.
pub const LOAD_AFTER_HELP: &str = "\
Examples:
  casa load --reg R1 --day 2025-06-01 < examples/first.jsonl
  casa load --reg R1 --day 2025-06-01 --step 60 < examples/first.jsonl

The command lines come on standard input, as those of `casa run`, and their replies are not printed;
docs/COMMANDS.md describes them and the figures.";

/// What `summary` does.
pub const SUMMARY_ABOUT: &str =
    "Prints what each open regulation costs, as it stands after the command lines";

/// What stands below the options of `summary`.
pub const SUMMARY_AFTER_HELP: &str = "\
Example:
  casa summary --day 2025-06-01 < examples/first.jsonl

The command lines come on standard input, as those of `casa run`, and their replies are not printed;
docs/COMMANDS.md describes them and the figures.";

/// What `why` does.
pub const WHY_ABOUT: &str = "Prints why a flight waits, as it stands after the command lines";

/// What stands below the options of `why`.
pub const WHY_AFTER_HELP: &str = "\
Example:
  casa why --key A --day 2025-06-01 < examples/first.jsonl

The command lines come on standard input, as those of `casa run`, and their replies are not printed;
docs/COMMANDS.md describes them and what is printed.";

/// What `messages` does.
pub const MESSAGES_ABOUT: &str =
    "Prints each slot message that the command lines caused, with the number of its call";

/// What stands below the options of `messages`.
pub const MESSAGES_AFTER_HELP: &str = "\
Examples:
  casa messages --day 2025-06-01 < examples/first.jsonl
  casa messages --day 2025-06-01 --format json < examples/first.jsonl

The command lines come on standard input, as those of `casa run`, and their replies are not printed;
docs/COMMANDS.md describes them and what is printed.";

/// What stands after `--format` of `messages`.
pub const MESSAGES_FORMAT_HELP: &str = "The form of what is printed: csv or json, csv if not given";

/// What `compare` does.
pub const COMPARE_ABOUT: &str =
    "Prints what differs between two days: what they cost, and the flights that stand otherwise";

/// What stands below the options of `compare`.
pub const COMPARE_AFTER_HELP: &str = "\
Example:
  casa compare examples/first.jsonl examples/morning.jsonl --day 2025-06-01

Each file has command lines, as those of `casa run`, which are answered from the beginning of a day; their replies
are not printed. docs/COMMANDS.md describes them and what is printed.";

/// What stands after the first file of `compare`.
pub const BASE_HELP: &str = "The file with the command lines of the day that is compared with";

/// What stands after the second file of `compare`.
pub const VARIANT_HELP: &str = "The file with those of the day that is looked at";

/// What `page` does.
pub const PAGE_ABOUT: &str =
    "Makes a page of the day for a browser, as it stands after the command lines";

/// What stands below the options of `page`.
pub const PAGE_AFTER_HELP: &str = "\
Example:
  casa page --day 2025-06-01 < examples/first.jsonl > day.html

The command lines come on standard input, as those of `casa run`, and their replies are not printed. The page
is one file of HTML, which needs no network; docs/COMMANDS.md describes the record of the day that it has.";

/// What stands after `--day` of `page`.
pub const PAGE_DAY_HELP: &str = "The day, for the page: as 2025-06-01";

/// What stands after `--key`.
pub const KEY_HELP: &str = "The flight: 1 to 10 characters of A to Z and 0 to 9";

/// What stands after `--step`.
pub const STEP_HELP: &str = "The length of a step in minutes: 1 to 1440, 20 if not given";

/// What stands after `--reg`.
pub const REG_HELP: &str = "The regulation: 1 to 10 characters of A to Z and 0 to 9";

/// What stands after `--day`.
pub const DAY_HELP: &str = "The day, for the heading: as 2025-06-01";

/// What `serve` does.
pub const SERVE_ABOUT: &str =
    "Answers desks over connections to 127.0.0.1 or to a socket, each with its own command lines";

/// How `serve` is called: until it has answered its connections, or until it is ended.
pub const SERVE_USAGE: &str = "\
casa serve [OPTIONS] --port <P>
       casa serve [OPTIONS] --stay <--port <P>|--socket <PATH>>";

/// What stands below the options of `serve`.
pub const SERVE_AFTER_HELP: &str = "\
Examples:
  casa serve --port 4750
  casa serve --port 4750 --connections 8
  casa serve --port 4750 --connections 8 --day 2025-06-01 --turns 86400
  casa serve --port 4750 --stay
  casa serve --port 4750 --stay --page 4751
  casa serve --socket /run/casa/desk --stay --clock --day 2025-06-01
  casa serve --port 4750 --stay --journal day.journal

All desks work on one set of regulations and flights, and a connection is one desk: it sends the lines that
`casa run` reads and gets the same replies. docs/PROTOCOL.md describes what else there is to know.";

/// What stands after `--port`.
pub const PORT_HELP: &str = "The port to listen on: 1 to 65535; needed unless --socket is given";

/// What stands after `--connections`.
pub const CONNECTIONS_HELP: &str =
    "How many connections to accept before the end: 0 to 4294967295, 1 if not given";

/// What stands after `--day` of `serve`.
pub const CLOCK_DAY_HELP: &str =
    "The day from whose midnight UTC the clock counts, as 2025-06-01; --turns and --clock need it";

/// What stands after `--turns`.
pub const TURNS_HELP: &str =
    "How many times to move the clock, once a second: 0 to 4294967295, 0 if not given";

/// What stands after `--journal`.
pub const JOURNAL_HELP: &str =
    "Write each call to FILE before its reply goes out, and begin with the calls that FILE has";

/// What stands after `--force`.
pub const FORCE_HELP: &str =
    "With --journal: set aside also more than a torn line behind the journal's whole lines";

/// What stands after `--stay`.
pub const STAY_HELP: &str =
    "Answer until casa is ended, by the options below in place of --connections and --turns";

/// What stands after `--socket`.
pub const SOCKET_HELP: &str = "The path of a socket to listen on, in place of --port or besides";

/// What stands after `--group`.
pub const GROUP_HELP: &str = "Let the group of the socket connect too";

/// What stands after `--page`.
pub const PAGE_PORT_HELP: &str =
    "Serve a page of the day at http://127.0.0.1:Q/, live, for browsers on this machine: 1 to 65535";

/// What stands after `--page-host`.
pub const PAGE_HOST_HELP: &str =
    "A further host, as NAME:PORT, under which browsers may ask for the page, as behind a tunnel";

/// What stands after `--seats`.
pub const SEATS_HELP: &str =
    "How many connections at a time: 1 to 1000, 64 if not given; up to 500 at each of two addresses";

/// What stands after `--idle`.
pub const IDLE_HELP: &str =
    "After how many seconds of silence to give a connection up: 1 to 86400, never if not given";

/// What stands after `--quiet`.
pub const QUIET_HELP: &str = "Say nothing of connections on standard error";

/// What stands after `--clock`.
pub const CLOCK_HELP: &str = "Move the clock to the present second, counted from --day";

/// What stands after `--every`.
pub const EVERY_HELP: &str =
    "The seconds from one move of the clock to the next: 1 to 3600, 1 if not given";

/// What `journal` does.
pub const JOURNAL_ABOUT: &str = "Answers the calls of a journal again, and says how many they are";

/// How `journal` is called.
pub const JOURNAL_USAGE: &str = "casa journal check <FILE>";

/// What stands below the words of `journal`.
pub const JOURNAL_AFTER_HELP: &str = "\
Example:
  casa journal check day.journal

A journal is the file that `casa run --journal` or `casa serve --journal` writes.";

/// What stands after the action of `journal`.
pub const ACTION_HELP: &str = "What is to be done with the journal: check";

/// What stands after the file of `journal`.
pub const FILE_HELP: &str = "The journal, as it was given to --journal";

/// What stands after `--format`.
pub const FORMAT_HELP: &str = "The form of what is printed: table, csv or json, table if not given";

/// What stands after `--strict`.
pub const STRICT_HELP: &str =
    "Print nothing and end with status 1 if a line is faulty or a call is refused";
