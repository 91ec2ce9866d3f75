//! Casa allocates departure slots: `casa run` answers command lines; `casa report` prints the lists of regulations after
//! them, `casa load` demand and capacity, `casa summary` what all regulations cost, `casa why` why a flight waits,
//! `casa messages` the slot messages, and `casa page` makes a page of the day. `casa compare` prints what differs between
//! two days, and `casa import` makes command lines of files of traffic. `casa serve` answers the desks that connect. With a
//! journal `casa run` and `casa serve` go on where they ended, and `casa journal check` says what one has.
#![tactic(auto)]

use casa_app::{
    CompareOf, Input, PrintFault, ReportOf, compare, load, messages, page, report, summary, why,
};
use casa_cli::{Import, Order, Task, TaskFault, task};
use casa_outcome::{ProgramFault, outcome};
use casa_service::{ServiceFault, Timing, check_journal, run_journaled, serve_desks, stay_desks};
use casa_session::Lone;
use casa_sockets::stand_in;
use casa_traffic::{Asked, Names, Order as RowOrder, ReadFault, TrafficFault, import_files};
use clap::Command;
use clap::error::ErrorKind;
use jiff::civil::Date;
use std::alloc::Global;
use std::fs::{File, Files};
use std::io::{Eprint, Read, Write};
use std::net::{Net, TcpListener, TcpStream};
use std::process::ExitCode;
use std::random::RandomSource;
use std::sync::Wait;
use std::thread::Threads;
use std::time::Clock;
use std::{env, io, mem};

/// The longest taxi time of a plan, in seconds.
const LONGEST_TAXI: u64 = 3_600;

fn main(rt: HostRuntime) -> ExitCode {
    let done = match words(&rt) {
        Ok(words) => {
            let (mut input, mut writer) = (Input::new(rt.reader()), io::writer(&rt));
            let mut errors = rt.stderr();
            answer(
                &rt,
                rt.alloc(),
                &words,
                &mut input,
                &mut writer,
                &mut errors,
            )
        }
        Err(fault) => Err(fault),
    };
    match done {
        Ok(()) => ExitCode::SUCCESS,
        Err(fault) => ended_by(&rt, &fault),
    }
}

/// Does what the words of the command line ask for, by this input and writer where these are needed. What is said of
/// faulty lines is written to `errors`.
fn answer<
    N: Net<Listener = TcpListener, Stream = TcpStream>
        + Files<File = File>
        + Threads
        + Wait
        + Clock
        + Eprint
        + RandomSource
        + Sync,
    R: Read + Drop,
    W: Write,
    E: Write,
>(
    rt: &N,
    alloc: Global,
    words: &[String],
    input: &mut Input<R>,
    writer: &mut W,
    errors: &mut E,
) -> Result<(), ProgramFault> {
    let words: Vec<&str> = words.iter().map(String::as_str).collect(alloc)?;
    let task = task(alloc, &words)?;
    carry_out(rt, alloc, &task, input, writer, errors)
}

/// Does a task, by this input and writer where these are needed.
fn carry_out<
    N: Net<Listener = TcpListener, Stream = TcpStream>
        + Files<File = File>
        + Threads
        + Wait
        + Clock
        + Eprint
        + RandomSource
        + Sync,
    R: Read + Drop,
    W: Write,
    E: Write,
>(
    rt: &N,
    alloc: Global,
    task: &Task,
    input: &mut Input<R>,
    writer: &mut W,
    errors: &mut E,
) -> Result<(), ProgramFault> {
    match task {
        Task::Run {
            journal: Some(file),
        } => {
            let (ended, _) = run_journaled(rt, alloc, file, input, writer);
            Ok(ended?)
        }
        Task::Run { journal: None } => answer_lines(alloc, input, writer),
        Task::Report { .. }
        | Task::Load { .. }
        | Task::Summary { .. }
        | Task::Why { .. }
        | Task::Messages { .. }
        | Task::Page { .. } => Ok(tell(alloc, task, input, writer, errors)?),
        Task::Serve {
            port,
            connections,
            turns,
            day,
            journal,
        } => {
            let _standing_in = stand_in(rt, alloc);
            let timing = timing(*turns, *day);
            serve_desks(rt, alloc, *port, *connections, timing, *journal)?;
            Ok(())
        }
        Task::Stay(service) => {
            let _standing_in = stand_in(rt, alloc);
            Ok(stay_desks(rt, alloc, service)?)
        }
        Task::CheckJournal { path } => Ok(check_journal(rt, alloc, path, writer)?),
        Task::Compare { .. } => tell_difference(rt, alloc, task, writer, errors),
        Task::Import(import) => Ok(make_lines(rt, alloc, import, writer, errors)?),
    }
}

/// Writes the text that a task asks for. One that asks for none writes nothing.
fn tell<R: Read + Drop, W: Write, E: Write>(
    alloc: Global,
    task: &Task,
    input: &mut Input<R>,
    writer: &mut W,
    errors: &mut E,
) -> Result<(), PrintFault> {
    match task {
        Task::Report {
            reg,
            day,
            sort,
            top,
            format,
            strict,
        } => {
            let asked = ReportOf {
                reg: *reg,
                day: *day,
                sort: *sort,
                top: *top,
                format: *format,
            };
            report(alloc, &asked, *strict, input, writer, errors)
        }
        Task::Load {
            reg,
            day,
            step,
            format,
            strict,
        } => load(
            alloc, reg, *day, *step, *format, *strict, input, writer, errors,
        ),
        Task::Summary {
            day,
            format,
            strict,
        } => summary(alloc, *day, *format, *strict, input, writer, errors),
        Task::Messages {
            day,
            format,
            strict,
        } => messages(alloc, *day, *format, *strict, input, writer, errors),
        Task::Page { day, strict } => page(alloc, *day, *strict, input, writer, errors),
        Task::Why {
            key,
            day,
            format,
            strict,
        } => why(alloc, key, *day, *format, *strict, input, writer, errors),
        _ => Ok(()),
    }
}

/// Writes what differs between the days of two files, where a task asks for that.
fn tell_difference<N: Files<File = File>, W: Write, E: Write>(
    rt: &N,
    alloc: Global,
    task: &Task,
    writer: &mut W,
    errors: &mut E,
) -> Result<(), ProgramFault> {
    let Task::Compare {
        base,
        variant,
        day,
        format,
        strict,
    } = task
    else {
        return Ok(());
    };
    let (base, variant) = (read(rt, alloc, base)?, read(rt, alloc, variant)?);
    let asked = CompareOf {
        day: *day,
        format: *format,
    };
    let mut base = Input::new(base.as_slice());
    let mut variant = Input::new(variant.as_slice());
    compare(
        alloc,
        asked,
        *strict,
        &mut base,
        &mut variant,
        writer,
        errors,
    )?;
    Ok(())
}

/// Writes the command lines of files of traffic, and says at `errors` what comes of their rows.
fn make_lines<N: Files<File = File>, W: Write, E: Write>(
    rt: &N,
    alloc: Global,
    import: &Import,
    writer: &mut W,
    errors: &mut E,
) -> Result<(), TrafficFault> {
    let names = Names {
        regs: import.regs,
        crossings: import.crossings,
        flights: import.flights,
    };
    let asked = Asked {
        day: import.day,
        taxi: import.taxi.min(LONGEST_TAXI) as u32,
        locations: import.locations.as_slice(),
        order: match import.order {
            Order::File => RowOrder::File,
            Order::Eobt => RowOrder::Eobt,
        },
    };
    import_files(rt, alloc, &names, &asked, import.strict, writer, errors)
}

/// All bytes of a file of command lines.
fn read<N: Files<File = File>>(rt: &N, alloc: Global, name: &str) -> Result<Vec<u8>, ProgramFault> {
    match read_whole(rt, alloc, name) {
        Ok(bytes) => Ok(bytes),
        Err(error) => Err(unread(alloc, name, error)),
    }
}

/// The same, with the system's fault.
fn read_whole<N: Files<File = File>>(rt: &N, alloc: Global, name: &str) -> io::Result<Vec<u8>> {
    let mut file = File::open(rt, name)?;
    let mut bytes = Vec::new(alloc);
    file.read_to_end(&mut bytes)?;
    Ok(bytes)
}

/// Why this file could not be read.
fn unread(alloc: Global, name: &str, error: io::Error) -> ProgramFault {
    if error.kind() == io::ErrorKind::OutOfMemory {
        return ProgramFault::NoMemory;
    }
    match format!(in alloc; "{name}") {
        Ok(file) => ProgramFault::ReadFailed(ReadFault { file, error }),
        Err(_) => ProgramFault::NoMemory,
    }
}

/// The words of the command line, the program's name first.
fn words(rt: &HostRuntime) -> Result<Vec<String>, ProgramFault> {
    match env::args(rt) {
        Ok(words) => Ok(words.collect(rt.alloc())?),
        Err(error) => match error.kind() {
            io::ErrorKind::OutOfMemory => Err(ProgramFault::NoMemory),
            _ => Err(ProgramFault::Task(unreadable(rt.alloc()))),
        },
    }
}

/// The fault of words that are no text.
fn unreadable(alloc: Global) -> TaskFault {
    match Command::new(alloc, "casa").error(ErrorKind::Io, "a word is not UTF-8") {
        Ok(error) => TaskFault::Words(error),
        Err(refused) => TaskFault::Words(clap::Error::from(refused)),
    }
}

/// Answers the command lines of the reader, by a desk that is alone on a board. The board is not taken apart behind the
/// last line: the program ends then, and its memory with it.
fn answer_lines<R: Read, W: Write>(
    alloc: Global,
    reader: &mut R,
    writer: &mut W,
) -> Result<(), ProgramFault> {
    let mut lone = Lone::new(alloc)?;
    let ended = lone.run(alloc, reader, writer);
    mem::forget(lone);
    ended?;
    Ok(())
}

/// How the clock is to be moved, if it is.
fn timing(turns: u32, day: Option<Date>) -> Option<Timing> {
    let day = day?;
    if turns == 0 {
        return None;
    }
    Some(Timing { day, turns })
}

/// Says why the program did not do what it was asked for, and with which status it ends: 1 and not 0 where help can't be
/// written.
fn ended_by(rt: &HostRuntime, fault: &ProgramFault) -> ExitCode {
    let (status, name) = outcome(fault);
    let said = match fault {
        ProgramFault::Task(TaskFault::Words(error)) => error.print(rt),
        ProgramFault::Service(ServiceFault::BindFailed(fault)) => {
            eprintln!(rt; "casa: {name}\n{fault}")
        }
        ProgramFault::Service(ServiceFault::Journal(fault)) => {
            eprintln!(rt; "casa: {name}\n{fault}")
        }
        ProgramFault::ReadFailed(fault) => eprintln!(rt; "casa: {name}\n{fault}"),
        ProgramFault::Traffic(TrafficFault::ReadFailed(fault)) => {
            eprintln!(rt; "casa: {name}\n{fault}")
        }
        ProgramFault::Traffic(TrafficFault::Column(fault)) => eprintln!(rt; "casa: {fault}"),
        _ => eprintln!(rt; "casa: {name}"),
    };
    match said {
        Ok(()) => ExitCode::from(status),
        Err(_) => ExitCode::from(status.max(1)),
    }
}
