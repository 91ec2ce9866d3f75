//! From the bytes of a line to a call.

ghost use Rattle.std.specs.Prelude.{◌≡◌, length};
ghost use Rattle.serde_json.specs.View.{view};
ghost use Rattle.casa_wire.specs.declared.fault.WireFault.TheVariants.{NotJson};
ghost use Rattle.casa_wire.specs.Commands.{Gives, GivesAs, command_named, command_of, line_call, line_value, or_fault, file_call, amend_call, cancel_call, revise_call, exempt_call, show_call, open_call, close_call, rates_call, list_call, plan_member, plan_wire_fault, profile_member, profile_wire_fault, swap_call, tick_call};

use crate::fault::{Field, WireFault};
use crate::member::{
    key_member, location_member, moment_member, number_member, periods_member, reg_id_member,
    status_member, text_member, via_member,
};
use casa_flight::{Call, Plan, PlanFault};
use casa_grid::{Profile, ProfileFault};
use serde_json::Value;
use std::alloc::Global;

/// What a line may ask for.
#[derive(Clone, Copy, PartialEq, Eq, Debug)]
enum Command {
    File,
    Amend,
    Cancel,
    Revise,
    Exempt,
    Show,
    Open,
    Close,
    Rates,
    List,
    Tick,
    Swap,
}

/// The call that a line is, without its line end, or the first fault that holds, in the order of `WireFault`.
///
/// `NoMemory` says that a growth was refused; nothing else is claimed of the line then.
#[tactic(auto, unfolding(crate::specs::Commands::line_call))]
pub fn read_call(alloc: Global, line: &[u8]) -> Result<Call, WireFault>
    ensures { Gives result (line_call line.now) }
{
    let value = line_value(alloc, line)?;
    let Some(command) = command_of(&value) else {
        return Err(WireFault::NoCommand);
    };
    match command {
        Command::File => file_call(alloc, &value),
        Command::Amend => amend_call(alloc, &value),
        Command::Cancel => cancel_call(&value),
        Command::Revise => revise_call(&value),
        Command::Exempt => exempt_call(&value),
        Command::Show => show_call(&value),
        Command::Open => open_call(alloc, &value),
        Command::Close => close_call(&value),
        Command::Rates => rates_call(alloc, &value),
        Command::List => list_call(&value),
        Command::Tick => tick_call(&value),
        Command::Swap => swap_call(&value),
    }
}

fn line_value(alloc: Global, line: &[u8]) -> Result<Value, WireFault>
    ensures { GivesAs view result (or_fault NotJson (line_value line.now)) }
{
    match Value::from_slice(alloc, line) {
        Ok(value) => Ok(value),
        Err(error) => {
            if error.is_memory() {
                Err(WireFault::NoMemory)
            } else {
                Err(WireFault::NotJson)
            }
        }
    }
}

fn command_of(value: &Value) -> Option<Command>
    ensures { result ≡ command_of (view value.now) }
{
    command_named(value.get("cmd")?.as_str()?)
}

fn command_named(text: &str) -> Option<Command>
    ensures { result ≡ command_named text.now }
{
    match text.len() {
        4 => command_of_four(text),
        5 => command_of_five(text),
        6 => command_of_six(text),
        _ => None,
    }
}

/// The command with this name of four letters, those first that come most often.
fn command_of_four(text: &str) -> Option<Command>
    ensures { length text.now ≡ 4 → result ≡ command_named text.now }
{
    if text == "file" {
        Some(Command::File)
    } else if text == "tick" {
        Some(Command::Tick)
    } else if text == "show" {
        Some(Command::Show)
    } else if text == "list" {
        Some(Command::List)
    } else if text == "open" {
        Some(Command::Open)
    } else if text == "swap" {
        Some(Command::Swap)
    } else {
        None
    }
}

/// The command with this name of five letters.
fn command_of_five(text: &str) -> Option<Command>
    ensures { length text.now ≡ 5 → result ≡ command_named text.now }
{
    if text == "amend" {
        Some(Command::Amend)
    } else if text == "close" {
        Some(Command::Close)
    } else if text == "rates" {
        Some(Command::Rates)
    } else {
        None
    }
}

/// The command with this name of six letters.
fn command_of_six(text: &str) -> Option<Command>
    ensures { length text.now ≡ 6 → result ≡ command_named text.now }
{
    if text == "revise" {
        Some(Command::Revise)
    } else if text == "cancel" {
        Some(Command::Cancel)
    } else if text == "exempt" {
        Some(Command::Exempt)
    } else {
        None
    }
}

#[tactic(auto, unfolding(crate::specs::Commands::file_call))]
fn file_call(alloc: Global, value: &Value) -> Result<Call, WireFault>
    ensures { Gives result (file_call (view value.now)) }
{
    let plan = plan_member(alloc, value)?;
    Ok(Call::File(plan))
}

#[tactic(auto, unfolding(crate::specs::Commands::amend_call))]
fn amend_call(alloc: Global, value: &Value) -> Result<Call, WireFault>
    ensures { Gives result (amend_call (view value.now)) }
{
    let plan = plan_member(alloc, value)?;
    Ok(Call::Amend(plan))
}

#[tactic(auto, unfolding(crate::specs::Commands::cancel_call))]
fn cancel_call(value: &Value) -> Result<Call, WireFault>
    ensures { Gives result (cancel_call (view value.now)) }
{
    let key = key_member(value, Field::Key)?;
    Ok(Call::Cancel(key))
}

#[tactic(auto, unfolding(crate::specs::Commands::revise_call))]
fn revise_call(value: &Value) -> Result<Call, WireFault>
    ensures { Gives result (revise_call (view value.now)) }
{
    let key = key_member(value, Field::Key)?;
    Ok(Call::Revise(key))
}

#[tactic(auto, unfolding(crate::specs::Commands::exempt_call))]
fn exempt_call(value: &Value) -> Result<Call, WireFault>
    ensures { Gives result (exempt_call (view value.now)) }
{
    let key = key_member(value, Field::Key)?;
    Ok(Call::Exempt(key))
}

#[tactic(auto, unfolding(crate::specs::Commands::show_call))]
fn show_call(value: &Value) -> Result<Call, WireFault>
    ensures { Gives result (show_call (view value.now)) }
{
    let key = key_member(value, Field::Key)?;
    Ok(Call::Show(key))
}

#[tactic(auto, unfolding(crate::specs::Commands::open_call))]
fn open_call(alloc: Global, value: &Value) -> Result<Call, WireFault>
    ensures { Gives result (open_call (view value.now)) }
{
    let reg = reg_id_member(value, Field::Reg)?;
    let loc = location_member(value, Field::Loc)?;
    let profile = profile_member(alloc, value)?;
    Ok(Call::OpenReg(reg, loc, profile))
}

#[tactic(auto, unfolding(crate::specs::Commands::close_call))]
fn close_call(value: &Value) -> Result<Call, WireFault>
    ensures { Gives result (close_call (view value.now)) }
{
    let reg = reg_id_member(value, Field::Reg)?;
    Ok(Call::CloseReg(reg))
}

#[tactic(auto, unfolding(crate::specs::Commands::rates_call))]
fn rates_call(alloc: Global, value: &Value) -> Result<Call, WireFault>
    ensures { Gives result (rates_call (view value.now)) }
{
    let reg = reg_id_member(value, Field::Reg)?;
    let profile = profile_member(alloc, value)?;
    Ok(Call::Rates(reg, profile))
}

#[tactic(auto, unfolding(crate::specs::Commands::list_call))]
fn list_call(value: &Value) -> Result<Call, WireFault>
    ensures { Gives result (list_call (view value.now)) }
{
    let reg = reg_id_member(value, Field::Reg)?;
    Ok(Call::List(reg))
}

#[tactic(auto, unfolding(crate::specs::Commands::tick_call))]
fn tick_call(value: &Value) -> Result<Call, WireFault>
    ensures { Gives result (tick_call (view value.now)) }
{
    let at = moment_member(value, Field::At)?;
    Ok(Call::Tick(at))
}

#[tactic(auto, unfolding(crate::specs::Commands::swap_call))]
fn swap_call(value: &Value) -> Result<Call, WireFault>
    ensures { Gives result (swap_call (view value.now)) }
{
    let key = key_member(value, Field::Key)?;
    let other = key_member(value, Field::Other)?;
    Ok(Call::Swap(key, other))
}

#[tactic(auto, unfolding(crate::specs::Commands::plan_member))]
fn plan_member(alloc: Global, value: &Value) -> Result<Plan, WireFault>
    ensures { Gives result (plan_member (view value.now)) }
{
    let key = text_member(value, Field::Key)?;
    let eobt = moment_member(value, Field::Eobt)?;
    let taxi = number_member(value, Field::Taxi)?;
    let via = via_member(alloc, value, Field::Via)?;
    let sts = status_member(value)?;
    match Plan::of(key.as_bytes(), eobt, taxi, via, sts) {
        Ok(plan) => Ok(plan),
        Err(fault) => Err(plan_wire_fault(fault)),
    }
}

/// The member at which a plan's fault lies.
fn plan_wire_fault(fault: PlanFault) -> WireFault
    ensures { result ≡ plan_wire_fault fault }
{
    match fault {
        PlanFault::BadKey => WireFault::BadField(Field::Key),
        PlanFault::TaxiTooLong => WireFault::BadField(Field::Taxi),
        PlanFault::TooManyCrossings | PlanFault::SameLocation | PlanFault::EtoBeforeTakeOff => {
            WireFault::BadField(Field::Via)
        }
        PlanFault::OutOfRange => WireFault::BadField(Field::Eobt),
        PlanFault::NoMemory => WireFault::NoMemory,
    }
}

#[tactic(auto, unfolding(crate::specs::Commands::profile_member))]
fn profile_member(alloc: Global, value: &Value) -> Result<Profile, WireFault>
    ensures { Gives result (profile_member (view value.now)) }
{
    let periods = periods_member(alloc, value, Field::Periods)?;
    match Profile::new(alloc, &periods) {
        Ok(profile) => Ok(profile),
        Err(fault) => Err(profile_wire_fault(fault)),
    }
}

/// A profile's fault lies at the periods.
fn profile_wire_fault(fault: ProfileFault) -> WireFault
    ensures { result ≡ profile_wire_fault fault }
{
    match fault {
        ProfileFault::NoMemory => WireFault::NoMemory,
        _ => WireFault::BadField(Field::Periods),
    }
}
