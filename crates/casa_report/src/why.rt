//! Why a flight waits, and with which flights it could exchange its slot, as a text.

ghost use Rattle.std.specs.Prelude.{◌≡◌, ◌+◌, ◌≤◌, ◌++◌, IfOk, OnOk, Some, length};
ghost use Rattle.arrayvec.specs.ArrayVec.{array_vec_len};
ghost use Rattle.casa_report.specs.Columns.{shown_line};
ghost use Rattle.casa_report.specs.WhyText.{exchange_columns, flight_columns, holder_text, holding_columns, offer_columns};
ghost use Rattle.casa_report.specs.WhyText.{rule_line, rule_text, section, stance_text, why_text, yes_or_no};

use crate::columns::{push_left, push_name, push_number, push_text, push_time};
use crate::heading_line::heading_line;
use arrayvec::ArrayVec;
use casa_flight::{FlightReply, Offer, RegId, Stance};
use casa_inquiry::{Holding, PossibleExchange, Reasons, Rule};
use casa_list::Member;
use casa_time::hhmm;
use jiff::civil::Date;
use std::alloc::{AllocError, Global};

/// The titles above the flight.
const FLIGHT: &[u8] = b"EOBT ETOT CTOT  DELAY EXEMPT ISSUED REG\n";

/// The titles above the offers.
const OFFERS: &[u8] = b"\nREG        CTO   DELAY\n";

/// The titles above the slots.
const HOLDINGS: &[u8] = b"\n SLOT BEGIN KEY        ETO  HELD\n";

/// The titles above the exchanges.
const EXCHANGES: &[u8] = b"\nEXCHANGE   CTOT ITS CTOT\n";

/// A line; none is longer.
type Line = ArrayVec<u8, 120>;

/// Why a flight waits, as a text: a heading with its key and the day, the flight as it stands, the rule by which a regulation
/// governs it, what each regulation offers it, who holds each slot from the one that it asks for to the one that it
/// has, and with which flights it could exchange its slot: the other's key, the calculated take-off time that the flight itself
/// would then have, and the one that the other would have. Times are hours and minutes, delays seconds.
///
/// `AllocError` where there is no memory for it.
pub fn why_text(
    alloc: Global,
    day: Date,
    why: &Reasons,
    exchanges: &[PossibleExchange],
) -> Result<Vec<u8>, AllocError>
    ensures { IfOk result (λ text. text.items ≡ why_text day why.now exchanges.now) }
{
    let mut text = Vec::new(alloc);
    let heading = heading_line(alloc, day, &why.flight.key)?;
    text.extend_from_slice(heading.as_bytes())?;
    text.extend_from_slice(FLIGHT)?;
    text.extend_from_slice(flight_line(&why.flight).as_slice())?;
    text.extend_from_slice(rule_line(&why.flight.reg, why.rule).as_slice())?;
    push_offers(&mut text, why.offers.as_slice())?;
    push_holdings(&mut text, why.holdings.as_slice())?;
    push_exchanges(&mut text, exchanges)?;
    Ok(text)
}

/// The line of the flight.
fn flight_line(flight: &FlightReply) -> Line
    ensures { result.items ≡ shown_line flight_columns flight.now }
{
    let mut line = Line::new();
    push_time(&mut line, flight.eobt.secs());
    push_time(&mut line, flight.etot);
    push_time(&mut line, flight.ctot);
    push_number(&mut line, flight.delay as u128, 6, b' ');
    push_left(&mut line, yes_or_no(flight.exempt), 6, b' ');
    push_left(&mut line, yes_or_no(flight.issued), 6, b' ');
    match &flight.reg {
        Some(reg) => push_left(&mut line, name_of(reg), 0, b'\n'),
        None => push_left(&mut line, b"-", 0, b'\n'),
    }
    line
}

fn yes_or_no(is_so: bool) -> &'static [u8]
    ensures text { result.now ≡ yes_or_no is_so }
    ensures short { length result.now ≤ 3 }
{
    if is_so { b"yes" } else { b"no" }
}

/// The line of the regulation that governs the flight, if one does, and of the rule.
fn rule_line(reg: &Option<RegId>, rule: Rule) -> Line
    ensures { result.items ≡ rule_line reg.now rule }
{
    let mut line = Line::new();
    match reg {
        Some(reg) => push_text(&mut line, name_of(reg)),
        None => push_text(&mut line, b"Nothing"),
    }
    push_text(&mut line, rule_text(rule));
    line.push(b'\n');
    line
}

/// The text of an identifier.
fn name_of(reg: &RegId) -> &[u8]
    ensures text { result.now ≡ reg.now }
    ensures short { length result.now ≤ 10 }
{
    let _short = reg.len();
    reg.as_bytes()
}

/// What is said of the regulation that governs a flight, or that none does.
fn rule_text(rule: Rule) -> &'static [u8]
    ensures text { result.now ≡ rule_text rule }
    ensures short { length result.now ≤ 100 }
{
    match rule {
        Rule::GreatestDelay => b" governs: it offers the greatest delay.",
        Rule::SmallestId => {
            b" governs: it offers the greatest delay, and others as much; its identifier is the smallest."
        }
        Rule::SinceEntry =>
            b" governs since the flight entered; if it entered now, another one would.",
        Rule::GovernedGone => b" governs since the flight entered; it is gone now.",
        Rule::Exempt => b" governs: the flight is exempt.",
        Rule::Gone => b" governs: the flight is gone.",
        Rule::Outside => b" governs: the flight is subject to no open regulation.",
    }
}

/// Appends the table of the offers, if there are any.
fn push_offers(text: &mut Vec<u8>, offers: &[Offer]) -> Result<(), AllocError>
    ensures { OnOk result (text.new.items ≡ text.old.items ++ section offer_columns offers.now) }
{
    if offers.is_empty() {
        return Ok(());
    }
    text.extend_from_slice(OFFERS)?;
    for offer in offers {
        text.extend_from_slice(offer_line(offer).as_slice())?;
    }
    Ok(())
}

/// The line of an offer.
fn offer_line(offer: &Offer) -> Line
    ensures { result.items ≡ shown_line offer_columns offer.now }
{
    let mut line = Line::new();
    push_name(&mut line, &offer.id());
    push_time(&mut line, offer.cto().secs());
    push_number(&mut line, offer.delay() as u128, 6, b'\n');
    line
}

/// Appends the table of the slots, if there are any.
fn push_holdings(text: &mut Vec<u8>, holdings: &[Holding]) -> Result<(), AllocError>
    ensures { OnOk result (text.new.items
        ≡ text.old.items ++ section holding_columns holdings.now) }
{
    if holdings.is_empty() {
        return Ok(());
    }
    text.extend_from_slice(HOLDINGS)?;
    for holding in holdings {
        text.extend_from_slice(holding_line(holding).as_slice())?;
    }
    Ok(())
}

/// The line of a slot.
fn holding_line(holding: &Holding) -> Line
    ensures { result.items ≡ shown_line holding_columns holding.now }
{
    let mut line = Line::new();
    push_number(&mut line, holding.slot as u128, 5, b' ');
    push_left(&mut line, &hhmm(holding.begin.secs()), 5, b' ');
    push_holder(&mut line, &holding.holder);
    line
}

/// Appends the flight that has a slot, and whether it may still move, or that nobody has it.
fn push_holder(line: &mut Line, holder: &Option<Member>)
    requires { array_vec_len line.old + 40 ≤ 120 }
    ensures { line.new.items ≡ line.old.items ++ holder_text holder.now }
{
    match holder {
        Some(member) => push_member(line, member),
        None => push_text(line, b"-          -    free\n"),
    }
}

/// Appends a flight, and whether it may still move.
fn push_member(line: &mut Line, member: &Member)
    requires { array_vec_len line.old + 40 ≤ 120 }
    ensures { line.new.items ≡ line.old.items ++ holder_text (Some member.now) }
{
    let stance = member.stance();
    push_name(line, &member.key());
    push_time(line, stance.eto().secs());
    push_left(line, stance_text(&stance), 0, b'\n');
}

/// Whether a flight that stands so keeps its slot, or may still move.
fn stance_text(stance: &Stance) -> &'static [u8]
    ensures text { result.now ≡ stance_text stance.now }
    ensures short { length result.now ≤ 20 }
{
    match stance {
        Stance::Competing { .. } => b"pre: may still move",
        Stance::Issued { .. } => b"issued: fixed",
        Stance::Forced { .. } => b"forced: fixed",
    }
}

/// Appends the table of the exchanges, if there are any.
fn push_exchanges(text: &mut Vec<u8>, exchanges: &[PossibleExchange]) -> Result<(), AllocError>
    ensures { OnOk result (text.new.items
        ≡ text.old.items ++ section exchange_columns exchanges.now) }
{
    if exchanges.is_empty() {
        return Ok(());
    }
    text.extend_from_slice(EXCHANGES)?;
    for exchange in exchanges {
        text.extend_from_slice(exchange_line(exchange).as_slice())?;
    }
    Ok(())
}

/// The line of an exchange.
fn exchange_line(exchange: &PossibleExchange) -> Line
    ensures { result.items ≡ shown_line exchange_columns exchange.now }
{
    let mut line = Line::new();
    push_name(&mut line, &exchange.other);
    push_time(&mut line, exchange.ctot);
    push_left(&mut line, &hhmm(exchange.other_ctot), 0, b'\n');
    line
}
