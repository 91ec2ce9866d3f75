//! What is said of a flight: where it flies, why it waits, and with which flights it could exchange its slot.

ghost use Rattle.std.specs.Prelude.{◌≡◌, ◌++◌, OnOk, Some};
ghost use Rattle.casa_json.specs.Flights.{crossing_data, exchange_data, holder_text, holding_data, offer_data, rule_name};

use crate::values::Json;
use casa_flight::{Crossing, Key, Offer, Stance};
use casa_inquiry::{Holding, PossibleExchange, Rule};
use casa_list::Member;
use casa_wire::{Part, kind_name, push_parts, push_text};
use std::alloc::AllocError;

/// The name of a rule.
pub fn rule_name(rule: Rule) -> &'static str
    ensures { result.now ≡ rule_name rule }
{
    match rule {
        Rule::GreatestDelay => "GreatestDelay",
        Rule::SmallestId => "SmallestId",
        Rule::SinceEntry => "SinceEntry",
        Rule::GovernedGone => "GovernedGone",
        Rule::Exempt => "Exempt",
        Rule::Gone => "Gone",
        Rule::Outside => "Outside",
    }
}

impl Json for Crossing {
    ghost value = { crossing_data };

    fn push_json(&self, out: &mut Vec<u8>) -> Result<(), AllocError> {
        push_parts(
            out,
            &[
                Part::Text(b"{\"eto\":"),
                Part::Number(self.eto.secs() as u64),
                Part::Text(b",\"loc\":"),
                Part::Name(self.loc.as_bytes()),
                Part::Text(b"}"),
            ],
        )?;
        Ok(())
    }
}

impl Json for Offer {
    ghost value = { offer_data };

    fn push_json(&self, out: &mut Vec<u8>) -> Result<(), AllocError> {
        let id = self.id();
        push_parts(
            out,
            &[
                Part::Text(b"{\"cto\":"),
                Part::Number(self.cto().secs() as u64),
                Part::Text(b",\"delay\":"),
                Part::Number(self.delay() as u64),
                Part::Text(b",\"reg\":"),
                Part::Name(id.as_bytes()),
                Part::Text(b"}"),
            ],
        )?;
        Ok(())
    }
}

impl Json for Holding {
    ghost value = { holding_data };

    fn push_json(&self, out: &mut Vec<u8>) -> Result<(), AllocError> {
        push_parts(
            out,
            &[
                Part::Text(b"{\"begin\":"),
                Part::Number(self.begin.secs() as u64),
            ],
        )?;
        push_holder(out, &self.holder)?;
        push_parts(
            out,
            &[
                Part::Text(b",\"slot\":"),
                Part::Number(self.slot as u64),
                Part::Text(b"}"),
            ],
        )?;
        Ok(())
    }
}

/// Writes the members of a slot that tell who has it.
fn push_holder(out: &mut Vec<u8>, holder: &Option<Member>) -> Result<(), AllocError>
    ensures { OnOk result (out.new.items ≡ out.old.items ++ holder_text holder.now) }
{
    match holder {
        None => push_text(out, b",\"eto\":null,\"key\":null,\"kind\":null")?,
        Some(member) => push_member(out, &member.key(), &member.stance())?,
    }
    Ok(())
}

/// Writes these members where the flight with this key has the slot, and stands so.
fn push_member(out: &mut Vec<u8>, key: &Key, stance: &Stance) -> Result<(), AllocError>
    ensures { OnOk result (out.new.items
        ≡ out.old.items ++ holder_text (Some (key.now, stance.now))) }
{
    push_parts(
        out,
        &[
            Part::Text(b",\"eto\":"),
            Part::Number(stance.eto().secs() as u64),
            Part::Text(b",\"key\":"),
            Part::Name(key.as_bytes()),
            Part::Text(b",\"kind\":"),
            Part::Name(kind_name(stance.kind()).as_bytes()),
        ],
    )?;
    Ok(())
}

impl Json for PossibleExchange {
    ghost value = { exchange_data };

    fn push_json(&self, out: &mut Vec<u8>) -> Result<(), AllocError> {
        push_parts(
            out,
            &[
                Part::Text(b"{\"ctot\":"),
                Part::Number(self.ctot as u64),
                Part::Text(b",\"other\":"),
                Part::Name(self.other.as_bytes()),
                Part::Text(b",\"other_ctot\":"),
                Part::Number(self.other_ctot as u64),
                Part::Text(b"}"),
            ],
        )?;
        Ok(())
    }
}
