//! The lines of a race's file that claim something.

ghost use Rattle.std.specs.Prelude.{◌≡◌, ◌≤◌, IfOk, IfErr, IfSome, Ok, option_map};
ghost use Rattle.race_conditions.specs.ClaimText.{claim_of, told_of};
ghost use Rattle.race_conditions.specs.Conditions.{formula_of};
ghost use Rattle.race_conditions.specs.Named.{AllNamed};
ghost use Rattle.race_conditions.specs.Parsing.{IsFaultOf};

use crate::faults::ConditionFault;
use crate::parsing::{Names, parse};
use crate::{Claim, ClaimKind};
use schedule_lines::words::{after_word, first_word};
use std::alloc::Global;

/// Reads what a line claims of a race that has these names; None where it claims nothing. The first word says what is claimed, and the
/// condition stands behind it.
///
/// # Errors
///
/// What is expected first where the condition says something else, or that memory was refused.
#[tactic(auto, unfolding(crate::specs::ClaimText::claim_of))]
pub fn parse_claim(
    alloc: Global,
    names: &Names,
    line: &[u8],
) -> Result<Option<Claim>, ConditionFault>
    requires { names.now.config.nodes ≤ 64 }
    ensures read { IfOk result (λ found. claim_of names.now.config names.now.calls.items line.now ≡ Ok (option_map told_of found)) }
    ensures named { IfOk result (λ found. IfSome found (λ claim. AllNamed names.now.config (formula_of claim.condition))) }
    ensures fault { IfErr result (IsFaultOf (claim_of names.now.config names.now.calls.items line.now)) }
{
    let Some(kind) = ClaimKind::named(first_word(line)) else {
        return Ok(None);
    };
    let condition = parse(alloc, names, after_word(line))?;
    Ok(Some(Claim { kind, condition }))
}
