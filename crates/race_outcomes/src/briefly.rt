//! The outcomes of a race, told briefly: a line for each.

ghost use Rattle.std.specs.Prelude.{◌≡◌, true, IfOk, length, map};
ghost use Rattle.std.specs.List.{flat_map};
ghost use Rattle.race_outcomes.specs.Briefly.{TellsBriefly, counted, counts_text, line_of};
ghost use Rattle.schedule_lines.specs.Printed.{Prints};

use crate::listing::{Method, Outcome, OutcomeListing, SearchPlan, list};
use exploration::{Stop, Unobserved};
use gate_core::Core;
use races::Race;
use schedule_lines::Output;
use std::alloc::Global;

/// Prints the outcomes of a race on this core, of no more states than the limit: how many states and outcomes there are, and then a line for each
/// outcome. Returns whether these are all.
///
/// # Errors
///
/// As `list`.
pub fn print_briefly(
    alloc: Global,
    race: &Race,
    core: Core,
    limit: usize,
    out: &mut Output,
) -> Result<bool, Stop>
    requires { race.now.tasks ≡ core.config.tasks }
    ensures { IfOk result (λ are_all. are_all ≡ true → TellsBriefly core race.now.calls.items out.old.bytes.items out.new.bytes.items) }
{
    let plan = SearchPlan {
        limit,
        method: Method::Reduced,
    };
    let listing = list(alloc, race, core, plan, &mut Unobserved)?;
    let are_all = listing.all.found.is_whole();
    print_counts(&listing, out);
    print_lines(listing.outcomes.as_slice(), out);
    out.settled()?;
    Ok(are_all)
}

/// Prints how many states and outcomes there are.
#[tactic(auto, unfolding(crate::specs::Briefly::counts_text))]
pub fn print_counts(listing: &OutcomeListing, out: &mut Output)
    ensures { Prints out.old out.new (counts_text (length listing.now.all.found.states) (length listing.now.outcomes.items)) }
{
    print_count(listing.all.found.states.len(), b"state", out);
    out.text(b", ");
    print_count(listing.outcomes.len(), b"outcome", out);
    out.text(b"\n");
}

/// Prints so many of what has this name.
#[tactic(auto, unfolding(crate::specs::Briefly::counted))]
pub fn print_count(count: usize, name: &[u8], out: &mut Output)
    ensures { Prints out.old out.new (counted count name.now) }
{
    out.number(count as u64);
    out.text(b" ");
    out.text(name);
    if count != 1 {
        out.text(b"s");
    }
}

/// Prints a line for each outcome.
fn print_lines(outcomes: &[Outcome], out: &mut Output)
    ensures { Prints out.old out.new (flat_map line_of (map (λ outcome. outcome.text.items) outcomes.now)) }
{
    for outcome in outcomes {
        out.line(outcome.text.as_slice());
    }
}
