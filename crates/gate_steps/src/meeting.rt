//! Two seats that meet at the table, and what a seat has seen, as a seat to hand on.

ghost use Rattle.std.specs.Prelude.{◌≡◌, ◌++◌, []};
ghost use Rattle.gate_steps.specs.Rules.{table_length};
ghost use Rattle.gate_steps.specs.Seating.{knows};
ghost use Rattle.gate_steps.specs.Meetings.{StandsNow};

use crate::rule::{Divided, Divides, LookPlay, StepInputs, TableInvariant};
use crate::seating::Knowledge;
use crate::steps::take_back;
use atomic_table::{Seat, Shared};
use gate_world::Config;
use std::marker::Brand;
use std::mem::replace;

/// Divides the numbers of a seat as `J` says. The new seat has the others, and has seen what the seat has. One load.
fn divide_as<J: Divided>(
    shared: &Shared<(), Knowledge, Config, TableInvariant>,
    seat: &mut Seat<(), Knowledge>,
) -> Seat<(), Knowledge>
    requires table { seat.old.table_id ≡ shared.now.table_id }
    requires words { shared.now.table_id.words ≡ table_length }
    requires divided { seat.old.me.0.items ≡ J.mine ++ J.others }
    ensures table { (seat.new.table_id ≡ seat.old.table_id) × (result.table_id ≡ seat.old.table_id) }
    ensures id { seat.new.id ≡ seat.old.id }
    ensures kept { seat.new.me ≡ (knows J.mine seat.old.me.0.seen, seat.old.me.1) }
    ensures given { result.me ≡ (knows J.others seat.old.me.0.seen, []) }
{
    shared.split_seat::<Divides<J>>(seat)
}

/// Looks at the table: the seat's numbers stand in the state of that moment, which it has seen from then on. One load, of any word: what it
/// finds is dropped.
fn look_as<J: StepInputs>(
    shared: &Shared<(), Knowledge, Config, TableInvariant>,
    seat: &mut Seat<(), Knowledge>,
)
    requires config { shared.now.key ≡ J.config }
    requires table { seat.old.table_id ≡ shared.now.table_id }
    requires words { shared.now.table_id.words ≡ table_length }
    ensures table { seat.new.table_id ≡ seat.old.table_id }
    ensures id { seat.new.id ≡ seat.old.id }
    ensures slots { seat.new.me.1 ≡ seat.old.me.1 }
    ensures items { seat.new.me.0.items ≡ seat.old.me.0.items }
    ensures stands { StandsNow shared.now.key seat.old.me.0.items seat.old.me.0.seen seat.new.me.0.seen }
{
    let _ = shared.load::<LookPlay<J>>(seat, 0);
}

/// Makes a seat with no number that has seen what this seat has. The seat itself stays as it was. One load.
pub fn receipt(
    shared: &Shared<(), Knowledge, Config, TableInvariant>,
    seat: &mut Seat<(), Knowledge>,
) -> Seat<(), Knowledge>
    requires table { seat.old.table_id ≡ shared.now.table_id }
    requires words { shared.now.table_id.words ≡ table_length }
    ensures table { (seat.new.table_id ≡ seat.old.table_id) × (result.table_id ≡ seat.old.table_id) }
    ensures id { seat.new.id ≡ seat.old.id }
    ensures kept { seat.new.me ≡ seat.old.me }
    ensures given { result.me ≡ (knows [] seat.old.me.0.seen, []) }
{
    divide_as::<Brand>(shared, seat)
}

/// Lets two seats with these numbers meet.
fn meet_as<J: Divided>(
    shared: &Shared<(), Knowledge, Config, TableInvariant>,
    one: &mut Seat<(), Knowledge>,
    two: &mut Seat<(), Knowledge>,
)
    requires these { (one.old.me.0.items ≡ J.mine) × (two.old.me.0.items ≡ J.others) }
    requires table { (one.old.table_id ≡ shared.now.table_id) × (two.old.table_id ≡ shared.now.table_id) }
    requires words { shared.now.table_id.words ≡ table_length }
    requires slots { (one.old.me.1 ≡ []) × (two.old.me.1 ≡ []) }
    ensures table { (one.new.table_id ≡ one.old.table_id) × (two.new.table_id ≡ two.old.table_id) }
    ensures slots { (one.new.me.1 ≡ []) × (two.new.me.1 ≡ []) }
    ensures items { (one.new.me.0.items ≡ one.old.me.0.items) × (two.new.me.0.items ≡ two.old.me.0.items) }
    ensures seen { two.new.me.0.seen ≡ one.new.me.0.seen }
    ensures stand { StandsNow shared.now.key (one.old.me.0.items ++ two.old.me.0.items) (one.old.me.0.seen ++ two.old.me.0.seen) one.new.me.0.seen }
{
    // A seat behind `&mut` can't be moved out, so a seat with no number stands in for it while the two are one.
    let empty = receipt(shared, one);
    let other = replace(two, empty);
    take_back(shared, one, other);
    look_as::<Brand>(shared, one);
    let back = divide_as::<J>(shared, one);
    *two = back;
}

/// Lets two seats meet: the numbers of both stand in one state, which goes on from all that either had seen. Both have seen it from then
/// on. Nothing else of them changes. Four loads.
pub fn meet(
    shared: &Shared<(), Knowledge, Config, TableInvariant>,
    one: &mut Seat<(), Knowledge>,
    two: &mut Seat<(), Knowledge>,
)
    requires table { (one.old.table_id ≡ shared.now.table_id) × (two.old.table_id ≡ shared.now.table_id) }
    requires words { shared.now.table_id.words ≡ table_length }
    requires slots { (one.old.me.1 ≡ []) × (two.old.me.1 ≡ []) }
    ensures table { (one.new.table_id ≡ one.old.table_id) × (two.new.table_id ≡ two.old.table_id) }
    ensures slots { (one.new.me.1 ≡ []) × (two.new.me.1 ≡ []) }
    ensures items { (one.new.me.0.items ≡ one.old.me.0.items) × (two.new.me.0.items ≡ two.old.me.0.items) }
    ensures seen { two.new.me.0.seen ≡ one.new.me.0.seen }
    ensures stand { StandsNow shared.now.key (one.old.me.0.items ++ two.old.me.0.items) (one.old.me.0.seen ++ two.old.me.0.seen) one.new.me.0.seen }
{
    meet_as::<Brand>(shared, one, two);
}
