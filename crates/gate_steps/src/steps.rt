//! Each step of a phase as one atomic step, and numbers that go from seat to seat.

ghost use Rattle.std.specs.Prelude.{◌≡◌, ◌<◌, []};
ghost use Rattle.cpu_words.specs.Names.{place, words_in_all};
ghost use Rattle.cpu_words.specs.Touches.{event_of, found_by};
ghost use Rattle.gate_world.specs.Work.{next_of};
ghost use Rattle.gate_steps.specs.Rules.{table_index, table_length};
ghost use Rattle.gate_steps.specs.Seating.{OwnNumberMayStep, HasWitness, items_after, Spares, known_kept, known_given, known_both};

use crate::rule::{Given, Gives, StepInputs, StepPlay, TableInvariant, TakesBack};
use crate::seating::Knowledge;
use atomic_table::{Seat, Shared};
use cpu_words::{Event, STRIDE, Touch, WordName};
use gate_transitions::PendingOp;
use gate_world::{Config, Op};
use std::marker::Brand;

/// Where a word lies in the table: words lie apart, each in cache lines of its own.
#[inline(always)]
pub fn index_of(word: WordName) -> usize
    ensures { result ≡ table_index (place word) }
{
    STRIDE * word.place()
}

/// The step of that moment, which is known to touch this word so. What it found; of a store, what it wrote.
#[inline(always)]
fn touch_at<J: StepInputs, P: PendingOp>(
    shared: &Shared<(), Knowledge, Config, TableInvariant>,
    seat: &mut Seat<(), Knowledge>,
    begins: Option<Op>,
    under_way: P,
    hook: Result<(), u16>,
    word: WordName,
    touch: Touch,
) -> u64
    requires config { shared.now.key ≡ J.config }
    requires begins { begins ≡ J.begins }
    requires phase { P.as_phase under_way ≡ J.phase }
    requires hook { hook ≡ J.hook }
    requires known { (word, touch) ≡ next_of (P.as_phase under_way) hook }
    requires table { seat.old.table_id ≡ shared.now.table_id }
    requires words { shared.now.table_id.words ≡ table_length }
    requires inside { place (next_of (P.as_phase under_way) hook).0 < words_in_all }
    requires acts { OwnNumberMayStep shared.now.key begins (P.as_phase under_way) seat.old.me.0.items }
    ensures table { seat.new.table_id ≡ seat.old.table_id }
    ensures id { seat.new.id ≡ seat.old.id }
    ensures found { found_by touch result ≡ result }
    ensures event { seat.new.me.0.items ≡ items_after begins (P.as_phase under_way) hook result seat.old.me.0.items }
    ensures moves { HasWitness shared.now.key begins (P.as_phase under_way) hook seat.old.me.0.items result seat.old.me.0.seen seat.new.me.0.seen }
    ensures slots { seat.new.me.1 ≡ seat.old.me.1 }
{
    let _ = (begins, under_way, hook);
    let i = index_of(word);
    match touch {
        Touch::Load => shared.load::<StepPlay<J>>(seat, i),
        Touch::Store(new) => {
            shared.store::<StepPlay<J>>(seat, i, new);
            new
        }
        Touch::Add(by) => shared.fetch_add::<StepPlay<J>>(seat, i, by),
        Touch::Sub(by) => shared.fetch_sub::<StepPlay<J>>(seat, i, by),
        Touch::Or(bits) => shared.fetch_or::<StepPlay<J>>(seat, i, bits),
        Touch::And(bits) => shared.fetch_and::<StepPlay<J>>(seat, i, bits),
        Touch::Swap(new) => shared.swap::<StepPlay<J>>(seat, i, new),
        Touch::Cas { expect, put } => {
            shared.compare_exchange::<StepPlay<J>>(seat, i, expect, put)
        }
    }
}

/// The next step of the seat's own number, which is known to touch this word so, in one atomic step. What it found; of a store, what it
/// wrote.
#[inline(always)]
pub fn touch<P: PendingOp>(
    shared: &Shared<(), Knowledge, Config, TableInvariant>,
    seat: &mut Seat<(), Knowledge>,
    begins: Option<Op>,
    under_way: P,
    hook: Result<(), u16>,
    word: WordName,
    touch: Touch,
) -> u64
    requires known { (word, touch) ≡ next_of (P.as_phase under_way) hook }
    requires table { seat.old.table_id ≡ shared.now.table_id }
    requires words { shared.now.table_id.words ≡ table_length }
    requires inside { place (next_of (P.as_phase under_way) hook).0 < words_in_all }
    requires acts { OwnNumberMayStep shared.now.key begins (P.as_phase under_way) seat.old.me.0.items }
    ensures table { seat.new.table_id ≡ seat.old.table_id }
    ensures id { seat.new.id ≡ seat.old.id }
    ensures found { found_by touch result ≡ result }
    ensures event { seat.new.me.0.items ≡ items_after begins (P.as_phase under_way) hook result seat.old.me.0.items }
    ensures moves { HasWitness shared.now.key begins (P.as_phase under_way) hook seat.old.me.0.items result seat.old.me.0.seen seat.new.me.0.seen }
    ensures slots { seat.new.me.1 ≡ seat.old.me.1 }
{
    touch_at::<Brand, P>(shared, seat, begins, under_way, hook, word, touch)
}

/// The next step of the seat's own number, in one atomic step. An operation that has begun stands in `begins` until its first
/// step, and None stands there from then on.
#[inline(always)]
pub fn event<P: PendingOp>(
    shared: &Shared<(), Knowledge, Config, TableInvariant>,
    seat: &mut Seat<(), Knowledge>,
    begins: Option<Op>,
    under_way: P,
    hook: Result<(), u16>,
) -> Event
    requires table { seat.old.table_id ≡ shared.now.table_id }
    requires words { shared.now.table_id.words ≡ table_length }
    requires inside { place (next_of (P.as_phase under_way) hook).0 < words_in_all }
    requires acts { OwnNumberMayStep shared.now.key begins (P.as_phase under_way) seat.old.me.0.items }
    ensures table { seat.new.table_id ≡ seat.old.table_id }
    ensures id { seat.new.id ≡ seat.old.id }
    ensures is { result ≡ event_of (next_of (P.as_phase under_way) hook).0 (next_of (P.as_phase under_way) hook).1 result.found }
    ensures event { seat.new.me.0.items ≡ items_after begins (P.as_phase under_way) hook result.found seat.old.me.0.items }
    ensures moves { HasWitness shared.now.key begins (P.as_phase under_way) hook seat.old.me.0.items result.found seat.old.me.0.seen seat.new.me.0.seen }
    ensures slots { seat.new.me.1 ≡ seat.old.me.1 }
{
    let (word, how) = under_way.next(hook);
    let found = touch(shared, seat, begins, under_way, hook, word, how);
    how.event(word, found)
}

fn give_as<J: Given>(
    shared: &Shared<(), Knowledge, Config, TableInvariant>,
    seat: &mut Seat<(), Knowledge>,
    number: u8,
) -> Seat<(), Knowledge>
    requires number { number ≡ J.number }
    requires table { seat.old.table_id ≡ shared.now.table_id }
    requires words { shared.now.table_id.words ≡ table_length }
    requires spare { Spares number seat.old.me.0.items }
    ensures table { (seat.new.table_id ≡ seat.old.table_id) × (result.table_id ≡ seat.old.table_id) }
    ensures id { seat.new.id ≡ seat.old.id }
    ensures kept { seat.new.me ≡ (known_kept number seat.old.me.0, seat.old.me.1) }
    ensures given { result.me ≡ (known_given number seat.old.me.0, []) }
{
    shared.split_seat::<Gives<J>>(seat)
}

/// A new seat with one of the numbers that the seat has to give. One load.
pub fn give(
    shared: &Shared<(), Knowledge, Config, TableInvariant>,
    seat: &mut Seat<(), Knowledge>,
    number: u8,
) -> Seat<(), Knowledge>
    requires table { seat.old.table_id ≡ shared.now.table_id }
    requires words { shared.now.table_id.words ≡ table_length }
    requires spare { Spares number seat.old.me.0.items }
    ensures table { (seat.new.table_id ≡ seat.old.table_id) × (result.table_id ≡ seat.old.table_id) }
    ensures id { seat.new.id ≡ seat.old.id }
    ensures kept { seat.new.me ≡ (known_kept number seat.old.me.0, seat.old.me.1) }
    ensures given { result.me ≡ (known_given number seat.old.me.0, []) }
{
    give_as::<Brand>(shared, seat, number)
}

/// All numbers of the other seat come back. One load.
pub fn take_back(
    shared: &Shared<(), Knowledge, Config, TableInvariant>,
    seat: &mut Seat<(), Knowledge>,
    other: Seat<(), Knowledge>,
)
    requires table { (seat.old.table_id ≡ shared.now.table_id) × (other.table_id ≡ shared.now.table_id) }
    requires words { shared.now.table_id.words ≡ table_length }
    requires slots { other.me.1 ≡ [] }
    ensures table { seat.new.table_id ≡ seat.old.table_id }
    ensures id { seat.new.id ≡ seat.old.id }
    ensures joined { seat.new.me ≡ (known_both seat.old.me.0 other.me.0, seat.old.me.1) }
{
    shared.join_seat::<TakesBack>(seat, other)
}
