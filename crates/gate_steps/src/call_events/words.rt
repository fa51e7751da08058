//! The words that all threads share, and a seat at their table.

ghost use Rattle.std.specs.Prelude.{◌≡◌, ◌<◌, ◌++◌, [], IfOk};
ghost use Rattle.std.specs.Slots.{slots_items, slots_len, IsFull};
ghost use Rattle.cpu_words.specs.Names.{place, words_in_all};
ghost use Rattle.cpu_words.specs.Touches.{event_of, found_by};
ghost use Rattle.gate_world.specs.Configs.{IsWithin};
ghost use Rattle.gate_world.specs.Work.{next_of};
ghost use Rattle.gate_steps.specs.Rules.{first_known, table_length};
ghost use Rattle.gate_steps.specs.Meetings.{StandsNow};
ghost use Rattle.gate_steps.specs.Tables.{IsClosing};
ghost use Rattle.gate_steps.specs.Seating.{OwnNumberMayStep, HasWitness, items_after, Spares, knows, known_kept, known_given, known_both};

use crate::{Closed, GateTable, Knowledge};
use cpu_words::{Event, Touch, WordName};
use gate_transitions::PendingOp;
use gate_world::{Config, Op};
use std::alloc::{AllocError, Global};

/// The seat of a task at the table.
pub type GhostSeat = atomic_table::Seat<(), Knowledge>;

/// All words of the gates, with the configuration that they have. Nothing outside this file reaches the table: a word is loaded or changed by
/// `event` alone, in one atomic step that stands in its task's trace.
#[derive(Drop)]
pub struct GateWords {
    table: GateTable,
    /// How many tasks, processors, mounts, nodes and blocks there are.
    pub config: Config,
    ghost key: { table.shared.key ≡ config },
    ghost words: { table.shared.table_id.words ≡ table_length },
    ghost no_slots: { table.shared.table_id.slots ≡ 0 },
    ghost within: { IsWithin config },
}

impl GateWords {
    /// All words as they begin, and the seat of number 0, which has all others to give.
    pub fn open(alloc: Global, config: Config) -> Result<(GateWords, GhostSeat), AllocError>
        requires { IsWithin config }
        ensures config { IfOk result (λ t. t.0.config ≡ config) }
        ensures seat { IfOk result (λ t.
            (t.1.table_id ≡ t.0.table.shared.table_id) × (t.1.id ≡ 0) × (t.1.me ≡ (first_known config, []))) }
    {
        let (table, seat) = crate::open(alloc, &config)?;
        Ok((GateWords { table, config }, seat))
    }

    /// The next step of the seat's own number, in one atomic step (`crate::event`).
    #[inline(always)]
    pub(crate) fn event<P: PendingOp>(
        &self,
        seat: &mut GhostSeat,
        begins: Option<Op>,
        under_way: P,
        hook: Result<(), u16>,
    ) -> Event
        requires table { seat.old.table_id ≡ self.now.table.shared.table_id }
        requires inside { place (next_of (P.as_phase under_way) hook).0 < words_in_all }
        requires acts { OwnNumberMayStep self.now.table.shared.key begins (P.as_phase under_way) seat.old.me.0.items }
        ensures table { seat.new.table_id ≡ seat.old.table_id }
        ensures is { result ≡ event_of (next_of (P.as_phase under_way) hook).0 (next_of (P.as_phase under_way) hook).1 result.found }
        ensures event { seat.new.me.0.items ≡ items_after begins (P.as_phase under_way) hook result.found seat.old.me.0.items }
        ensures moves { HasWitness self.now.table.shared.key begins (P.as_phase under_way) hook seat.old.me.0.items result.found seat.old.me.0.seen seat.new.me.0.seen }
        ensures slots { seat.new.me.1 ≡ seat.old.me.1 }
    {
        crate::event(&self.table.shared, seat, begins, under_way, hook)
    }

    /// The next step of the seat's own number, which is known to touch this word so (`crate::touch`). What it found; of a store, what it wrote.
    #[inline(always)]
    pub(crate) fn touch<P: PendingOp>(
        &self,
        seat: &mut GhostSeat,
        begins: Option<Op>,
        under_way: P,
        hook: Result<(), u16>,
        word: WordName,
        touch: Touch,
    ) -> u64
        requires known { (word, touch) ≡ next_of (P.as_phase under_way) hook }
        requires table { seat.old.table_id ≡ self.now.table.shared.table_id }
        requires inside { place (next_of (P.as_phase under_way) hook).0 < words_in_all }
        requires acts { OwnNumberMayStep self.now.table.shared.key begins (P.as_phase under_way) seat.old.me.0.items }
        ensures table { seat.new.table_id ≡ seat.old.table_id }
        ensures found { found_by touch result ≡ result }
        ensures event { seat.new.me.0.items ≡ items_after begins (P.as_phase under_way) hook result seat.old.me.0.items }
        ensures moves { HasWitness self.now.table.shared.key begins (P.as_phase under_way) hook seat.old.me.0.items result seat.old.me.0.seen seat.new.me.0.seen }
        ensures slots { seat.new.me.1 ≡ seat.old.me.1 }
    {
        crate::touch(
            &self.table.shared,
            seat,
            begins,
            under_way,
            hook,
            word,
            touch,
        )
    }

    /// A new seat with one of the numbers that the seat has to give.
    pub fn give(&self, seat: &mut GhostSeat, number: u8) -> GhostSeat
        requires table { seat.old.table_id ≡ self.now.table.shared.table_id }
        requires spare { Spares number seat.old.me.0.items }
        ensures table { (seat.new.table_id ≡ seat.old.table_id) × (result.table_id ≡ seat.old.table_id) }
        ensures kept { seat.new.me ≡ (known_kept number seat.old.me.0, seat.old.me.1) }
        ensures given { result.me ≡ (known_given number seat.old.me.0, []) }
    {
        crate::give(&self.table.shared, seat, number)
    }

    /// All numbers of the other seat come back.
    pub fn take_back(&self, seat: &mut GhostSeat, other: GhostSeat)
        requires table { (seat.old.table_id ≡ self.now.table.shared.table_id) × (other.table_id ≡ self.now.table.shared.table_id) }
        requires slots { other.me.1 ≡ [] }
        ensures table { seat.new.table_id ≡ seat.old.table_id }
        ensures joined { seat.new.me ≡ (known_both seat.old.me.0 other.me.0, seat.old.me.1) }
    {
        crate::take_back(&self.table.shared, seat, other);
    }

    /// Makes a seat with no number that has seen what this seat has.
    pub fn receipt(&self, seat: &mut GhostSeat) -> GhostSeat
        requires table { seat.old.table_id ≡ self.now.table.shared.table_id }
        ensures table { (seat.new.table_id ≡ seat.old.table_id) × (result.table_id ≡ seat.old.table_id) }
        ensures kept { seat.new.me ≡ seat.old.me }
        ensures given { result.me ≡ (knows [] seat.old.me.0.seen, []) }
    {
        crate::receipt(&self.table.shared, seat)
    }

    /// Lets two seats meet: the numbers of both stand in one state, which both have seen from then on.
    pub fn meet(&self, one: &mut GhostSeat, two: &mut GhostSeat)
        requires table { (one.old.table_id ≡ self.now.table.shared.table_id) × (two.old.table_id ≡ self.now.table.shared.table_id) }
        requires slots { (one.old.me.1 ≡ []) × (two.old.me.1 ≡ []) }
        ensures table { (one.new.table_id ≡ one.old.table_id) × (two.new.table_id ≡ two.old.table_id) }
        ensures slots { (one.new.me.1 ≡ []) × (two.new.me.1 ≡ []) }
        ensures items { (one.new.me.0.items ≡ one.old.me.0.items) × (two.new.me.0.items ≡ two.old.me.0.items) }
        ensures seen { two.new.me.0.seen ≡ one.new.me.0.seen }
        ensures stand { StandsNow self.now.config (one.old.me.0.items ++ two.old.me.0.items) (one.old.me.0.seen ++ two.old.me.0.seen) one.new.me.0.seen }
    {
        crate::meet(&self.table.shared, one, two);
    }

    /// The words, which no thread shares any more.
    pub fn close(self, seat: GhostSeat) -> Closed
        requires { seat.table_id ≡ self.table.shared.table_id }
        ensures counts { (slots_len result.words ≡ self.table.shared.table_id.words) × (slots_len result.slots ≡ self.table.shared.table_id.slots) }
        ensures full { IsFull result.words × IsFull result.slots }
        ensures closing { IsClosing self.table.shared.key (slots_items result.words) seat.me.0 }
    {
        let GateWords { table, config: _ } = self;
        crate::close(table, seat)
    }
}
