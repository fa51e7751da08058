//! Tasks that meet, and receipts. By a meeting one thread knows that all its tasks have done stands in one state; by receipts, threads that send each
//! other word know in which order their calls took effect. Neither writes a word. `laws::one_world` says what follows.

ghost use Rattle.std.specs.Prelude.{◌≡◌, ◌++◌, []};

use crate::gates::Gates;
use crate::task::Task;
use gate_steps::call_events::GhostSeat;
use std::marker::Model;

/// What a task has seen, as a value to send to others: by a channel, in a lock, or as a thread's result. It has no bytes. A task that takes it in
/// has seen that too, so its next call comes after it.
///
/// A receipt tells what was, and not that it is so still. The message that carries it says in its type what it tells. It may be dropped.
pub struct Receipt {
    pub(crate) seat: GhostSeat,
}

impl Model for Receipt {
    ghost use Rattle.std.specs.Prelude.{◌≡◌, []};
    ghost use Rattle.vfs_gates.specs.Meetings.{SeenState};

    ghost Value = { SeenState };

    ghost view = { λ r. record { table = r.seat.table_id; seen = r.seat.me.0.seen } };

    ghost invariant = { λ r. (r.seat.me.0.items ≡ []) × (r.seat.me.1 ≡ []) };
}

impl Drop for Receipt {
    fn drop(self) {
        let Receipt { seat: _ } = self;
    }
}

impl Receipt {
    ghost use Rattle.vfs_gates.specs.Meetings.{IsOf};

    /// Makes another receipt of the same. One load.
    pub fn again(&mut self, gates: &Gates) -> Receipt
        requires { IsOf self.old gates.now }
        ensures same { (self.new ≡ self.old) × (result ≡ self.old) }
    {
        let seat = gates.words.receipt(&mut self.seat);
        Receipt { seat }
    }

    fn into_seat(self) -> GhostSeat
        ensures table { result.table_id ≡ self.table }
        ensures items { (result.me.0.items ≡ []) × (result.me.1 ≡ []) }
        ensures seen { result.me.0.seen ≡ self.seen }
    {
        let Receipt { seat } = self;
        seat
    }
}

impl Task {
    ghost use Rattle.vfs_gates.specs.TaskStates.{IsFrom};
    ghost use Rattle.vfs_gates.specs.Meetings.{IsOf, Meets};

    /// Lets two tasks meet: all that either has done stands in one state, which both have seen from then on. Nothing else of them changes, and no
    /// word is written. They may hold what they hold. An operation under way stays one operation. Four loads, of which nothing is used.
    ///
    /// A call's contract speaks of its own task. What the other task holds before the call and after it, it held at each moment of the call: that
    /// follows if the two meet before the call and after it. One meeting serves as the end of one call and the beginning of the next.
    pub fn meet(&mut self, gates: &Gates, other: &mut Task)
        requires this { IsFrom self.old gates.now }
        requires that { IsFrom other.old gates.now }
        ensures { Meets self.old other.old self.new other.new }
    {
        gates.words.meet(&mut self.seat, &mut other.seat);
    }

    /// Makes a receipt of what the task has seen. The task stays as it was. One load.
    pub fn receipt(&mut self, gates: &Gates) -> Receipt
        requires { IsFrom self.old gates.now }
        ensures same { self.new ≡ self.old }
        ensures given { (result.table ≡ self.old.table) × (result.seen ≡ self.old.seen) }
    {
        let seat = gates.words.receipt(&mut self.seat);
        Receipt { seat }
    }

    /// Takes a receipt in: what the task that made it had seen, this one has seen from then on. Nothing else of it changes, and an operation under way
    /// stays one operation. One load.
    pub fn take_in(&mut self, gates: &Gates, receipt: Receipt)
        requires this { IsFrom self.old gates.now }
        requires that { IsOf receipt gates.now }
        ensures { self.new ≡ record self.old { seen = self.old.seen ++ receipt.seen } }
    {
        let seat = receipt.into_seat();
        gates.words.take_back(&mut self.seat, seat);
    }
}
