//! How an operation ends, and what comes after a step.

ghost use Rattle.std.specs.Prelude.{◌≡◌};
ghost use Rattle.access_model.specs.Replies.{map_next};

use crate::actions::Action;
use crate::errors::GateError;

/// What an operation answers where it isn't refused.
#[derive(Clone, Copy, PartialEq, Eq, Debug)]
pub enum Reply {
    /// Done.
    Unit,
    /// The number of the node that was created.
    Node(u8),
    /// Whether a callback ran.
    Ran(bool),
    /// A snapshot was taken.
    Tree,
}

/// What comes after a step: another phase, the same or another phase after a look in vain, or the end.
#[derive(Clone, Copy)]
pub enum Next<P> {
    /// The operation goes on with this phase.
    Go(P),
    /// The step found that the task has to look or try again, with this phase.
    Wait(P),
    /// The operation has ended.
    Done(Result<Reply, GateError>),
}

impl<P> Next<P> {
    /// Replaces the phase by what this function gives for it. So what comes after a step of a layer becomes what comes after it in an
    /// operation that the layer is a part of.
    #[inline(always)]
    pub fn map<Q, F: FnOnce(P) -> Q>(self, to: F) -> Next<Q>
        requires { F.IsAlwaysCallable to }
        ensures { (phase_for : P → Q) → ((x : P) (y : Q) → F.post to x y → y ≡ phase_for x) → result ≡ map_next phase_for self }
    {
        match self {
            Next::Go(phase) => Next::Go(to(phase)),
            Next::Wait(phase) => Next::Wait(to(phase)),
            Next::Done(answer) => Next::Done(answer),
        }
    }
}

/// What comes after a step of a layer, with the action that it adds, as what comes after it in an operation that the layer is a part of.
#[inline(always)]
pub fn map_after<P, Q, F: FnOnce(P) -> Q>(
    after: (Next<P>, Option<Action>),
    to: F,
) -> (Next<Q>, Option<Action>)
    requires { F.IsAlwaysCallable to }
    ensures { (phase_for : P → Q) → ((x : P) (y : Q) → F.post to x y → y ≡ phase_for x) →
        result ≡ (map_next phase_for after.0, after.1) }
{
    let (next, action) = after;
    (next.map(to), action)
}
