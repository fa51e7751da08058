//! Answers as numbers.

ghost use Rattle.std.specs.Prelude.{◌≡◌, ◌<◌, OnErr};
ghost use Rattle.mntgate_c.specs.Codes.{answer_of, answer_with, begun_at, holder_of, hook_answer, hook_number, progress_at};

use vfs_gates::{GateError, Holder, HookKind, Progress, Reply};

/// From here on a number is the code of a hook that failed, so that a hook's 16 isn't EBUSY.
const HOOK: u32 = 65_536;

/// Why a call was refused: the errno, and for a hook its code added to `HOOK`.
fn refusal_code(refusal: GateError) -> u32
    ensures { answer_of result ≡ Err refusal }
{
    match refusal {
        GateError::Hook(code) => HOOK + u32::from(code),
        _ => u32::from(refusal.number()),
    }
}

/// Returns 0, or why a call was refused: an errno, or if a hook failed, its code added to 65,536.
pub fn code(answer: Result<(), GateError>) -> u32
    ensures { answer_of result ≡ answer }
{
    match answer {
        Ok(()) => 0,
        Err(refusal) => refusal_code(refusal),
    }
}

/// Returns the holder of a freeze: the kernel, or else user space.
pub fn holder(by_kernel: bool) -> Holder
    ensures { result ≡ holder_of by_kernel }
{
    if by_kernel {
        Holder::Kernel
    } else {
        Holder::User
    }
}

/// Returns which hook is asked: 1 sync, 2 freeze_fs, 3 unfreeze_fs, 4 reconfigure, 5 keep_waiting, and 0 for none.
pub fn hook_code(asked: Option<HookKind>) -> u32
    ensures { result ≡ hook_number asked }
{
    match asked {
        None => 0,
        Some(HookKind::Sync) => 1,
        Some(HookKind::FreezeFs) => 2,
        Some(HookKind::UnfreezeFs) => 3,
        Some(HookKind::Reconfigure) => 4,
        Some(HookKind::KeepWaiting) => 5,
    }
}

/// Returns what a hook answered that C names: 0 is Ok, any other number the code of its failure.
pub fn answer(hook: u16) -> Result<(), u16>
    ensures { result ≡ hook_answer hook }
{
    if hook == 0 { Ok(()) } else { Err(hook) }
}

/// How an operation stands.
#[repr(C)]
#[derive(Drop)]
pub struct Outcome {
    /// 0 nothing is under way, 1 it goes on, 2 it waits, 3 it is done.
    pub progress: u32,
    /// Where it is done, 0 or why it was refused.
    pub answer: u32,
    /// Where it was not refused: 0 done, 1 a node was taken, 2 whether a callback ran, 3 a snapshot was taken.
    pub reply: u32,
    /// The node, or 1 where a callback ran.
    pub value: u32,
}

/// Returns the record of how an operation stands.
pub fn tell(progress: Progress) -> Outcome
    ensures { progress_at result ≡ progress }
{
    let mut outcome = Outcome {
        progress: 0,
        answer: 0,
        reply: 0,
        value: 0,
    };
    match progress {
        Progress::Idle => {}
        Progress::Going => outcome.progress = 1,
        Progress::Waiting => outcome.progress = 2,
        Progress::Done(Err(refusal)) => {
            outcome.progress = 3;
            outcome.answer = refusal_code(refusal);
        }
        Progress::Done(Ok(Reply::Unit)) => outcome.progress = 3,
        Progress::Done(Ok(Reply::Node(node))) => {
            outcome.progress = 3;
            outcome.reply = 1;
            outcome.value = u32::from(node);
        }
        Progress::Done(Ok(Reply::Ran(ran))) => {
            outcome.progress = 3;
            outcome.reply = 2;
            outcome.value = u32::from(ran);
        }
        Progress::Done(Ok(Reply::Tree)) => {
            outcome.progress = 3;
            outcome.reply = 3;
        }
    }
    outcome
}

/// Writes how an operation stands that has begun; nothing if it was refused. Returns 0, or why it was.
#[inline]
pub fn begun(answer: Result<Progress, GateError>, outcome: &mut Outcome) -> u32
    ensures begun { begun_at result outcome.new ≡ answer }
    ensures refused { OnErr (answer_of result) (outcome.new ≡ outcome.old) }
{
    match answer {
        Ok(progress) => {
            *outcome = tell(progress);
            0
        }
        Err(refusal) => refusal_code(refusal),
    }
}

/// Writes the number of the node that was made; nothing if its call was refused. Returns 0, or why it was.
#[inline]
pub fn made(answer: Result<u8, GateError>, node: &mut u8) -> u32
    ensures made { answer_with result node.new ≡ answer }
    ensures refused { OnErr (answer_of result) (node.new ≡ node.old) }
{
    match answer {
        Ok(number) => {
            *node = number;
            0
        }
        Err(refusal) => refusal_code(refusal),
    }
}
