//! The refusals before the first step, and those of tasks, gates and runs.

pub(crate) const ROWS: &str = "\
want trywant wantwrite drop dropwrite start trystart end callback change trychange remount freeze thaw create remove grow move fault flush open close tryclose snapshot trysnapshot: Order, before the first step
means: The task has an operation under way, or lacks or holds what the call doesn't allow. The table \"Before the first step\" tells what each call needs.
state now: Unchanged: no step was done. So a drop, an end or a close has given nothing back. An operation under way stays under way.
do next: It is a fault of the program: mend it.
never: try again: no retry helps.
in Linux: The kernel has no such error: there it is a deadlock or a count that goes wrong. A kernel built with lockdep reports it in `dmesg`.

want trywant wantwrite drop dropwrite start trystart end callback change trychange create remove grow move fault flush open close tryclose: Invalid, before the first step
means: There is no such mount, processor, level or node, or it is a grow by no block.
state now: Unchanged: no step was done. So a drop, an end or a close has given nothing back.
do next: It is a fault of the program: mend it.
never: try again: no retry helps.

want trywant wantwrite open: TooMany, before the first step
means: The task holds 1,024 accesses at the mount, or has the file open already.
state now: Unchanged: no step was done.
do next: Give an access back first, or use the open that you have.
never: try again: no retry helps.

Gates::new run: Invalid
means: A number of the configuration, or of the run, is out of its limits.
state now: Nothing was made.
do next: Mend the number.

Gates::new: NoMemory
means: A growth of memory was refused.
state now: Nothing was made.
do next: Report it.
in Linux: `free -m` tells how much memory is left. A mount that finds none is ENOMEM in the kernel, too.

split: Order
means: The task has an operation under way. From C, Rust and Python also: it holds something, or has a file open.
state now: Unchanged.
do next: Step to its end, and split then. In Rattle accesses may be held. From C, Rust and Python give back first what is held.

split: TooMany
means: The task has no number left to give.
state now: Unchanged.
do next: Join a task first, or configure more of them.

split: NoMemory
means: A growth of memory was refused.
state now: Unchanged.
do next: Report it.

join Gates::close: Order
means: A task has an operation under way, holds something, or has a file open. A close also needs all numbers joined.
state now: Unchanged: what was handed over is given back.
do next: Give back what is held, join the others, and try again.
never: drop a task that holds something: its accesses stay counted for ever.

run: NoMemory
means: Memory or a thread was refused.
state now: All threads have ended, and the gates are gone.
do next: Report it, or run fewer tasks.
in Linux: `ulimit -u` tells how many threads a user may have.
";
