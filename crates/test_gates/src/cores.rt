//! The core by its calls.

use access_model::Reply;
use cpu_words::WordName;
use gate_core::{Config, Core, Op, Progress, words_at_start};
use std::alloc::Global;
use std::test::Fail;

/// Two tasks at one mount, with one processor.
const CONFIG: Config = Config {
    tasks: 2,
    processors: 1,
    mounts: 1,
    nodes: 2,
    capacity: 8,
};

/// How many steps an operation may take here.
const STEPS: u32 = 100;

/// Steps the first task until its operation is done. Returns how often the next step read a hook's answer, and None if the operation isn't done.
fn ask_until_done(core: &mut Core) -> Option<u32> {
    let mut asked = 0u32;
    for _step in 0..STEPS {
        asked = asked.saturating_add(u32::from(core.wants_hook(0).is_some()));
        if core.step(0, Ok(())).progress == Progress::Done(Ok(Reply::Unit)) {
            return Some(asked);
        }
    }
    None
}

/// Whether the core begins with all words as they open, and a task for each number.
fn is_opening(alloc: Global, core: &Core) -> bool {
    match words_at_start(alloc) {
        Ok(words) => core.words() == words.as_slice() && core.seats().len() == 2,
        Err(_) => false,
    }
}

/// Whether the first task of a core makes the superblock read-only, and asks a hook once, while a twin that was made meanwhile stands as it stood.
fn remounts(core: &mut Core) -> bool {
    let begun = core.begin(0, Op::RemountSb { read_only: true });
    let Ok(twin) = core.twin() else {
        return false;
    };
    let asked = ask_until_done(core);
    let twin_stands = twin.is_under_way(0) && twin.word(WordName::SbFlags) == Some(0);
    drop(twin);
    let is_shut = !core.is_under_way(0) && core.word(WordName::SbFlags) == Some(1);
    begun.is_ok() && asked == Some(1) && is_shut && twin_stands
}

#[test]
fn a_core_makes_a_file_system_read_only(rt: HostRuntime) -> Result<(), Fail> {
    let mut core = Core::new(rt.alloc(), CONFIG)?;
    let is_so = is_opening(rt.alloc(), &core) && remounts(&mut core) && core.config().tasks == 2;
    drop(core);
    if is_so {
        Ok(())
    } else {
        Err(Fail::new("remounted otherwise"))
    }
}
