//! Freezes that give up once they have looked often enough.

use freeze_levels::FsHooks;
use vfs_gates::FOUND_SOMEBODY;

/// The hooks of a run: nothing is to be done, so each answers Ok. But `keep_waiting` uses up patience, if that has an end, and answers
/// `FOUND_SOMEBODY` once none is left.
#[derive(Drop)]
pub(crate) struct Patience {
    /// How often a freeze may look again; None if as long as it takes.
    pub(crate) left: Option<u32>,
}

impl FsHooks for Patience {
    ghost use Rattle.gate_runs.specs.Patience.{with_patience};

    ghost answers = { λ call old answer new. with_patience call old.left answer new.left };

    fn sync(&mut self) -> Result<(), u16> {
        Ok(())
    }

    fn freeze_fs(&mut self) -> Result<(), u16> {
        Ok(())
    }

    fn unfreeze_fs(&mut self) -> Result<(), u16> {
        Ok(())
    }

    fn reconfigure(&mut self, read_only: bool) -> Result<(), u16> {
        let _ = read_only;
        Ok(())
    }

    fn keep_waiting(&mut self, level: u8) -> Result<(), u16> {
        let _ = level;
        match self.left {
            None => Ok(()),
            Some(0) => Err(FOUND_SOMEBODY),
            Some(looks) => {
                self.left = Some(looks - 1);
                Ok(())
            }
        }
    }
}
