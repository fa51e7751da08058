//! Where everything stands in a picture, in pixels.

/// How high a line of text is.
pub(crate) const LINE: u64 = 16;

/// What is left free above and below the lines of a row, together.
const PAD: u64 = 8;

/// How much of a row is above the base of its first line.
pub(crate) const BASE: u64 = 15;

/// Where the first row begins, below the heads.
pub(crate) const HEAD: u64 = 36;

/// How wide the column of the numbers is.
const NUMBERS: u64 = 34;

/// How far lanes are apart.
const GAP: u64 = 10;

/// How wide the column of the model is.
const MODEL: u64 = 176;

/// How many bytes of the kernel's code there is room for in a row.
pub(crate) const CODE: usize = 52;

/// How wide the column of the kernel's code is.
const KERNEL: u64 = 366;

/// The columns of a picture: numbers, a lane for each task, the model, the kernel.
#[derive(Clone, Copy)]
pub(crate) struct Layout {
    /// How many bytes there is room for in a lane.
    pub(crate) room: usize,
    /// How wide a lane is.
    pub(crate) lane: u64,
    pub(crate) tasks: u8,
}

impl Layout {
    /// The columns for so many tasks.
    pub(crate) fn new(tasks: u8) -> Layout {
        let room = match tasks {
            0..=2 => 30,
            3 | 4 => 25,
            _ => 20,
        };
        Layout {
            room,
            // 7.25 pixels a byte, and the bar of a wait.
            lane: (room as u64) * 29 / 4 + 24,
            tasks,
        }
    }

    /// Where a task's lane begins.
    pub(crate) fn lane_at(&self, task: u8) -> u64 {
        u64::from(task)
            .saturating_mul(self.lane.saturating_add(GAP))
            .saturating_add(NUMBERS)
    }

    /// Where a task's lane ends.
    pub(crate) fn lane_end(&self, task: u8) -> u64 {
        self.lane_at(task).saturating_add(self.lane)
    }

    /// Where the column of the model begins.
    pub(crate) fn model_at(&self) -> u64 {
        self.lane_at(self.tasks)
    }

    /// Where the column of the kernel begins.
    pub(crate) fn kernel_at(&self) -> u64 {
        self.model_at().saturating_add(MODEL)
    }

    /// How wide the picture is.
    pub(crate) fn width(&self) -> u64 {
        self.kernel_at().saturating_add(KERNEL)
    }
}

/// How high a row of so many lines is.
pub(crate) fn row_height(lines: usize) -> u64 {
    (lines as u64).saturating_mul(LINE).saturating_add(PAD)
}
