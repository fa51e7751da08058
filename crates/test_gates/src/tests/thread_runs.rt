//! How a task stands in its lines, and the hooks that it calls with.

use super::cases::{cut, end_name};
use super::fixtures::Fixture;
use super::lines::{MOST, call_of};
use schedule_lines::numbers::number_of;
use vfs_gates::{FsHooks, GateError, HookCall, Op, Tree};

/// How a task stands in its lines.
#[derive(Drop)]
pub struct ThreadRun<'s> {
    pub scene: &'s Fixture,
    /// At what the file system fails next, and with which code, as `sync 16`; empty where it does as the case says.
    pub fails: &'static str,
    /// The code with which it has failed last.
    code: u16,
    /// The file that node 100 stands for, the last one that was made; or 1 where the last callback ran, and 0 where none was queued.
    pub told: u8,
    /// The file that node 200 stands for.
    any: u8,
    /// How many lines are left out next.
    left_out: u8,
    /// Whose the last line is, how its call may end, and how often it was to be made again.
    number: u8,
    ends: &'static str,
    /// Whether the operation of the last line only begins.
    pub begins: bool,
    again: u32,
}

impl<'s> ThreadRun<'s> {
    pub fn new(scene: &'s Fixture) -> ThreadRun<'s> {
        ThreadRun {
            scene,
            fails: "",
            code: 0,
            told: scene.files,
            any: scene.files,
            left_out: 0,
            number: 0,
            ends: "",
            begins: false,
            again: 0,
        }
    }

    /// Begins a round, for another file.
    pub fn begin_round(&mut self) {
        self.left_out = 0;
        self.any = if self.any < self.scene.files {
            self.any.saturating_add(1)
        } else {
            1
        };
    }

    /// The operation of the next line; None where it is left out.
    pub fn reads(&mut self, line: &'static str) -> Option<Op> {
        if self.left_out > 0 {
            self.left_out -= 1;
            return None;
        }
        self.again = 0;
        let (front, ends) = cut(line, ": ");
        self.begins = ends == "begun";
        self.ends = if self.begins { "done" } else { ends };
        match call_of(front) {
            Some((number, op)) => {
                self.number = number;
                Some(op)
            }
            None => {
                self.scene.note_wrong(line);
                None
            }
        }
    }

    /// What comes after an end, by what stands behind its name: `=` and a number, the next line, where the call has told that; `>` and a number,
    /// the line after so many, 9 for all; `*`, the same call again, up to a million times; nothing, the next line. Whether that can be.
    fn goes_on(&mut self, behind: &str) -> bool {
        let mut bytes = behind.bytes();
        let sign = bytes.next().unwrap_or(b' ');
        let count = bytes.next().unwrap_or(b'0').wrapping_sub(b'0');
        match sign {
            b'=' => self.told == count,
            b'>' => {
                self.left_out = if count == 9 { u8::MAX } else { count };
                true
            }
            b'*' => {
                self.again = self.again.saturating_add(1);
                self.again <= MOST
            }
            _ => true,
        }
    }

    /// Whether the call of the line may end so: `done`, or by the name of a refusal, a hook's with the code of the last one that has failed.
    fn may_end(&mut self, answer: Result<(), GateError>) -> bool {
        match answer {
            Err(GateError::Hook(code)) if code != self.code => return false,
            _ => {}
        }
        match self.ends.split_once(end_name(answer)) {
            Some((_, behind)) => self.goes_on(behind),
            None => false,
        }
    }

    /// Notes how the call of a line ended, and the task's last snapshot then. Whether it is to be made again.
    pub fn is_again(
        &mut self,
        line: &'static str,
        op: Op,
        answer: Result<(), GateError>,
        tree: Option<&Tree>,
    ) -> bool {
        let before = self.again;
        let is_so = self.may_end(answer) && self.scene.looks(self.number, op, answer, tree);
        self.scene.expect(is_so, line);
        is_so && self.again != before
    }

    /// The file that is meant by a node.
    pub fn file(&self, node: u8) -> u8 {
        match node {
            100 => self.told,
            200 => self.any,
            _ => node,
        }
    }

    /// The code with which the file system fails at a question where it is to fail at this one next.
    fn failure(&mut self, call: HookCall) -> Option<u16> {
        let code = self.fails.strip_prefix(question(call))?;
        self.fails = "";
        u16::try_from(number_of(code.as_bytes())?).ok()
    }

    /// What the file system answers.
    fn answer(&mut self, call: HookCall) -> Result<(), u16> {
        let answer = match self.failure(call) {
            Some(code) => Err(code),
            None => self.scene.answer(call),
        };
        if let Err(code) = answer {
            self.code = code;
        }
        answer
    }
}

/// How a line says what a hook is asked, with a blank behind it.
fn question(call: HookCall) -> &'static str {
    match call {
        HookCall::Sync => "sync ",
        HookCall::FreezeFs => "freeze_fs ",
        HookCall::UnfreezeFs => "unfreeze_fs ",
        HookCall::Reconfigure { read_only: true } => "reconfigure ro ",
        HookCall::Reconfigure { read_only: false } => "reconfigure rw ",
        HookCall::KeepWaiting { .. } => "keep_waiting ",
    }
}

impl FsHooks for ThreadRun<'_> {
    fn sync(&mut self) -> Result<(), u16> {
        self.answer(HookCall::Sync)
    }

    fn freeze_fs(&mut self) -> Result<(), u16> {
        self.answer(HookCall::FreezeFs)
    }

    fn unfreeze_fs(&mut self) -> Result<(), u16> {
        self.answer(HookCall::UnfreezeFs)
    }

    fn reconfigure(&mut self, read_only: bool) -> Result<(), u16> {
        self.answer(HookCall::Reconfigure { read_only })
    }

    fn keep_waiting(&mut self, level: u8) -> Result<(), u16> {
        self.answer(HookCall::KeepWaiting { level })
    }
}
