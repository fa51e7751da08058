//! Gates that no thread shares any more.

ghost use Rattle.std.specs.Prelude.{◌≡◌, ◌*◌, ◌%◌, ◌<◌, ◌≤◌, ℕ, IfSome, slice_index};
ghost use Rattle.finite_sums.specs.Sums.{total};
ghost use Rattle.cpu_words.specs.Names.{IsWord, place, stride};
ghost use Rattle.gate_world.specs.Configs.{extents_of};
ghost use Rattle.vfs_gates.specs.Sums.{count_word, IsGate};

use access_model::Gate;
use cpu_words::WordName;
use gate_steps::call_events::word_of;
use gate_world::Config;
use std::marker::Model;

/// The words of gates that are closed: all tasks were joined, no operation is under way, and nothing is held. Contracts see the
/// configuration and the words. From crates/gate_runs/src/runs.rt, which each run of the program runs:
///
/// ```
/// for gate in [
///     Gate::Mount(MOUNT),
///     Gate::Level(1),
///     Gate::Level(2),
///     Gate::Level(3),
/// ] {
///     held = held.wrapping_add(closed.gate_sum(gate).unwrap_or(0));
/// }
/// ```
pub struct Closed {
    pub(crate) config: Config,
    pub(crate) closed: gate_steps::call_events::Closed,
}

impl Model for Closed {
    ghost use Rattle.std.specs.Prelude.{◌≡◌};
    ghost use Rattle.std.specs.Slots.{slots_items, slots_len, IsFull};
    ghost use Rattle.gate_world.specs.Configs.{IsWithin};
    ghost use Rattle.gate_steps.specs.Rules.{table_length};
    ghost use Rattle.vfs_gates.specs.Ended.{ClosedState, Ended};

    ghost Value = { ClosedState };

    ghost view = { λ c. record { config = c.config; words = slots_items c.closed.words } };

    ghost invariant = { λ c. IsWithin c.config × IsFull c.closed.words × (slots_len c.closed.words ≡ table_length)
        × (slots_len c.closed.slots ≡ 0) × Ended c.config (slots_items c.closed.words) };
}

impl Drop for Closed {
    fn drop(self) {
        let Closed { config: _, closed } = self;
        closed.free();
    }
}

/// The word that counts a gate's writers on a processor.
fn count_of(gate: Gate, cpu: u8) -> WordName
    ensures { result ≡ count_word gate cpu }
{
    match gate {
        Gate::Mount(mount) => WordName::MountCount(mount, cpu),
        Gate::Level(level) => WordName::LevelCount(level, cpu),
    }
}

impl Closed {
    ghost use Rattle.access_model.specs.declared.actions.Gate.TheVariants.{Mount, Level};
    ghost use Rattle.cpu_words.specs.declared.names.WordName.TheVariants.{Umount, Remount, Removed, MountFlags, Section};

    /// The value of a word; None where there is no such word.
    pub fn word(&self, name: WordName) -> Option<u64>
        ensures there { IsWord (extents_of self.now.config) name → result ≡ Some (slice_index self.now.words (stride * place name)) }
        ensures not_there { ¬ IsWord (extents_of self.now.config) name → result ≡ None }
        // Nobody has `umount`, no remount is under way, no mount holds writers off, and no read-side section is under way.
        ensures umount { name ≡ Umount → result ≡ Some 0 }
        ensures remount { name ≡ Remount → result ≡ Some 0 }
        // No file is removed: who has none open has closed each.
        ensures removed { name ≡ Removed → result ≡ Some 0 }
        ensures hold { (m : ℕ) → name ≡ MountFlags m → IfSome result (λ flags. flags < 2) }
        ensures sections { (t : ℕ) → name ≡ Section t → IfSome result (λ word. word % 2 ≡ 0) }
    {
        if self.config.has_word(name) {
            Some(word_of(&self.closed, name))
        } else {
            None
        }
    }

    /// The wrapping sum of a gate's count words over all processors (`mnt_get_writers`, `percpu_rwsem`'s readers); None for a gate
    /// that there isn't.
    pub fn gate_sum(&self, gate: Gate) -> Option<u64>
        ensures there { IsGate self.now.config gate →
            result ≡ Some (total self.now.config.processors (λ cpu. slice_index self.now.words (stride * place (count_word gate cpu)))
            % 18446744073709551616) }
        ensures not_there { ¬ IsGate self.now.config gate → result ≡ None }
        // Every access was given back, on whatever processors.
        ensures mounts { (m : ℕ) → gate ≡ Mount m → m < self.now.config.mounts → result ≡ Some 0 }
        ensures levels { (i : ℕ) → gate ≡ Level i → 1 ≤ i → i ≤ 3 → result ≡ Some 0 }
    {
        if !self.config.has_word(count_of(gate, 0)) {
            return None;
        }
        let mut sum = 0u64;
        for cpu in 0..self.config.processors {
            sum = sum.wrapping_add(word_of(&self.closed, count_of(gate, cpu)));
        }
        Some(sum)
    }
}
