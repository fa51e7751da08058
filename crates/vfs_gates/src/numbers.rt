//! Sets of task numbers, as a flag for each number.

ghost use Rattle.std.specs.Prelude.{◌≡◌, ◌≤◌, ◌<◌, ◌↔◌, ◌⊎◌, ℕ, true, false, length, IfSome, IfNone, IsTrue, slice_index_or};

/// A set of task numbers: a flag for each.
pub(crate) type Numbers = [bool; 64];

/// No number.
pub(crate) fn none() -> Numbers
    ensures length { length result ≡ 64 }
    ensures unset { (k : ℕ) → slice_index_or result k false ≡ false }
{
    [false; 64]
}

/// The lowest number of the set.
pub(crate) fn lowest(numbers: &Numbers) -> Option<u8>
    ensures some { IfSome result (λ n. (n < 64) × (slice_index_or numbers.now n false ≡ true)
        × ((k : ℕ) → k < n → slice_index_or numbers.now k false ≡ false)) }
    ensures none { IfNone result ((k : ℕ) → slice_index_or numbers.now k false ≡ false) }
{
    for i in 0..64usize {
        if numbers[i] {
            return Some(i as u8);
        }
    }
    None
}

/// Adds all numbers of the other set.
pub(crate) fn add_all(numbers: &mut Numbers, others: &Numbers)
    ensures { (k : ℕ) → (slice_index_or numbers.new k false ≡ true) ↔
        ((slice_index_or numbers.old k false ≡ true) ⊎ (slice_index_or others.now k false ≡ true)) }
{
    for i in 0..64usize {
        if others[i] {
            numbers[i] = true;
        }
    }
}

/// The numbers from 1 to `tasks - 1`.
pub(crate) fn others_of(tasks: u8) -> Numbers
    requires { (1 ≤ tasks) × (tasks ≤ 64) }
    ensures { (k : ℕ) → (slice_index_or result k false ≡ true) ↔ ((0 < k) × (k < tasks)) }
{
    let mut numbers = none();
    for i in 1..tasks as usize {
        numbers[i] = true;
    }
    numbers
}

/// Whether each number below `tasks` is in the set, or is `number`.
pub(crate) fn are_all(numbers: &Numbers, number: u8, tasks: u8) -> bool
    requires { tasks ≤ 64 }
    ensures { IsTrue result ↔ ((k : ℕ) → k < tasks → (k ≡ number) ⊎ (slice_index_or numbers.now k false ≡ true)) }
{
    for i in 0..tasks {
        if i != number && !numbers[i as usize] {
            return false;
        }
    }
    true
}
