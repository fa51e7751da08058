//! The table as it begins, and as it is closed.

ghost use Rattle.std.specs.Prelude.{◌≡◌, ◌<◌, [], IfOk, slice_index};
ghost use Rattle.cpu_words.specs.Names.{place};
ghost use Rattle.cpu_words.specs.Lists.{AreOpening};
ghost use Rattle.std.specs.Slots.{slots_items, slots_len, IsFull};
ghost use Rattle.gate_world.specs.Configs.{IsWithin};
ghost use Rattle.gate_steps.specs.Rules.{table_index, table_length, first_known};
ghost use Rattle.gate_steps.specs.Tables.{IsClosing};

use crate::rule::TableInvariant;
use crate::seating::Knowledge;
use crate::steps::index_of;
use atomic_table::{Seat, Table};
use cpu_words::{STRIDE, WORDS, WordName};
use gate_world::Config;
use std::alloc::{AllocError, Global};

/// The table of all words.
pub type GateTable = Table<(), Knowledge, Config, TableInvariant, Global>;

/// What is left of a table that no thread shares any more.
pub type Closed = atomic_table::Closed<(), Global>;

/// All words as they begin: 0, but for the root, which is a directory.
pub fn opening_words(alloc: Global) -> Result<Vec<u64>, AllocError>
    ensures { IfOk result (λ words. AreOpening table_index table_length words.items) }
{
    let mut words = vec![in alloc; 0; STRIDE * WORDS]?;
    words[index_of(WordName::Node(0))] = 2;
    Ok(words)
}

/// A table of all words as they begin, and one seat: number 0 is its own, and it has all others to give.
pub fn open(alloc: Global, config: &Config) -> Result<(GateTable, Seat<(), Knowledge>), AllocError>
    requires { IsWithin config.now }
    ensures table { IfOk result (λ t.
        (t.0.shared.key ≡ config.now) × (t.0.shared.table_id.words ≡ table_length) × (t.0.shared.table_id.slots ≡ 0)) }
    ensures seat { IfOk result (λ t.
        (t.1.table_id ≡ t.0.shared.table_id) × (t.1.id ≡ 0) × (t.1.me ≡ (first_known config.now, []))) }
{
    let words = opening_words(alloc)?;
    Table::of_words(alloc, &words, config)
}

/// The words of a table that no thread shares any more. They are those of some state that the invariant holds of, in which the
/// numbers of the seat have their views.
pub fn close(table: GateTable, seat: Seat<(), Knowledge>) -> Closed
    requires { seat.table_id ≡ table.shared.table_id }
    ensures counts { (slots_len result.words ≡ table.shared.table_id.words) × (slots_len result.slots ≡ table.shared.table_id.slots) }
    ensures full { IsFull result.words × IsFull result.slots }
    ensures closing { IsClosing table.shared.key (slots_items result.words) seat.me.0 }
{
    table.close_with(seat)
}

/// A word of a closed table.
pub fn word_of(closed: &Closed, name: WordName) -> u64
    requires inside { table_index (place name) < slots_len closed.now.words }
    requires full { IsFull closed.now.words }
    ensures { result ≡ slice_index (slots_items closed.now.words) (table_index (place name)) }
{
    closed.word(index_of(name))
}
