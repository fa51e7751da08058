//! The text of a fact of a word: its name, and its value as a replay prints it.

ghost use Rattle.std.specs.Prelude.{◌≡◌, ◌≤◌, ◌<◌, IfOk, is_some};
ghost use Rattle.race_conditions.specs.Named.{IsNamed, IsNamedWord};
ghost use Rattle.race_conditions.specs.Parsing.{between, bits_at, block_at, block_word_at, both_bits_at, count_at, first_bit_at, index_at, is_numbered, kids_word_at, level_word_at, lock_at, mount_count_at, mount_field_at, mount_word_at, negative_at, node_word_at, numbered, numbered_word_at, owner_at, plain_at, sync_word_at, value_at, word_at, word_fact_at};

use crate::Fact;
use crate::faults::{Expected, Unexpected};
use crate::parsing::{after_piece, number_at};
use crate::pieces::{end_of, is_next, piece_at, unexpected};
use cpu_words::WordName;
use gate_world::Config;
use schedule_lines::numbers::number_of;

/// Reads a fact of a word.
#[tactic(auto, unfolding(crate::specs::Parsing::word_fact_at))]
pub(crate) fn word_fact_at(
    config: Config,
    text: &[u8],
    at: usize,
) -> Result<(Fact, usize), Unexpected>
    requires { config.nodes ≤ 64 }
    ensures read { result ≡ word_fact_at text.now config at }
    ensures named { IfOk result (λ read. IsNamed config read.0) }
{
    let (word, at) = word_at(config, text, at)?;
    let at = after_piece(text, "=", at, Expected::Equals)?;
    let (value, at) = value_at(config, text, word, at)?;
    Ok((Fact::Word { word, value }, at))
}

/// Reads the name of a word.
#[tactic(auto, unfolding(crate::specs::Parsing::word_at))]
fn word_at(config: Config, text: &[u8], at: usize) -> Result<(WordName, usize), Unexpected>
    requires { config.nodes ≤ 64 }
    ensures read { result ≡ word_at text.now config at }
    ensures named { IfOk result (λ read. IsNamedWord config read.0) }
{
    if is_next(text, at, "umount") {
        Ok((WordName::Umount, end_of(text, at)))
    } else if is_next(text, at, "holders") {
        Ok((WordName::Holders, end_of(text, at)))
    } else if is_next(text, at, "remount") {
        Ok((WordName::Remount, end_of(text, at)))
    } else if is_next(text, at, "removed") {
        Ok((WordName::Removed, end_of(text, at)))
    } else if is_next(text, at, "used") {
        Ok((WordName::Used, end_of(text, at)))
    } else {
        numbered_word_at(config, text, at)
    }
}

/// Reads the name of a word of which there are several.
#[tactic(auto, unfolding(crate::specs::Parsing::numbered_word_at))]
fn numbered_word_at(config: Config, text: &[u8], at: usize) -> Result<(WordName, usize), Unexpected>
    requires { config.nodes ≤ 64 }
    ensures read { result ≡ numbered_word_at text.now config at }
    ensures named { IfOk result (λ read. IsNamedWord config read.0) }
{
    if is_numbered(config, text, "mount", at) {
        mount_word_at(config, text, at)
    } else if is_numbered(config, text, "level", at) {
        level_word_at(config, text, at)
    } else if is_numbered(config, text, "block", at) {
        block_word_at(config, text, at)
    } else if is_numbered(config, text, "sync", at) {
        sync_word_at(config, text, at)
    } else if is_numbered(config, text, "node", at) {
        node_word_at(config, text, at)
    } else if is_numbered(config, text, "kids", at) {
        kids_word_at(config, text, at)
    } else {
        Err(unexpected(text, at, Expected::Fact))
    }
}

#[tactic(auto, unfolding(crate::specs::Parsing::mount_word_at))]
fn mount_word_at(config: Config, text: &[u8], at: usize) -> Result<(WordName, usize), Unexpected>
    ensures read { result ≡ mount_word_at text.now config at }
    ensures named { IfOk result (λ read. IsNamedWord config read.0) }
{
    let (mount, at) = index_at(text, "mount", 0, config.mounts, at, Expected::Mount)?;
    let at = after_piece(text, ".", at, Expected::Dot)?;
    mount_field_at(config, text, mount, at)
}

/// Reads which word of a mount it is.
#[tactic(auto, unfolding(crate::specs::Parsing::mount_field_at))]
fn mount_field_at(
    config: Config,
    text: &[u8],
    mount: u8,
    at: usize,
) -> Result<(WordName, usize), Unexpected>
    requires { mount < config.mounts }
    ensures read { result ≡ mount_field_at text.now config mount at }
    ensures named { IfOk result (λ read. IsNamedWord config read.0) }
{
    if is_next(text, at, "flags") {
        Ok((WordName::MountFlags(mount), end_of(text, at)))
    } else {
        mount_count_at(config, text, mount, at)
    }
}

#[tactic(auto, unfolding(crate::specs::Parsing::mount_count_at))]
fn mount_count_at(
    config: Config,
    text: &[u8],
    mount: u8,
    at: usize,
) -> Result<(WordName, usize), Unexpected>
    requires { mount < config.mounts }
    ensures read { result ≡ mount_count_at text.now config mount at }
    ensures named { IfOk result (λ read. IsNamedWord config read.0) }
{
    let (cpu, at) = index_at(
        text,
        "cpu",
        0,
        config.processors,
        at,
        Expected::FlagsOrCount,
    )?;
    Ok((WordName::MountCount(mount, cpu), at))
}

#[tactic(auto, unfolding(crate::specs::Parsing::level_word_at))]
fn level_word_at(config: Config, text: &[u8], at: usize) -> Result<(WordName, usize), Unexpected>
    ensures read { result ≡ level_word_at text.now config at }
    ensures named { IfOk result (λ read. IsNamedWord config read.0) }
{
    let (level, at) = index_at(text, "level", 1, 4, at, Expected::Level)?;
    let at = after_piece(text, ".", at, Expected::Dot)?;
    let (cpu, at) = index_at(text, "cpu", 0, config.processors, at, Expected::Count)?;
    Ok((WordName::LevelCount(level, cpu), at))
}

#[tactic(auto, unfolding(crate::specs::Parsing::block_word_at))]
fn block_word_at(config: Config, text: &[u8], at: usize) -> Result<(WordName, usize), Unexpected>
    ensures read { result ≡ block_word_at text.now config at }
    ensures named { IfOk result (λ read. IsNamedWord config read.0) }
{
    let _ = config;
    let (level, at) = index_at(text, "block", 1, 4, at, Expected::Level)?;
    Ok((WordName::Block(level), at))
}

#[tactic(auto, unfolding(crate::specs::Parsing::sync_word_at))]
fn sync_word_at(config: Config, text: &[u8], at: usize) -> Result<(WordName, usize), Unexpected>
    ensures read { result ≡ sync_word_at text.now config at }
    ensures named { IfOk result (λ read. IsNamedWord config read.0) }
{
    let _ = config;
    let (level, at) = index_at(text, "sync", 1, 4, at, Expected::Level)?;
    Ok((WordName::Sync(level), at))
}

#[tactic(auto, unfolding(crate::specs::Parsing::node_word_at))]
fn node_word_at(config: Config, text: &[u8], at: usize) -> Result<(WordName, usize), Unexpected>
    requires { config.nodes ≤ 64 }
    ensures read { result ≡ node_word_at text.now config at }
    ensures named { IfOk result (λ read. IsNamedWord config read.0) }
{
    let (node, at) = index_at(text, "node", 0, config.nodes, at, Expected::Node)?;
    Ok((WordName::Node(node), at))
}

#[tactic(auto, unfolding(crate::specs::Parsing::kids_word_at))]
fn kids_word_at(config: Config, text: &[u8], at: usize) -> Result<(WordName, usize), Unexpected>
    requires { config.nodes ≤ 64 }
    ensures read { result ≡ kids_word_at text.now config at }
    ensures named { IfOk result (λ read. IsNamedWord config read.0) }
{
    let (node, at) = index_at(text, "kids", 0, config.nodes, at, Expected::Node)?;
    Ok((WordName::Kids(node), at))
}

/// Whether the next piece is this beginning and some number.
fn is_numbered(config: Config, text: &[u8], beginning: &str, at: usize) -> bool
    ensures { result ≡ is_numbered text.now config beginning.now at }
{
    let _ = config;
    numbered(beginning, piece_at(text, at)).is_some()
}

/// The number that a piece has behind this beginning.
fn numbered(beginning: &str, piece: &[u8]) -> Option<u32>
    ensures { result ≡ numbered beginning.now piece.now }
{
    number_of(piece.strip_prefix(beginning.as_bytes())?)
}

/// Reads this beginning and, in the same piece, a number that is at least the one and below the other.
#[tactic(auto, unfolding(crate::specs::Parsing::index_at))]
fn index_at(
    text: &[u8],
    beginning: &str,
    least: u8,
    limit: u8,
    at: usize,
    expected: Expected,
) -> Result<(u8, usize), Unexpected>
    ensures read { result ≡ index_at text.now beginning.now least limit at expected }
    ensures within { IfOk result (λ read. (least ≤ read.0) × (read.0 < limit)) }
{
    match numbered(beginning, piece_at(text, at)) {
        Some(number) if number < u32::from(least) => Err(unexpected(text, at, expected)),
        Some(number) if number < u32::from(limit) => Ok((number as u8, end_of(text, at))),
        _ => Err(unexpected(text, at, expected)),
    }
}

/// Reads a value of this word: a number, or what a replay prints for it.
#[tactic(auto, unfolding(crate::specs::Parsing::value_at))]
fn value_at(
    config: Config,
    text: &[u8],
    word: WordName,
    at: usize,
) -> Result<(u64, usize), Unexpected>
    ensures { result ≡ value_at text.now config word at }
{
    match word {
        WordName::Umount => lock_at(config, text, at),
        WordName::Holders => bits_at(text, "nobody", "kernel", "user", at),
        WordName::MountFlags(_) => bits_at(text, "none", "READONLY", "HOLD", at),
        WordName::MountCount(..) | WordName::LevelCount(..) => count_at(text, at),
        WordName::Block(_) => block_at(text, at),
        _ => plain_at(text, at),
    }
}

/// Reads who owns a lock.
#[tactic(auto, unfolding(crate::specs::Parsing::lock_at))]
fn lock_at(config: Config, text: &[u8], at: usize) -> Result<(u64, usize), Unexpected>
    ensures { result ≡ lock_at text.now config at }
{
    if is_next(text, at, "free") {
        Ok((0, end_of(text, at)))
    } else if is_next(text, at, "task") {
        owner_at(config, text, end_of(text, at))
    } else {
        plain_at(text, at)
    }
}

#[tactic(auto, unfolding(crate::specs::Parsing::owner_at))]
fn owner_at(config: Config, text: &[u8], at: usize) -> Result<(u64, usize), Unexpected>
    ensures { result ≡ owner_at text.now config at }
{
    let (owner, at) = number_at(text, 0, config.tasks, at, Expected::Task)?;
    Ok((u64::from(owner) + 1, at))
}

/// Reads the names of two bits, of one of them, or of none.
#[tactic(auto, unfolding(crate::specs::Parsing::bits_at))]
fn bits_at(
    text: &[u8],
    none: &str,
    first: &str,
    second: &str,
    at: usize,
) -> Result<(u64, usize), Unexpected>
    ensures { result ≡ bits_at text.now none.now first.now second.now at }
{
    if is_next(text, at, none) {
        Ok((0, end_of(text, at)))
    } else if is_next(text, at, first) {
        first_bit_at(text, second, end_of(text, at))
    } else if is_next(text, at, second) {
        Ok((2, end_of(text, at)))
    } else {
        plain_at(text, at)
    }
}

/// Reads what stands behind the name of the first bit.
#[tactic(auto, unfolding(crate::specs::Parsing::first_bit_at))]
fn first_bit_at(text: &[u8], second: &str, at: usize) -> Result<(u64, usize), Unexpected>
    ensures { result ≡ first_bit_at text.now second.now at }
{
    if is_next(text, at, ",") {
        both_bits_at(text, second, end_of(text, at))
    } else {
        Ok((1, at))
    }
}

#[tactic(auto, unfolding(crate::specs::Parsing::both_bits_at))]
fn both_bits_at(text: &[u8], second: &str, at: usize) -> Result<(u64, usize), Unexpected>
    ensures { result ≡ both_bits_at text.now second.now at }
{
    let at = after_piece(text, second, at, Expected::Value)?;
    Ok((3, at))
}

#[tactic(auto, unfolding(crate::specs::Parsing::block_at))]
fn block_at(text: &[u8], at: usize) -> Result<(u64, usize), Unexpected>
    ensures { result ≡ block_at text.now at }
{
    if is_next(text, at, "open") {
        Ok((0, end_of(text, at)))
    } else if is_next(text, at, "closed") {
        Ok((1, end_of(text, at)))
    } else {
        plain_at(text, at)
    }
}

/// Reads a count, which is negative where more was subtracted than added.
#[tactic(auto, unfolding(crate::specs::Parsing::count_at))]
fn count_at(text: &[u8], at: usize) -> Result<(u64, usize), Unexpected>
    ensures { result ≡ count_at text.now at }
{
    if is_next(text, at, "-") {
        negative_at(text, end_of(text, at))
    } else {
        plain_at(text, at)
    }
}

#[tactic(auto, unfolding(crate::specs::Parsing::negative_at))]
fn negative_at(text: &[u8], at: usize) -> Result<(u64, usize), Unexpected>
    ensures { result ≡ negative_at text.now at }
{
    let (number, at) = plain_at(text, at)?;
    Ok((0u64.wrapping_sub(number), at))
}

#[tactic(auto, unfolding(crate::specs::Parsing::plain_at))]
fn plain_at(text: &[u8], at: usize) -> Result<(u64, usize), Unexpected>
    ensures { result ≡ plain_at text.now at }
{
    match number_of(piece_at(text, at)) {
        Some(number) => Ok((u64::from(number), end_of(text, at))),
        None => Err(unexpected(text, at, Expected::Value)),
    }
}
