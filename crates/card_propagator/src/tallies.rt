//! Counts along a list of cardinalities.
//!
//! A list names each cardinality as often as it holds a literal, so to count one more for each entry
//! is to count its positions. Each write is a function of one line, whose clause is an equation: the
//! loops are then proved by adding up.
ghost use Rattle.std.specs.Prelude.{◌≡◌, ◌≤◌, ◌<◌, ◌+◌, ◌-◌, ◌^◌, ℕ, length, slice_index, slice_set, cond, nat_lt};
ghost use Rattle.clause_store.specs.Listing.{times};

use crate::id::CardId;

// One more for a cardinality.
fn bump(counts: &mut Vec<u64>, id: CardId)
    requires within { id < length counts.old.items }
    requires room { slice_index counts.old.items id + 1 < 2 ^ 64 }
    ensures { counts.new.items ≡ slice_set counts.old.items id (slice_index counts.old.items id + 1) }
{
    counts[id.index()] += 1;
}

// One less for a cardinality.
fn drop_one(counts: &mut Vec<u64>, id: CardId)
    requires { 0 < slice_index counts.old.items id }
    ensures { counts.new.items ≡ slice_set counts.old.items id (slice_index counts.old.items id - 1) }
{
    counts[id.index()] -= 1;
}

// Counts one more for each entry of the list.
pub(crate) fn count_up(counts: &mut Vec<u64>, ids: &[CardId])
    requires within { (k : ℕ) → 0 < times ids.now k → k < length counts.old.items }
    requires room { (k : ℕ) → slice_index counts.old.items k + times ids.now k < 2 ^ 64 }
    ensures size { length counts.new.items ≡ length counts.old.items }
    ensures more { (k : ℕ) → slice_index counts.new.items k ≡ slice_index counts.old.items k + times ids.now k }
{
    for i in 0..ids.len() {
        bump(counts, ids[i]);
    }
}

// Counts one less for each entry of the list.
pub(crate) fn count_down(counts: &mut Vec<u64>, ids: &[CardId])
    requires { (k : ℕ) → times ids.now k ≤ slice_index counts.old.items k }
    ensures size { length counts.new.items ≡ length counts.old.items }
    ensures less { (k : ℕ) → slice_index counts.new.items k + times ids.now k ≡ slice_index counts.old.items k }
{
    for i in 0..ids.len() {
        drop_one(counts, ids[i]);
    }
}

// Nothing more for a cardinality.
fn clear(counts: &mut Vec<usize>, id: CardId)
    requires { id < length counts.old.items }
    ensures { counts.new.items ≡ slice_set counts.old.items id 0 }
{
    counts[id.index()] = 0;
}

// Sets to 0 what is kept for each entry of the list.
pub(crate) fn reset(counts: &mut Vec<usize>, ids: &[CardId])
    requires { (k : ℕ) → 0 < times ids.now k → k < length counts.old.items }
    ensures size { length counts.new.items ≡ length counts.old.items }
    ensures cleared { (k : ℕ) → slice_index counts.new.items k ≡ cond (nat_lt 0 (times ids.now k)) 0 (slice_index counts.old.items k) }
{
    for i in 0..ids.len() {
        clear(counts, ids[i]);
    }
}
