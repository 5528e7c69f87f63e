//! Cardinalities, and the counts of their true and false positions.
//!
//! What was told is kept in a table by variable, and not as a trail: the literal of each variable that
//! a cardinality names, and its level. So the order of the seen trail plays no part, and the counter
//! is in step with it where table and trail say the same (`is_followed` in specs/Following). What was
//! told above the root also stands on a stack, by rising levels, from which a way back takes it off;
//! the root is never taken back, and has no need of it.
//!
//! A literal that is told raises the numbers of true positions of the cardinalities that hold it, and
//! the numbers of false ones of those that hold its negation; the latter wait to be looked at. When it
//! is taken back the counts fall, and those that hold it wait: a true position can be what kept
//! them settled. Those that hold its negation need not: they can spare as many positions more as are
//! open again. The promise of it all is that each cardinality that does not wait is settled:
//! nothing follows from it.
//!
//! A new cardinality is counted by what the seen trail says at the root, and waits.
ghost use Rattle.std.specs.Prelude.{◌≡◌, ◌≤◌, ◌<◌, ◌+◌, ◌^◌, ℕ, Bool, true, false, [], ◌∷◌, ◌++◌, List, length, Some, None, slice_set, slice_index, IfSome, IfNone, OnOk, OnErr, if◌then◌else◌, nat_eq, vec_capacity, MatchOption, slice_get, IfOk, ◌⊎◌};
ghost use Rattle.sat_terms.specs.Limits.{max_var};
ghost use Rattle.sat_terms.specs.Literal.{var_of, neg};
ghost use Rattle.clause_store.specs.Listing.{times};
ghost use Rattle.sat_model.specs.Constraint.{kind_of};
ghost use Rattle.user_propagator.specs.Meaning.{counted_lits};
ghost use Rattle.sat_model.specs.declared.constraint.Kind.TheVariants.{Card};
ghost use Rattle.user_propagator.specs.Board.{trail_of};
ghost use Rattle.card_propagator.specs.Values.{told, keep, value, trues, falses};
ghost use Rattle.card_propagator.specs.Following.{Follows, IsWider, first_told, told_at_root, are_within};
ghost use Rattle.card_propagator.specs.Due.{IsFound};
ghost use Rattle.card_propagator.specs.Counting.{Counting, height, Undone, lits_at, rule, IsProper};

use crate::due::{Found, find_due, value_of};
use crate::heaviest::heaviest;
use crate::holders::Holders;
use crate::id::{CardId, END};
use crate::queue::{put, put_each};
use crate::rules::{copy, lits_of};
use crate::tallies::{count_down, count_up, reset};
use crate::told::Told;
use flag_set::work::WorkList;
use sat_model::constraint::Constraint;
use sat_model::literal::{Lit, Var};
use sat_model::memory::Memory;
use std::alloc::Global;
use std::marker::Model;
use user_propagator::desk::Desk;

/// Cardinalities with the numbers of their true and false positions.
#[derive(Drop)]
pub struct Counter {
    // The cardinalities, in the order of admission.
    rules: Vec<Constraint>,
    // How many positions of each are true.
    true_counts: Vec<u64>,
    // How many positions of each are false.
    false_counts: Vec<u64>,
    // How often each repeats a literal, at most.
    heavy: Vec<u64>,
    // A place in each before which all positions have values.
    starts: Vec<usize>,
    // Which of them hold a literal.
    holders: Holders,
    // Those that wait to be looked at.
    queue: WorkList<CardId>,
    // What was told of each variable that they name, at its number.
    table: Vec<Option<Told>>,
    // The variables that were told above the root, by rising levels. There is room for the whole table.
    stack: Vec<usize>,
    // The current level.
    level: u32,
}

impl Model for Counter {
    ghost use Rattle.std.specs.Prelude.{vec_capacity};
    ghost use Rattle.card_propagator.specs.Counting.{Counting, IsKept};

    ghost Value = { Counting };

    ghost view = { λ c. record { rules = c.rules.items; table = c.table.items; level = c.level } };

    ghost invariant = { λ c. IsKept c.rules.items c.holders c.table.items c.true_counts.items c.false_counts.items c.heavy.items c.starts.items c.queue c.stack.items c.level (vec_capacity c.stack) };
}

// Appends a variable that is told above the root. There is room for it.
fn push_above(stack: &mut Vec<usize>, var: usize, level: u32)
    requires { length stack.old.items < vec_capacity stack.old }
    ensures items { stack.new.items ≡ (if nat_eq level 0 then stack.old.items else stack.old.items ++ var ∷ []) }
    ensures room { vec_capacity stack.old ≤ vec_capacity stack.new }
{
    if level == 0 {
        return;
    }
    if stack.push(var).is_err() {
        unreachable!()
    }
}

// The variable that was told last.
fn newest(stack: &[usize]) -> Option<usize>
    ensures { MatchOption result (stack.now ≡ []) (λ v. (rest : List ℕ) × (stack.now ≡ rest ++ v ∷ [])) }
{
    stack.last().copied()
}

// Room for the variables of a list: one more than the greatest.
fn need_of(lits: &[Lit]) -> usize
    ensures known { (i : ℕ) → i < length lits.now → (0 < var_of (slice_index lits.now i)) × (var_of (slice_index lits.now i) < result) }
    ensures small { result ≤ 2 ^ 22 }
{
    let mut need = 0;
    for lit in lits {
        let var = lit.var().index() as usize;
        if need <= var {
            need = var + 1;
        }
    }
    need
}

// What the desk's trail, which is at the root, says of a variable.
fn told_on(desk: &Desk, var: Var) -> Option<Told>
    requires { are_within 0 desk.now.seen ≡ true }
    ensures { result ≡ first_told desk.now.seen var }
{
    match desk.value(var.positive()) {
        Some(true) => Some(Told {
            lit: var.positive(),
            level: 0,
        }),
        Some(false) => Some(Told {
            lit: var.negative(),
            level: 0,
        }),
        None => None,
    }
}

// The same of a number; there is no variable 0.
fn entry_on(desk: &Desk, number: usize) -> Option<Told>
    requires within { are_within 0 desk.now.seen ≡ true }
    requires small { number < 2 ^ 22 }
    ensures { result ≡ told_at_root desk.now.seen number }
{
    match Var::new(number as u32) {
        Some(var) => told_on(desk, var),
        None => None,
    }
}

// Makes the table so long, by what the desk's trail says.
fn grow_table(table: &mut Vec<Option<Told>>, need: usize, desk: &Desk) -> Result<(), Memory>
    requires within { are_within 0 desk.now.seen ≡ true }
    requires small { need ≤ 2 ^ 22 }
    ensures wider { IsWider table.old.items table.new.items desk.now.seen }
    ensures ok { OnOk result (need ≤ length table.new.items) }
    ensures long { (length table.new.items ≤ need) ⊎ (table.new.items ≡ table.old.items) }
{
    while table.len() < need {
        let entry = entry_on(desk, table.len());
        table.push(entry)?;
    }
    Ok(())
}

// Makes room for one more in each list.
fn reserve_all(
    rules: &mut Vec<Constraint>,
    true_counts: &mut Vec<u64>,
    false_counts: &mut Vec<u64>,
    heavy: &mut Vec<u64>,
    starts: &mut Vec<usize>,
) -> Result<(), Memory>
    ensures rules { rules.new.items ≡ rules.old.items }
    ensures true_counts { true_counts.new.items ≡ true_counts.old.items }
    ensures false_counts { false_counts.new.items ≡ false_counts.old.items }
    ensures heavy { heavy.new.items ≡ heavy.old.items }
    ensures starts { starts.new.items ≡ starts.old.items }
    ensures room_rules { OnOk result (length rules.old.items < vec_capacity rules.new) }
    ensures room_ups { OnOk result (length true_counts.old.items < vec_capacity true_counts.new) }
    ensures room_downs { OnOk result (length false_counts.old.items < vec_capacity false_counts.new) }
    ensures room_heavy { OnOk result (length heavy.old.items < vec_capacity heavy.new) }
    ensures room_from { OnOk result (length starts.old.items < vec_capacity starts.new) }
{
    rules.reserve(1)?;
    true_counts.reserve(1)?;
    false_counts.reserve(1)?;
    heavy.reserve(1)?;
    starts.reserve(1)?;
    Ok(())
}

// Appends a count. There is room for it.
fn append(list: &mut Vec<u64>, value: u64)
    requires { length list.old.items < vec_capacity list.old }
    ensures { list.new.items ≡ list.old.items ++ value ∷ [] }
{
    if list.push(value).is_err() {
        unreachable!()
    }
}

// Appends the first place. There is room for it.
fn append_zero(list: &mut Vec<usize>)
    requires { length list.old.items < vec_capacity list.old }
    ensures { list.new.items ≡ list.old.items ++ 0 ∷ [] }
{
    if list.push(0).is_err() {
        unreachable!()
    }
}

// Appends a cardinality. There is room for it.
fn append_rule(list: &mut Vec<Constraint>, rule: Constraint)
    requires { length list.old.items < vec_capacity list.old }
    ensures { list.new.items ≡ list.old.items ++ rule ∷ [] }
{
    if list.push(rule).is_err() {
        unreachable!()
    }
}

// How many positions are true.
fn count_true(table: &[Option<Told>], lits: &[Lit]) -> u64
    ensures { result ≡ trues table.now lits.now }
{
    lits.iter()
        .filter(|lit| value_of(table, **lit) == Some(true))
        .count() as u64
}

// How many positions are false.
fn count_false(table: &[Option<Told>], lits: &[Lit]) -> u64
    ensures { result ≡ falses table.now lits.now }
{
    lits.iter()
        .filter(|lit| value_of(table, **lit) == Some(false))
        .count() as u64
}

impl Counter {
    /// No cardinality, and nothing told. It takes no memory.
    pub fn new(alloc: Global) -> Counter
        ensures { result ≡ record { rules = []; table = []; level = 0 } }
    {
        Counter {
            rules: Vec::new(alloc),
            true_counts: Vec::new(alloc),
            false_counts: Vec::new(alloc),
            heavy: Vec::new(alloc),
            starts: Vec::new(alloc),
            holders: Holders::new(alloc),
            queue: WorkList::new(alloc),
            table: Vec::new(alloc),
            stack: Vec::new(alloc),
            level: 0,
        }
    }

    /// A literal became true at the current level.
    pub fn put(&mut self, lit: Lit)
        requires { 0 < var_of lit → told self.old.table (var_of lit) ≡ None }
        ensures { self.new ≡ record self.old { table = slice_set self.old.table (var_of lit) (Some (record { lit = lit; level = self.old.level })) } }
    {
        let var = lit.var().index() as usize;
        // No cardinality names it.
        if var >= self.table.len() {
            return;
        }
        push_above(&mut self.stack, var, self.level);
        self.table[var] = Some(Told {
            lit,
            level: self.level,
        });
        count_up(&mut self.true_counts, self.holders.at(lit));
        let fallen = self.holders.at(lit.neg());
        count_up(&mut self.false_counts, fallen);
        put_each(&mut self.queue, fallen);
    }

    /// A level was opened.
    pub fn raise(&mut self)
        requires { self.old.level < max_var }
        ensures { self.new ≡ record self.old { level = self.old.level + 1 } }
    {
        self.level += 1;
    }

    // Takes the newest variable back, if it was told above a level.
    fn undo(&mut self, level: u32) -> bool
        ensures stays { result ≡ false → (self.new ≡ self.old) × ((v : ℕ) → height (told self.old.table v) ≤ level) }
        ensures undone { result ≡ true → Undone self.old.table self.new.table level × (self.new.rules ≡ self.old.rules) × (self.new.level ≡ self.old.level) }
    {
        let Some(var) = newest(&self.stack) else {
            return false;
        };
        let Some(told) = self.table[var] else {
            return false;
        };
        if told.level <= level {
            return false;
        }
        self.stack.pop();
        self.table[var] = None;
        let risen = self.holders.at(told.lit);
        count_down(&mut self.true_counts, risen);
        reset(&mut self.starts, risen);
        put_each(&mut self.queue, risen);
        let fallen = self.holders.at(told.lit.neg());
        count_down(&mut self.false_counts, fallen);
        reset(&mut self.starts, fallen);
        true
    }

    /// What was told above a level is taken back.
    pub fn back(&mut self, level: u32)
        requires { level ≤ self.old.level }
        ensures table { (v : ℕ) → told self.new.table v ≡ keep level (told self.old.table v) }
        ensures size { length self.new.table ≡ length self.old.table }
        ensures rules { self.new.rules ≡ self.old.rules }
        ensures level { self.new.level ≡ level }
    {
        while self.undo(level) {}
        self.level = level;
    }

    /// How many cardinalities there are.
    pub fn len(&self) -> usize
        ensures { result ≡ length self.now.rules }
    {
        self.rules.len()
    }

    /// A cardinality, in the order of admission.
    pub fn rule(&self, k: usize) -> &Constraint
        requires { k < length self.now.rules }
        ensures { result.now ≡ rule self.now.rules k }
    {
        &self.rules[k]
    }

    /// The number of true positions of a cardinality.
    pub fn true_count(&self, k: usize) -> u64
        requires { k < length self.now.rules }
        ensures { result ≡ trues self.now.table (lits_at self.now.rules k) }
    {
        self.true_counts[k]
    }

    /// The number of false positions of a cardinality.
    pub fn false_count(&self, k: usize) -> u64
        requires { k < length self.now.rules }
        ensures { result ≡ falses self.now.table (lits_at self.now.rules k) }
    {
        self.false_counts[k]
    }

    /// Truth of a literal by what was told.
    pub fn value(&self, lit: Lit) -> Option<bool>
        ensures { result ≡ value self.now.table lit }
    {
        value_of(&self.table, lit)
    }

    /// The cardinalities that hold a literal.
    pub(crate) fn holders(&self, lit: Lit) -> &[CardId]
        ensures { (k : ℕ) → times result.now k ≡ times (lits_at self.now.rules k) lit }
    {
        self.holders.at(lit)
    }

    /// Each rule is a cardinality, and its variables are known: what always holds.
    pub fn law_proper(&self)
        ensures { IsProper self.now }
    {
        let _count = self.rules.len();
    }

    /// Looks for something that follows.
    pub fn search(&mut self) -> Found
        ensures same { self.new ≡ self.old }
        ensures found { IsFound self.old.rules self.old.table result }
    {
        find_due(
            &mut self.queue,
            &mut self.starts,
            &self.rules,
            &self.table,
            &self.false_counts,
            &self.heavy,
        )
    }

    // Takes in the variables of a list, with what the desk's trail says of them.
    fn widen(&mut self, lits: &[Lit], desk: &Desk) -> Result<(), Memory>
        requires root { self.old.level ≡ 0 }
        requires step { Follows self.old.table self.old.level (trail_of desk.now) }
        ensures known { OnOk result ((l : ℕ) → 0 < times lits.now l → (0 < var_of l) × (var_of l < length self.new.table)) }
        ensures step { Follows self.new.table self.new.level (trail_of desk.now) }
        ensures rules { self.new.rules ≡ self.old.rules }
        ensures level { self.new.level ≡ self.old.level }
    {
        let need = need_of(lits);
        self.stack.reserve(need)?;
        grow_table(&mut self.table, need, desk)
    }

    // Takes a cardinality in whose variables are known.
    fn enter(&mut self, alloc: Global, rule: Constraint) -> Result<(), Memory>
        requires known { (l : ℕ) → 0 < times (counted_lits rule) l → (0 < var_of l) × (var_of l < length self.old.table) }
        requires card { kind_of rule ≡ Card }
        ensures ok { OnOk result (self.new ≡ record self.old { rules = self.old.rules ++ rule ∷ [] }) }
        ensures err { OnErr result (self.new ≡ self.old) }
    {
        // All memory comes first, and what was done is undone where some of it is refused.
        if self.rules.len() >= END {
            return Err(Memory);
        }
        let id = CardId::new(self.rules.len());
        let most = heaviest(alloc, lits_of(&rule))?;
        reserve_all(
            &mut self.rules,
            &mut self.true_counts,
            &mut self.false_counts,
            &mut self.heavy,
            &mut self.starts,
        )?;
        self.queue.reach(id)?;
        self.holders.add(lits_of(&rule), id)?;
        let up = count_true(&self.table, lits_of(&rule));
        let down = count_false(&self.table, lits_of(&rule));
        append(&mut self.true_counts, up);
        append(&mut self.false_counts, down);
        append(&mut self.heavy, most);
        append_zero(&mut self.starts);
        append_rule(&mut self.rules, rule);
        // Something may follow from it at once.
        put(&mut self.queue, id);
        Ok(())
    }

    /// Takes one more cardinality in, at the root.
    pub fn admit(&mut self, alloc: Global, rule: &Constraint, desk: &Desk) -> Result<(), Memory>
        requires card { kind_of rule.now ≡ Card }
        requires root { self.old.level ≡ 0 }
        requires step { Follows self.old.table self.old.level (trail_of desk.now) }
        ensures ok { OnOk result (self.new.rules ≡ self.old.rules ++ rule.now ∷ []) }
        ensures err { OnErr result (self.new.rules ≡ self.old.rules) }
        ensures step { Follows self.new.table self.new.level (trail_of desk.now) }
    {
        let copied = copy(alloc, rule)?;
        self.widen(lits_of(&copied), desk)?;
        self.enter(alloc, copied)
    }
}
