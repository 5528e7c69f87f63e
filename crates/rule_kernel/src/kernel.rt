//! The kernel of rules: the one place where firm clauses come and go.
//!
//! Simplification takes clauses out that a model of the rest need not make true: a model found later is mended (Järvisalo, Heule, Biere,
//! "Inprocessing rules", IJCAR 2012). Such a clause goes to a reconstruction stack with a witness, a list of literals: where a model
//! makes the clause false, setting the witness true makes it true and breaks none of the clauses that were firm then. Between queries
//! new clauses come, which the witness may break; so a clause may come only where no witness holds the negation of one of its literals
//! (it is clean), and entries can be restored first (Fazekas, Biere, Scholl, "Incremental inprocessing in SAT solving", SAT 2019).
//!
//! What must hold for models to be mended is the chain: each entry's witness witnesses its clause for the firm clauses together with the
//! clauses of all later entries, for the newest entry acts first. The type keeps it, and each rule has as its condition just what keeps it:
//!
//! - `add` wants a clean clause, `add_implied` one that the firm clauses imply already: every witness moves its models to models as before;
//! - `drop_implied` takes out what the others imply: they stand for the same assignments;
//! - `park` puts the clause behind all entries, so that it stands among the later clauses of each, as it stood among the firm ones;
//! - `restore` wants the clause clean for the later entries alone: for the older ones it was among the later clauses before;
//! - `learn` and `forget` touch no firm clause.
//!
//! No search and no pass changes firm clauses but by these rules, so none of them need speak of the chain.
ghost use Rattle.std.specs.Prelude.{◌≡◌, ◌≢◌, ◌+◌, ◌<◌, ◌≤◌, ◌↔◌, ◌==◌, ◌&&◌, ℕ, not, [], true, false, length, drop, min, ◌^◌, slice_index_or, IfOk, OnOk, OnErr, IsTrue};
ghost use Rattle.std.specs.List.{swap_remove};
ghost use Rattle.sat_terms.specs.Literal.{has};
ghost use Rattle.sat_terms.specs.Truth.{values, Implies};
ghost use Rattle.sat_terms.specs.Normal.{IsNormal};
ghost use Rattle.redundancy.specs.Redundancy.{entry, Clean, Witnesses, StackTrue, StackWithin, extend as extension};
ghost use Rattle.clause_store.specs.Stored.{slot, slot_lits, is_firm, is_redundant, FirmTrue, OthersTrue, Fills, Frees, SameSlots};
ghost use Rattle.firm_terms.specs.Firm.{firm as firm_clauses};
ghost use Rattle.firm_terms.specs.Resolving.{candidate, BlocksNone};
ghost use Rattle.firm_terms.specs.Subsuming.{IsFree, IsDone};
ghost use Rattle.firm_terms.specs.Implying.{NoEquivalents};
ghost use Rattle.firm_terms.specs.Signing.{IsSignature};
ghost use Rattle.firm_terms.specs.Vivifying.{AllCalm};
ghost use Rattle.rule_kernel.specs.Changes.{marked, HasRoom, MarksCame, MarksWent};
ghost use Rattle.rule_kernel.specs.Frozen.{is_frozen};
ghost use Rattle.rule_kernel.specs.Waiting.{waiting as waiting_of, signature, Signs, Waits, Leaves};
ghost use Rattle.rule_kernel.specs.Settled.{unsettled, IsUntied};
ghost use Rattle.rule_kernel.specs.State.{IsChained, IsPromised, FirmIds, AllFirm};
ghost use Rattle.rule_kernel.specs.Rules.{counted, firm_clause, Applies, Add, AddImplied, DropImplied, Park, Restore, Learn, Forget, SameRest, SameButMarks};

use crate::changes::Changes;
use crate::frozen::Frozen;
use crate::settled::Settled;
use crate::waiting::Waiting;
use clause_store::store::Store;
use clause_store::stored::Keep;
use sat_model::lists::ClauseId;
use sat_model::literal::{Lit, Var};
use sat_model::memory::Memory;
use std::alloc::Global;
use std::marker::Model;
use witness_stack::stack::Stack;

/// A store and a reconstruction stack, how often clauses were removed from the store and restored to it, and what passes must look at
/// again. It keeps the chain: for every entry of the stack, the witness witnesses the clause for the firm clauses together with the
/// clauses of all later entries.
///
/// A variable is marked where a firm clause that mentions it came or went; a literal, where a firm clause that holds it came, or one that
/// holds its negation went; a firm clause that came waits to be compared with the others. A pass takes marks off where it found that
/// nothing is to be done, and only there: so a variable without a mark is no candidate for elimination, a literal without a mark has no
/// clause that is blocked on it, and clauses that do not wait neither lie within one another nor shorten one another. Likewise the kernel
/// remembers that there are no equivalences, and that vivification shortens no clause, until a clause comes.
#[derive(Drop)]
pub struct Kernel {
    // What all parts take their memory from.
    alloc: Global,
    // The clauses, firm and redundant.
    store: Store,
    // The clauses that were parked, with their witnesses, oldest first.
    stack: Stack,
    // How often `drop_implied` and `park` were used, up to 2^62.
    removals: u64,
    // How often `restore` was used, up to 2^62.
    restores: u64,
    // The variables and literals that changed since the passes last looked.
    changes: Changes,
    // The clauses that wait to be compared.
    waiting: Waiting,
    // What the passes that look at all clauses found to be at rest.
    settled: Settled,
}

impl Model for Kernel {
    ghost use Rattle.rule_kernel.specs.Changes.{marked};
    ghost use Rattle.rule_kernel.specs.Waiting.{waiting as waiting_of};
    ghost use Rattle.rule_kernel.specs.State.{State, IsKept};

    ghost Value = { State };

    ghost view = { λ k. record { store = k.store; stack = k.stack; removals = k.removals; restores = k.restores; marked = marked k.changes; waiting = waiting_of k.waiting; settled = k.settled } };

    ghost invariant = { λ k. IsKept k.store k.stack k.changes k.waiting k.settled };
}

// One more, up to 2^62.
fn one_more(count: u64) -> u64
    ensures { result ≡ counted count }
{
    if count < 1 << 62 { count + 1 } else { 1 << 62 }
}

// Brings a normal clause to the firm ones, marks that it came, and has it wait. After `Memory` no clause changed, and nothing that is marked
// or waits.
fn enter(
    store: &mut Store,
    changes: &mut Changes,
    waiting: &mut Waiting,
    settled: &mut Settled,
    lits: &[Lit],
) -> Result<ClauseId, Memory>
    requires { IsNormal lits.now }
    ensures store { IfOk result (λ id. Fills store.old store.new id (firm_clause lits.now)) }
    ensures marks { OnOk result (MarksCame (marked changes.old) (marked changes.new) lits.now) }
    ensures room { OnOk result (HasRoom changes.new.room lits.now) }
    ensures waits { IfOk result (λ id. Waits (waiting_of waiting.old) (waiting_of waiting.new) id) }
    ensures id { IfOk result (λ id. id < waiting.new.room) }
    ensures signs { IfOk result (λ id. Signs waiting.old.signatures waiting.new.signatures id lits.now) }
    ensures settled { OnOk result (settled.new ≡ unsettled settled.old) }
    ensures more { changes.old.room ≤ changes.new.room }
    ensures more_ids { waiting.old.room ≤ waiting.new.room }
    ensures err { OnErr result (store.new ≡ store.old) }
    ensures unmarked { OnErr result (marked changes.new ≡ marked changes.old) }
    ensures unwaiting { OnErr result (waiting_of waiting.new ≡ waiting_of waiting.old) }
    ensures unsigned { OnErr result ((k : ℕ) → signature waiting.new.signatures k ≡ signature waiting.old.signatures k) }
    ensures unmoved { OnErr result (settled.new ≡ settled.old) }
{
    changes.reach(lits)?;
    waiting.reach(store.id_bound())?;
    let id = store.add(lits, Keep::Firm, 0)?;
    changes.came(lits);
    waiting.came(id, lits);
    settled.came();
    Ok(id)
}

// Takes a firm clause out, marks that it went, and has it wait no longer.
fn leave(store: &mut Store, changes: &mut Changes, waiting: &mut Waiting, id: ClauseId)
    requires firm { is_firm (slot store.old id) ≡ true }
    requires room { HasRoom changes.old.room (slot_lits (slot store.old id)) }
    ensures store { Frees store.old store.new id }
    ensures marks { MarksWent (marked changes.old) (marked changes.new) (slot_lits (slot store.old id)) }
    ensures room { changes.new.room ≡ changes.old.room }
    ensures leaves { Leaves (waiting_of waiting.old) (waiting_of waiting.new) id }
    ensures ids { waiting.new.room ≡ waiting.old.room }
    ensures signatures { waiting.new.signatures ≡ waiting.old.signatures }
{
    changes.went(store.get(id));
    waiting.went(id);
    store.remove(id);
}

impl Kernel {
    /// No clause, no entry, both counts 0, nothing marked, and nothing waits. It takes no memory.
    pub fn new(alloc: Global) -> Kernel
        ensures store { result.store ≡ [] }
        ensures stack { result.stack ≡ [] }
        ensures removals { result.removals ≡ 0 }
        ensures restores { result.restores ≡ 0 }
        ensures vars { result.marked.vars ≡ [] }
        ensures lits { result.marked.lits ≡ [] }
        ensures due { result.waiting.due ≡ [] }
        ensures fresh { result.waiting.fresh ≡ [] }
    {
        Kernel {
            alloc,
            store: Store::new(alloc),
            stack: Stack::new(alloc),
            removals: 0,
            restores: 0,
            changes: Changes::new(alloc),
            waiting: Waiting::new(alloc),
            settled: Settled::new(alloc),
        }
    }

    /// The allocator that the kernel was made with, for what a pass keeps beside it.
    pub fn alloc(&self) -> Global {
        self.alloc
    }

    /// The clauses.
    pub fn store(&self) -> &Store
        ensures { result.now ≡ self.now.store }
    {
        &self.store
    }

    /// The reconstruction stack.
    pub fn stack(&self) -> &Stack
        ensures { result.now ≡ self.now.stack }
    {
        &self.stack
    }

    /// How often `drop_implied` and `park` were used, up to 2^62.
    pub fn removals(&self) -> u64
        ensures { result ≡ self.now.removals }
    {
        self.removals
    }

    /// How often `restore` was used, up to 2^62.
    pub fn restores(&self) -> u64
        ensures { result ≡ self.now.restores }
    {
        self.restores
    }

    /// The marked variables, each once: those of firm clauses that came or went since the mark was taken off.
    pub fn marked_vars(&self) -> &[Var]
        ensures { result.now ≡ self.now.marked.vars }
    {
        self.changes.vars()
    }

    /// The marked literals, each once: those of firm clauses that came, and the negations of those of firm clauses that went.
    pub fn marked_lits(&self) -> &[Lit]
        ensures { result.now ≡ self.now.marked.lits }
    {
        self.changes.lits()
    }

    /// Takes the mark of a variable that is no candidate for elimination off, if it has one; the last of the marked variables comes to its
    /// place.
    pub fn settle_var(&mut self, var: Var)
        requires { candidate (firm_clauses self.old.store) var ≡ false }
        ensures place { (k : ℕ) → k < length self.old.marked.vars → slice_index_or self.old.marked.vars k var ≡ var → self.new.marked.vars ≡ swap_remove self.old.marked.vars k var }
        ensures vars { (v : ℕ) → has self.new.marked.vars v ≡ (has self.old.marked.vars v && not (var == v)) }
        ensures lits { self.new.marked.lits ≡ self.old.marked.lits }
        ensures waiting { self.new.waiting ≡ self.old.waiting }
        ensures settled { self.new.settled ≡ self.old.settled }
        ensures rest { SameButMarks self.old self.new }
    {
        self.changes.unmark_var(var);
    }

    /// Takes the mark of a literal on which no clause is blocked off, if it has one; the last of the marked literals comes to its place.
    pub fn settle_lit(&mut self, lit: Lit)
        requires { BlocksNone self.old.store lit }
        ensures place { (k : ℕ) → k < length self.old.marked.lits → slice_index_or self.old.marked.lits k lit ≡ lit → self.new.marked.lits ≡ swap_remove self.old.marked.lits k lit }
        ensures lits { (l : ℕ) → has self.new.marked.lits l ≡ (has self.old.marked.lits l && not (lit == l)) }
        ensures vars { self.new.marked.vars ≡ self.old.marked.vars }
        ensures waiting { self.new.waiting ≡ self.old.waiting }
        ensures settled { self.new.settled ≡ self.old.settled }
        ensures rest { SameButMarks self.old self.new }
    {
        self.changes.unmark_lit(lit);
    }

    /// The ids of the clauses that wait to be tried on all others, each once: whether they lie within one, or shorten one.
    pub fn due(&self) -> &[ClauseId]
        ensures { result.now ≡ self.now.waiting.due }
    {
        self.waiting.due()
    }

    /// The ids of the clauses on which all others wait to be tried, each once. They are due too.
    pub fn fresh(&self) -> &[ClauseId]
        ensures { result.now ≡ self.now.waiting.fresh }
    {
        self.waiting.fresh()
    }

    /// The signature of a firm clause: a bit for each class of variables by their number modulo 64, set where one stands in the clause. One
    /// that has a bit which another clause's lacks neither lies within that one nor shortens it (Eén and Biere, SAT 2005).
    pub fn signature(&self, id: ClauseId) -> u64
        requires { is_firm (slot self.now.store id) ≡ true }
        ensures { IsSignature (slot_lits (slot self.now.store id)) result }
    {
        self.waiting.signature(id)
    }

    /// A clause on which all others were tried neither lies within another firm one nor shortens one: it waits no longer to be tried on
    /// them.
    pub fn settle_due(&mut self, id: ClauseId)
        requires done { is_firm (slot self.old.store id) ≡ true → IsDone self.old.store id }
        requires fresh { has self.old.waiting.fresh id ≡ false }
        ensures due { (k : ℕ) → has self.new.waiting.due k ≡ (has self.old.waiting.due k && not (id == k)) }
        ensures fresh { self.new.waiting.fresh ≡ self.old.waiting.fresh }
        ensures marked { self.new.marked ≡ self.old.marked }
        ensures settled { self.new.settled ≡ self.old.settled }
        ensures rest { SameButMarks self.old self.new }
    {
        self.waiting.settle_due(id);
    }

    /// No other firm clause that is not due, nor empty, lies within a clause or shortens it: none waits any longer to be tried on it.
    pub fn settle_fresh(&mut self, id: ClauseId)
        requires { (other : ℕ) → other ≢ id → is_firm (slot self.old.store other) ≡ true → 0 < length (slot_lits (slot self.old.store other)) → has self.old.waiting.due other ≡ false → IsFree (slot_lits (slot self.old.store other)) (slot_lits (slot self.old.store id)) }
        ensures due { self.new.waiting.due ≡ self.old.waiting.due }
        ensures fresh { (k : ℕ) → has self.new.waiting.fresh k ≡ (has self.old.waiting.fresh k && not (id == k)) }
        ensures marked { self.new.marked ≡ self.old.marked }
        ensures settled { self.new.settled ≡ self.old.settled }
        ensures rest { SameButMarks self.old self.new }
    {
        self.waiting.settle_fresh(id);
    }

    /// All firm clauses wait to be tried on all others, which does for those on which all others wait to be tried: there are none of these
    /// then. A pass calls it where more waits than there are clauses.
    pub fn make_all_due(&mut self)
        ensures due { (k : ℕ) → has self.new.waiting.due k ≡ is_firm (slot self.old.store k) }
        ensures fresh { self.new.waiting.fresh ≡ [] }
        ensures marked { self.new.marked ≡ self.old.marked }
        ensures settled { self.new.settled ≡ self.old.settled }
        ensures rest { SameButMarks self.old self.new }
    {
        self.waiting.all_due(self.store.firm_ids());
    }

    /// Whether it is settled that no variable but these frozen ones is equivalent to a literal of another one: just where that was found
    /// under the same frozen variables, and no clause came since.
    pub fn is_untied(&self, frozen: &Frozen) -> bool
        ensures known { IsTrue result ↔ IsUntied self.now.settled frozen.now }
        ensures untied { IsTrue result → NoEquivalents (is_frozen frozen.now) self.now.store }
    {
        self.settled.is_untied(frozen)
    }

    /// No variable but some frozen ones is equivalent to a literal of another one: this is remembered, with these frozen variables, until
    /// a clause comes. After `Memory` nothing changed.
    pub fn settle_untied(&mut self, frozen: &Frozen) -> Result<(), Memory>
        requires { NoEquivalents (is_frozen frozen.now) self.old.store }
        ensures ok { OnOk result (IsUntied self.new.settled frozen.now) }
        ensures calm { self.new.settled.calm ≡ self.old.settled.calm }
        ensures marked { self.new.marked ≡ self.old.marked }
        ensures waiting { self.new.waiting ≡ self.old.waiting }
        ensures rest { SameButMarks self.old self.new }
        ensures err { OnErr result (self.new ≡ self.old) }
    {
        self.settled.settle_untied(self.alloc, frozen)?;
        Ok(())
    }

    /// Whether it is known that vivification shortens no clause.
    pub fn is_calm(&self) -> bool
        ensures known { result ≡ self.now.settled.calm }
        ensures calm { IsTrue result → AllCalm self.now.store }
    {
        self.settled.is_calm()
    }

    /// Vivification shortens no clause: this is remembered until a clause comes.
    pub fn settle_calm(&mut self)
        requires { AllCalm self.old.store }
        ensures marked { self.new.marked ≡ self.old.marked }
        ensures waiting { self.new.waiting ≡ self.old.waiting }
        ensures untied { self.new.settled.untied ≡ self.old.settled.untied }
        ensures frozen { self.new.settled.frozen ≡ self.old.settled.frozen }
        ensures calm { self.new.settled.calm ≡ true }
        ensures rest { SameButMarks self.old self.new }
    {
        self.settled.settle_calm();
    }

    /// Extends a model of the firm clauses by the stack, so that it makes the clauses of the stack true too. The model must
    /// have the variables of the witnesses.
    pub fn extend(&self, model: &mut [bool])
        requires within { StackWithin (length model.old) self.now.stack }
        requires firm { FirmTrue self.now.store (values model.old) }
        ensures extended { values model.new ≡ extension (values model.old) self.now.stack }
        ensures firm { FirmTrue self.now.store (values model.new) }
        ensures stacked { StackTrue (values model.new) self.now.stack }
    {
        self.stack.extend(model);
    }

    /// Whether the literals are clean for the stack: no witness holds the negation of one of them.
    pub fn is_clean(&self, lits: &[Lit]) -> bool
        ensures { IsTrue result ↔ Clean lits.now self.now.stack }
    {
        self.stack.is_clean(lits)
    }

    /// Adds a normal clause that is clean for the stack to the firm clauses. After `Memory` nothing changed.
    pub fn add(&mut self, lits: &[Lit]) -> Result<ClauseId, Memory>
        requires normal { IsNormal lits.now }
        requires clean { Clean lits.now self.old.stack }
        ensures ok { IfOk result (λ id. Applies (Add lits.now id) self.old self.new) }
        ensures err { OnErr result (self.new ≡ self.old) }
    {
        let id = enter(
            &mut self.store,
            &mut self.changes,
            &mut self.waiting,
            &mut self.settled,
            lits,
        )?;
        Ok(id)
    }

    /// Adds a normal clause that the firm clauses imply to them. After `Memory` nothing changed.
    pub fn add_implied(&mut self, lits: &[Lit]) -> Result<ClauseId, Memory>
        requires normal { IsNormal lits.now }
        requires implied { Implies (FirmTrue self.old.store) lits.now }
        ensures ok { IfOk result (λ id. Applies (AddImplied lits.now id) self.old self.new) }
        ensures err { OnErr result (self.new ≡ self.old) }
    {
        let implied = enter(
            &mut self.store,
            &mut self.changes,
            &mut self.waiting,
            &mut self.settled,
            lits,
        )?;
        Ok(implied)
    }

    /// Removes a firm clause that the other firm clauses imply.
    pub fn drop_implied(&mut self, id: ClauseId)
        requires firm { is_firm (slot self.old.store id) ≡ true }
        requires implied { Implies (OthersTrue self.old.store id) (slot_lits (slot self.old.store id)) }
        ensures { Applies (DropImplied id) self.old self.new }
    {
        let removals = one_more(self.removals);
        leave(&mut self.store, &mut self.changes, &mut self.waiting, id);
        self.removals = removals;
    }

    /// Moves a firm clause to the end of the stack, with a witness that witnesses it for the other firm clauses. After `Memory`
    /// nothing changed.
    pub fn park(&mut self, id: ClauseId, witness: &[Lit]) -> Result<(), Memory>
        requires firm { is_firm (slot self.old.store id) ≡ true }
        requires witnessed { Witnesses (OthersTrue self.old.store id) witness.now (slot_lits (slot self.old.store id)) }
        ensures ok { OnOk result (Applies (Park id witness.now) self.old self.new) }
        ensures err { OnErr result (self.new ≡ self.old) }
    {
        self.stack.push(witness, self.store.get(id))?;
        leave(&mut self.store, &mut self.changes, &mut self.waiting, id);
        self.removals = one_more(self.removals);
        Ok(())
    }

    /// Moves the clause of the entry at a place below the stack's length back to the firm clauses, where it is clean for the
    /// later entries. After `Memory` nothing changed.
    pub fn restore(&mut self, k: usize) -> Result<ClauseId, Memory>
        requires within { k < length self.old.stack }
        requires clean { Clean (entry self.old.stack k).clause (drop (k + 1) self.old.stack) }
        ensures ok { IfOk result (λ id. Applies (Restore k id) self.old self.new) }
        ensures err { OnErr result (self.new ≡ self.old) }
    {
        self.stack.law_witnesses();
        let id = enter(
            &mut self.store,
            &mut self.changes,
            &mut self.waiting,
            &mut self.settled,
            self.stack.clause(k),
        )?;
        self.stack.take_out(k);
        self.restores = one_more(self.restores);
        Ok(id)
    }

    /// Adds a normal clause to the redundant ones, with a glue. After `Memory` nothing changed.
    pub fn learn(&mut self, lits: &[Lit], glue: u32) -> Result<ClauseId, Memory>
        requires { IsNormal lits.now }
        ensures ok { IfOk result (λ id. Applies (Learn lits.now glue id) self.old self.new) }
        ensures err { OnErr result (self.new ≡ self.old) }
    {
        let id = self.store.add(lits, Keep::Redundant, glue)?;
        Ok(id)
    }

    /// Removes a redundant clause.
    pub fn forget(&mut self, id: ClauseId)
        requires { is_redundant (slot self.old.store id) ≡ true }
        ensures { Applies (Forget id) self.old self.new }
    {
        self.store.remove(id);
    }

    /// Closes the gaps that removed clauses left in the store, and gives back memory that is not needed. Every id names what it did.
    pub fn compact(&mut self) -> Result<(), Memory>
        ensures store { SameSlots self.old.store self.new.store }
        ensures rest { SameRest self.old self.new }
        ensures marks { self.new.marked ≡ self.old.marked }
        ensures waiting { self.new.waiting ≡ self.old.waiting }
        ensures settled { self.new.settled ≡ self.old.settled }
    {
        self.store.compact()
    }

    // Laws: calls that do nothing, and tell a caller what holds of every kernel.

    /// What holds of every kernel: its chain. The call does nothing.
    pub fn law_chain(&self)
        ensures { IsChained self.now }
    {
        let _ = &self.store;
    }

    /// What holds of every kernel: what passes may rely on where nothing is marked, nothing waits, or something is settled. The call does
    /// nothing.
    pub fn law_promises(&self)
        ensures { IsPromised self.now }
    {
        let _ = &self.store;
    }
}
