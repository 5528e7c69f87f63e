//! What a search works on, and what it finds.
//!
//! A core keeps all that a search needs from one search to the next, so that nothing of a query is
//! linear in what is stored: clauses that were attached stay attached, literals of the root stay on
//! the trail, and the order of decisions goes on. A clause that is added is only listed, and is
//! attached when the core is made ready for its next search.
ghost use Rattle.std.specs.Prelude.{◌≡◌, [], IfOk, OnErr};
ghost use Rattle.sat_terms.specs.Normal.{IsNormal};
ghost use Rattle.clause_store.specs.declared.stored.Keep.TheVariants.{Firm};
ghost use Rattle.clause_store.specs.Stored.{Fills};

use clause_store::store::Store;
use clause_store::stored::Keep;
use conflict_analysis::scratch::Scratch;
use conflict_analysis::tally::{MOST_CONFLICTS, Tally};
use decide_order::order::Order;
use sat_model::lists::{ClauseId, Lits};
use sat_model::literal::Lit;
use sat_model::memory::Memory;
use search_policy::policy::Policy;
use std::alloc::Global;
use trail_state::trail::Trail;
use watch_lists::watches::Watches;

/// How much a solve may do: so many conflicts, and so many calls of an external propagator. Each is
/// at most 2^62, and 2^62 says that there is no bound. No propagator is called yet, so the second
/// has no effect.
#[derive(Clone, Copy, Debug, PartialEq, Eq)]
pub struct Budget {
    /// So many conflicts may be analysed.
    pub conflicts: u64,
    /// So many calls of an external propagator may be made.
    pub callbacks: u64,
}

/// The budget that bounds nothing.
pub const NO_BUDGET: Budget = Budget {
    conflicts: MOST_CONFLICTS,
    callbacks: MOST_CONFLICTS,
};

/// What was used up when a search stopped.
#[derive(Clone, Copy, Debug, PartialEq, Eq)]
pub enum Spent {
    /// So many conflicts were counted, which is the budget.
    Conflicts(u64),
}

/// What a search finds.
#[derive(Drop)]
pub enum Found {
    /// A model, which stands in the core.
    Sat,
    /// There is none: these assumptions fail together.
    Unsat(Lits),
    /// The budget was used up before an answer was found.
    Spent(Spent),
}

/// What a search works on. (Not a core of assumptions that fail: that one is in `Found::Unsat`.)
#[derive(Drop)]
pub struct Core {
    /// The clauses: firm ones, which were given, and redundant ones, which were learned.
    pub store: Store,
    /// The literals that have a value.
    pub trail: Trail,
    /// The clauses that propagation looks at, by the literals that they watch.
    pub watches: Watches,
    /// Which variable is decided next, and to which value.
    pub order: Order,
    /// When the search restarts, and which clauses it forgets.
    pub policy: Policy,
    /// The count of the conflicts, and its budget.
    pub tally: Tally,
    /// What the analysis of a conflict works on: the learned clause and the literals that were met
    /// lie there.
    pub scratch: Scratch,
    /// A value for each variable from 1 on. Only a search that finds a model writes it.
    pub model: Vec<bool>,
    /// The ids of the clauses that were added since the last search and are not attached yet.
    pub listed: Vec<ClauseId>,
}

impl Core {
    ghost use Rattle.search_engine.specs.Searching.{clauses, IsAtRest};

    /// A core with no clause, no variable and no model. It takes no memory.
    pub fn new(alloc: Global) -> Core
        ensures store { clauses result ≡ [] }
        ensures declared { result.order.declared ≡ 0 }
        ensures rest { IsAtRest result }
    {
        Core {
            store: Store::new(alloc),
            trail: Trail::new(alloc),
            watches: Watches::new(alloc),
            order: Order::new(alloc),
            policy: Policy::new(alloc),
            tally: Tally::new(),
            scratch: Scratch::new(alloc),
            model: Vec::new(alloc),
            listed: Vec::new(alloc),
        }
    }

    /// The clauses that are stored.
    pub fn store(&self) -> &Store
        ensures { result.now ≡ clauses self.now }
    {
        &self.store
    }

    /// Stores a firm clause, and lists it to be attached before the next search. The core must be
    /// at rest. After `Memory` nothing changed.
    pub fn add(&mut self, lits: &[Lit]) -> Result<ClauseId, Memory>
        requires normal { IsNormal lits.now }
        requires rest { IsAtRest self.old }
        ensures ok { IfOk result (λ id. Fills (clauses self.old) (clauses self.new) id (record { lits = lits.now; keep = Firm; glue = 0 })) }
        ensures err { OnErr result (clauses self.new ≡ clauses self.old) }
        ensures rest { IsAtRest self.new }
        ensures order { self.new.order ≡ self.old.order }
        ensures tally { self.new.tally ≡ self.old.tally }
    {
        // The new clause is not attached, so the lists follow the store with it too.
        self.watches.law_following();
        // The place in the list comes first, so that nothing has to be undone.
        self.listed.reserve(1)?;
        let id = self.store.add(lits, Keep::Firm, 0)?;
        match self.listed.push(id) {
            Ok(()) => Ok(id),
            Err(_) => unreachable!(),
        }
    }
}
