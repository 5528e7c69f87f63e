//! A core before and after a search.
//!
//! `resume` makes a core ready: it declares the variables that came since, and attaches the clauses
//! that were listed since. What was attached stays so, after every way in which a search can end,
//! so a query costs what is new and what its search looks at. `pause` goes back to the root after a
//! search. The literals of the root stay, and so do the saved phases, the scores and the bumps of
//! the order of decisions, and what was learned (incremental search as in Eén, Sörensson, Temporal
//! induction by incremental SAT solving, 2003).
ghost use Rattle.std.specs.Prelude.{◌≡◌, ◌≤◌, ℕ, List, [], length, OnOk};
ghost use Rattle.sat_terms.specs.Limits.{max_var};
ghost use Rattle.sat_terms.specs.Answer.{Within};
ghost use Rattle.clause_store.specs.Stored.{Stored};
ghost use Rattle.trail_state.specs.Trail.{Trace, IsBack};
ghost use Rattle.watch_lists.specs.Propagation.{Follows};
ghost use Rattle.search_engine.specs.Searching.{StoreWithin, IsListing};

use crate::state::Core;
use clause_store::store::Store;
use sat_model::lists::ClauseId;
use sat_model::literal::Var;
use sat_model::memory::Memory;
use watch_lists::watches::Watches;

// Attaches the listed clauses, the last one first, and takes each off the list.
fn attach_listed(
    watches: &mut Watches,
    store: &Store,
    listed: &mut Vec<ClauseId>,
) -> Result<(), Memory>
    requires listing { IsListing watches.old.attached listed.old.items store.now }
    requires within { StoreWithin watches.old.declared store.now }
    ensures listing { IsListing watches.new.attached listed.new.items store.now }
    ensures none { OnOk result (listed.new.items ≡ []) }
    ensures declared { watches.new.declared ≡ watches.old.declared }
    ensures following { (t : Trace) → Follows watches.old store.now t → Follows watches.new store.now t }
{
    while listed.len() > 0 {
        let last = listed.len() - 1;
        watches.attach(store, listed[last])?;
        listed.truncate(last);
    }
    Ok(())
}

// Gives the model so many values. It keeps the memory that it has.
fn fit(model: &mut Vec<bool>, vars: u32) -> Result<(), Memory>
    ensures { OnOk result (length model.new.items ≡ vars) }
{
    model.resize(vars as usize, false)?;
    Ok(())
}

impl Core {
    ghost use Rattle.search_engine.specs.Searching.{clauses, IsReady, IsStanding, IsAtRest};

    /// Makes a core ready to search that is at rest: declares the variables up to `vars`, attaches
    /// the listed clauses, and gives the model so many values. The variables of the clauses must be
    /// among these, and at most these may be declared already. Whatever is answered, the core is at
    /// rest, with the same clauses.
    pub fn resume(&mut self, vars: u32) -> Result<(), Memory>
        requires few { vars ≤ max_var }
        requires rest { IsAtRest self.old }
        requires within { StoreWithin vars (clauses self.old) }
        requires declared { self.old.order.declared ≤ vars }
        ensures ready { OnOk result ((assumptions : List ℕ) → Within vars assumptions → IsReady assumptions self.new) }
        ensures size { OnOk result (length self.new.model.items ≡ vars) }
        ensures ok { OnOk result (self.new.trail.declared ≡ vars) }
        ensures declared { self.new.order.declared ≤ vars }
        ensures rest { IsAtRest self.new }
        ensures store { clauses self.new ≡ clauses self.old }
        ensures tally { self.new.tally ≡ self.old.tally }
    {
        self.widen(vars)?;
        attach_listed(&mut self.watches, &self.store, &mut self.listed)
    }

    // Declares the variables up to `vars`, and gives the model so many values.
    fn widen(&mut self, vars: u32) -> Result<(), Memory>
        requires few { vars ≤ max_var }
        requires rest { IsAtRest self.old }
        requires declared { self.old.order.declared ≤ vars }
        ensures model { OnOk result (length self.new.model.items ≡ vars) }
        ensures trail { OnOk result (self.new.trail.declared ≡ vars) }
        ensures watches { OnOk result (vars ≤ self.new.watches.declared) }
        ensures order { OnOk result (self.new.order.declared ≡ vars) }
        ensures declared { self.new.order.declared ≤ vars }
        ensures rest { IsAtRest self.new }
        ensures store { clauses self.new ≡ clauses self.old }
        ensures listed { self.new.listed.items ≡ self.old.listed.items }
        ensures tally { self.new.tally ≡ self.old.tally }
    {
        // Declaring puts no literal on the trail, so the lists follow it still.
        self.watches.law_following();
        fit(&mut self.model, vars)?;
        if let Some(last) = Var::new(vars) {
            // The order comes before the trail, whose variables it must know.
            self.order.declare(last)?;
            self.watches.declare(last)?;
            // The same of the lists, which are longer now.
            self.watches.law_following();
            self.trail.declare(last)?;
        }
        Ok(())
    }

    /// Goes back to the root after a search, whatever it answered: the core is at rest then, with
    /// the same clauses.
    pub fn pause(&mut self)
        requires { IsStanding self.old }
        ensures rest { IsAtRest self.new }
        ensures back { IsBack self.old.trail self.new.trail 0 }
        ensures declared { self.new.order.declared ≡ self.old.order.declared }
        ensures store { clauses self.new ≡ clauses self.old }
        ensures model { self.new.model.items ≡ self.old.model.items }
        ensures tally { self.new.tally ≡ self.old.tally }
    {
        self.order.back_to(&mut self.trail, 0);
        self.watches.cut(&self.trail);
    }
}
