//! What waits on a desk until the solver takes it.
//!
//! A callback may ask for variables, leave clauses and ask to go back. The solver takes these one
//! by one once the callback has returned: variables first, since a clause may name one that was
//! asked for, then the clauses in the order in which they were handed, and going back last. Each
//! kind lies in a queue of its own, so asking costs one step, and so does taking the first one.
//!
//! A request is lent to the solver while it lies here and goes only when its work is done
//! (`first_request`, then `drop_first`), so a solver that finds no memory in the middle of the
//! work loses none. Of the levels to go back to only the least counts, so one is kept.
ghost use Rattle.std.specs.Prelude.{◌≡◌, ◌++◌, ◌∷◌, [], false, IsTrue, is_some, OnOk, OnErr};
ghost use Rattle.std.specs.Prelude.{Some, None};
ghost use Rattle.std.specs.Option.{option_copied, option_to_list};
ghost use Rattle.user_propagator.specs.Board.{lower};
ghost use Rattle.user_propagator.specs.Waiting.{Waiting, nothing_waiting};
ghost use Rattle.user_propagator.specs.Waiting.{requests as requests_of, first, rest};
ghost use Rattle.user_propagator.specs.Waiting.{without_first, level_in};
ghost use Rattle.user_propagator.specs.declared.request.Request.{Request};

use crate::request::Request;
use sat_model::lists::Lits;
use sat_model::literal::Var;
use sat_model::memory::Memory;
use std::alloc::Global;
use std::collections::VecDeque;
use std::marker::Model;

// The requests on a desk. Contracts see the variables, the clauses and the level.
#[derive(Drop)]
pub(crate) struct Requests {
    // The variables that were asked for, each as a request, in the order of asking.
    wanted: VecDeque<Request>,
    // The clauses that were handed, each as a request, in the order of handing.
    handed: VecDeque<Request>,
    // The request to go back, with the least level that was asked for.
    back: Option<Request>,
}

impl Model for Requests {
    ghost use Rattle.user_propagator.specs.Waiting.{Waiting, vars_in, clauses_in, level_in};
    ghost use Rattle.user_propagator.specs.Waiting.{AreVars, AreClauses, IsLevel};

    ghost Value = { Waiting };

    ghost view = { λ r. record {
      wanted = vars_in r.wanted.items;
      handed = clauses_in r.handed.items;
      back = level_in r.back;
    } };

    ghost invariant = { λ r.
        AreVars r.wanted.items × AreClauses r.handed.items × IsLevel r.back };
}

// Puts a request at the end of a queue. After `Memory` the queue is as before.
fn enqueue(queue: &mut VecDeque<Request>, request: Request) -> Result<(), Memory>
    ensures ok { OnOk result (queue.new.items ≡ queue.old.items ++ request ∷ []) }
    ensures err { OnErr result (queue.new.items ≡ queue.old.items) }
{
    queue.push_back(request)?;
    Ok(())
}

// The first request of a queue.
fn front_of(queue: &VecDeque<Request>) -> Option<&Request>
    ensures { option_copied result ≡ first queue.now.items }
{
    queue.front()
}

// Takes the first request off a queue, and says whether there was one.
fn drop_front(queue: &mut VecDeque<Request>) -> bool
    ensures some { IsTrue result → (r : Request) × (queue.old.items ≡ r ∷ queue.new.items) }
    ensures none { result ≡ false → (queue.old.items ≡ []) × (queue.new.items ≡ []) }
{
    queue.pop_front().is_some()
}

// The first request of three kinds.
fn first_of<'a>(
    wanted: &'a VecDeque<Request>,
    handed: &'a VecDeque<Request>,
    back: &'a Option<Request>,
) -> Option<&'a Request>
    ensures first { option_copied result
        ≡ first (wanted.now.items ++ (handed.now.items ++ option_to_list back.now)) }
    ensures left { is_some result
        ≡ is_some (first (wanted.now.items ++ (handed.now.items ++ option_to_list back.now))) }
{
    if let Some(request) = front_of(wanted) {
        return Some(request);
    }
    if let Some(request) = front_of(handed) {
        return Some(request);
    }
    back.as_ref()
}

// The lesser of a level and the one that a request asks for.
fn lower_than(request: &Request, level: u32) -> u32
    ensures { Some result ≡ lower (level_in (Some request.now)) level }
{
    match request {
        Request::Back(other) => level.min(*other),
        Request::Observe(_) => level,
        Request::Clause(_, _) => level,
    }
}

// The least level once one more was asked for.
fn lowered(back: &Option<Request>, level: u32) -> u32
    ensures { Some result ≡ lower (level_in back.now) level }
{
    match back {
        Some(request) => lower_than(request, level),
        None => level,
    }
}

impl Requests {
    // Nothing. It takes no memory.
    pub(crate) fn new(alloc: Global) -> Requests
        ensures { result ≡ nothing_waiting }
    {
        Requests {
            wanted: VecDeque::new(alloc),
            handed: VecDeque::new(alloc),
            back: None,
        }
    }

    // Asks for a variable.
    pub(crate) fn observe(&mut self, var: Var) -> Result<(), Memory>
        ensures ok { OnOk result (self.new
            ≡ record self.old { wanted = self.old.wanted ++ var ∷ [] }) }
        ensures err { OnErr result (self.new ≡ self.old) }
    {
        enqueue(&mut self.wanted, Request::Observe(var))?;
        Ok(())
    }

    // Leaves a clause.
    pub(crate) fn hand(&mut self, clause: Lits, forgettable: bool) -> Result<(), Memory>
        ensures ok { OnOk result (self.new ≡ record self.old {
          handed = self.old.handed
              ++ record { clause = clause; forgettable = forgettable } ∷ [];
        }) }
        ensures err { OnErr result (self.new ≡ self.old) }
    {
        enqueue(&mut self.handed, Request::Clause(clause, forgettable))?;
        Ok(())
    }

    // Asks to go back to a level.
    pub(crate) fn back_to(&mut self, level: u32)
        ensures { self.new ≡ record self.old { back = lower self.old.back level } }
    {
        self.back = Some(Request::Back(lowered(&self.back, level)));
    }

    // The request that is to be taken first.
    pub(crate) fn first_request(&self) -> Option<&Request>
        ensures first { option_copied result ≡ first (requests_of self.now) }
        ensures left { is_some result ≡ is_some (first (requests_of self.now)) }
    {
        first_of(&self.wanted, &self.handed, &self.back)
    }

    // Takes that request off.
    pub(crate) fn drop_first(&mut self)
        ensures first { requests_of self.new ≡ rest (requests_of self.old) }
        ensures after { self.new ≡ without_first self.old }
    {
        if drop_front(&mut self.wanted) {
            return;
        }
        if drop_front(&mut self.handed) {
            return;
        }
        self.back = None;
    }

    // Takes the request to go back off, if there is one.
    pub(crate) fn drop_back(&mut self)
        ensures { self.new ≡ record self.old { back = None } }
    {
        self.back = None;
    }
}
