//! A propagator for a group of variables of which at most one may be true.
//!
//! As clauses such a group takes one for each two members, which for a thousand members is half a
//! million. This propagator keeps the group alone, and makes a clause of two literals only where one
//! is asked for, or is false.
//!
//! It watches its members by the notifications. The first literal of the seen trail that makes a
//! member true is chosen: kept, with its level, until that level is taken back. From then on every
//! other member must be false. `propagate` walks along the group for the first member that is not
//! false yet, and implies that it is; its cursor stands there at the next call. So a cursor passes
//! each member once, and goes back to the front only where a level was taken back, or where another
//! literal is chosen. A notification takes one look at the set of members.
//!
//! Where the walk meets a second true member the clause of both is handed: it is false, and the
//! solver takes it as a conflict. `reason` is the clause of the literal and the chosen one, made when
//! it is asked for. Nothing need be kept for it: while an implied literal stands on the seen trail
//! the chosen one stands before it, so it is the same still. `check` looks for two members that the
//! model makes true.
//!
//! What the propagator remembers is right for the seen trail: that is `follows` in specs/Group, its
//! `in_step`, which each notification carries on. All that it says follows from it.
//!
//! Left out: a way back always takes the cursor to the front, though what it passed below the level
//! that is kept is passed still; and a member that is not observed stops the walk, since it can
//! neither be implied nor be passed. Whoever observes the group never meets that.
ghost use Rattle.std.specs.Prelude.{◌≡◌, ◌↔◌, ℕ, [], true, false, IsTrue, Ok, Some, None, IfOk, OnOk, OnErr};
ghost use Rattle.sat_terms.specs.Literal.{has, pos_lit};
ghost use Rattle.sat_terms.specs.Truth.{values};
ghost use Rattle.user_propagator.specs.Board.{trail_value};
ghost use Rattle.user_propagator.specs.Meaning.{Admitted, Refused, KeptByAdmit, CalledBack};
ghost use Rattle.user_propagator.specs.Meaning.{IsPropagated, IsRefuted, InStep, IsWhole, handed_now};
ghost use Rattle.group_propagator.specs.Group.{NoTwo, IsNewFor, IsSettled, Spoken, Judged, kept_at};
ghost use Rattle.group_propagator.specs.Group.{is_true_member};
ghost use Rattle.group_propagator.specs.Meant.{meaning_of};
ghost use Rattle.group_propagator.specs.Depends.{group_depends};

use crate::pairs::two_true;
use crate::walk::first_open;
use flag_set::work::WorkList;
use sat_model::constraint::{Constraint, Kind};
use sat_model::lists::Lits;
use sat_model::literal::{Lit, Var};
use sat_model::memory::Memory;
use std::alloc::Global;
use user_propagator::counting::next;
use user_propagator::desk::Desk;
use user_propagator::seen::Seen;
use user_propagator::theory::Theory;

/// Admits the assignments under which at most one variable of a group is true.
#[derive(Drop)]
pub struct AtMostOne {
    // The members, each once. Whether a variable is one takes a single look.
    group: WorkList<Var>,
    // The literal that made a member true first, while it stands on the seen trail.
    chosen: Option<Seen>,
    // Where a literal is chosen, each member before this place is false on the seen trail, or made
    // true by the chosen literal.
    passed: usize,
    // The current level.
    level: u32,
    // How many callbacks there were.
    asked: u64,
}

// The members of a group, each once.
fn collect(alloc: Global, group: &[Var]) -> Result<WorkList<Var>, Memory>
    ensures { IfOk result (λ list. (v : ℕ) → has list.members v ≡ has group.now v) }
{
    let mut list = WorkList::new(alloc);
    for var in group {
        list.reach(*var)?;
        list.put(*var);
    }
    Ok(list)
}

// What stays of the chosen literal where the levels above one are taken back.
fn kept(chosen: Option<Seen>, level: u32) -> Option<Seen>
    ensures { result ≡ kept_at level chosen }
{
    match chosen {
        Some(seen) => {
            if seen.level <= level {
                Some(seen)
            } else {
                None
            }
        }
        None => None,
    }
}

// Whether a variable is true on the seen trail.
fn is_told(var: Var, desk: &Desk) -> bool
    ensures { result ≡ true → trail_value desk.now.seen (pos_lit var) ≡ Some true }
{
    desk.value(var.positive()) == Some(true)
}

impl AtMostOne {
    /// The propagator for a group, before its first callback: it admits the assignments under which
    /// at most one variable of the group is true, its scope is the group, it takes no constraint,
    /// is steady, and in step with the empty seen trail. A variable that stands in the group twice
    /// counts once. Fails only for want of memory.
    pub fn new(alloc: Global, group: &[Var]) -> Result<AtMostOne, Memory>
        ensures { IfOk result (λ box. IsNewFor group.now (⟦<AtMostOne as Theory>⟧.meaning box)) }
    {
        Ok(AtMostOne {
            group: collect(alloc, group)?,
            chosen: None,
            passed: 0,
            level: 0,
            asked: 0,
        })
    }

    // Whether a literal makes a member true.
    fn is_choice(&self, lit: Lit) -> bool
        ensures { result ≡ is_true_member self.now.group.members lit }
    {
        lit.is_positive() && self.group.has(lit.var())
    }
}

impl Theory for AtMostOne {
    // What the clauses of the trait speak of, as a function of the fields.
    ghost meaning = { meaning_of };

    // Whether at most one member is true depends on the members alone.
    ghost depends = { λ t. group_depends t.group.members };

    /// No kind of constraint is taken.
    fn takes(&self, _kind: Kind) -> bool {
        false
    }

    // No kind is taken, so the trait's conditions never hold together: this asks for one of them.
    fn admit(&mut self, _alloc: Global, what: &Constraint, desk: &Desk) -> Result<(), Memory>
        requires { InStep (meaning_of self.old) desk.now }
        ensures ok { OnOk result (Admitted (meaning_of self.old) (meaning_of self.new) what.now) }
        ensures err { OnErr result (Refused (meaning_of self.old) (meaning_of self.new)) }
        ensures kept { KeptByAdmit (meaning_of self.old) (meaning_of self.new) desk.now }
    {
        Err(Memory)
    }

    // No notification changes what is admitted, which is a matter of the group alone, nor what is
    // explained, which is one of the seen literals. What each must keep is `follows`.

    /// The first literal that makes a member true is chosen.
    fn notify_assigned(&mut self, lit: Lit, decision: bool) {
        self.asked = next(self.asked);
        if self.chosen.is_some() || !self.is_choice(lit) {
            return;
        }
        self.passed = 0;
        self.chosen = Some(Seen {
            lit,
            level: self.level,
            decision,
        });
    }

    /// The level is counted, so that a choice has one.
    fn notify_level(&mut self) {
        self.asked = next(self.asked);
        self.level += 1;
    }

    /// A literal that was chosen above the level is chosen no more, and the cursor goes to the
    /// front, since members that it passed may have no value now.
    fn notify_back(&mut self, level: u32) {
        self.asked = next(self.asked);
        self.level = level;
        self.passed = 0;
        self.chosen = kept(self.chosen, level);
    }

    /// It decides nothing.
    fn decide(&mut self, desk: &mut Desk) -> Result<Option<Lit>, Memory>
        requires { InStep (meaning_of self.old) desk.old }
        ensures called { CalledBack (meaning_of self.old) (meaning_of self.new) desk.old desk.new }
        ensures decided { result ≡ Ok None }
        ensures left { desk.new ≡ desk.old }
    {
        self.asked = next(self.asked);
        Ok(None)
    }

    /// Implies that a member is false where another one is true, one member at a call, and leaves
    /// the desk as it was. Where two members are true it answers `None`, and hands the clause that
    /// says that one of them is false. Where it answers `None` and hands nothing, and the group is
    /// observed, there is nothing left to imply: no member is true, or every other one is false.
    /// After `Memory` nothing was handed.
    fn propagate(&mut self, desk: &mut Desk) -> Result<Option<Lit>, Memory>
        requires step { InStep (meaning_of self.old) desk.old }
        ensures called { CalledBack (meaning_of self.old) (meaning_of self.new) desk.old desk.new }
        ensures propagated { IfOk result (IsPropagated (meaning_of self.new) desk.old) }
        ensures said { IfOk result (Spoken self.old.group.members desk.old desk.new) }
        ensures err { OnErr result (desk.new ≡ desk.old) }
        ensures settled { result ≡ Ok None → handed_now desk.old desk.new ≡ []
            → IsSettled desk.old self.old.group.members }
    {
        self.asked = next(self.asked);
        let Some(chosen) = self.chosen else {
            return Ok(None);
        };
        let members = self.group.as_slice();
        self.passed = first_open(members, self.passed, chosen.lit, desk);
        if self.passed >= members.len() {
            return Ok(None);
        }
        let member = members[self.passed];
        let lit = member.negative();
        if desk.value(lit).is_some() {
            // Not false, and not chosen: a second member is true. Both literals of the clause are
            // false, as a steady propagator's must be, and their variables observed, as all that
            // stands on the seen trail is.
            desk.law_shape();
            desk.hand(&[lit, chosen.lit.neg()], false)?;
            return Ok(None);
        }
        if !desk.is_observed(member) {
            return Ok(None);
        }
        // Where the seen trail is true the chosen literal is, and so the member false, if at most one
        // is true. The reason can be given: the chosen literal stands on the seen trail already.
        Ok(Some(lit))
    }

    /// The literal, and the negation of the chosen one: one of the two members is false. After
    /// `Memory` the list may hold a part of that.
    fn reason(&mut self, lit: Lit, _desk: &Desk, out: &mut Lits) -> Result<(), Memory> {
        self.asked = next(self.asked);
        // An explained literal has a true member before it on the seen trail, so one is chosen.
        let Some(chosen) = self.chosen else {
            unreachable!();
        };
        // At most one of the two members is true, and the chosen one was before the literal came.
        out.push(lit)?;
        out.push(chosen.lit.neg())?;
        Ok(())
    }

    /// Answers exactly whether the model makes at most one member true. Where it makes two true the
    /// clause of these is handed. `Memory` comes also where one of the two is not observed, and
    /// then, as always after it, nothing was handed.
    fn check(&mut self, model: &[bool], desk: &mut Desk) -> Result<bool, Memory>
        requires step { InStep (meaning_of self.old) desk.old }
        requires whole { IsWhole desk.old model.now }
        ensures called { CalledBack (meaning_of self.old) (meaning_of self.new) desk.old desk.new }
        ensures yes { IfOk result (λ yes. yes ≡ true
            → (meaning_of self.new).admits (values model.now) ≡ true) }
        ensures no { IfOk result (λ yes. yes ≡ false → IsRefuted model.now desk.old desk.new) }
        ensures said { IfOk result (Judged self.old.group.members desk.old desk.new) }
        ensures err { OnErr result (desk.new ≡ desk.old) }
        ensures exact { IfOk result (λ yes.
            IsTrue yes ↔ NoTwo (values model.now) self.old.group.members) }
    {
        self.asked = next(self.asked);
        let Some(two) = two_true(self.group.as_slice(), model) else {
            return Ok(true);
        };
        let (one, other) = two;
        // The model agrees with the seen trail, so both are true there, unless one of them is not
        // observed: then a steady propagator may neither hand the clause nor ask for the variable.
        if !is_told(one, desk) || !is_told(other, desk) {
            return Err(Memory);
        }
        desk.law_shape();
        desk.hand(&[one.negative(), other.negative()], false)?;
        Ok(false)
    }
}
