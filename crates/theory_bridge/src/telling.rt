//! Telling the propagator what stands on the trail, and that it goes back.
//!
//! The propagator sees its own trail, the seen trail on the desk: the literals of observed
//! variables, and the levels. It lags behind the search's trail, and `tell` brings it up to it. What
//! `tell` finds, and leaves whatever it answers, is `Follows`: each seen literal stands on the trail
//! at its level; above the root the seen trail is a prefix of the trail's observed literals; and it
//! has every observed literal of the levels below its own. At the root the order is free, since a
//! variable may be observed there when its literal has long been on the trail.
//!
//! So the walk need not begin at the front. All before the level that was told last is known to the
//! propagator; and above the root all before a literal that it has. The bridge remembers the place
//! of the literal that was told last, and looks whether the trail still has a told literal there:
//! then the walk begins behind it, and else where the level begins. Nothing has to be kept right
//! while the trail goes back and grows. At the root the walk goes over the root's literals, and
//! where nothing is observed there is no walk.
//!
//! At each place the walk first opens the levels up to the place's own, then tells the literal if
//! its variable is observed and has no value on the seen trail (what has one there is true, since
//! the seen trail has only literals of the trail). Levels rise along the trail, so a level is opened
//! only when all below it was told: that is why the walk may stop anywhere, at a callback that is
//! not left, with nothing to undo.
//!
//! Each notification is a callback of its own, counted before it is made. `Row` says what a row of
//! them does, one by one; what it comes to is `Told`.
ghost use Rattle.std.specs.Prelude.{◌≡◌, ◌≤◌, ◌<◌, ◌+◌, ◌&&◌, ℕ, Ok, OnOk, OnErr, length, max, is_none};
ghost use Rattle.std.specs.Prelude.{true, false};
ghost use Rattle.sat_terms.specs.Limits.{max_var};
ghost use Rattle.sat_terms.specs.Literal.{has, var_of};
ghost use Rattle.trail_state.specs.Trail.{step};
ghost use Rattle.trail_state.specs.Table.{is_decision as decides};
ghost use Rattle.user_propagator.specs.Board.{trail_value};
ghost use Rattle.user_propagator.specs.Meaning.{InStep, CanPut, CanRaise, CanCut, Notified};
ghost use Rattle.user_propagator.specs.Meaning.{KeepsExplained, put_on, raise_on, cut_to};
ghost use Rattle.theory_bridge.specs.Shown.{shown, is_out};
ghost use Rattle.theory_bridge.specs.Going.{Ended};
ghost use Rattle.theory_bridge.specs.Standing.{Stands};
ghost use Rattle.theory_bridge.specs.Following.{Follows, AreTold, IsCaughtUp, AreFlagged};
ghost use Rattle.theory_bridge.specs.Telling.{TellsLevel, TellsLit, TellsBack, Tells, Told, Closes};
ghost use Rattle.theory_bridge.specs.Telling.{Walks, WalksOn, AreToldBelow, WasTold};
ghost use Rattle.theory_bridge.specs.declared.stop.AskStop.TheVariants as stops;

use crate::bridge::Bridge;
use crate::stop::AskStop;
use sat_model::literal::Lit;
use trail_state::reason::Reason;
use trail_state::trail::Trail;

// Whether a literal was decided.
fn is_decision(reason: Reason) -> bool
    ensures { result ≡ decides reason }
{
    match reason {
        Reason::Decision => true,
        Reason::Clause(_) => false,
        Reason::Theory => false,
    }
}

// The notifications.
impl Bridge {
    // Notifies the box that a level is opened.
    fn call_level(&mut self)
        requires step { InStep (meaning self.old.theory) self.old.desk }
        requires room { CanRaise self.old.desk }
        ensures notified { Notified (meaning self.old.theory) (meaning self.new.theory) }
        ensures explained { KeepsExplained (meaning self.old.theory) (meaning self.new.theory)
            self.old.desk.seen }
        ensures step { InStep (meaning self.new.theory) (raise_on self.old.desk) }
        ensures desk { self.new.desk ≡ self.old.desk }
        ensures count { self.new.count ≡ self.old.count }
        ensures budget { self.new.budget ≡ self.old.budget }
        ensures spent { self.new.is_spent ≡ self.old.is_spent }
    {
        self.theory.notify_level();
    }

    // Opens a level: one callback.
    fn tell_level(&mut self) -> Result<(), AskStop>
        requires step { InStep (meaning self.old.theory) self.old.desk }
        requires room { CanRaise self.old.desk }
        ensures told { OnOk result (TellsLevel (shown self.old (meaning self.old.theory))
            (shown self.new (meaning self.new.theory))) }
        ensures out { OnErr result (shown self.new (meaning self.new.theory)
            ≡ record (shown self.old (meaning self.old.theory)) { spent = true }) }
        ensures ended { Ended result (shown self.old (meaning self.old.theory))
            (shown self.new (meaning self.new.theory)) }
    {
        self.count_one()?;
        self.call_level();
        self.desk.raise();
        Ok(())
    }

    // Notifies the box of a literal.
    fn call_literal(&mut self, lit: Lit, decision: bool)
        requires step { InStep (meaning self.old.theory) self.old.desk }
        requires free { CanPut self.old.desk lit }
        ensures notified { Notified (meaning self.old.theory) (meaning self.new.theory) }
        ensures explained { KeepsExplained (meaning self.old.theory) (meaning self.new.theory)
            self.old.desk.seen }
        ensures told { (meaning self.old.theory).explains self.old.desk.seen lit ≡ true
            → (meaning self.new.theory).explains self.old.desk.seen lit ≡ true }
        ensures step { InStep (meaning self.new.theory) (put_on self.old.desk lit decision) }
        ensures desk { self.new.desk ≡ self.old.desk }
        ensures count { self.new.count ≡ self.old.count }
        ensures budget { self.new.budget ≡ self.old.budget }
        ensures spent { self.new.is_spent ≡ self.old.is_spent }
    {
        self.theory.notify_assigned(lit, decision);
    }

    // Tells a literal of an observed variable that was not told: one callback.
    fn tell_literal(&mut self, lit: Lit, decision: bool) -> Result<(), AskStop>
        requires step { InStep (meaning self.old.theory) self.old.desk }
        requires free { CanPut self.old.desk lit }
        ensures told { OnOk result (TellsLit lit decision (shown self.old (meaning self.old.theory))
            (shown self.new (meaning self.new.theory))) }
        ensures out { OnErr result (shown self.new (meaning self.new.theory)
            ≡ record (shown self.old (meaning self.old.theory)) { spent = true }) }
        ensures ended { Ended result (shown self.old (meaning self.old.theory))
            (shown self.new (meaning self.new.theory)) }
    {
        self.count_one()?;
        self.call_literal(lit, decision);
        self.desk.put(lit, decision);
        Ok(())
    }
}

// Going back.
impl Bridge {
    // Notifies the box that the trail goes back to a level.
    fn call_back(&mut self, level: u32)
        requires step { InStep (meaning self.old.theory) self.old.desk }
        requires below { CanCut self.old.desk level }
        ensures notified { Notified (meaning self.old.theory) (meaning self.new.theory) }
        ensures explained { KeepsExplained (meaning self.old.theory) (meaning self.new.theory)
            (cut_to self.old.desk level).seen }
        ensures step { InStep (meaning self.new.theory) (cut_to self.old.desk level) }
        ensures desk { self.new.desk ≡ self.old.desk }
        ensures count { self.new.count ≡ self.old.count }
        ensures budget { self.new.budget ≡ self.old.budget }
        ensures spent { self.new.is_spent ≡ self.old.is_spent }
    {
        self.theory.notify_back(level);
    }

    /// The notice of going back to a level, at most the desk's own: one callback. The seen trail is
    /// cut back to the level; after `Callbacks` it is as before.
    #[tactic(auto, using(crate::proofs::Standing::stands_back))]
    pub fn tell_back(&mut self, level: u32) -> Result<(), AskStop>
        requires stands { Stands (meaning self.old.theory) self.old.desk }
        requires below { level ≤ self.old.desk.level }
        ensures out { is_out (shown self.old (meaning self.old.theory)) ≡ true
            → (result ≡ Err (stops.Callbacks self.old.budget))
            × (shown self.new (meaning self.new.theory)
            ≡ record (shown self.old (meaning self.old.theory)) { spent = true }) }
        ensures told { is_out (shown self.old (meaning self.old.theory)) ≡ false
            → (result ≡ Ok tt)
            × TellsBack level (shown self.old (meaning self.old.theory))
            (shown self.new (meaning self.new.theory)) }
        ensures ended { Ended result (shown self.old (meaning self.old.theory))
            (shown self.new (meaning self.new.theory)) }
        ensures stands { Stands (meaning self.new.theory) self.new.desk }
    {
        self.count_one()?;
        self.call_back(level);
        self.desk.cut(level);
        Ok(())
    }

    /// The closing notice: the seen trail is cut back to the root, and a request to go back is
    /// taken off the desk. This callback is not counted.
    #[tactic(auto, using(crate::proofs::Standing::stands_closed))]
    pub fn close(&mut self)
        requires stands { Stands (meaning self.old.theory) self.old.desk }
        ensures closes { Closes (shown self.old (meaning self.old.theory))
            (shown self.new (meaning self.new.theory)) }
        ensures stands { Stands (meaning self.new.theory) self.new.desk }
    {
        self.call_back(0);
        self.desk.cut(0);
        self.desk.drop_back();
    }
}

// The walk along the trail.
impl Bridge {
    // Opens levels up to this one. Below it every observed literal was told.
    fn tell_levels(&mut self, trail: &Trail, level: u32) -> Result<(), AskStop>
        requires step { InStep (meaning self.old.theory) self.old.desk }
        requires follows { Follows self.old.desk trail.now }
        requires within { level ≤ trail.now.level }
        requires below { AreToldBelow self.old.desk trail.now level }
        ensures on { WalksOn trail.now (shown self.old (meaning self.old.theory))
            (shown self.new (meaning self.new.theory)) }
        ensures ended { Ended result (shown self.old (meaning self.old.theory))
            (shown self.new (meaning self.new.theory)) }
        ensures desk { self.new.desk ≡ record self.old.desk { level = self.new.desk.level } }
        ensures low { self.old.desk.level ≤ self.new.desk.level }
        ensures high { self.new.desk.level ≤ max self.old.desk.level level }
        ensures ok { OnOk result (level ≤ self.new.desk.level) }
    {
        trail.law_room();
        'levels: while self.desk.level() < level {
            self.tell_level()?;
        }
        Ok(())
    }

    // Whether a literal has to be told: its variable is observed and has no value yet.
    fn is_due(&self, lit: Lit) -> bool
        ensures { result ≡ (has self.now.desk.observed (var_of lit)
            && is_none (trail_value self.now.desk.seen lit)) }
    {
        self.desk.is_observed(lit.var()) && self.desk.value(lit).is_none()
    }

    // Tells the literal at a place, whose level was told, if it is due.
    fn tell_due(&mut self, trail: &Trail, place: u32) -> Result<(), AskStop>
        requires walks { Walks trail.now place (shown self.old (meaning self.old.theory)) }
        requires inside { place < length trail.now.steps }
        requires level { (step trail.now.steps place).level ≡ self.old.desk.level }
        ensures on { WalksOn trail.now (shown self.old (meaning self.old.theory))
            (shown self.new (meaning self.new.theory)) }
        ensures ended { Ended result (shown self.old (meaning self.old.theory))
            (shown self.new (meaning self.new.theory)) }
        ensures walks { OnOk result
            (Walks trail.now (place + 1) (shown self.new (meaning self.new.theory))) }
    {
        trail.law_shape();
        self.desk.law_shape();
        let step = trail.step_at(place);
        if !self.is_due(step.lit) {
            return Ok(());
        }
        self.tell_literal(step.lit, is_decision(step.reason))?;
        self.last = place;
        Ok(())
    }

    // Tells the level of the literal at a place, and the literal, as far as they are due.
    fn tell_place(&mut self, trail: &Trail, place: u32) -> Result<(), AskStop>
        requires walks { Walks trail.now place (shown self.old (meaning self.old.theory)) }
        requires inside { place < length trail.now.steps }
        ensures on { WalksOn trail.now (shown self.old (meaning self.old.theory))
            (shown self.new (meaning self.new.theory)) }
        ensures ended { Ended result (shown self.old (meaning self.old.theory))
            (shown self.new (meaning self.new.theory)) }
        ensures walks { OnOk result
            (Walks trail.now (place + 1) (shown self.new (meaning self.new.theory))) }
    {
        trail.law_shape();
        let level = trail.level_at(place);
        self.tell_levels(trail, level)?;
        self.tell_due(trail, place)
    }

    // Whether the literal at a place behind the start of the desk's level was told, above the root.
    fn was_told(&self, trail: &Trail, start: u32, place: u32) -> bool
        ensures { result ≡ true → WasTold self.now.desk trail.now start place }
    {
        if self.desk.level() == 0 || place < start || place as usize >= trail.lits().len() {
            return false;
        }
        self.desk.value(trail.step_at(place).lit).is_some()
    }

    // The place from which on literals may be due.
    fn first_due(&self, trail: &Trail) -> u32
        requires step { InStep (meaning self.now.theory) self.now.desk }
        requires follows { Follows self.now.desk trail.now }
        ensures { Walks trail.now result (shown self.now (meaning self.now.theory)) }
    {
        trail.law_shape();
        trail.law_room();
        let start = trail.start_of(self.desk.level());
        if self.was_told(trail, start, self.last) {
            return self.last + 1;
        }
        start
    }

    // Tells the literals that are due, and the levels of the literals.
    fn tell_literals(&mut self, trail: &Trail) -> Result<(), AskStop>
        requires step { InStep (meaning self.old.theory) self.old.desk }
        requires follows { Follows self.old.desk trail.now }
        ensures on { WalksOn trail.now (shown self.old (meaning self.old.theory))
            (shown self.new (meaning self.new.theory)) }
        ensures ended { Ended result (shown self.old (meaning self.old.theory))
            (shown self.new (meaning self.new.theory)) }
        ensures told { OnOk result
            (AreTold self.new.desk trail.now.steps (length trail.now.steps)) }
    {
        if self.desk.is_idle() {
            return Ok(());
        }
        trail.law_room();
        let start = self.first_due(trail);
        let end = trail.lits().len() as u32;
        'walk: for place in start..end {
            self.tell_place(trail, place)?;
        }
        Ok(())
    }

    /// Tells the levels of the trail and its observed literals that were not told yet, in the
    /// trail's order; each is one callback. The seen trail must follow the trail, and does so
    /// whatever is answered; after `Ok` every level and every observed literal was told.
    #[tactic(auto, using(crate::proofs::Walking::told_on, crate::proofs::Walking::flagged_all, crate::proofs::Walking::stands_on))]
    pub fn tell(&mut self, trail: &Trail) -> Result<(), AskStop>
        requires stands { Stands (meaning self.old.theory) self.old.desk }
        requires follows { Follows self.old.desk trail.now }
        ensures follows { Follows self.new.desk trail.now }
        ensures caught_up { OnOk result (IsCaughtUp self.new.desk trail.now) }
        ensures tells { Tells (shown self.old (meaning self.old.theory))
            (shown self.new (meaning self.new.theory)) }
        ensures told { Told (shown self.old (meaning self.old.theory))
            (shown self.new (meaning self.new.theory)) }
        ensures flags { AreFlagged trail.now.steps (length self.old.desk.seen) self.new.desk.seen }
        ensures ended { Ended result (shown self.old (meaning self.old.theory))
            (shown self.new (meaning self.new.theory)) }
        ensures stands { Stands (meaning self.new.theory) self.new.desk }
    {
        self.tell_all(trail)
    }

    // Tells the literals, and then the levels that have no literal left to be told.
    fn tell_all(&mut self, trail: &Trail) -> Result<(), AskStop>
        requires step { InStep (meaning self.old.theory) self.old.desk }
        requires follows { Follows self.old.desk trail.now }
        ensures on { WalksOn trail.now (shown self.old (meaning self.old.theory))
            (shown self.new (meaning self.new.theory)) }
        ensures ended { Ended result (shown self.old (meaning self.old.theory))
            (shown self.new (meaning self.new.theory)) }
        ensures caught_up { OnOk result (IsCaughtUp self.new.desk trail.now) }
    {
        self.tell_literals(trail)?;
        self.tell_levels(trail, trail.level())
    }
}
