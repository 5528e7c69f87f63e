//! The propagator of cardinalities beside a desk, driven as a solver would: what it counts, implies
//! and explains, what it hands, what it knows after a way back, and which models pass.
ghost use Rattle.std.specs.Prelude.{◌≡◌, ℕ, ◌∷◌, [], true, false, IsTrue, IfOk};
ghost use Rattle.user_propagator.specs.Meaning.{InStep, AreObserved, put_on, raise_on};
ghost use Rattle.card_propagator.specs.Meant.{meaning_of};
ghost use Rattle.card_propagator.specs.Boards.{three_known, kept_by, broken_by};

use crate::card::CardTheory;
use sat_model::constraint::Constraint;
use sat_model::lists::Lits;
use sat_model::literal::{Lit, MAX_VAR, Var};
use sat_model::memory::Memory;
use std::alloc::Global;
use std::test::Fail;
use user_propagator::desk::Desk;
use user_propagator::request::Request;
use user_propagator::theory::Theory;

// A propagator, and the desk that it is lent.
#[derive(Drop)]
struct Scene {
    // The allocator for lists of literals.
    alloc: Global,
    // The propagator.
    theory: CardTheory,
    // The desk.
    desk: Desk,
    // It was told what stands there.
    ghost step: { InStep (meaning_of theory) desk },
}

// A propagator without a cardinality, beside a desk where the variables up to a number are observed.
fn scene_of(alloc: Global, count: u32) -> Result<Scene, Fail> {
    let mut desk = Desk::new(alloc);
    for number in 0..count {
        desk.watch(Var::new(number + 1).ok_or("no variable")?)?;
    }
    let theory = CardTheory::new(alloc);
    Ok(Scene {
        alloc,
        theory,
        desk,
    })
}

// The literals of some numbers.
fn lits_of(alloc: Global, numbers: &[i32]) -> Result<Vec<Lit>, Fail> {
    let mut lits = Vec::new(alloc);
    for number in numbers {
        lits.push(Lit::new(*number).ok_or("no literal")?)?;
    }
    Ok(lits)
}

// How many literals a clause has, and the numbers of the first two.
fn numbers(lits: &[Lit]) -> [i32; 3] {
    match lits {
        [] => [0, 0, 0],
        [one] => [1, one.number(), 0],
        [one, other] => [2, one.number(), other.number()],
        [one, other, _, ..] => [3, one.number(), other.number()],
    }
}

// Whether the variables of some literals are observed.
fn are_observed(desk: &Desk, lits: &[Lit]) -> bool
    ensures { IsTrue result → AreObserved desk.now lits.now }
{
    for lit in lits {
        if !desk.is_observed(lit.var()) {
            return false;
        }
    }
    true
}

impl Scene {
    // Gives a cardinality, if that may be done here, and says whether it was.
    fn admit(&mut self, bound: u64, lits: &[Lit]) -> Result<bool, Memory>
        ensures { self.new.desk ≡ self.old.desk }
    {
        let free = self.desk.level() == 0 && are_observed(&self.desk, lits);
        if !free {
            return Ok(false);
        }
        let what = Constraint::AtLeast(bound, Lits::from_slice(self.alloc, lits)?);
        self.theory.admit(self.alloc, &what, &self.desk)?;
        Ok(true)
    }

    // Tells a literal, if it has no value, and says whether it did.
    fn tell(&mut self, lit: Lit, decision: bool) -> bool
        ensures { result ≡ true → self.new.desk ≡ put_on self.old.desk lit decision }
    {
        let free = self.desk.is_observed(lit.var()) && self.desk.value(lit).is_none();
        if !free {
            return false;
        }
        self.theory.notify_assigned(lit, decision);
        self.desk.put(lit, decision);
        true
    }

    // Opens a level, if there may be one more, and says whether it did.
    fn open(&mut self) -> bool
        ensures { result ≡ true → self.new.desk ≡ raise_on self.old.desk }
    {
        let free = self.desk.level() < MAX_VAR;
        if !free {
            return false;
        }
        self.theory.notify_level();
        self.desk.raise();
        true
    }

    // Goes back to a level, if it is not above the current one.
    fn back(&mut self, level: u32) {
        if level <= self.desk.level() {
            self.theory.notify_back(level);
            self.desk.cut(level);
        }
    }

    // Tells the literal that is implied next. Its reason is given.
    fn imply(&mut self) -> Result<[i32; 3], Memory> {
        let Some(lit) = self.theory.propagate(&mut self.desk)? else {
            return Ok([0, 0, 0]);
        };
        self.theory.notify_assigned(lit, false);
        self.desk.put(lit, false);
        let mut out = Lits::new(self.alloc);
        self.theory.reason(lit, &self.desk, &mut out)?;
        Ok(numbers(out.as_slice()))
    }

    // The clause that lies first on the desk; a length of -1 where none does.
    fn clause(&self) -> [i32; 3] {
        match self.desk.first_request() {
            Some(Request::Clause(lits, _)) => numbers(lits.as_slice()),
            Some(Request::Observe(_)) => [-1, 0, 0],
            Some(Request::Back(_)) => [-1, 0, 0],
            None => [-1, 0, 0],
        }
    }

    // The counts of the first cardinality.
    fn counts(&self) -> (u64, u64) {
        if self.theory.len() == 0 {
            return (9, 9);
        }
        self.theory.counts(0)
    }
}

// The counts at the root, behind the first literal, behind the second, and back at the root.
fn counts_there_and_back(scene: &mut Scene, first: Lit, second: Lit) -> [(u64, u64); 4] {
    let before = scene.counts();
    scene.open();
    scene.tell(first, true);
    let behind_first = scene.counts();
    scene.tell(second, false);
    let behind_second = scene.counts();
    scene.back(0);
    [before, behind_first, behind_second, scene.counts()]
}

#[test]
fn positions_are_counted(rt: HostRuntime) -> Result<(), Fail> {
    for (list, first, second, wanted) in [
        ([1, 1, 2], 1, -2, [(0, 0), (2, 0), (2, 1), (0, 0)]),
        ([1, -1, 2], 1, 2, [(0, 0), (1, 1), (2, 1), (0, 0)]),
        ([-1, -1, -1], 1, 2, [(0, 0), (0, 3), (0, 3), (0, 0)]),
    ] {
        let mut scene = scene_of(rt.alloc(), 2)?;
        scene.admit(2, lits_of(rt.alloc(), &list)?.as_slice())?;
        let first = Lit::new(first).ok_or("no literal")?;
        let second = Lit::new(second).ok_or("no literal")?;
        assert_eq!(rt; counts_there_and_back(&mut scene, first, second), wanted);
    }
    Ok(())
}

// How many cardinalities there are, and the counts of one that is given behind a literal.
fn admitted_late(
    scene: &mut Scene,
    told: Lit,
    list: &[Lit],
) -> Result<(usize, usize, (u64, u64)), Memory> {
    let none = scene.theory.len();
    scene.tell(told, false);
    scene.admit(2, list)?;
    Ok((none, scene.theory.len(), scene.counts()))
}

#[test]
fn what_was_told_before_is_counted(rt: HostRuntime) -> Result<(), Fail> {
    let mut scene = scene_of(rt.alloc(), 2)?;
    let one = Lit::new(1).ok_or("no literal")?;
    let list = lits_of(rt.alloc(), &[1, 1, 2])?;
    let found = admitted_late(&mut scene, one, list.as_slice())?;
    assert_eq!(rt; found, (0, 1, (2, 0)));
    Ok(())
}

// What is implied first of a cardinality behind a decision, with its reason, what is implied next,
// and what lies on the desk.
fn implied_behind(
    scene: &mut Scene,
    bound: u64,
    list: &[Lit],
    told: Lit,
) -> Result<[[i32; 3]; 3], Memory> {
    scene.admit(bound, list)?;
    scene.open();
    scene.tell(told, true);
    Ok([scene.imply()?, scene.imply()?, scene.clause()])
}

#[test]
fn what_can_not_be_spared_is_implied(rt: HostRuntime) -> Result<(), Fail> {
    let none = [0, 0, 0];
    let no_clause = [-1, 0, 0];
    for (bound, list, told, wanted) in [
        (2, [1, 2, 3], -1, [[2, 2, 1], [2, 3, 1], no_clause]),
        (1, [1, 2, 3], -1, [none, none, no_clause]),
        (2, [1, 1, 2], -2, [[2, 1, 2], none, no_clause]),
        (2, [1, 1, 2], 3, [[1, 1, 0], none, no_clause]),
        (2, [1, -1, 2], 1, [[2, 2, -1], none, no_clause]),
        (3, [1, 2, 3], -1, [none, none, [1, 1, 0]]),
        (4, [1, 2, 3], 1, [none, none, [0, 0, 0]]),
    ] {
        let mut scene = scene_of(rt.alloc(), 3)?;
        let list = lits_of(rt.alloc(), &list)?;
        let told = Lit::new(told).ok_or("no literal")?;
        let found = implied_behind(&mut scene, bound, list.as_slice(), told)?;
        assert_eq!(rt; found, wanted);
    }
    Ok(())
}

// What is implied where a literal is true though another is false, and once the true one is taken
// back.
fn back_behind(
    scene: &mut Scene,
    list: &[Lit],
    fallen: Lit,
    risen: Lit,
) -> Result<[[i32; 3]; 2], Memory> {
    scene.admit(1, list)?;
    scene.open();
    scene.tell(fallen, true);
    scene.open();
    scene.tell(risen, true);
    let above = scene.imply()?;
    scene.back(1);
    Ok([above, scene.imply()?])
}

#[test]
fn a_way_back_is_looked_at_again(rt: HostRuntime) -> Result<(), Fail> {
    let mut scene = scene_of(rt.alloc(), 2)?;
    let one = Lit::new(1).ok_or("no literal")?;
    let other = Lit::new(-2).ok_or("no literal")?;
    let list = lits_of(rt.alloc(), &[1, 2])?;
    let found = back_behind(&mut scene, list.as_slice(), other, one)?;
    assert_eq!(rt; found, [[0, 0, 0], [2, 1, 2]]);
    Ok(())
}

// How many literals are implied, and how many reasons have one literal more, of this number.
fn imply_all(scene: &mut Scene, named: i32) -> Result<[i32; 2], Memory> {
    let mut found = [0i32, 0];
    for _ in 0..1_000 {
        let [size, _, other] = scene.imply()?;
        if size == 0 {
            break;
        }
        found[0] = found[0].saturating_add(1);
        if size == 2 && other == named {
            found[1] = found[1].saturating_add(1);
        }
    }
    Ok(found)
}

// What is implied behind a decision.
fn implied_by(scene: &mut Scene, told: Lit, named: i32) -> Result<[i32; 2], Memory> {
    scene.open();
    scene.tell(told, true);
    imply_all(scene, named)
}

// At least 39 of 40 variables.
fn scene_of_forty(alloc: Global) -> Result<Scene, Fail> {
    let mut scene = scene_of(alloc, 40)?;
    let mut list = Vec::new(alloc);
    for number in 0..40u32 {
        list.push(Var::new(number + 1).ok_or("no variable")?.positive())?;
    }
    scene.admit(39, list.as_slice())?;
    Ok(scene)
}

// At least one of variable 1 and another, for 200 others.
fn scene_of_pairs(alloc: Global) -> Result<Scene, Fail> {
    let mut scene = scene_of(alloc, 201)?;
    let one = Lit::new(1).ok_or("no literal")?;
    for number in 0..200u32 {
        let other = Var::new(number + 2).ok_or("no variable")?.positive();
        scene.admit(1, &[one, other])?;
    }
    Ok(scene)
}

#[test]
fn a_long_list_and_many_short_ones(rt: HostRuntime) -> Result<(), Fail> {
    let one = Lit::new(1).ok_or("no literal")?;
    let mut long = scene_of_forty(rt.alloc())?;
    assert_eq!(rt; implied_by(&mut long, one.neg(), 1)?, [39, 39]);
    let mut many = scene_of_pairs(rt.alloc())?;
    assert_eq!(rt; many.theory.len(), 200);
    assert_eq!(rt; implied_by(&mut many, one.neg(), 1)?, [200, 200]);
    Ok(())
}

// At least two of three variables, on a desk where these are observed.
fn scene_of_three(alloc: Global) -> Result<Scene, Fail>
    ensures { IfOk result (λ scene. scene.desk ≡ three_known) }
{
    let mut desk = Desk::new(alloc);
    desk.watch(Var::new(1).ok_or("no variable")?)?;
    desk.watch(Var::new(2).ok_or("no variable")?)?;
    desk.watch(Var::new(3).ok_or("no variable")?)?;
    let mut scene = Scene {
        alloc,
        theory: CardTheory::new(alloc),
        desk,
    };
    let list = lits_of(alloc, &[1, 2, 3])?;
    scene.admit(2, list.as_slice())?;
    Ok(scene)
}

// The same, where -1 was decided, and 2 and 3 are true.
fn scene_of_kept(alloc: Global) -> Result<Scene, Fail>
    ensures { IfOk result (λ scene. scene.desk ≡ kept_by) }
{
    let fallen = Lit::new(-1).ok_or("no literal")?;
    let two = Lit::new(2).ok_or("no literal")?;
    let three = Lit::new(3).ok_or("no literal")?;
    let mut scene = scene_of_three(alloc)?;
    if !scene.open() {
        return Err("no level")?;
    }
    if !scene.tell(fallen, true) {
        return Err("the first has a value")?;
    }
    if !scene.tell(two, false) {
        return Err("the second has a value")?;
    }
    if !scene.tell(three, false) {
        return Err("the third has a value")?;
    }
    Ok(scene)
}

// The same, where -1 and -2 were decided, and 3 is true.
fn scene_of_broken(alloc: Global) -> Result<Scene, Fail>
    ensures { IfOk result (λ scene. scene.desk ≡ broken_by) }
{
    let first = Lit::new(-1).ok_or("no literal")?;
    let second = Lit::new(-2).ok_or("no literal")?;
    let three = Lit::new(3).ok_or("no literal")?;
    let mut scene = scene_of_three(alloc)?;
    if !scene.open() {
        return Err("no level")?;
    }
    if !scene.tell(first, true) {
        return Err("the first has a value")?;
    }
    if !scene.open() {
        return Err("no level")?;
    }
    if !scene.tell(second, true) {
        return Err("the second has a value")?;
    }
    if !scene.tell(three, false) {
        return Err("the third has a value")?;
    }
    Ok(scene)
}

// Whether the model of 2 and 3 passes, where the seen trail has it.
fn judge_kept(scene: &mut Scene) -> Result<bool, Memory>
    requires { scene.old.desk ≡ kept_by }
{
    scene.theory.check(&[false, true, true], &mut scene.desk)
}

// Whether the model of 3 alone passes, where the seen trail has it.
fn judge_broken(scene: &mut Scene) -> Result<bool, Memory>
    requires { scene.old.desk ≡ broken_by }
{
    scene.theory.check(&[false, false, true], &mut scene.desk)
}

#[test]
fn models_are_judged(rt: HostRuntime) -> Result<(), Fail> {
    let mut kept = scene_of_kept(rt.alloc())?;
    assert!(rt; judge_kept(&mut kept)?);
    let mut broken = scene_of_broken(rt.alloc())?;
    assert!(rt; !judge_broken(&mut broken)?);
    assert_eq!(rt; broken.clause(), [2, 1, 2]);
    Ok(())
}
