//! The propagator of a group beside a desk, driven as a solver would: what it implies and why, what
//! it hands, and what it knows after a way back.
ghost use Rattle.std.specs.Prelude.{◌≡◌, true, false, IfOk};
ghost use Rattle.user_propagator.specs.Meaning.{InStep, put_on};
ghost use Rattle.group_propagator.specs.Meant.{meaning_of};
ghost use Rattle.group_propagator.specs.Boards.{both_known, both_true};

use crate::at_most_one::AtMostOne;
use sat_model::lists::Lits;
use sat_model::literal::{Lit, MAX_VAR, Var};
use sat_model::memory::Memory;
use std::alloc::Global;
use std::test::Fail;
use user_propagator::desk::Desk;
use user_propagator::request::Request;
use user_propagator::theory::Theory;

// A propagator, and the desk that it is lent.
#[derive(Drop)]
struct Scene {
    // The allocator for lists of literals.
    alloc: Global,
    // The propagator.
    theory: AtMostOne,
    // The desk.
    desk: Desk,
    // It was told what stands there.
    ghost step: { InStep (meaning_of theory) desk },
}

// A propagator for the variables from 1 to a number, each given twice, on a desk where all are
// observed.
fn scene_of(alloc: Global, count: u32) -> Result<Scene, Fail> {
    let mut group = Vec::new(alloc);
    let mut desk = Desk::new(alloc);
    for number in 0..count {
        let var = Var::new(number + 1).ok_or("no variable")?;
        desk.watch(var)?;
        group.push(var)?;
        group.push(var)?;
    }
    let theory = AtMostOne::new(alloc, group.as_slice())?;
    Ok(Scene {
        alloc,
        theory,
        desk,
    })
}

// The numbers of the literals of a clause of two.
fn numbers(lits: &[Lit]) -> [i32; 2] {
    match lits {
        [one, other] => [one.number(), other.number()],
        _ => [0, 0],
    }
}

impl Scene {
    // Assigns a literal, if it has no value, and says whether it did.
    fn tell(&mut self, lit: Lit) -> bool
        ensures { result ≡ true → self.new.desk ≡ put_on self.old.desk lit false }
    {
        let free = self.desk.is_observed(lit.var()) && self.desk.value(lit).is_none();
        if !free {
            return false;
        }
        self.theory.notify_assigned(lit, false);
        self.desk.put(lit, false);
        true
    }

    // Opens a level.
    fn open(&mut self) {
        if self.desk.level() < MAX_VAR {
            self.theory.notify_level();
            self.desk.raise();
        }
    }

    // Goes back to a level, if it is not above the current one.
    fn back(&mut self, level: u32) {
        if level <= self.desk.level() {
            self.theory.notify_back(level);
            self.desk.cut(level);
        }
    }

    // Assigns the literal that is implied next. Its reason is given.
    fn imply(&mut self) -> Result<[i32; 2], Memory> {
        let Some(lit) = self.theory.propagate(&mut self.desk)? else {
            return Ok([0, 0]);
        };
        self.theory.notify_assigned(lit, false);
        self.desk.put(lit, false);
        let mut out = Lits::new(self.alloc);
        self.theory.reason(lit, &self.desk, &mut out)?;
        Ok(numbers(out.as_slice()))
    }

    // Whether the model of two true members passes, where both are true on the seen trail.
    fn judge_two_true(&mut self) -> Result<bool, Memory>
        requires { self.old.desk ≡ both_true }
    {
        self.theory.check(&[true, true], &mut self.desk)
    }

    // The clause that lies first on the desk.
    fn clause(&self) -> [i32; 2] {
        match self.desk.first_request() {
            Some(Request::Clause(lits, _)) => numbers(lits.as_slice()),
            Some(Request::Observe(_)) => [0, 0],
            Some(Request::Back(_)) => [0, 0],
            None => [0, 0],
        }
    }
}

// How many literals are implied, the first and the last one, and how many reasons name a literal.
fn imply_all(scene: &mut Scene, named: i32) -> Result<[i32; 4], Memory> {
    let mut found = [0, 0, 0, 0];
    for _ in 0..1_000 {
        let [implied, other] = scene.imply()?;
        if implied == 0 {
            break;
        }
        if found[0] == 0 {
            found[1] = implied;
        }
        if other == named {
            found[3] = found[3].saturating_add(1);
        }
        found[0] = found[0].saturating_add(1);
        found[2] = implied;
    }
    Ok(found)
}

#[test]
fn a_true_member_makes_all_others_false(rt: HostRuntime) -> Result<(), Fail> {
    let mut scene = scene_of(rt.alloc(), 200)?;
    assert_eq!(rt; scene.imply()?, [0, 0]);
    scene.open();
    scene.tell(Lit::new(7).ok_or("no literal")?);
    assert_eq!(rt; imply_all(&mut scene, -7)?, [199, -1, -200, 199]);
    assert_eq!(rt; scene.clause(), [0, 0]);
    Ok(())
}

// What is implied with the first member and the last one of three true, and the clause that is left.
fn conflict(scene: &mut Scene, first: Lit, last: Lit) -> Result<[[i32; 2]; 3], Memory> {
    scene.tell(first);
    scene.tell(last);
    let implied = scene.imply()?;
    let after = scene.imply()?;
    Ok([implied, after, scene.clause()])
}

#[test]
fn two_true_members_are_handed(rt: HostRuntime) -> Result<(), Fail> {
    let mut scene = scene_of(rt.alloc(), 3)?;
    let first = Lit::new(1).ok_or("no literal")?;
    let last = Lit::new(3).ok_or("no literal")?;
    let found = conflict(&mut scene, first, last)?;
    assert_eq!(rt; found, [[-2, -1], [0, 0], [-3, -1]]);
    Ok(())
}

// What is implied behind a choice at level 1, again once a level above it was taken back, once its
// own was, and behind another choice.
fn there_and_back(scene: &mut Scene, first: Lit, second: Lit) -> Result<[[i32; 2]; 5], Memory> {
    scene.open();
    scene.tell(first);
    scene.open();
    let above = scene.imply()?;
    scene.back(1);
    let again = scene.imply()?;
    let further = scene.imply()?;
    scene.back(0);
    let none = scene.imply()?;
    scene.tell(second);
    Ok([above, again, further, none, scene.imply()?])
}

#[test]
fn a_way_back_takes_the_choice_back(rt: HostRuntime) -> Result<(), Fail> {
    let mut scene = scene_of(rt.alloc(), 3)?;
    let second = Lit::new(2).ok_or("no literal")?;
    let third = Lit::new(3).ok_or("no literal")?;
    let found = there_and_back(&mut scene, second, third)?;
    assert_eq!(rt; found, [[-1, -2], [-1, -2], [-3, -2], [0, 0], [-1, -3]]);
    Ok(())
}

// Whether a model of two members passes where neither is observed. `None` where the propagator
// could not say.
fn passes(alloc: Global, model: &[bool]) -> Result<Option<bool>, Fail> {
    let one = Var::new(1).ok_or("no variable")?;
    let two = Var::new(2).ok_or("no variable")?;
    let mut theory = AtMostOne::new(alloc, &[one, two])?;
    let mut desk = Desk::new(alloc);
    Ok(theory.check(model, &mut desk).ok())
}

#[test]
fn a_model_may_have_one_true_member(rt: HostRuntime) -> Result<(), Fail> {
    for (model, wanted) in [
        ([false, false], Some(true)),
        ([true, false], Some(true)),
        ([false, true], Some(true)),
        ([true, true], None),
    ] {
        assert_eq!(rt; passes(rt.alloc(), &model)?, wanted);
    }
    Ok(())
}

// Two members, both observed.
fn scene_of_two(alloc: Global) -> Result<Scene, Fail>
    ensures { IfOk result (λ scene. scene.desk ≡ both_known) }
{
    let one = Var::new(1).ok_or("no variable")?;
    let two = Var::new(2).ok_or("no variable")?;
    let mut desk = Desk::new(alloc);
    desk.watch(one)?;
    desk.watch(two)?;
    let theory = AtMostOne::new(alloc, &[one, two])?;
    Ok(Scene {
        alloc,
        theory,
        desk,
    })
}

// Two members, both true.
fn scene_of_two_true(alloc: Global) -> Result<Scene, Fail>
    ensures { IfOk result (λ scene. scene.desk ≡ both_true) }
{
    let one = Lit::new(1).ok_or("no literal")?;
    let two = Lit::new(2).ok_or("no literal")?;
    let mut scene = scene_of_two(alloc)?;
    if !scene.tell(one) {
        return Err("the first has a value")?;
    }
    if !scene.tell(two) {
        return Err("the second has a value")?;
    }
    Ok(scene)
}

#[test]
fn a_model_with_two_true_members_is_refuted(rt: HostRuntime) -> Result<(), Fail> {
    let mut scene = scene_of_two_true(rt.alloc())?;
    assert!(rt; !scene.judge_two_true()?);
    assert_eq!(rt; scene.clause(), [-1, -2]);
    Ok(())
}
