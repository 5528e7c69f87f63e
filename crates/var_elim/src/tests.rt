//! What the pass does to small kernels, as text; some hundred kernels that are drawn from a seed,
//! against plain definitions; and resolvents about the greatest length.
ghost use Rattle.std.specs.Prelude.{◌<◌};

use crate::pass::run;
use normal_form::forms::normal_form;
use rule_kernel::frozen::Frozen;
use rule_kernel::kernel::Kernel;
use rule_kernel::report::{Ended, PassReport};
use sat_model::literal::{Lit, Var};
use sat_model::truth::clause_true;
use std::alloc::Global;
use std::test::Fail;

// A literal of a number.
fn lit(number: i32) -> Result<Lit, Fail> {
    Ok(Lit::new(number).ok_or("no literal")?)
}

// Adds the normal form of a clause, if it has one and is clean.
fn add(alloc: Global, kernel: &mut Kernel, lits: &[Lit]) -> Result<(), Fail> {
    if let Some(form) = normal_form(alloc, lits)? {
        if kernel.is_clean(form.as_slice()) {
            kernel.add(form.as_slice())?;
        }
    }
    Ok(())
}

// The clause of some numbers.
fn clause_of(alloc: Global, numbers: &[i32]) -> Result<Vec<Lit>, Fail> {
    let mut lits = Vec::new(alloc);
    for number in numbers {
        lits.push(lit(*number)?)?;
    }
    Ok(lits)
}

// Adds the clause of some numbers.
fn add_numbers(alloc: Global, kernel: &mut Kernel, numbers: &[i32]) -> Result<(), Fail> {
    let lits = clause_of(alloc, numbers)?;
    add(alloc, kernel, lits.as_slice())
}

// Freezes the variables of some numbers.
fn freeze(frozen: &mut Frozen, numbers: &[i32]) -> Result<(), Fail> {
    for number in numbers {
        frozen.freeze(lit(*number)?.var())?;
    }
    Ok(())
}

// Writes literals, each behind a space.
fn write_lits(alloc: Global, text: &mut String, lits: &[Lit]) -> Result<(), Fail> {
    for lit in lits {
        let word = format!(in alloc; " {}", lit.number())?;
        text.push_str(word.as_str())?;
    }
    Ok(())
}

// Writes the firm clauses in brackets.
fn write_firm(alloc: Global, text: &mut String, kernel: &Kernel) -> Result<(), Fail> {
    for id in kernel.store().firm_ids() {
        text.push_str("[")?;
        write_lits(alloc, text, kernel.store().get(*id))?;
        text.push_str(" ]")?;
    }
    Ok(())
}

// Writes the entries of the stack, witness and clause, in parentheses.
fn write_stack(alloc: Global, text: &mut String, kernel: &Kernel) -> Result<(), Fail> {
    for k in 0..kernel.stack().len() {
        text.push_str(" (")?;
        write_lits(alloc, text, kernel.stack().witness(k))?;
        text.push_str(" :")?;
        write_lits(alloc, text, kernel.stack().clause(k))?;
        text.push_str(" )")?;
    }
    Ok(())
}

// A kernel and what the pass makes of it.
#[derive(Drop)]
struct Row {
    clauses: &'static [&'static [i32]],
    frozen: &'static [i32],
    limit: u64,
    text: &'static str,
    removed: u64,
    ended: Ended,
}

// One clause with 1, and one with -1.
const PAIR: &[&[i32]] = &[&[1, 2], &[-1, 3]];

// Three with 1, and three with -1, of which there are nine resolvents.
const SIX: &[&[i32]] = &[&[1, 2], &[1, 3], &[1, 4], &[-1, 5], &[-1, 6], &[-1, 7]];

const ROWS: &[Row] = &[
    // The resolvent comes, and both clauses go, each with its literal as witness.
    Row {
        clauses: PAIR,
        frozen: &[2, 3],
        limit: 1000,
        text: "[ 2 3 ] ( 1 : 1 2 ) ( -1 : -1 3 )",
        removed: 2,
        ended: Ended::Fixpoint,
    },
    // No step is left.
    Row {
        clauses: PAIR,
        frozen: &[2, 3],
        limit: 0,
        text: "[ 1 2 ][ -1 3 ]",
        removed: 0,
        ended: Ended::Limit(0),
    },
    // Where all are frozen none is tested.
    Row {
        clauses: PAIR,
        frozen: &[1, 2, 3],
        limit: 0,
        text: "[ 1 2 ][ -1 3 ]",
        removed: 0,
        ended: Ended::Fixpoint,
    },
    // A literal whose negation stands nowhere needs no pair, and is a step.
    Row {
        clauses: &[&[1, 2]],
        frozen: &[2],
        limit: 1,
        text: " ( 1 : 1 2 )",
        removed: 1,
        ended: Ended::Fixpoint,
    },
    // A clause of one literal stays, and so do the others of its variable.
    Row {
        clauses: &[&[1], &[-1, 2]],
        frozen: &[2],
        limit: 1000,
        text: "[ 1 ][ -1 2 ]",
        removed: 0,
        ended: Ended::Fixpoint,
    },
    // A tautology does not come.
    Row {
        clauses: &[&[1, 2], &[-1, -2]],
        frozen: &[2],
        limit: 1000,
        text: " ( 1 : 1 2 ) ( -1 : -1 -2 )",
        removed: 2,
        ended: Ended::Fixpoint,
    },
    // There are more resolvents than clauses, which the seventh pair shows.
    Row {
        clauses: SIX,
        frozen: &[2, 3, 4, 5, 6, 7],
        limit: 7,
        text: "[ 1 2 ][ 1 3 ][ 1 4 ][ -1 5 ][ -1 6 ][ -1 7 ]",
        removed: 0,
        ended: Ended::Fixpoint,
    },
    // A step too few to see it.
    Row {
        clauses: SIX,
        frozen: &[2, 3, 4, 5, 6, 7],
        limit: 6,
        text: "[ 1 2 ][ 1 3 ][ 1 4 ][ -1 5 ][ -1 6 ][ -1 7 ]",
        removed: 0,
        ended: Ended::Limit(6),
    },
    // An empty clause hinders nothing.
    Row {
        clauses: &[&[], &[1, 2], &[-1, 3]],
        frozen: &[2, 3],
        limit: 1000,
        text: "[ ][ 2 3 ] ( 1 : 1 2 ) ( -1 : -1 3 )",
        removed: 2,
        ended: Ended::Fixpoint,
    },
    // The variable with the fewest pairs goes first: 4 has none, then 1 has one.
    Row {
        clauses: &[&[1, 2, 4], &[1, 2], &[-1, 3]],
        frozen: &[2, 3],
        limit: 1000,
        text: "[ 2 3 ] ( 4 : 1 2 4 ) ( 1 : 1 2 ) ( -1 : -1 3 )",
        removed: 3,
        ended: Ended::Fixpoint,
    },
];

// Runs the pass with the frozen variables of a row.
fn run_frozen(alloc: Global, kernel: &mut Kernel, row: &Row) -> Result<PassReport, Fail> {
    let mut frozen = Frozen::new(alloc);
    freeze(&mut frozen, row.frozen)?;
    Ok(run(kernel, &frozen, row.limit)?)
}

// Makes the kernel of a row, runs the pass, and writes what it left.
fn run_row(
    alloc: Global,
    kernel: &mut Kernel,
    row: &Row,
    text: &mut String,
) -> Result<PassReport, Fail> {
    for numbers in row.clauses {
        add_numbers(alloc, kernel, *numbers)?;
    }
    let report = run_frozen(alloc, kernel, row)?;
    write_firm(alloc, text, kernel)?;
    write_stack(alloc, text, kernel)?;
    Ok(report)
}

// Whether the pass makes of the kernel of a row what the row says.
fn is_right(alloc: Global, row: &Row) -> Result<bool, Fail> {
    let mut kernel = Kernel::new(alloc);
    let mut text = String::new(alloc);
    let report = run_row(alloc, &mut kernel, row, &mut text)?;
    Ok(text.as_str() == row.text && report.removed == row.removed && report.ended == row.ended)
}

// How many rows come out right before one does not.
fn right_rows(alloc: Global) -> Result<usize, Fail> {
    let mut count: usize = 0;
    for row in ROWS {
        if !is_right(alloc, row)? {
            return Ok(count);
        }
        count = count.saturating_add(1);
    }
    Ok(count)
}

#[test]
fn small_kernels(rt: HostRuntime) -> Result<(), Fail> {
    assert_eq!(rt; right_rows(rt.alloc())?, ROWS.len());
    Ok(())
}

// How many variables a drawn kernel has, and how many kernels there are.
const VARS: u32 = 5;

const KERNELS: u64 = 400;

// Numbers that are drawn one after another (Knuth's linear congruential generator).
#[derive(Drop)]
struct Draw {
    state: u64,
}

impl Draw {
    // A number below a bound.
    fn below(&mut self, bound: u32) -> u32
        requires { 0 < bound }
        ensures { result < bound }
    {
        self.state = self
            .state
            .wrapping_mul(6_364_136_223_846_793_005)
            .wrapping_add(1_442_695_040_888_963_407);
        let high = (self.state / 8_589_934_592) as u32;
        high % bound
    }

    // A literal.
    fn literal(&mut self) -> Result<Lit, Fail> {
        let var = Var::new(self.below(VARS).saturating_add(1)).ok_or("no variable")?;
        let is_positive = self.below(2) == 0;
        Ok(if is_positive {
            var.positive()
        } else {
            var.negative()
        })
    }
}

// Adds a clause that is drawn, of two literals more often than of one or three.
fn draw_clause(alloc: Global, draw: &mut Draw, kernel: &mut Kernel) -> Result<(), Fail> {
    let lits = [draw.literal()?, draw.literal()?, draw.literal()?];
    if draw.below(12) == 0 {
        return add(alloc, kernel, &lits[..1]);
    }
    if draw.below(3) == 0 {
        return add(alloc, kernel, &lits);
    }
    add(alloc, kernel, &lits[..2])
}

// Learns the normal form of a clause.
fn learn(alloc: Global, kernel: &mut Kernel, lits: &[Lit]) -> Result<(), Fail> {
    if let Some(form) = normal_form(alloc, lits)? {
        kernel.learn(form.as_slice(), 1)?;
    }
    Ok(())
}

// Adds some clauses that are drawn, and learns one of one literal.
fn draw_clauses(alloc: Global, draw: &mut Draw, kernel: &mut Kernel) -> Result<(), Fail> {
    for _ in 0..draw.below(8) {
        draw_clause(alloc, draw, kernel)?;
    }
    let lit = draw.literal()?;
    learn(alloc, kernel, &[lit])
}

// Freezes a variable that is drawn, every other time.
fn draw_frozen(draw: &mut Draw, frozen: &mut Frozen) -> Result<(), Fail> {
    if draw.below(2) == 0 {
        frozen.freeze(draw.literal()?.var())?;
    }
    Ok(())
}

// Whether a model makes the firm clauses true.
fn is_firm_true(kernel: &Kernel, model: &[bool]) -> bool {
    for id in kernel.store().firm_ids() {
        if !clause_true(model, kernel.store().get(*id)) {
            return false;
        }
    }
    true
}

// Whether a model makes the clauses of the stack true.
fn is_stack_true(kernel: &Kernel, model: &[bool]) -> bool {
    for k in 0..kernel.stack().len() {
        if !clause_true(model, kernel.stack().clause(k)) {
            return false;
        }
    }
    true
}

// Whether the values that the bits of a number give to the variables make the firm clauses and
// those of the stack true.
fn is_model(kernel: &Kernel, bits: u32) -> bool {
    let model = [
        bits % 2 == 1,
        bits / 2 % 2 == 1,
        bits / 4 % 2 == 1,
        bits / 8 % 2 == 1,
        bits / 16 % 2 == 1,
    ];
    is_firm_true(kernel, &model) && is_stack_true(kernel, &model)
}

// The assignments that make the firm clauses and those of the stack true, a bit for each.
fn models(kernel: &Kernel) -> u32 {
    let mut all: u32 = 0;
    for bits in 0..32 {
        let bit = if is_model(kernel, bits) { 1 } else { 0 };
        all = all.wrapping_mul(2).wrapping_add(bit);
    }
    all
}

// The literals of a clause as the bits of a number, each at its code.
fn set_of(lits: &[Lit]) -> u32 {
    let mut set: u32 = 0;
    for lit in lits {
        set |= bit_of(*lit);
    }
    set
}

// The bit of a literal.
fn bit_of(lit: Lit) -> u32 {
    1u32.wrapping_shl(lit.code())
}

// The resolvent of two clauses, one of which holds a literal and the other its negation.
fn resolvent(left: u32, right: u32, lit: Lit) -> u32 {
    (left & !bit_of(lit)) | (right & !bit_of(lit.neg()))
}

// Whether a literal and its negation are in a set: the codes of the two differ in the last bit.
fn is_tautology(set: u32) -> bool {
    set & (set >> 1) & 0x5555_5555 != 0
}

// How many resolvents of a clause with those that hold the negation of a literal are no tautology.
fn count_row(kernel: &Kernel, left: u32, lit: Lit) -> u64 {
    let mut all: u64 = 0;
    for id in kernel.store().occ(lit.neg()) {
        let right = set_of(kernel.store().get(*id));
        if is_tautology(resolvent(left, right, lit)) {
            continue;
        }
        all = all.saturating_add(1);
    }
    all
}

// How many resolvents on a literal are no tautology.
fn count_resolvents(kernel: &Kernel, lit: Lit) -> u64 {
    let mut all: u64 = 0;
    for id in kernel.store().occ(lit) {
        let left = set_of(kernel.store().get(*id));
        all = all.saturating_add(count_row(kernel, left, lit));
    }
    all
}

// Whether a clause of one literal holds a literal.
fn has_unit(kernel: &Kernel, lit: Lit) -> bool {
    for id in kernel.store().occ(lit) {
        if kernel.store().get(*id).len() == 1 {
            return true;
        }
    }
    false
}

// Whether a variable is a candidate, by the definition; so few clauses have neither 400 pairs nor
// long resolvents.
fn is_candidate(kernel: &Kernel, var: Var) -> bool {
    let lit = var.positive();
    let clauses = kernel
        .store()
        .occ(lit)
        .len()
        .saturating_add(kernel.store().occ(lit.neg()).len()) as u64;
    clauses > 0
        && !has_unit(kernel, lit)
        && !has_unit(kernel, lit.neg())
        && count_resolvents(kernel, lit) <= clauses
}

// Whether the variable of a number is not frozen and a candidate.
fn is_left(kernel: &Kernel, frozen: &Frozen, number: u32) -> bool {
    match Var::new(number) {
        Some(var) => !frozen.has(var) && is_candidate(kernel, var),
        None => false,
    }
}

// Whether no candidate is left.
fn is_fixpoint(kernel: &Kernel, frozen: &Frozen) -> bool {
    for number in 1..=VARS {
        if is_left(kernel, frozen, number) {
            return false;
        }
    }
    true
}

// Whether the variable of a number stands in firm clauses.
fn stands(kernel: &Kernel, number: u32) -> bool {
    match Var::new(number) {
        Some(var) => {
            kernel.store().occ(var.positive()).len() > 0
                || kernel.store().occ(var.negative()).len() > 0
        }
        None => false,
    }
}

// How many variables stand in firm clauses.
fn standing(kernel: &Kernel) -> u64 {
    let mut all: u64 = 0;
    for number in 1..=VARS {
        if !stands(kernel, number) {
            continue;
        }
        all = all.saturating_add(1);
    }
    all
}

// Whether the entries of the stack from a place on have witnesses of one literal that is not
// frozen.
fn are_single(kernel: &Kernel, frozen: &Frozen, from: usize) -> bool {
    for k in from..kernel.stack().len() {
        let witness = kernel.stack().witness(k);
        if witness.len() != 1 || frozen.has(witness[0].var()) {
            return false;
        }
    }
    true
}

// What of a kernel is compared before and after the pass.
#[derive(Drop)]
struct Seen {
    models: u32,
    standing: u64,
    redundant: usize,
    entries: usize,
    removals: u64,
}

fn see(kernel: &Kernel) -> Seen {
    Seen {
        models: models(kernel),
        standing: standing(kernel),
        redundant: kernel.store().redundant_ids().len(),
        entries: kernel.stack().len(),
        removals: kernel.removals(),
    }
}

// Whether the end fits: a fixpoint, or the limit, which was too small, with variables gone for
// its steps.
fn ends_well(
    is_fixpoint: bool,
    limit: u64,
    report: PassReport,
    before: &Seen,
    after: &Seen,
) -> bool {
    let gone = before.standing.saturating_sub(after.standing);
    let divisor = before.standing.saturating_mul(400);
    match report.ended {
        Ended::Fixpoint => is_fixpoint,
        Ended::Limit(steps) => {
            steps == limit
                && divisor > 0
                && gone.saturating_mul(divisor).saturating_add(divisor) > steps
                && limit < divisor.saturating_mul(before.standing.saturating_add(1))
        }
    }
}

// What came out of the runs.
#[derive(Drop)]
struct Tally {
    fixpoints: u64,
    limits: u64,
    removed: u64,
    wrong: u64,
}

// Whether what came out of a run fits what was there before.
fn fits(kernel: &Kernel, frozen: &Frozen, limit: u64, report: PassReport, before: &Seen) -> bool {
    let after = see(kernel);
    ends_well(is_fixpoint(kernel, frozen), limit, report, before, &after)
        && before.models == after.models
        && before.redundant == after.redundant
        && are_single(kernel, frozen, before.entries)
        && before.removals.saturating_add(report.removed) == after.removals
}

// Counts a run.
fn count(tally: &mut Tally, report: PassReport, fits: bool) {
    if !fits {
        tally.wrong = tally.wrong.saturating_add(1);
    }
    match report.ended {
        Ended::Fixpoint => tally.fixpoints = tally.fixpoints.saturating_add(1),
        Ended::Limit(_) => tally.limits = tally.limits.saturating_add(1),
    }
    tally.removed = tally.removed.saturating_add(report.removed);
}

// Adds clauses that are drawn, runs the pass and compares.
fn compare(
    alloc: Global,
    draw: &mut Draw,
    kernel: &mut Kernel,
    frozen: &Frozen,
    limit: u64,
    tally: &mut Tally,
) -> Result<(), Fail> {
    draw_clauses(alloc, draw, kernel)?;
    let before = see(kernel);
    let report = run(kernel, frozen, limit)?;
    let fits = fits(kernel, frozen, limit, report, &before);
    count(tally, report, fits);
    Ok(())
}

// Draws a kernel, and a frozen variable every other time, and runs the pass with no step, a small
// limit and an ample one, with more clauses each time.
fn compare_drawn(
    alloc: Global,
    seed: u64,
    kernel: &mut Kernel,
    frozen: &mut Frozen,
    tally: &mut Tally,
) -> Result<(), Fail> {
    let mut draw = Draw { state: seed };
    draw_frozen(&mut draw, frozen)?;
    compare(alloc, &mut draw, kernel, frozen, 0, tally)?;
    let few = draw.below(40) as u64;
    compare(alloc, &mut draw, kernel, frozen, few, tally)?;
    compare(alloc, &mut draw, kernel, frozen, 1000, tally)
}

// Compares one kernel that is drawn.
fn compare_one(alloc: Global, seed: u64, tally: &mut Tally) -> Result<(), Fail> {
    let mut kernel = Kernel::new(alloc);
    let mut frozen = Frozen::new(alloc);
    compare_drawn(alloc, seed, &mut kernel, &mut frozen, tally)
}

// Compares all kernels that are drawn.
fn compare_all(alloc: Global, tally: &mut Tally) -> Result<(), Fail> {
    for seed in 0..KERNELS {
        compare_one(alloc, seed, tally)?;
    }
    Ok(())
}

// Whether nothing was wrong, and enough runs ended each way.
fn is_enough(tally: &Tally) -> bool {
    tally.wrong == 0 && tally.fixpoints > 400 && tally.limits > 200 && tally.removed > 400
}

#[test]
fn drawn_kernels(rt: HostRuntime) -> Result<(), Fail> {
    let mut tally = Tally {
        fixpoints: 0,
        limits: 0,
        removed: 0,
        wrong: 0,
    };
    compare_all(rt.alloc(), &mut tally)?;
    assert!(rt; is_enough(&tally));
    Ok(())
}

// The literal of a number, true.
fn nth(number: u32) -> Result<Lit, Fail> {
    Ok(Var::new(number).ok_or("no variable")?.positive())
}

// A literal and the positive literals of a range of variables.
fn long_clause(alloc: Global, lit: Lit, low: u32, high: u32) -> Result<Vec<Lit>, Fail> {
    let mut lits = Vec::new(alloc);
    lits.push(lit)?;
    for number in low..high {
        lits.push(nth(number)?)?;
    }
    Ok(lits)
}

// Adds the clause of a literal and the positive literals of a range of variables.
fn add_long(alloc: Global, kernel: &mut Kernel, lit: Lit, low: u32, high: u32) -> Result<(), Fail> {
    let lits = long_clause(alloc, lit, low, high)?;
    add(alloc, kernel, lits.as_slice())
}

// Freezes the variables of a range.
fn freeze_range(frozen: &mut Frozen, low: u32, high: u32) -> Result<(), Fail> {
    for number in low..high {
        frozen.freeze(nth(number)?.var())?;
    }
    Ok(())
}

// Runs the pass where the only resolvent has so many literals, and all its variables are frozen.
fn run_long(
    alloc: Global,
    kernel: &mut Kernel,
    frozen: &mut Frozen,
    length: u32,
) -> Result<u64, Fail> {
    let first = nth(1)?;
    let end = length.saturating_add(2);
    freeze_range(frozen, 2, end)?;
    add_long(alloc, kernel, first, 2, 42)?;
    add_long(alloc, kernel, first.neg(), 32, end)?;
    Ok(run(kernel, frozen, 1000)?.removed)
}

// How many clauses the pass takes out there.
fn removed_at(alloc: Global, length: u32) -> Result<u64, Fail> {
    let mut kernel = Kernel::new(alloc);
    let mut frozen = Frozen::new(alloc);
    run_long(alloc, &mut kernel, &mut frozen, length)
}

// A resolvent of 100 literals may come, and one of 101 may not.
#[test]
fn long_resolvents(rt: HostRuntime) -> Result<(), Fail> {
    assert_eq!(rt; removed_at(rt.alloc(), 100)?, 2);
    assert_eq!(rt; removed_at(rt.alloc(), 101)?, 0);
    Ok(())
}

// Whether a run finds nothing to do where all is frozen, and with no step a second one too; and a third takes the clauses out once nothing
// is frozen.
fn waits_for_thaw(kernel: &mut Kernel, frozen: &mut Frozen) -> Result<bool, Fail> {
    let first = run(kernel, frozen, 1000)?;
    let second = run(kernel, frozen, 0)?;
    frozen.clear();
    let third = run(kernel, frozen, 1000)?;
    let fourth = run(kernel, frozen, 0)?;
    Ok(
        first.removed == 0
            && second.ended == Ended::Fixpoint
            && third.removed == 2
            && fourth.ended == Ended::Fixpoint,
    )
}

// The same of the clauses of two variables that are tied by a third.
fn thaws(alloc: Global, kernel: &mut Kernel, frozen: &mut Frozen) -> Result<bool, Fail> {
    add_numbers(alloc, kernel, &[1, 2])?;
    add_numbers(alloc, kernel, &[-1, 3])?;
    freeze(frozen, &[1, 2, 3])?;
    waits_for_thaw(kernel, frozen)
}

// A frozen variable is not tested, and is tested once it is frozen no longer; what was tested is not tested again.
#[test]
fn later_runs(rt: HostRuntime) -> Result<(), Fail> {
    let mut kernel = Kernel::new(rt.alloc());
    let mut frozen = Frozen::new(rt.alloc());
    let waits = thaws(rt.alloc(), &mut kernel, &mut frozen)?;
    assert!(rt; waits);
    Ok(())
}
