//! What the pass does to small kernels; a variable that is frozen and then no longer; some hundred kernels that are drawn from a seed,
//! against plain definitions; and a long chain with a long clause, which is above every buffer.
ghost use Rattle.std.specs.Prelude.{◌<◌};

use crate::pass::run;
use normal_form::forms::normal_form;
use rule_kernel::frozen::Frozen;
use rule_kernel::kernel::Kernel;
use rule_kernel::report::{Ended, PassReport};
use sat_model::lists::ClauseId;
use sat_model::literal::{Lit, Var};
use sat_model::truth::clause_true;
use std::alloc::Global;
use std::test::Fail;

// A literal of a number.
fn lit(number: i32) -> Result<Lit, Fail> {
    Ok(Lit::new(number).ok_or("no literal")?)
}

// Adds the normal form of a clause, if it has one and is clean.
fn add(alloc: Global, kernel: &mut Kernel, lits: &[Lit]) -> Result<(), Fail> {
    if let Some(form) = normal_form(alloc, lits)? {
        if kernel.is_clean(form.as_slice()) {
            kernel.add(form.as_slice())?;
        }
    }
    Ok(())
}

// The clause of some numbers.
fn clause_of(alloc: Global, numbers: &[i32]) -> Result<Vec<Lit>, Fail> {
    let mut lits = Vec::new(alloc);
    for number in numbers {
        lits.push(lit(*number)?)?;
    }
    Ok(lits)
}

// Adds the clause of some numbers.
fn add_numbers(alloc: Global, kernel: &mut Kernel, numbers: &[i32]) -> Result<(), Fail> {
    let lits = clause_of(alloc, numbers)?;
    add(alloc, kernel, lits.as_slice())
}

// Freezes the variables of some numbers.
fn freeze(frozen: &mut Frozen, numbers: &[i32]) -> Result<(), Fail> {
    for number in numbers {
        frozen.freeze(lit(*number)?.var())?;
    }
    Ok(())
}

// Writes literals, each behind a space.
fn write_lits(alloc: Global, text: &mut String, lits: &[Lit]) -> Result<(), Fail> {
    for lit in lits {
        let word = format!(in alloc; " {}", lit.number())?;
        text.push_str(word.as_str())?;
    }
    Ok(())
}

// Writes the firm clauses in brackets.
fn write_firm(alloc: Global, text: &mut String, kernel: &Kernel) -> Result<(), Fail> {
    for id in kernel.store().firm_ids() {
        text.push_str("[")?;
        write_lits(alloc, text, kernel.store().get(*id))?;
        text.push_str(" ]")?;
    }
    Ok(())
}

// Writes the entries of the stack, witness and clause, in parentheses.
fn write_stack(alloc: Global, text: &mut String, kernel: &Kernel) -> Result<(), Fail> {
    for k in 0..kernel.stack().len() {
        text.push_str(" (")?;
        write_lits(alloc, text, kernel.stack().witness(k))?;
        text.push_str(" :")?;
        write_lits(alloc, text, kernel.stack().clause(k))?;
        text.push_str(" )")?;
    }
    Ok(())
}

// A kernel and what the pass makes of it. Where its order is open, nothing is said of the stack but how many entries it has.
#[derive(Drop)]
struct Row {
    clauses: &'static [&'static [i32]],
    frozen: &'static [i32],
    limit: u64,
    firm: &'static str,
    stack: Option<&'static str>,
    entries: usize,
    ended: Ended,
}

// One variable is the other one's negation.
const OPPOSITE: &[&[i32]] = &[&[1, 2], &[-1, -2]];

// The variable 3 is the conjunction of 1 and 2.
const GATE: &[&[i32]] = &[&[3, -1, -2], &[-3, 1], &[-3, 2]];

const ROWS: &[Row] = &[
    // The resolvent of both clauses is a tautology; once one is gone, the other has none.
    Row {
        clauses: OPPOSITE,
        frozen: &[],
        limit: 1000,
        firm: "",
        stack: None,
        entries: 2,
        ended: Ended::Fixpoint,
    },
    // No step is left.
    Row {
        clauses: OPPOSITE,
        frozen: &[],
        limit: 0,
        firm: "[ 1 2 ][ -1 -2 ]",
        stack: Some(""),
        entries: 0,
        ended: Ended::Limit(0),
    },
    // A literal whose negation stands nowhere.
    Row {
        clauses: &[&[5]],
        frozen: &[],
        limit: 1000,
        firm: "",
        stack: Some(" ( 5 : 5 )"),
        entries: 1,
        ended: Ended::Fixpoint,
    },
    // Its variable is frozen, so that it takes no step to find nothing.
    Row {
        clauses: &[&[5]],
        frozen: &[5],
        limit: 0,
        firm: "[ 5 ]",
        stack: Some(""),
        entries: 0,
        ended: Ended::Fixpoint,
    },
    // The first clause is blocked once the second one is gone, which is blocked on 2.
    Row {
        clauses: &[&[1], &[-1, 2]],
        frozen: &[],
        limit: 1000,
        firm: "",
        stack: Some(" ( 2 : -1 2 ) ( 1 : 1 )"),
        entries: 2,
        ended: Ended::Fixpoint,
    },
    // All that defines an output goes, with the output's literals as witnesses.
    Row {
        clauses: GATE,
        frozen: &[1, 2],
        limit: 1000,
        firm: "",
        stack: None,
        entries: 3,
        ended: Ended::Fixpoint,
    },
    // The output is read.
    Row {
        clauses: GATE,
        frozen: &[1, 2, 3],
        limit: 1000,
        firm: "[ -1 -2 3 ][ 1 -3 ][ 2 -3 ]",
        stack: Some(""),
        entries: 0,
        ended: Ended::Fixpoint,
    },
    // No clause is blocked.
    Row {
        clauses: &[&[1, 2], &[1, -2], &[-1, 2], &[-1, -2]],
        frozen: &[],
        limit: 1000,
        firm: "[ 1 2 ][ 1 -2 ][ -1 2 ][ -1 -2 ]",
        stack: Some(""),
        entries: 0,
        ended: Ended::Fixpoint,
    },
    // The empty clause is never blocked.
    Row {
        clauses: &[&[], &[1]],
        frozen: &[],
        limit: 1000,
        firm: "[ ]",
        stack: Some(" ( 1 : 1 )"),
        entries: 1,
        ended: Ended::Fixpoint,
    },
];

// Runs the pass with the frozen variables of a row.
fn run_frozen(alloc: Global, kernel: &mut Kernel, row: &Row) -> Result<PassReport, Fail> {
    let mut frozen = Frozen::new(alloc);
    freeze(&mut frozen, row.frozen)?;
    Ok(run(kernel, &frozen, row.limit)?)
}

// Makes the kernel of a row, runs the pass, and writes what it left.
fn run_row(
    alloc: Global,
    kernel: &mut Kernel,
    row: &Row,
    firm: &mut String,
    stack: &mut String,
) -> Result<PassReport, Fail> {
    for numbers in row.clauses {
        add_numbers(alloc, kernel, *numbers)?;
    }
    let report = run_frozen(alloc, kernel, row)?;
    write_firm(alloc, firm, kernel)?;
    write_stack(alloc, stack, kernel)?;
    Ok(report)
}

// Whether a stack is what a row says.
fn is_stack(row: &Row, stack: &str, entries: usize) -> bool {
    match row.stack {
        Some(text) => stack == text && entries == row.entries,
        None => entries == row.entries,
    }
}

// Whether the pass makes of the kernel of a row what the row says.
fn is_right(alloc: Global, row: &Row) -> Result<bool, Fail> {
    let mut kernel = Kernel::new(alloc);
    let mut firm = String::new(alloc);
    let mut stack = String::new(alloc);
    let report = run_row(alloc, &mut kernel, row, &mut firm, &mut stack)?;
    Ok(
        firm.as_str() == row.firm
            && is_stack(row, stack.as_str(), kernel.stack().len())
            && report.removed == row.entries as u64
            && report.ended == row.ended,
    )
}

// How many rows come out right before one does not.
fn right_rows(alloc: Global) -> Result<usize, Fail> {
    let mut count: usize = 0;
    for row in ROWS {
        if !is_right(alloc, row)? {
            return Ok(count);
        }
        count = count.saturating_add(1);
    }
    Ok(count)
}

#[test]
fn small_kernels(rt: HostRuntime) -> Result<(), Fail> {
    // What is parked, what stays, and how the pass ends.
    assert_eq!(rt; right_rows(rt.alloc())?, ROWS.len());
    Ok(())
}

// How many variables a drawn kernel has, and how many kernels there are.
const VARS: u32 = 5;

const KERNELS: u64 = 400;

// Numbers that are drawn one after another (Knuth's linear congruential generator).
#[derive(Drop)]
struct Draw {
    state: u64,
}

impl Draw {
    // A number below a bound.
    fn below(&mut self, bound: u32) -> u32
        requires { 0 < bound }
        ensures { result < bound }
    {
        self.state = self
            .state
            .wrapping_mul(6_364_136_223_846_793_005)
            .wrapping_add(1_442_695_040_888_963_407);
        let high = (self.state / 8_589_934_592) as u32;
        high % bound
    }

    // A literal.
    fn literal(&mut self) -> Result<Lit, Fail> {
        let var = Var::new(self.below(VARS).saturating_add(1)).ok_or("no variable")?;
        let is_positive = self.below(2) == 0;
        Ok(if is_positive {
            var.positive()
        } else {
            var.negative()
        })
    }
}

// Adds a clause that is drawn, of two or three literals more often than of one.
fn draw_clause(alloc: Global, draw: &mut Draw, kernel: &mut Kernel) -> Result<(), Fail> {
    let lits = [draw.literal()?, draw.literal()?, draw.literal()?];
    if draw.below(12) == 0 {
        return add(alloc, kernel, &lits[..1]);
    }
    if draw.below(2) == 0 {
        return add(alloc, kernel, &lits);
    }
    add(alloc, kernel, &lits[..2])
}

// Learns the normal form of a clause.
fn learn(alloc: Global, kernel: &mut Kernel, lits: &[Lit]) -> Result<(), Fail> {
    if let Some(form) = normal_form(alloc, lits)? {
        kernel.learn(form.as_slice(), 1)?;
    }
    Ok(())
}

// Adds some clauses that are drawn, and learns one of one literal.
fn draw_clauses(alloc: Global, draw: &mut Draw, kernel: &mut Kernel) -> Result<(), Fail> {
    for _ in 0..draw.below(14) {
        draw_clause(alloc, draw, kernel)?;
    }
    let lit = draw.literal()?;
    learn(alloc, kernel, &[lit])
}

// Freezes a variable that is drawn, every other time.
fn draw_frozen(draw: &mut Draw, frozen: &mut Frozen) -> Result<(), Fail> {
    if draw.below(2) == 0 {
        frozen.freeze(draw.literal()?.var())?;
    }
    Ok(())
}

// Whether a model makes the firm clauses true.
fn is_firm_true(kernel: &Kernel, model: &[bool]) -> bool {
    for id in kernel.store().firm_ids() {
        if !clause_true(model, kernel.store().get(*id)) {
            return false;
        }
    }
    true
}

// Whether a model makes the clauses of the stack true.
fn is_stack_true(kernel: &Kernel, model: &[bool]) -> bool {
    for k in 0..kernel.stack().len() {
        if !clause_true(model, kernel.stack().clause(k)) {
            return false;
        }
    }
    true
}

// Whether the values that the bits of a number give to the variables make the firm clauses and
// those of the stack true.
fn is_model(kernel: &Kernel, bits: u32) -> bool {
    let model = [
        bits % 2 == 1,
        bits / 2 % 2 == 1,
        bits / 4 % 2 == 1,
        bits / 8 % 2 == 1,
        bits / 16 % 2 == 1,
    ];
    is_firm_true(kernel, &model) && is_stack_true(kernel, &model)
}

// The assignments that make the firm clauses and those of the stack true, a bit for each.
fn models(kernel: &Kernel) -> u32 {
    let mut all: u32 = 0;
    for bits in 0..32 {
        let bit = if is_model(kernel, bits) { 1 } else { 0 };
        all = all.wrapping_mul(2).wrapping_add(bit);
    }
    all
}

// Whether a list holds a literal.
fn has(lits: &[Lit], lit: Lit) -> bool {
    for one in lits {
        if *one == lit {
            return true;
        }
    }
    false
}

// The resolvent of two clauses on a literal.
fn resolvent(alloc: Global, lit: Lit, first: &[Lit], second: &[Lit]) -> Result<Vec<Lit>, Fail> {
    let mut lits = Vec::new(alloc);
    push_without(&mut lits, lit, first)?;
    push_without(&mut lits, lit.neg(), second)?;
    Ok(lits)
}

// Puts the literals of a clause but one at the end of a list.
fn push_without(lits: &mut Vec<Lit>, lit: Lit, clause: &[Lit]) -> Result<(), Fail> {
    for one in clause {
        if *one != lit {
            lits.push(*one)?;
        }
    }
    Ok(())
}

// Whether a list holds a literal and its negation.
fn is_tautology(lits: &[Lit]) -> bool {
    for one in lits {
        if has(lits, one.neg()) {
            return true;
        }
    }
    false
}

// Whether the resolvent of two firm clauses on a literal is a tautology, or the second does not hold the negation.
fn is_harmless(
    alloc: Global,
    kernel: &Kernel,
    lit: Lit,
    first: &[Lit],
    id: ClauseId,
) -> Result<bool, Fail> {
    let store = kernel.store();
    if !store.is_live(id) || !has(store.get(id), lit.neg()) {
        return Ok(true);
    }
    let lits = resolvent(alloc, lit, first, store.get(id))?;
    Ok(is_tautology(lits.as_slice()))
}

// Whether a clause is blocked on a literal.
fn is_blocked(alloc: Global, kernel: &Kernel, lit: Lit, clause: &[Lit]) -> Result<bool, Fail> {
    for id in kernel.store().firm_ids() {
        if !is_harmless(alloc, kernel, lit, clause, *id)? {
            return Ok(false);
        }
    }
    Ok(true)
}

// Whether a clause is blocked on one of its literals whose variable is not frozen.
fn is_blocked_on_any(
    alloc: Global,
    kernel: &Kernel,
    frozen: &Frozen,
    clause: &[Lit],
) -> Result<bool, Fail> {
    for lit in clause {
        if !frozen.has(lit.var()) && is_blocked(alloc, kernel, *lit, clause)? {
            return Ok(true);
        }
    }
    Ok(false)
}

// Whether no firm clause is blocked on a literal whose variable is not frozen.
fn is_fixpoint(alloc: Global, kernel: &Kernel, frozen: &Frozen) -> Result<bool, Fail> {
    for id in kernel.store().firm_ids() {
        if is_blocked_on_any(alloc, kernel, frozen, kernel.store().get(*id))? {
            return Ok(false);
        }
    }
    Ok(true)
}

// How many literals the firm clauses have.
fn literals(kernel: &Kernel) -> u64 {
    let mut all: u64 = 0;
    for id in kernel.store().firm_ids() {
        let count = kernel.store().get(*id).len();
        all = all.saturating_add(count as u64);
    }
    all
}

// How often the marked literals stand in firm clauses.
fn marked(kernel: &Kernel) -> u64 {
    let mut all: u64 = 0;
    for lit in kernel.marked_lits() {
        let count = kernel.store().occ(*lit).len();
        all = all.saturating_add(count as u64);
    }
    all
}

// Whether the entries of the stack from a place on have witnesses of one literal that is not
// frozen.
fn are_single(kernel: &Kernel, frozen: &Frozen, from: usize) -> bool {
    for k in from..kernel.stack().len() {
        let witness = kernel.stack().witness(k);
        if witness.len() != 1 || frozen.has(witness[0].var()) {
            return false;
        }
    }
    true
}

// What of a kernel is compared before and after the pass.
#[derive(Drop)]
struct Seen {
    models: u32,
    firm: u64,
    literals: u64,
    marked: u64,
    redundant: usize,
    entries: usize,
    removals: u64,
}

fn see(kernel: &Kernel) -> Seen {
    Seen {
        models: models(kernel),
        firm: kernel.store().firm_ids().len() as u64,
        literals: literals(kernel),
        marked: marked(kernel),
        redundant: kernel.store().redundant_ids().len(),
        entries: kernel.stack().len(),
        removals: kernel.removals(),
    }
}

// Whether so many steps are few enough, where so many clauses were parked.
fn are_few(steps: u64, parked: u64, before: &Seen) -> bool {
    let more = before.firm.saturating_add(1);
    let divisor = before.literals.saturating_add(1).saturating_mul(more);
    let work = before
        .literals
        .saturating_mul(parked)
        .saturating_add(before.marked);
    steps < work.saturating_mul(more)
        && steps < divisor.saturating_mul(parked.saturating_add(1))
        && steps < divisor.saturating_mul(more)
}

// Whether the end fits: a fixpoint, or the limit, which was too small, with clauses parked for its steps.
fn ends_well(is_fixpoint: bool, limit: u64, report: PassReport, before: &Seen) -> bool {
    match report.ended {
        Ended::Fixpoint => is_fixpoint,
        Ended::Limit(steps) => steps == limit && are_few(steps, report.removed, before),
    }
}

// What came out of the runs.
#[derive(Drop)]
struct Tally {
    fixpoints: u64,
    limits: u64,
    removed: u64,
    kept: u64,
    wrong: u64,
}

// Whether what came out of a run fits what was there before.
fn fits(
    alloc: Global,
    kernel: &Kernel,
    frozen: &Frozen,
    limit: u64,
    report: PassReport,
    before: &Seen,
) -> Result<bool, Fail> {
    let after = see(kernel);
    let is_fixpoint = is_fixpoint(alloc, kernel, frozen)?;
    Ok(
        ends_well(is_fixpoint, limit, report, before)
            && before.models == after.models
            && before.redundant == after.redundant
            && before.firm == after.firm.saturating_add(report.removed)
            && after.entries.saturating_sub(before.entries) as u64 == report.removed
            && are_single(kernel, frozen, before.entries)
            && before.removals.saturating_add(report.removed) == after.removals,
    )
}

// Whether a run after one that ended at a fixpoint takes no step.
fn is_idle(kernel: &mut Kernel, frozen: &Frozen, report: PassReport) -> Result<bool, Fail> {
    if report.ended != Ended::Fixpoint {
        return Ok(true);
    }
    let again = run(kernel, frozen, 0)?;
    Ok(again.removed == 0 && again.ended == Ended::Fixpoint)
}

// Counts a run.
fn count(tally: &mut Tally, report: PassReport, firm: usize, fits: bool) {
    if !fits {
        tally.wrong = tally.wrong.saturating_add(1);
    }
    match report.ended {
        Ended::Fixpoint => {
            tally.fixpoints = tally.fixpoints.saturating_add(1);
            tally.kept = tally.kept.saturating_add(firm as u64);
        }
        Ended::Limit(_) => tally.limits = tally.limits.saturating_add(1),
    }
    tally.removed = tally.removed.saturating_add(report.removed);
}

// Adds clauses that are drawn, runs the pass and compares.
fn compare(
    alloc: Global,
    draw: &mut Draw,
    kernel: &mut Kernel,
    frozen: &Frozen,
    limit: u64,
    tally: &mut Tally,
) -> Result<(), Fail> {
    draw_clauses(alloc, draw, kernel)?;
    let before = see(kernel);
    let report = run(kernel, frozen, limit)?;
    let fits = fits(alloc, kernel, frozen, limit, report, &before)?;
    let is_idle = is_idle(kernel, frozen, report)?;
    count(
        tally,
        report,
        kernel.store().firm_ids().len(),
        fits && is_idle,
    );
    Ok(())
}

// Draws a kernel, and a frozen variable every other time, and runs the pass with no step, a small
// limit and an ample one, with more clauses each time.
fn compare_drawn(
    alloc: Global,
    seed: u64,
    kernel: &mut Kernel,
    frozen: &mut Frozen,
    tally: &mut Tally,
) -> Result<(), Fail> {
    let mut draw = Draw { state: seed };
    draw_frozen(&mut draw, frozen)?;
    compare(alloc, &mut draw, kernel, frozen, 0, tally)?;
    let few = draw.below(40) as u64;
    compare(alloc, &mut draw, kernel, frozen, few, tally)?;
    compare(alloc, &mut draw, kernel, frozen, 1000, tally)
}

// Compares one kernel that is drawn.
fn compare_one(alloc: Global, seed: u64, tally: &mut Tally) -> Result<(), Fail> {
    let mut kernel = Kernel::new(alloc);
    let mut frozen = Frozen::new(alloc);
    compare_drawn(alloc, seed, &mut kernel, &mut frozen, tally)
}

// Compares all kernels that are drawn.
fn compare_all(alloc: Global, tally: &mut Tally) -> Result<(), Fail> {
    for seed in 0..KERNELS {
        compare_one(alloc, seed, tally)?;
    }
    Ok(())
}

// Whether nothing was wrong, and enough runs ended each way.
fn is_enough(tally: &Tally) -> bool {
    tally.wrong == 0
        && tally.fixpoints > 400
        && tally.limits > 200
        && tally.removed > 1000
        && tally.kept > 400
}

#[test]
fn drawn_kernels(rt: HostRuntime) -> Result<(), Fail> {
    // Models stay, ends are what they say, and a run after a fixpoint takes no step.
    let mut tally = Tally {
        fixpoints: 0,
        limits: 0,
        removed: 0,
        kept: 0,
        wrong: 0,
    };
    compare_all(rt.alloc(), &mut tally)?;
    assert!(rt; is_enough(&tally));
    Ok(())
}

// Runs the pass with a variable frozen, without a step; then with none, with one step; and then again without a step. Answers whether the
// clause of that variable stayed, went, and nothing was left.
fn thaw(alloc: Global, kernel: &mut Kernel) -> Result<bool, Fail> {
    add_numbers(alloc, kernel, &[5])?;
    let mut frozen = Frozen::new(alloc);
    freeze(&mut frozen, &[5])?;
    let first = run(kernel, &frozen, 0)?;
    frozen.clear();
    let second = run(kernel, &frozen, 1)?;
    let third = run(kernel, &frozen, 0)?;
    let nothing = PassReport {
        removed: 0,
        ended: Ended::Fixpoint,
    };
    let one = PassReport {
        removed: 1,
        ended: Ended::Fixpoint,
    };
    Ok(first == nothing && second == one && third == nothing)
}

#[test]
fn a_thawed_variable(rt: HostRuntime) -> Result<(), Fail> {
    // A literal that is frozen keeps its mark.
    let mut kernel = Kernel::new(rt.alloc());
    assert!(rt; thaw(rt.alloc(), &mut kernel)?);
    Ok(())
}

// The literal of a number, true.
fn nth(number: u32) -> Result<Lit, Fail> {
    Ok(Var::new(number).ok_or("no variable")?.positive())
}

// Adds what one literal implying another says.
fn add_link(alloc: Global, kernel: &mut Kernel, from: Lit, to: Lit) -> Result<(), Fail> {
    let link = [from.neg(), to];
    add(alloc, kernel, &link)
}

// Adds a chain of implications over the first 300 variables.
fn add_chain(alloc: Global, kernel: &mut Kernel) -> Result<(), Fail> {
    for number in 1..300u32 {
        add_link(alloc, kernel, nth(number)?, nth(number.saturating_add(1))?)?;
    }
    Ok(())
}

// Adds the clause of the first 600 variables.
fn add_long(alloc: Global, kernel: &mut Kernel) -> Result<(), Fail> {
    let mut all = Vec::new(alloc);
    for number in 1..=600u32 {
        all.push(nth(number)?)?;
    }
    add(alloc, kernel, all.as_slice())
}

// Runs the pass with no variable frozen.
fn run_free(alloc: Global, kernel: &mut Kernel) -> Result<PassReport, Fail> {
    let frozen = Frozen::new(alloc);
    Ok(run(kernel, &frozen, 1_000_000)?)
}

// Whether the pass parks all of a chain and a long clause.
fn all_go(alloc: Global, kernel: &mut Kernel) -> Result<bool, Fail> {
    add_chain(alloc, kernel)?;
    add_long(alloc, kernel)?;
    let report = run_free(alloc, kernel)?;
    Ok(
        report.ended == Ended::Fixpoint
            && report.removed == 300
            && kernel.store().firm_ids().len() == 0
            && kernel.stack().len() == 300,
    )
}

#[test]
fn a_long_chain(rt: HostRuntime) -> Result<(), Fail> {
    // The clauses of a chain go from its end, and a clause of 600 literals with them.
    let mut kernel = Kernel::new(rt.alloc());
    assert!(rt; all_go(rt.alloc(), &mut kernel)?);
    Ok(())
}
