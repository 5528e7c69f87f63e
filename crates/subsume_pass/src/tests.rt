//! What the pass does to small kernels, as text; some hundred kernels that are drawn from a seed, against the definitions of the rule, with
//! more clauses each time; and many long clauses, of which only those that wait are compared.
ghost use Rattle.std.specs.Prelude.{◌<◌};

use crate::pass::run;
use normal_form::forms::normal_form;
use rule_kernel::frozen::Frozen;
use rule_kernel::kernel::Kernel;
use rule_kernel::report::{Ended, PassReport};
use sat_model::lists::ClauseId;
use sat_model::literal::{Lit, Var};
use sat_model::truth::clause_true;
use std::alloc::Global;
use std::test::Fail;

// A literal of a number.
fn lit(number: i32) -> Result<Lit, Fail> {
    Ok(Lit::new(number).ok_or("no literal")?)
}

// Adds the normal form of a clause, if it has one and is clean.
fn add(alloc: Global, kernel: &mut Kernel, lits: &[Lit]) -> Result<(), Fail> {
    if let Some(form) = normal_form(alloc, lits)? {
        if kernel.is_clean(form.as_slice()) {
            kernel.add(form.as_slice())?;
        }
    }
    Ok(())
}

// The clause of some numbers.
fn clause_of(alloc: Global, numbers: &[i32]) -> Result<Vec<Lit>, Fail> {
    let mut lits = Vec::new(alloc);
    for number in numbers {
        lits.push(lit(*number)?)?;
    }
    Ok(lits)
}

// Adds the clause of some numbers.
fn add_numbers(alloc: Global, kernel: &mut Kernel, numbers: &[i32]) -> Result<(), Fail> {
    let lits = clause_of(alloc, numbers)?;
    add(alloc, kernel, lits.as_slice())
}

// Learns the normal form of a clause.
fn learn(alloc: Global, kernel: &mut Kernel, lits: &[Lit]) -> Result<(), Fail> {
    if let Some(form) = normal_form(alloc, lits)? {
        kernel.learn(form.as_slice(), 1)?;
    }
    Ok(())
}

// Writes a clause in brackets.
fn write_clause(alloc: Global, text: &mut String, lits: &[Lit]) -> Result<(), Fail> {
    text.push_str("[")?;
    for lit in lits {
        let word = format!(in alloc; " {}", lit.number())?;
        text.push_str(word.as_str())?;
    }
    text.push_str(" ]")?;
    Ok(())
}

// Writes the firm clauses.
fn write_firm(alloc: Global, text: &mut String, kernel: &Kernel) -> Result<(), Fail> {
    for id in kernel.store().firm_ids() {
        write_clause(alloc, text, kernel.store().get(*id))?;
    }
    Ok(())
}

// Runs the pass with no variable frozen.
fn run_free(alloc: Global, kernel: &mut Kernel, limit: u64) -> Result<PassReport, Fail> {
    let frozen = Frozen::new(alloc);
    Ok(run(kernel, &frozen, limit)?)
}

// A kernel, with a learned clause, and what the pass makes of it.
#[derive(Drop)]
struct Row {
    clauses: &'static [&'static [i32]],
    learned: &'static [i32],
    limit: u64,
    text: &'static str,
    removed: u64,
    ended: Ended,
}

const ROWS: &[Row] = &[
    // A clause that holds all of another one goes.
    Row {
        clauses: &[&[1, 2], &[1, 2, 3]],
        learned: &[5],
        limit: 1000,
        text: "[ 1 2 ]",
        removed: 1,
        ended: Ended::Fixpoint,
    },
    // Of two equal clauses one goes.
    Row {
        clauses: &[&[1, 2], &[1, 2]],
        learned: &[5],
        limit: 1000,
        text: "[ 1 2 ]",
        removed: 1,
        ended: Ended::Fixpoint,
    },
    // No step is left.
    Row {
        clauses: &[&[1, 2], &[-1, 2]],
        learned: &[5],
        limit: 0,
        text: "[ 1 2 ][ -1 2 ]",
        removed: 0,
        ended: Ended::Limit(0),
    },
    // Both resolve to 2.
    Row {
        clauses: &[&[1, 2], &[-1, 2]],
        learned: &[5],
        limit: 1000,
        text: "[ 2 ]",
        removed: 2,
        ended: Ended::Fixpoint,
    },
    // A longer clause loses a literal, a shorter one does not.
    Row {
        clauses: &[&[1, 2], &[1, -2, 4]],
        learned: &[5],
        limit: 1000,
        text: "[ 1 2 ][ 1 4 ]",
        removed: 1,
        ended: Ended::Fixpoint,
    },
    // Two literals are negated: nothing follows.
    Row {
        clauses: &[&[1, 2], &[-1, -2, 3]],
        learned: &[5],
        limit: 1000,
        text: "[ 1 2 ][ -1 -2 3 ]",
        removed: 0,
        ended: Ended::Fixpoint,
    },
    // A learned clause drops nothing, and is not dropped.
    Row {
        clauses: &[&[1, 2, 3]],
        learned: &[1],
        limit: 1000,
        text: "[ 1 2 3 ]",
        removed: 0,
        ended: Ended::Fixpoint,
    },
    // Where an empty clause is firm, nothing changes.
    Row {
        clauses: &[&[], &[1, 2], &[1, 2, 3]],
        learned: &[5],
        limit: 0,
        text: "[ ][ 1 2 ][ 1 2 3 ]",
        removed: 0,
        ended: Ended::Fixpoint,
    },
];

// Makes the kernel of a row, runs the pass, and writes the firm clauses.
fn run_row(
    alloc: Global,
    kernel: &mut Kernel,
    row: &Row,
    text: &mut String,
) -> Result<PassReport, Fail> {
    for numbers in row.clauses {
        add_numbers(alloc, kernel, *numbers)?;
    }
    let learned = clause_of(alloc, row.learned)?;
    learn(alloc, kernel, learned.as_slice())?;
    let report = run_free(alloc, kernel, row.limit)?;
    write_firm(alloc, text, kernel)?;
    Ok(report)
}

// Whether the pass makes of the kernel of a row what the row says. Where it ended by itself, a second run needs no step.
fn is_right(alloc: Global, row: &Row) -> Result<bool, Fail> {
    let mut kernel = Kernel::new(alloc);
    let mut text = String::new(alloc);
    let report = run_row(alloc, &mut kernel, row, &mut text)?;
    let again = run_free(alloc, &mut kernel, 0)?;
    Ok(
        text.as_str() == row.text
            && report.removed == row.removed
            && report.ended == row.ended
            && again.removed == 0
            && again.ended == row.ended,
    )
}

// How many rows come out right before one does not.
fn right_rows(alloc: Global) -> Result<usize, Fail> {
    let mut count: usize = 0;
    for row in ROWS {
        if !is_right(alloc, row)? {
            return Ok(count);
        }
        count = count.saturating_add(1);
    }
    Ok(count)
}

#[test]
fn small_kernels(rt: HostRuntime) -> Result<(), Fail> {
    assert_eq!(rt; right_rows(rt.alloc())?, ROWS.len());
    Ok(())
}

// How many variables a drawn kernel has, and how many kernels there are.
const VARS: u32 = 5;

const KERNELS: u64 = 200;

// Numbers that are drawn one after another (Knuth's linear congruential generator).
#[derive(Drop)]
struct Draw {
    state: u64,
}

impl Draw {
    // A number below a bound.
    fn below(&mut self, bound: u32) -> u32
        requires { 0 < bound }
        ensures { result < bound }
    {
        self.state = self
            .state
            .wrapping_mul(6_364_136_223_846_793_005)
            .wrapping_add(1_442_695_040_888_963_407);
        let high = (self.state / 8_589_934_592) as u32;
        high % bound
    }

    // A literal.
    fn literal(&mut self) -> Result<Lit, Fail> {
        let var = Var::new(self.below(VARS).saturating_add(1)).ok_or("no variable")?;
        let is_positive = self.below(2) == 0;
        Ok(if is_positive {
            var.positive()
        } else {
            var.negative()
        })
    }
}

// Adds a clause of up to four literals that are drawn.
fn draw_clause(alloc: Global, draw: &mut Draw, kernel: &mut Kernel) -> Result<(), Fail> {
    let lits = [
        draw.literal()?,
        draw.literal()?,
        draw.literal()?,
        draw.literal()?,
    ];
    let len = draw.below(4) as usize + 1;
    add(alloc, kernel, &lits[..len])
}

// Adds some clauses that are drawn, and learns one of one literal.
fn draw_clauses(alloc: Global, draw: &mut Draw, kernel: &mut Kernel) -> Result<(), Fail> {
    for _ in 0..draw.below(8) {
        draw_clause(alloc, draw, kernel)?;
    }
    let lit = draw.literal()?;
    learn(alloc, kernel, &[lit])
}

// Whether the values that the bits of a number give to the variables make the firm clauses true.
fn is_model(kernel: &Kernel, bits: u32) -> bool {
    let model = [
        bits % 2 == 1,
        bits / 2 % 2 == 1,
        bits / 4 % 2 == 1,
        bits / 8 % 2 == 1,
        bits / 16 % 2 == 1,
    ];
    for id in kernel.store().firm_ids() {
        if !clause_true(&model, kernel.store().get(*id)) {
            return false;
        }
    }
    true
}

// The assignments that make the firm clauses true, a bit for each.
fn models(kernel: &Kernel) -> u32 {
    let mut all: u32 = 0;
    for bits in 0..32 {
        let bit = if is_model(kernel, bits) { 1 } else { 0 };
        all = all.wrapping_mul(2).wrapping_add(bit);
    }
    all
}

// Whether a clause holds a literal.
fn holds(lits: &[Lit], lit: Lit) -> bool {
    for other in lits {
        if *other == lit {
            return true;
        }
    }
    false
}

// How many literals of a clause another one does not hold.
fn missing(c: &[Lit], d: &[Lit]) -> u32 {
    let mut count: u32 = 0;
    for lit in c {
        if holds(d, *lit) {
            continue;
        }
        count = count.saturating_add(1);
    }
    count
}

// Whether another clause holds the negation of a literal of a clause.
fn opposes(c: &[Lit], d: &[Lit]) -> bool {
    for lit in c {
        if holds(d, lit.neg()) {
            return true;
        }
    }
    false
}

// Whether a clause lies within another one, or shortens it: all of it but one literal stands there, and the negation of that one.
fn acts_on(c: &[Lit], d: &[Lit]) -> bool {
    let count = missing(c, d);
    count == 0 || count == 1 && opposes(c, d)
}

// Whether the clause of an id acts on no other firm one.
fn is_done(kernel: &Kernel, by: ClauseId, lits: &[Lit]) -> bool {
    for id in kernel.store().firm_ids() {
        if *id != by && acts_on(lits, kernel.store().get(*id)) {
            return false;
        }
    }
    true
}

// Whether an empty clause is firm.
fn is_refuted(kernel: &Kernel) -> bool {
    for id in kernel.store().firm_ids() {
        if kernel.store().get(*id).len() == 0 {
            return true;
        }
    }
    false
}

// Whether no firm clause acts on another one, and none waits; or an empty clause is firm.
fn is_fixpoint(kernel: &Kernel) -> bool {
    if is_refuted(kernel) {
        return true;
    }
    for id in kernel.store().firm_ids() {
        if !is_done(kernel, *id, kernel.store().get(*id)) {
            return false;
        }
    }
    kernel.due().len() == 0 && kernel.fresh().len() == 0
}

// How many firm clauses there are, and how many literals they have.
fn clauses(kernel: &Kernel) -> u64 {
    kernel.store().firm_ids().len() as u64
}

fn literals(kernel: &Kernel) -> u64 {
    let mut sum: u64 = 0;
    for id in kernel.store().firm_ids() {
        sum = sum.saturating_add(kernel.store().get(*id).len() as u64);
    }
    sum
}

// What of a kernel is compared before and after the pass.
#[derive(Drop)]
struct Seen {
    models: u32,
    clauses: u64,
    literals: u64,
    redundant: usize,
    entries: usize,
    removals: u64,
}

fn see(kernel: &Kernel) -> Seen {
    Seen {
        models: models(kernel),
        clauses: clauses(kernel),
        literals: literals(kernel),
        redundant: kernel.store().redundant_ids().len(),
        entries: kernel.stack().len(),
        removals: kernel.removals(),
    }
}

// The clauses and their literals together.
fn size(seen: &Seen) -> u64 {
    seen.clauses.saturating_add(seen.literals)
}

// Whether the end fits: a fixpoint, or the limit, which was too small, with clauses and literals gone for its steps.
fn ends_well(
    is_fixpoint: bool,
    limit: u64,
    report: PassReport,
    before: &Seen,
    after: &Seen,
) -> bool {
    let divisor = before.clauses.saturating_mul(before.clauses);
    let gone = size(before).saturating_sub(size(after));
    match report.ended {
        Ended::Fixpoint => is_fixpoint,
        Ended::Limit(steps) => {
            steps == limit
                && divisor > 0
                && gone.saturating_mul(divisor).saturating_add(divisor) > steps
                && limit < divisor.saturating_mul(size(before).saturating_add(1))
        }
    }
}

// What came out of the runs.
#[derive(Drop)]
struct Tally {
    fixpoints: u64,
    limits: u64,
    removed: u64,
    wrong: u64,
}

// Whether what came out of a run fits what was there before.
fn fits(kernel: &Kernel, limit: u64, report: PassReport, before: &Seen) -> bool {
    let after = see(kernel);
    ends_well(is_fixpoint(kernel), limit, report, before, &after)
        && before.models == after.models
        && before.redundant == after.redundant
        && before.entries == after.entries
        && before.removals.saturating_add(report.removed) == after.removals
}

// Counts a run.
fn count(tally: &mut Tally, report: PassReport, fits: bool) {
    if !fits {
        tally.wrong = tally.wrong.saturating_add(1);
    }
    match report.ended {
        Ended::Fixpoint => tally.fixpoints = tally.fixpoints.saturating_add(1),
        Ended::Limit(_) => tally.limits = tally.limits.saturating_add(1),
    }
    tally.removed = tally.removed.saturating_add(report.removed);
}

// Adds clauses that are drawn, runs the pass and compares.
fn compare(
    alloc: Global,
    draw: &mut Draw,
    kernel: &mut Kernel,
    limit: u64,
    tally: &mut Tally,
) -> Result<(), Fail> {
    draw_clauses(alloc, draw, kernel)?;
    let before = see(kernel);
    let report = run_free(alloc, kernel, limit)?;
    let fits = fits(kernel, limit, report, &before);
    count(tally, report, fits);
    Ok(())
}

// Draws a kernel with a learned clause, and runs the pass with no step, a small limit and an
// ample one, with more clauses each time.
fn compare_drawn(
    alloc: Global,
    seed: u64,
    kernel: &mut Kernel,
    tally: &mut Tally,
) -> Result<(), Fail> {
    let mut draw = Draw { state: seed };
    compare(alloc, &mut draw, kernel, 0, tally)?;
    let few = draw.below(40) as u64;
    compare(alloc, &mut draw, kernel, few, tally)?;
    compare(alloc, &mut draw, kernel, 1000, tally)
}

// Compares all kernels that are drawn.
fn compare_all(alloc: Global, tally: &mut Tally) -> Result<(), Fail> {
    for seed in 0..KERNELS {
        let mut kernel = Kernel::new(alloc);
        compare_drawn(alloc, seed, &mut kernel, tally)?;
    }
    Ok(())
}

// Whether nothing was wrong, and enough runs ended each way.
fn is_enough(tally: &Tally) -> bool {
    tally.wrong == 0 && tally.fixpoints > 300 && tally.limits > 100 && tally.removed > 300
}

#[test]
fn drawn_kernels(rt: HostRuntime) -> Result<(), Fail> {
    let mut tally = Tally {
        fixpoints: 0,
        limits: 0,
        removed: 0,
        wrong: 0,
    };
    compare_all(rt.alloc(), &mut tally)?;
    assert!(rt; is_enough(&tally));
    Ok(())
}

// The literal of a variable, true where a bit of a number is set.
fn signed(number: u32, bit: u32) -> Result<Lit, Fail> {
    let var = Var::new(number).ok_or("no variable")?;
    Ok(if bit == 1 {
        var.positive()
    } else {
        var.negative()
    })
}

// Adds the clause of the first eight variables with the signs of seven bits, and the last one such that the negative ones are even in
// number. Two such clauses differ in two signs, and neither acts on the other.
fn add_even(alloc: Global, kernel: &mut Kernel, bits: u32) -> Result<(), Fail> {
    let mut lits = Vec::new(alloc);
    let mut left = bits;
    let mut last: u32 = 1;
    for number in 1..8u32 {
        let bit = left % 2;
        lits.push(signed(number, bit)?)?;
        left /= 2;
        last = if bit == 1 { last } else { 1 - last % 2 };
    }
    lits.push(signed(8, last)?)?;
    add(alloc, kernel, lits.as_slice())
}

// Adds those of some numbers.
fn add_all_even(alloc: Global, kernel: &mut Kernel, first: u32, last: u32) -> Result<(), Fail> {
    for bits in first..last {
        add_even(alloc, kernel, bits)?;
    }
    Ok(())
}

// How the pass ends with 127 clauses, all of which wait, after 16 001 steps and with as many as it needs; and with one more, which alone
// waits, with a step for each other one in both ways.
fn ends(alloc: Global, kernel: &mut Kernel) -> Result<[Ended; 4], Fail> {
    add_all_even(alloc, kernel, 0, 127)?;
    let short = run_free(alloc, kernel, 16_001)?.ended;
    let whole = run_free(alloc, kernel, 16_002)?.ended;
    add_all_even(alloc, kernel, 127, 128)?;
    let small = run_free(alloc, kernel, 126)?.ended;
    let ample = run_free(alloc, kernel, 254)?.ended;
    Ok([short, whole, small, ample])
}

#[test]
fn only_what_waits_is_compared(rt: HostRuntime) -> Result<(), Fail> {
    let mut kernel = Kernel::new(rt.alloc());
    assert!(rt;
        ends(rt.alloc(), &mut kernel)?
            == [
                Ended::Limit(16_001),
                Ended::Fixpoint,
                Ended::Limit(126),
                Ended::Fixpoint,
            ]
    );
    Ok(())
}
