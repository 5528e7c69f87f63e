//! What the pass does to small kernels, as text; some hundred kernels that are drawn from a seed,
//! against the rule as its definition says it; and long clauses over many variables, which are
//! above every buffer.
ghost use Rattle.std.specs.Prelude.{◌<◌};

use crate::pass::run;
use normal_form::forms::normal_form;
use rule_kernel::frozen::Frozen;
use rule_kernel::kernel::Kernel;
use rule_kernel::report::{Ended, PassReport};
use sat_model::lists::ClauseId;
use sat_model::literal::{Lit, Var};
use sat_model::truth::clause_true;
use std::alloc::Global;
use std::test::Fail;

// A literal of a number.
fn lit(number: i32) -> Result<Lit, Fail> {
    Ok(Lit::new(number).ok_or("no literal")?)
}

// Adds the normal form of a clause, if it has one and is clean.
fn add(alloc: Global, kernel: &mut Kernel, lits: &[Lit]) -> Result<(), Fail> {
    if let Some(form) = normal_form(alloc, lits)? {
        if kernel.is_clean(form.as_slice()) {
            kernel.add(form.as_slice())?;
        }
    }
    Ok(())
}

// The clause of some numbers.
fn clause_of(alloc: Global, numbers: &[i32]) -> Result<Vec<Lit>, Fail> {
    let mut lits = Vec::new(alloc);
    for number in numbers {
        lits.push(lit(*number)?)?;
    }
    Ok(lits)
}

// Adds the clause of some numbers.
fn add_numbers(alloc: Global, kernel: &mut Kernel, numbers: &[i32]) -> Result<(), Fail> {
    let lits = clause_of(alloc, numbers)?;
    add(alloc, kernel, lits.as_slice())
}

// Learns the normal form of a clause.
fn learn(alloc: Global, kernel: &mut Kernel, lits: &[Lit]) -> Result<(), Fail> {
    if let Some(form) = normal_form(alloc, lits)? {
        kernel.learn(form.as_slice(), 1)?;
    }
    Ok(())
}

// Writes a clause in brackets.
fn write_clause(alloc: Global, text: &mut String, lits: &[Lit]) -> Result<(), Fail> {
    text.push_str("[")?;
    for lit in lits {
        let word = format!(in alloc; " {}", lit.number())?;
        text.push_str(word.as_str())?;
    }
    text.push_str(" ]")?;
    Ok(())
}

// Writes the firm clauses.
fn write_firm(alloc: Global, text: &mut String, kernel: &Kernel) -> Result<(), Fail> {
    for id in kernel.store().firm_ids() {
        write_clause(alloc, text, kernel.store().get(*id))?;
    }
    Ok(())
}

// Runs the pass with no variable frozen.
fn run_free(alloc: Global, kernel: &mut Kernel, limit: u64) -> Result<PassReport, Fail> {
    let frozen = Frozen::new(alloc);
    Ok(run(kernel, &frozen, limit)?)
}

// A kernel, with a learned clause, and what the pass makes of it.
#[derive(Drop)]
struct Row {
    clauses: &'static [&'static [i32]],
    learned: &'static [i32],
    limit: u64,
    text: &'static str,
    removed: u64,
    ended: Ended,
}

const ROWS: &[Row] = &[
    // Where 1 is false, 2 is true, and so is 3: 4 is not needed.
    Row {
        clauses: &[&[1, 2], &[1, 3, 4], &[-2, 3]],
        learned: &[5],
        limit: 1000,
        text: "[ 1 2 ][ 1 3 ][ -2 3 ]",
        removed: 1,
        ended: Ended::Fixpoint,
    },
    // Where 1 is false, 2 is false already, and is left out.
    Row {
        clauses: &[&[1, 2, 3], &[1, -2], &[4, 5]],
        learned: &[5],
        limit: 1000,
        text: "[ 1 3 ][ 1 -2 ][ 4 5 ]",
        removed: 1,
        ended: Ended::Fixpoint,
    },
    // Where 1 and 2 are false, a clause is false: 3 is not needed. Then 2 is true where 1 is
    // false.
    Row {
        clauses: &[&[1, 2, 3], &[1, 2, 4], &[1, 2, -4]],
        learned: &[5],
        limit: 1000,
        text: "[ 1 2 ][ 1 2 ][ 1 2 ]",
        removed: 3,
        ended: Ended::Fixpoint,
    },
    // A learned clause would let 2 go, and is not used.
    Row {
        clauses: &[&[1, 2, 3]],
        learned: &[1, -2],
        limit: 1000,
        text: "[ 1 2 3 ]",
        removed: 0,
        ended: Ended::Fixpoint,
    },
    // Nothing is propagated before the first literal is assumed.
    Row {
        clauses: &[&[1, 2], &[-1, 2]],
        learned: &[5],
        limit: 1000,
        text: "[ 1 2 ][ -1 2 ]",
        removed: 0,
        ended: Ended::Fixpoint,
    },
    // No step is left.
    Row {
        clauses: &[&[1, 2], &[-1, 2]],
        learned: &[5],
        limit: 0,
        text: "[ 1 2 ][ -1 2 ]",
        removed: 0,
        ended: Ended::Limit(0),
    },
    // Where an empty clause is firm, nothing changes.
    Row {
        clauses: &[&[], &[1, 2], &[1, 3, 4], &[-2, 3]],
        learned: &[5],
        limit: 0,
        text: "[ ][ 1 2 ][ 1 3 4 ][ -2 3 ]",
        removed: 0,
        ended: Ended::Fixpoint,
    },
];

// Makes the kernel of a row, runs the pass, and writes the firm clauses.
fn run_row(
    alloc: Global,
    kernel: &mut Kernel,
    row: &Row,
    text: &mut String,
) -> Result<PassReport, Fail> {
    for numbers in row.clauses {
        add_numbers(alloc, kernel, *numbers)?;
    }
    let learned = clause_of(alloc, row.learned)?;
    learn(alloc, kernel, learned.as_slice())?;
    let report = run_free(alloc, kernel, row.limit)?;
    write_firm(alloc, text, kernel)?;
    Ok(report)
}

// Whether the pass makes of the kernel of a row what the row says.
fn is_right(alloc: Global, row: &Row) -> Result<bool, Fail> {
    let mut kernel = Kernel::new(alloc);
    let mut text = String::new(alloc);
    let report = run_row(alloc, &mut kernel, row, &mut text)?;
    Ok(text.as_str() == row.text && report.removed == row.removed && report.ended == row.ended)
}

// How many rows come out right before one does not.
fn right_rows(alloc: Global) -> Result<usize, Fail> {
    let mut count: usize = 0;
    for row in ROWS {
        if !is_right(alloc, row)? {
            return Ok(count);
        }
        count = count.saturating_add(1);
    }
    Ok(count)
}

#[test]
fn small_kernels(rt: HostRuntime) -> Result<(), Fail> {
    assert_eq!(rt; right_rows(rt.alloc())?, ROWS.len());
    Ok(())
}

// How many variables a drawn kernel has, and how many kernels there are.
const VARS: u32 = 5;

const KERNELS: u64 = 200;

// Numbers that are drawn one after another (Knuth's linear congruential generator).
#[derive(Drop)]
struct Draw {
    state: u64,
}

impl Draw {
    // A number below a bound.
    fn below(&mut self, bound: u32) -> u32
        requires { 0 < bound }
        ensures { result < bound }
    {
        self.state = self
            .state
            .wrapping_mul(6_364_136_223_846_793_005)
            .wrapping_add(1_442_695_040_888_963_407);
        let high = (self.state / 8_589_934_592) as u32;
        high % bound
    }

    // A literal.
    fn literal(&mut self) -> Result<Lit, Fail> {
        let var = Var::new(self.below(VARS).saturating_add(1)).ok_or("no variable")?;
        let is_positive = self.below(2) == 0;
        Ok(if is_positive {
            var.positive()
        } else {
            var.negative()
        })
    }
}

// Adds a clause of up to four literals that are drawn.
fn draw_clause(alloc: Global, draw: &mut Draw, kernel: &mut Kernel) -> Result<(), Fail> {
    let lits = [
        draw.literal()?,
        draw.literal()?,
        draw.literal()?,
        draw.literal()?,
    ];
    let len = draw.below(4) as usize + 1;
    add(alloc, kernel, &lits[..len])
}

// Adds some clauses that are drawn, and learns one of one literal.
fn draw_clauses(alloc: Global, draw: &mut Draw, kernel: &mut Kernel) -> Result<(), Fail> {
    for _ in 0..draw.below(8) {
        draw_clause(alloc, draw, kernel)?;
    }
    let lit = draw.literal()?;
    learn(alloc, kernel, &[lit])
}

// Whether the values that the bits of a number give to the variables make the firm clauses true.
fn is_model(kernel: &Kernel, bits: u32) -> bool {
    let model = [
        bits % 2 == 1,
        bits / 2 % 2 == 1,
        bits / 4 % 2 == 1,
        bits / 8 % 2 == 1,
        bits / 16 % 2 == 1,
    ];
    for id in kernel.store().firm_ids() {
        if !clause_true(&model, kernel.store().get(*id)) {
            return false;
        }
    }
    true
}

// The assignments that make the firm clauses true, a bit for each.
fn models(kernel: &Kernel) -> u32 {
    let mut all: u32 = 0;
    for bits in 0..32 {
        let bit = if is_model(kernel, bits) { 1 } else { 0 };
        all = all.wrapping_mul(2).wrapping_add(bit);
    }
    all
}

// A set of literals of the drawn variables: a place for each literal's code, which is below 12.
type Lits = [bool; 12];

// Whether a literal is in a set.
fn has(set: &Lits, lit: Lit) -> bool {
    let at = lit.code() as usize;
    at < set.len() && set[at]
}

// Puts a literal into a set.
fn put(set: &mut Lits, lit: Lit) {
    let at = lit.code() as usize;
    if at < set.len() {
        set[at] = true;
    }
}

// Whether one of some literals is in a set.
fn has_one(set: &Lits, lits: &[Lit]) -> bool {
    for lit in lits {
        if has(set, *lit) {
            return true;
        }
    }
    false
}

// How many of a clause's literals are not false where those of a set are true.
fn open_count(on: &Lits, lits: &[Lit]) -> u32 {
    let mut open: u32 = 0;
    for lit in lits {
        if has(on, lit.neg()) {
            continue;
        }
        open = open.saturating_add(1);
    }
    open
}

// Makes the last literal of a clause true whose other literals are false.
fn follow(on: &mut Lits, lits: &[Lit]) {
    if open_count(on, lits) != 1 {
        return;
    }
    for lit in lits {
        if has(on, lit.neg()) {
            continue;
        }
        put(on, *lit);
    }
}

// Makes true what follows from one firm clause after the other, but that of an id.
fn follow_all(kernel: &Kernel, id: ClauseId, on: &mut Lits) {
    for other in kernel.store().firm_ids() {
        if *other == id {
            continue;
        }
        follow(on, kernel.store().get(*other));
    }
}

// Makes true what unit propagation makes true: one round for each literal is enough.
fn propagate(kernel: &Kernel, id: ClauseId, on: &mut Lits) {
    for _ in 0..2 * VARS {
        follow_all(kernel, id, on);
    }
}

// Whether a firm clause but that of an id is false.
fn fails(kernel: &Kernel, id: ClauseId, on: &Lits) -> bool {
    for other in kernel.store().firm_ids() {
        if *other != id && open_count(on, kernel.store().get(*other)) == 0 {
            return true;
        }
    }
    false
}

// How many literals the rule makes of a clause.
fn length_made(kernel: &Kernel, id: ClauseId, lits: &[Lit]) -> usize {
    let mut on = [false; 12];
    let mut assumed: usize = 0;
    for lit in lits {
        if has(&on, lit.neg()) {
            continue;
        }
        put(&mut on, lit.neg());
        propagate(kernel, id, &mut on);
        assumed = assumed.saturating_add(1);
        if fails(kernel, id, &on) {
            return assumed;
        }
        if has_one(&on, lits) {
            return assumed.saturating_add(1);
        }
    }
    assumed
}

// Whether the rule shortens no firm clause.
fn is_fixpoint(kernel: &Kernel) -> bool {
    for id in kernel.store().firm_ids() {
        let lits = kernel.store().get(*id);
        if length_made(kernel, *id, lits) < lits.len() {
            return false;
        }
    }
    true
}

// How many literals the firm clauses have.
fn literals(kernel: &Kernel) -> u64 {
    let mut sum: u64 = 0;
    for id in kernel.store().firm_ids() {
        sum = sum.saturating_add(kernel.store().get(*id).len() as u64);
    }
    sum
}

// What of a kernel is compared before and after the pass.
#[derive(Drop)]
struct Seen {
    models: u32,
    literals: u64,
    redundant: usize,
    entries: usize,
    removals: u64,
}

fn see(kernel: &Kernel) -> Seen {
    Seen {
        models: models(kernel),
        literals: literals(kernel),
        redundant: kernel.store().redundant_ids().len(),
        entries: kernel.stack().len(),
        removals: kernel.removals(),
    }
}

// Whether the end fits: a fixpoint, or the limit, which was too small, with literals gone for its
// steps.
fn ends_well(
    is_fixpoint: bool,
    limit: u64,
    report: PassReport,
    before: &Seen,
    after: &Seen,
) -> bool {
    let divisor = before.literals;
    let gone = before.literals.saturating_sub(after.literals);
    match report.ended {
        Ended::Fixpoint => is_fixpoint,
        Ended::Limit(steps) => {
            steps == limit
                && divisor > 0
                && gone.saturating_mul(divisor).saturating_add(divisor) > steps
                && limit < divisor.saturating_mul(divisor.saturating_add(1))
        }
    }
}

// What came out of the runs.
#[derive(Drop)]
struct Tally {
    fixpoints: u64,
    limits: u64,
    removed: u64,
    wrong: u64,
}

// Whether what came out of a run fits what was there before.
fn fits(kernel: &Kernel, limit: u64, report: PassReport, before: &Seen) -> bool {
    let after = see(kernel);
    ends_well(is_fixpoint(kernel), limit, report, before, &after)
        && before.models == after.models
        && before.redundant == after.redundant
        && before.entries == after.entries
        && before.removals.saturating_add(report.removed) == after.removals
}

// Counts a run.
fn count(tally: &mut Tally, report: PassReport, fits: bool) {
    if !fits {
        tally.wrong = tally.wrong.saturating_add(1);
    }
    match report.ended {
        Ended::Fixpoint => tally.fixpoints = tally.fixpoints.saturating_add(1),
        Ended::Limit(_) => tally.limits = tally.limits.saturating_add(1),
    }
    tally.removed = tally.removed.saturating_add(report.removed);
}

// Adds clauses that are drawn, runs the pass and compares.
fn compare(
    alloc: Global,
    draw: &mut Draw,
    kernel: &mut Kernel,
    limit: u64,
    tally: &mut Tally,
) -> Result<(), Fail> {
    draw_clauses(alloc, draw, kernel)?;
    let before = see(kernel);
    let report = run_free(alloc, kernel, limit)?;
    let fits = fits(kernel, limit, report, &before);
    count(tally, report, fits);
    Ok(())
}

// Draws a kernel with a learned clause, and runs the pass with no step, a small limit and an
// ample one, with more clauses each time.
fn compare_drawn(
    alloc: Global,
    seed: u64,
    kernel: &mut Kernel,
    tally: &mut Tally,
) -> Result<(), Fail> {
    let mut draw = Draw { state: seed };
    compare(alloc, &mut draw, kernel, 0, tally)?;
    let few = draw.below(40) as u64;
    compare(alloc, &mut draw, kernel, few, tally)?;
    compare(alloc, &mut draw, kernel, 1000, tally)
}

// Compares all kernels that are drawn.
fn compare_all(alloc: Global, tally: &mut Tally) -> Result<(), Fail> {
    for seed in 0..KERNELS {
        let mut kernel = Kernel::new(alloc);
        compare_drawn(alloc, seed, &mut kernel, tally)?;
    }
    Ok(())
}

// Whether nothing was wrong, and enough runs ended each way.
fn is_enough(tally: &Tally) -> bool {
    tally.wrong == 0 && tally.fixpoints > 200 && tally.limits > 150 && tally.removed > 150
}

#[test]
fn drawn_kernels(rt: HostRuntime) -> Result<(), Fail> {
    let mut tally = Tally {
        fixpoints: 0,
        limits: 0,
        removed: 0,
        wrong: 0,
    };
    compare_all(rt.alloc(), &mut tally)?;
    assert!(rt; is_enough(&tally));
    Ok(())
}

// The literal of a number, true.
fn nth(number: u32) -> Result<Lit, Fail> {
    Ok(Var::new(number).ok_or("no variable")?.positive())
}

// Adds the clause of the first 300 variables.
fn add_long(alloc: Global, kernel: &mut Kernel) -> Result<(), Fail> {
    let mut all = Vec::new(alloc);
    for number in 1..=300u32 {
        all.push(nth(number)?)?;
    }
    add(alloc, kernel, all.as_slice())
}

// Adds a chain of clauses by which 30 is true where 1 is false.
fn add_chain(alloc: Global, kernel: &mut Kernel) -> Result<(), Fail> {
    let first = [nth(1)?, nth(301)?];
    add(alloc, kernel, &first)?;
    for number in 301..330u32 {
        let link = [nth(number)?.neg(), nth(number.saturating_add(1))?];
        add(alloc, kernel, &link)?;
    }
    let last = [nth(330)?.neg(), nth(30)?];
    add(alloc, kernel, &last)
}

// In how many clauses the literal of a number stands.
fn uses(kernel: &Kernel, number: u32) -> Result<usize, Fail> {
    Ok(kernel.store().occ(nth(number)?).len())
}

// Whether the pass leaves two literals of the long clause, 1 and 30.
fn is_shortened(alloc: Global, kernel: &mut Kernel) -> Result<bool, Fail> {
    add_long(alloc, kernel)?;
    add_chain(alloc, kernel)?;
    let report = run_free(alloc, kernel, 1_000_000)?;
    let stay = uses(kernel, 30)?;
    let gone = uses(kernel, 2)?;
    Ok(report.ended == Ended::Fixpoint && report.removed == 1 && stay == 2 && gone == 0)
}

#[test]
fn a_long_clause(rt: HostRuntime) -> Result<(), Fail> {
    let mut kernel = Kernel::new(rt.alloc());
    assert!(rt; is_shortened(rt.alloc(), &mut kernel)?);
    Ok(())
}
