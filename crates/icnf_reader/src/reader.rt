//! The items of a source: its header, its clauses, its cardinalities, its queries, and its end.
//!
//! A reader keeps where in the grammar it stands (`Mode`), the literals of the statement that is open, and the number of all
//! literals so far. Each word has a meaning at that place (`meaning_of`): it leads on, adds a literal, ends the header or a
//! statement, or is wrong there. An item is given as soon as its last word was read, so a caller can answer a query before it
//! reads further.
//!
//! Which statements may follow is settled by the header (`Allowed`), and kept in each place behind it. So the meaning of a word
//! is a function of the place and the word alone, and a cardinality keeps its bound in the place where its literals are read:
//! the bound is no literal, and is not counted as one.
//!
//! What all calls together give is what the grammar says of the whole list of words. These laws are proved beside, over the
//! function that this reader computes word by word (`specs/Outcomes.antt`), and stand on the functions of grammar.rt.
ghost use Rattle.std.specs.Prelude.{◌≡◌, ◌+◌, ◌<◌, ◌≤◌, ◌⊎◌, if◌then◌else◌, min, pos, ℕ, List, Bool, true, false, [], length, IfOk, IsErrOf};
ghost use Rattle.std.specs.Str.{bytes_eq};
ghost use Rattle.std.specs.Io.KnownBytes.{IsAtEnd};
ghost use Rattle.sat_terms.specs.Limits.{max_var, max_number, max_literals};
ghost use Rattle.io_edge.specs.Causes.{Rose};
ghost use Rattle.icnf_reader.specs.Numbers.{plain_place};
ghost use Rattle.icnf_reader.specs.Grammar.{allowed_by, has_inc, has_cards};
ghost use Rattle.icnf_reader.specs.Outcomes.{doing, kind_place, vars_place, clauses_place, between_place, bound_place, in_statement, opened, resting, closed};
ghost use Rattle.icnf_reader.specs.ReadState.{Takes, ReadAnswers, ReadsOver, read_is_last, IsEndItem, IsHeaderItem, HasVars, HaveVars, HasBound, HaveBounds, IsNoCard, AreNoCards, GivesHeader, is_before_header, takes_cards, is_item_fault, at_start, given, lits_in, lits_of, end_answer};
ghost use Rattle.icnf_reader.specs.WordState.{word_fuel};

use crate::item::{Allowed, HeadKind, Header, Heads, Item, Stop, Why};
use crate::numbers::{LitWord, PlainWord, literal_word, plain_word};
use crate::words::{WordGot, WordReader};
use io_edge::outside::Source;
use sat_model::lists::Lits;
use sat_model::literal::{Lit, MAX_LITERALS, MAX_VAR};
use sat_model::memory::Memory;
use std::alloc::Global;
use std::marker::Model;
use std::mem;

// The header of iCNF.
const INC_HEADER: Header = Header {
    kind: HeadKind::Inc,
    vars: 0,
    clauses: 0,
};

// The greatest number of clauses that a header may declare, and the greatest bound of a cardinality: 2^62.
const MAX_NUMBER: u64 = 4_611_686_018_427_387_904;

// What may follow `p cnf`.
const CLAUSES_ALONE: Allowed = Allowed {
    queries: false,
    cards: false,
};

// Where in the grammar a reader stands.
#[derive(Clone, Copy, Debug, PartialEq, Eq)]
enum Mode {
    // before the first word, where these headers are in the grammar
    Start(Heads),
    // after `p`
    Kind(Heads),
    // after the kind of a header that declares numbers
    Vars(Heads, HeadKind),
    // and after the number of variables
    Clauses(Heads, HeadKind, u32),
    // between two statements, where these may follow
    Between(Allowed),
    // in a clause
    InClause(Allowed),
    // in a query
    InQuery(Allowed),
    // after `k`, where the bound of a cardinality stands
    Bound(Allowed),
    // in a cardinality, behind its bound
    InCard(Allowed, u64),
}

// What a word does where a reader stands.
#[derive(Clone, Copy, Debug, PartialEq, Eq)]
enum Meaning {
    // it leads to a place where no literal was read yet
    Enters(Mode),
    // it adds a literal to the open statement
    Adds(Lit),
    // it ends the open statement
    Closes,
    // it ends the header, which is this, and these statements may follow
    Heading(Header, Allowed),
    // it stands where no word of its kind may stand
    Wrong(Why),
}

/// Reads the items of a source. Contracts see its words, where in the grammar they stand, and whether it is done.
#[derive(Drop)]
pub struct Reader {
    // the allocator for the literals of statements
    alloc: Global,
    // the words still to come
    words: WordReader,
    // where in the grammar they stand
    mode: Mode,
    // the literals of the open statement
    lits: Lits,
    // how many literals all statements have so far, the open one too
    count: u64,
    // whether an end or a stop was answered
    done: bool,
}

impl Model for Reader {
    ghost use Rattle.icnf_reader.specs.ReadState.{ReadState, IsSound};

    ghost Value = { ReadState };

    ghost view = { λ s. record { words = s.words; point = record { mode = s.mode; lits = s.lits; count = s.count }; done = s.done } };

    ghost invariant = { λ s. IsSound s.words s.mode s.lits s.count s.done };
}

// What a word does where a reader stands.
fn meaning_of(mode: Mode, text: &[u8]) -> Meaning
    ensures { result ≡ doing mode text.now }
{
    match mode {
        Mode::Start(heads) => {
            if text == b"p".as_slice() {
                Meaning::Enters(Mode::Kind(heads))
            } else {
                Meaning::Wrong(Why::HeaderExpected)
            }
        }
        Mode::Kind(heads) => meaning_of_kind(heads, text),
        Mode::Vars(heads, kind) => meaning_of_vars(heads, kind, text),
        Mode::Clauses(heads, kind, vars) => meaning_of_clauses(heads, kind, vars, text),
        Mode::Between(allowed) => meaning_between(allowed, text),
        Mode::Bound(allowed) => meaning_of_bound(allowed, text),
        Mode::InClause(_) | Mode::InQuery(_) | Mode::InCard(_, _) => {
            meaning_inside(literal_word(text))
        }
    }
}

// What a word does after `p`.
fn meaning_of_kind(heads: Heads, text: &[u8]) -> Meaning
    ensures { result ≡ kind_place heads text.now }
{
    if text == b"cnf".as_slice() {
        Meaning::Enters(Mode::Vars(heads, HeadKind::Cnf))
    } else if takes_knf(heads) && text == b"knf".as_slice() {
        Meaning::Enters(Mode::Vars(heads, HeadKind::Knf))
    } else if takes_inc(heads) && text == b"inccnf".as_slice() {
        Meaning::Heading(INC_HEADER, allowed_under(heads, HeadKind::Inc))
    } else {
        Meaning::Wrong(Why::HeaderExpected)
    }
}

// Whether the header of iCNF is in the grammar.
fn takes_inc(heads: Heads) -> bool
    ensures { result ≡ has_inc heads }
{
    match heads {
        Heads::All | Heads::Clauses => true,
        Heads::CnfOnly => false,
    }
}

// Whether cardinalities are in the grammar, and their header.
fn takes_knf(heads: Heads) -> bool
    ensures { result ≡ has_cards heads }
{
    match heads {
        Heads::All => true,
        Heads::Clauses | Heads::CnfOnly => false,
    }
}

// The statements that may follow a header of this kind.
fn allowed_under(heads: Heads, kind: HeadKind) -> Allowed
    ensures { result ≡ allowed_by heads kind }
{
    match kind {
        HeadKind::Cnf => CLAUSES_ALONE,
        HeadKind::Knf => Allowed {
            queries: false,
            cards: takes_knf(heads),
        },
        HeadKind::Inc => Allowed {
            queries: true,
            cards: takes_knf(heads),
        },
    }
}

// What a word does after the kind of a header that declares numbers.
fn meaning_of_vars(heads: Heads, kind: HeadKind, text: &[u8]) -> Meaning
    ensures { result ≡ vars_place heads kind (plain_place max_var text.now) }
{
    match plain_word(text, MAX_VAR as u64) {
        PlainWord::Value(vars) => Meaning::Enters(Mode::Clauses(heads, kind, vars as u32)),
        PlainWord::Large => Meaning::Wrong(Why::OutOfRange),
        PlainWord::Other => Meaning::Wrong(Why::UnexpectedWord),
    }
}

// What a word does after the number of variables.
fn meaning_of_clauses(heads: Heads, kind: HeadKind, vars: u32, text: &[u8]) -> Meaning
    ensures { result ≡ clauses_place heads kind vars (plain_place max_number text.now) }
{
    match plain_word(text, MAX_NUMBER) {
        PlainWord::Value(clauses) => Meaning::Heading(
            Header {
                kind,
                vars,
                clauses,
            },
            allowed_under(heads, kind),
        ),
        PlainWord::Large => Meaning::Wrong(Why::OutOfRange),
        PlainWord::Other => Meaning::Wrong(Why::UnexpectedWord),
    }
}

// What a word does between two statements: it begins a query or a cardinality where these may follow, or a clause.
fn meaning_between(allowed: Allowed, text: &[u8]) -> Meaning
    ensures { result ≡ between_place allowed text.now }
{
    if allowed.queries && text == b"a".as_slice() {
        Meaning::Enters(Mode::InQuery(allowed))
    } else if allowed.cards && text == b"k".as_slice() {
        Meaning::Enters(Mode::Bound(allowed))
    } else {
        meaning_inside(literal_word(text))
    }
}

// What a word does after `k`.
fn meaning_of_bound(allowed: Allowed, text: &[u8]) -> Meaning
    ensures { result ≡ bound_place allowed (plain_place max_number text.now) }
{
    match plain_word(text, MAX_NUMBER) {
        PlainWord::Value(bound) => Meaning::Enters(Mode::InCard(allowed, bound)),
        PlainWord::Large => Meaning::Wrong(Why::OutOfRange),
        PlainWord::Other => Meaning::Wrong(Why::UnexpectedWord),
    }
}

// What a word does in a statement.
fn meaning_inside(word: LitWord) -> Meaning
    ensures { result ≡ in_statement word }
{
    match word {
        LitWord::Zero => Meaning::Closes,
        LitWord::Literal(lit) => Meaning::Adds(lit),
        LitWord::Large => Meaning::Wrong(Why::OutOfRange),
        LitWord::Other => Meaning::Wrong(Why::UnexpectedWord),
    }
}

// Where a literal leads: it opens a clause.
fn opened_mode(mode: Mode) -> Mode
    ensures { result ≡ opened mode }
{
    match mode {
        Mode::Between(allowed) => Mode::InClause(allowed),
        other => other,
    }
}

// Where the end of a statement leads.
fn resting_mode(mode: Mode) -> Mode
    ensures { result ≡ resting mode }
{
    match mode {
        Mode::Between(allowed)
        | Mode::InClause(allowed)
        | Mode::InQuery(allowed)
        | Mode::Bound(allowed)
        | Mode::InCard(allowed, _) => Mode::Between(allowed),
        _ => Mode::Between(CLAUSES_ALONE),
    }
}

// The item that ends where a reader stands.
fn closed_item(mode: Mode, lits: Lits) -> Item
    ensures { result ≡ closed mode lits }
{
    match mode {
        Mode::InQuery(_) => Item::Query(lits),
        Mode::InCard(_, bound) => Item::Card(bound, lits),
        _ => Item::Clause(lits),
    }
}

// The answer where no word is left and the last line has this number.
fn end_of(mode: Mode, last: u64) -> Result<Item, Stop>
    ensures { result ≡ end_answer mode last }
{
    match mode {
        Mode::Start(_) => Err(Stop::Bad(last, Why::HeaderExpected)),
        Mode::Between(_) => Ok(Item::End),
        _ => Err(Stop::Bad(last, Why::NotClosed)),
    }
}

impl Reader {
    /// A reader at line 1, of which nothing was asked yet, where these headers are in the grammar.
    pub fn new(alloc: Global, heads: Heads) -> Result<Reader, Memory>
        ensures { IfOk result (λ r. r ≡ at_start heads) }
    {
        let words = WordReader::new(alloc)?;
        Ok(Reader {
            alloc,
            words,
            mode: Mode::Start(heads),
            lits: Lits::new(alloc),
            count: 0,
            done: false,
        })
    }

    /// Whether `End` or a stop was answered.
    pub fn is_done(&self) -> bool
        ensures { result ≡ self.now.done }
    {
        self.done
    }

    // Takes the word that was read last, which stands on this line; answers the item that it closes.
    fn take_word(&mut self, line: u64) -> Result<Option<Item>, Stop>
        ensures words { self.new.words ≡ self.old.words }
        ensures takes { Takes line self.old.words.text self.old.point self.new.point result }
        ensures header { is_before_header self.old.point.mode ≡ true → GivesHeader self.new.point.mode result }
        ensures vars { IfOk result HaveVars }
        ensures bound { IfOk result HaveBounds }
        ensures cards { takes_cards self.old.point.mode ≡ false → takes_cards self.new.point.mode ≡ false }
        ensures no_card { takes_cards self.old.point.mode ≡ false → IfOk result AreNoCards }
        ensures count { IfOk result (λ item. given self.new.point ≡ given self.old.point + lits_of item) }
        ensures few { given self.new.point ≤ max_literals }
        ensures done { self.new.done ≡ self.old.done }
    {
        let meaning = meaning_of(self.mode, self.words.text());
        match meaning {
            Meaning::Enters(mode) => {
                self.mode = mode;
                self.lits = Lits::new(self.alloc);
                Ok(None)
            }
            Meaning::Adds(lit) => {
                if self.count >= MAX_LITERALS {
                    return Err(Stop::Bad(line, Why::TooManyLiterals));
                }
                match self.lits.push(lit) {
                    Ok(()) => {}
                    Err(_) => return Err(Stop::Memory),
                }
                self.count += 1;
                self.mode = opened_mode(self.mode);
                Ok(None)
            }
            Meaning::Closes => {
                let lits = mem::replace(&mut self.lits, Lits::new(self.alloc));
                let item = closed_item(self.mode, lits);
                self.mode = resting_mode(self.mode);
                Ok(Some(item))
            }
            Meaning::Heading(header, allowed) => {
                self.mode = Mode::Between(allowed);
                self.lits = Lits::new(self.alloc);
                Ok(Some(Item::Header(header)))
            }
            Meaning::Wrong(why) => Err(Stop::Bad(line, why)),
        }
    }

    /// The next item, given as soon as its last word was read. `End` and a stop are the last answer. `Bad` names the line of
    /// the first fault and its reason, `End` comes where nothing is wrong, and `ReadFault` only where the source failed in
    /// this call. The grammar is that of DIMACS (`p cnf V C` and clauses), and where `new` allows more headers also that of iCNF
    /// (`p inccnf`, clauses, and queries `a l1 .. ln 0`) and of texts with cardinalities (`p knf V C`, clauses, and `k b l1 .. ln 0`
    /// with a bound of at most 2^62, which may stand in iCNF too). The query at the end of a `p cnf` or `p knf` text is no item of
    /// its own.
    ///
    /// The clauses compare what the text still to come says before and after the call. What all calls together give is said by
    /// the grammar over the whole text: see `grammar::law_text_is_said`, `law_text_is_given`, `law_cut_is_said` and `law_cut_is_given`.
    pub fn next<S: Source>(&mut self, source: &mut S) -> Result<Item, Stop>
        requires { self.old.done ≡ false }
        ensures answer { ReadAnswers self.old self.new (S.left source.old) (S.left source.new) result }
        ensures done { self.new.done ≡ read_is_last result }

        // The header is the first item.
        ensures header { is_before_header self.old.point.mode ≡ true → IfOk result IsHeaderItem }
        ensures vars { IfOk result HasVars }

        // The bound of a cardinality is in range, and where `new` allows none no cardinality comes.
        ensures bound { IfOk result HasBound }
        ensures cards { takes_cards self.old.point.mode ≡ false → takes_cards self.new.point.mode ≡ false }
        ensures no_card { takes_cards self.old.point.mode ≡ false → IfOk result IsNoCard }

        // The lines that were taken, whatever lines come behind them.
        ensures lines { ReadsOver self.old self.new (S.left source.old) (S.left source.new) result }

        // Each literal is counted, and there are not too many.
        ensures count { IfOk result (λ item. given self.new.point ≡ given self.old.point + lits_in item) }
        ensures few { given self.new.point ≤ max_literals }

        ensures later { S.faults source.old ≤ S.faults source.new }
        ensures cause { IsErrOf result Stop.ReadFault → Rose (S.faults source.old) (S.faults source.new) }
        ensures no_fault { is_item_fault result ≡ false → S.faults source.new ≡ S.faults source.old }
        // All that was taken from a source before a fault was used.
        ensures dry { IsErrOf result Stop.ReadFault → (self.new.words.lines.ahead ≡ []) × (self.new.words.lines.ended ≡ false) }

        // A source is not read after its end.
        ensures unread { self.old.words.lines.ended ≡ true → source.new ≡ source.old }
        ensures stays { self.old.words.lines.ended ≡ true → self.new.words.lines.ended ≡ true }
        ensures at_end { self.new.words.lines.ended ≡ true → (self.old.words.lines.ended ≡ true) ⊎ IsAtEnd (S.left source.new) }
        ensures end { IfOk result (λ item. IsEndItem item → self.new.words.lines.ended ≡ true) }

        // Each item takes a word, and there are not too many.
        ensures progress { read_is_last result ≡ false → word_fuel self.new.words < word_fuel self.old.words }
    {
        self.done = true;
        loop {
            match self.words.next(source) {
                Ok(WordGot::Word(line)) => {
                    match self.take_word(line)? {
                        Some(item) => {
                            self.done = false;
                            return Ok(item);
                        }
                        None => {}
                    }
                }
                Ok(WordGot::End(last)) => return end_of(self.mode, last),
                Err(stop) => return Err(stop),
            }
        }
    }
}
