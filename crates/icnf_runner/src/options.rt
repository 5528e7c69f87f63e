//! The options of the command line.
//!
//! The words are looked at twice. `read_words` is the list of accepted words: it goes over them item by item, with the product's own
//! checks of digits, ranges and repeated names, and what it answers is what the definition says. Words that it accepts are then
//! read by a `clap` command with these options and no others, and its values are the ones taken. It takes all such words and finds
//! the same values, which is tested; where it did not, the answer would be want of memory, its one reason to refuse them.
ghost use Rattle.std.specs.Prelude.{◌≡◌, ◌≤◌, ◌<◌, ◌+◌, true, List, Option, Some, None, option_map, map, string_bytes, IfOk, OnErr, IfSome, IfNone, length, drop};
ghost use Rattle.icnf_reader.specs.Numbers.{plain_place};
ghost use Rattle.sat_terms.specs.Limits.{max_number};
ghost use Rattle.icnf_runner.specs.Options.{Accepts, IsInRange};
ghost use Rattle.icnf_runner.specs.Items.{name_text, rest_after, numbered, behind_equals, first_of, one_word, two_words, add_choice, parse, nothing_found, options_by, IsFirst, BeginsNone};
ghost use Rattle.icnf_runner.specs.Runs.{AreAccepted};
ghost use Rattle.icnf_runner.specs.declared.options.Choice.TheVariants as choices;

use clap::{Arg, ArgAction, ArgMatches, Command};
use icnf_reader::numbers::{PlainWord, plain_word};
use sat_model::memory::Memory;
use std::alloc::{AllocError, Global};

// The greatest number of an option, 2^62; a budget of 2^62 is none.
const MOST: u64 = 4_611_686_018_427_387_904;

/// What the words of the command line state.
#[derive(Clone, Copy, Debug, PartialEq, Eq)]
pub struct Options {
    /// The budget of conflicts of each query, at most 2^62, which is none.
    pub conflicts: u64,
    /// The budget of callbacks of each query. It has no effect yet.
    pub callbacks: u64,
    /// The limit on the steps of each pass. It has no effect yet.
    pub steps: u64,
    /// Whether each model is checked.
    pub check: bool,
}

// The names of the options that have a number.
#[derive(Clone, Copy, Debug, PartialEq, Eq)]
enum Name {
    // `--conflicts`
    Conflicts,
    // `--callbacks`
    Callbacks,
    // `--steps`
    Steps,
}

// An item of the command line.
#[derive(Clone, Copy, Debug, PartialEq, Eq)]
enum Choice {
    // An option with its number.
    Number(Name, u64),
    // `--check`
    Check,
}

// The items that were met so far.
#[derive(Clone, Copy, Debug, PartialEq, Eq)]
struct Found {
    // The number of `--conflicts`, if it was met.
    conflicts: Option<u64>,
    // The number of `--callbacks`, if it was met.
    callbacks: Option<u64>,
    // The number of `--steps`, if it was met.
    steps: Option<u64>,
    // Whether `--check` was met.
    check: bool,
}

impl Name {
    // The text of the name.
    fn text(self) -> &'static str
        ensures { result.now ≡ name_text self }
    {
        match self {
            Name::Conflicts => "--conflicts",
            Name::Callbacks => "--callbacks",
            Name::Steps => "--steps",
        }
    }
}

// What follows a name in a word.
fn behind<'a>(name: &[u8], word: &'a [u8]) -> Option<&'a [u8]>
    ensures { option_map (λ rest. rest.now) result ≡ rest_after name.now word.now }
{
    let mut at = 0usize;
    while at < name.len() {
        if at == word.len() {
            return None;
        }
        if word[at] != name[at] {
            return None;
        }
        at += 1;
    }
    Some(&word[at..])
}

// The item of a name and the text of its number.
fn numbered_choice(name: Name, text: &[u8]) -> Option<Choice>
    ensures { result ≡ numbered name (plain_place max_number text.now) }
{
    match plain_word(text, MOST) {
        PlainWord::Value(number) => Some(Choice::Number(name, number)),
        PlainWord::Large => None,
        PlainWord::Other => None,
    }
}

// The item of a name and what follows it in its word.
fn joined_choice(name: Name, rest: &[u8]) -> Option<Choice>
    ensures { result ≡ behind_equals name (Some rest.now) }
{
    match rest {
        [] => None,
        [first, digits @ ..] => {
            if *first == b'=' {
                numbered_choice(name, digits)
            } else {
                None
            }
        }
    }
}

// The item of a word that begins with this name.
fn named_choice(name: Name, word: &[u8]) -> Option<Choice>
    ensures { result ≡ behind_equals name (rest_after (name_text name) word.now) }
{
    match behind(name.text().as_bytes(), word) {
        Some(rest) => joined_choice(name, rest),
        None => None,
    }
}

// The first of two that is there.
fn first_choice(one: Option<Choice>, other: Option<Choice>) -> Option<Choice>
    ensures { result ≡ first_of one other }
{
    match one {
        Some(choice) => Some(choice),
        None => other,
    }
}

// An item of one word.
fn choice_of_one(word: &[u8]) -> Option<Choice>
    ensures { result ≡ one_word word.now }
{
    if word == b"--check".as_slice() {
        return Some(Choice::Check);
    }
    let conflicts = named_choice(Name::Conflicts, word);
    let callbacks = named_choice(Name::Callbacks, word);
    let steps = named_choice(Name::Steps, word);
    first_choice(conflicts, first_choice(callbacks, steps))
}

// An item of two words.
fn choice_of_two(word: &[u8], text: &[u8]) -> Option<Choice>
    ensures { result ≡ two_words word.now text.now }
{
    if word == b"--conflicts".as_slice() {
        numbered_choice(Name::Conflicts, text)
    } else if word == b"--callbacks".as_slice() {
        numbered_choice(Name::Callbacks, text)
    } else if word == b"--steps".as_slice() {
        numbered_choice(Name::Steps, text)
    } else {
        None
    }
}

// One more item, whose name was not met before.
fn with_choice(found: Found, choice: Choice) -> Option<Found>
    ensures { result ≡ add_choice choice found }
{
    match choice {
        Choice::Check => {
            if found.check {
                None
            } else {
                Some(Found {
                    check: true,
                    ..found
                })
            }
        }
        Choice::Number(name, number) => with_number(found, name, number),
    }
}

// One more number, whose name was not met before.
fn with_number(found: Found, name: Name, number: u64) -> Option<Found>
    ensures { result ≡ add_choice (choices.Number name number) found }
{
    match name {
        Name::Conflicts => match found.conflicts {
            Some(_) => None,
            None => Some(Found {
                conflicts: Some(number),
                ..found
            }),
        },
        Name::Callbacks => match found.callbacks {
            Some(_) => None,
            None => Some(Found {
                callbacks: Some(number),
                ..found
            }),
        },
        Name::Steps => match found.steps {
            Some(_) => None,
            None => Some(Found {
                steps: Some(number),
                ..found
            }),
        },
    }
}

// The item that begins at a word, and how many words it has.
fn item_at(words: &[String], at: usize) -> Option<(usize, Choice)>
    requires { at < length words.now }
    ensures some { IfSome result (λ item. (1 ≤ item.0) × (at + item.0 ≤ length words.now) × IsFirst (drop at (map string_bytes words.now)) item.1 (drop (at + item.0) (map string_bytes words.now))) }
    ensures none { IfNone result (BeginsNone (drop at (map string_bytes words.now))) }
{
    let word = words[at].as_bytes();
    match choice_of_one(word) {
        Some(choice) => Some((1, choice)),
        None => {
            if at + 1 == words.len() {
                return None;
            }
            let choice = choice_of_two(word, words[at + 1].as_bytes())?;
            Some((2, choice))
        }
    }
}

// The items that the words are, each with a name of its own.
fn read_words(words: &[String]) -> Option<Found>
    ensures { result ≡ parse (map string_bytes words.now) nothing_found }
{
    let mut found = Found {
        conflicts: None,
        callbacks: None,
        steps: None,
        check: false,
    };
    let mut at = 0usize;
    while at < words.len() {
        let (size, choice) = item_at(words, at)?;
        found = with_choice(found, choice)?;
        at += size;
    }
    Some(found)
}

// The options that were found, and those that nothing states.
fn options_of_found(found: Found) -> Options
    ensures { result ≡ options_by found }
{
    Options {
        conflicts: found.conflicts.unwrap_or(MOST),
        callbacks: found.callbacks.unwrap_or(MOST),
        steps: found.steps.unwrap_or(1_000_000),
        check: found.check,
    }
}

// A clap command with the options and no others.
fn command<'a>(alloc: Global) -> Result<Command<'a>, AllocError> {
    let conflicts = Arg::new(alloc, "conflicts")
        .long("conflicts")
        .action(ArgAction::Set);
    let callbacks = Arg::new(alloc, "callbacks")
        .long("callbacks")
        .action(ArgAction::Set);
    let steps = Arg::new(alloc, "steps")
        .long("steps")
        .action(ArgAction::Set);
    let check = Arg::new(alloc, "check")
        .long("check")
        .action(ArgAction::SetTrue);
    Command::new(alloc, "icnf_runner")
        .no_binary_name(true)
        .disable_help_flag(true)
        .disable_version_flag(true)
        .arg(conflicts)?
        .arg(callbacks)?
        .arg(steps)?
        .arg(check)
}

// The number that clap found for an option.
fn number_in(matches: &ArgMatches, name: &str) -> Option<u64> {
    match plain_word(matches.get_str(name)?.as_bytes(), MOST) {
        PlainWord::Value(number) => Some(number),
        PlainWord::Large => None,
        PlainWord::Other => None,
    }
}

// What a clap command with the options and no others finds in the words.
fn read_by_clap(alloc: Global, words: &[String]) -> Result<Found, clap::Error> {
    let matches = command(alloc)?.try_get_matches_from(words)?;
    Ok(Found {
        conflicts: number_in(&matches, "conflicts"),
        callbacks: number_in(&matches, "callbacks"),
        steps: number_in(&matches, "steps"),
        check: matches.get_flag("check"),
    })
}

// Whether two readings of the words are the same.
fn are_same(one: Found, other: Found) -> bool
    ensures { result ≡ true → one ≡ other }
{
    one == other
}

// What clap finds, where it is what was found before.
fn confirmed(alloc: Global, words: &[String], found: Found) -> Result<Found, Memory>
    ensures { IfOk result (λ taken. taken ≡ found) }
{
    match read_by_clap(alloc, words) {
        Ok(taken) => {
            if are_same(taken, found) {
                Ok(taken)
            } else {
                Err(Memory)
            }
        }
        Err(_) => Err(Memory),
    }
}

/// The options that the words of the command line state, or `None` exactly where the words are not accepted: they are to be a
/// sequence of `--conflicts N`, `--callbacks N`, `--steps N` and `--check`, each at most once, where N is a decimal number of at
/// most 2^62, in a word of its own or behind a `=`.
pub fn options_of(alloc: Global, words: &[String]) -> Result<Option<Options>, Memory>
    ensures some { IfOk result (λ found. IfSome found (λ o. Accepts (map string_bytes words.now) o × IsInRange o)) }
    ensures none { IfOk result (λ found. IfNone found (AreAccepted (map string_bytes words.now) → ⊥)) }
    ensures memory { OnErr result (AreAccepted (map string_bytes words.now)) }
{
    match read_words(words) {
        Some(found) => match confirmed(alloc, words, found) {
            Ok(taken) => Ok(Some(options_of_found(taken))),
            Err(_) => Err(Memory),
        },
        None => Ok(None),
    }
}
