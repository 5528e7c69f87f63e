//! Number words: an optional `-` and decimal digits, as in DIMACS.
//!
//! A word is told in two places: where a literal may stand (`literal_word`), and where a number without a sign may stand
//! (`plain_word`). Leading zeros are allowed, and a number of any length is told apart from one in range: its value is stopped at
//! the first number that is too large, so it fits 64 bits.
ghost use Rattle.std.specs.Prelude.{◌≡◌, ◌≤◌, ◌+◌, if◌then◌else◌, min, true, false, IfSome, IfNone};
ghost use Rattle.sat_terms.specs.Limits.{max_number};
ghost use Rattle.icnf_reader.specs.Numbers.{place_of, plain_place, negative_place, unsigned_place, are_digits, is_digit, number_from, IsAtMost};

use sat_model::literal::Lit;

/// What a word is in a literal's place.
#[derive(Clone, Copy, Debug, PartialEq, Eq)]
pub enum LitWord {
    /// Digits of value 0.
    Zero,
    /// A number, perhaps with a sign, that names a literal.
    Literal(Lit),
    /// A number, perhaps with a sign, above each variable.
    Large,
    /// Any other word, `-0` and `+5` among them.
    Other,
}

/// What a word is in the place of a number without a sign.
#[derive(Clone, Copy, Debug, PartialEq, Eq)]
pub enum PlainWord {
    /// Digits of this value, which is in range.
    Value(u64),
    /// Digits of a greater value.
    Large,
    /// Any other word, `-3` among them.
    Other,
}

/// What a word is in a literal's place: a literal where its number is not 0 and at most `MAX_VAR` but for its sign, a zero
/// where it has no sign and its number is 0. Leading zeros are allowed; `-0` and `+5` are neither.
pub fn literal_word(text: &[u8]) -> LitWord
    ensures { result ≡ place_of text.now }
{
    match text {
        [] => LitWord::Other,
        [first, rest @ ..] => {
            if *first == b'-' {
                signed_word(rest, true)
            } else {
                signed_word(text, false)
            }
        }
    }
}

/// What a word is in the place of a number without a sign that is at most `max`, and `max` is at most 2^62: its value where it is
/// one or more digits and in range. Leading zeros are allowed.
pub fn plain_word(text: &[u8], max: u64) -> PlainWord
    requires { max ≤ max_number }
    ensures place { result ≡ plain_place max text.now }
    ensures most { IsAtMost max result }
{
    let Some(value) = number_of(text, max + 1) else {
        return PlainWord::Other;
    };
    if value > max {
        PlainWord::Large
    } else {
        PlainWord::Value(value)
    }
}

// A number word without its sign.
#[tactic(auto, unfolding(sat_terms::specs::Literal::pos_lit, sat_terms::specs::Literal::neg_lit))]
fn signed_word(digits: &[u8], negative: bool) -> LitWord
    ensures { result ≡ (if negative then negative_place digits.now else unsigned_place digits.now) }
{
    let Some(value) = number_of(digits, 4_194_304) else {
        return LitWord::Other;
    };
    if value == 0 {
        return if negative {
            LitWord::Other
        } else {
            LitWord::Zero
        };
    }
    let number = value as i32;
    match Lit::new(if negative { -number } else { number }) {
        Some(lit) => LitWord::Literal(lit),
        None => LitWord::Large,
    }
}

// Whether a byte is a digit.
fn digit(b: u8) -> bool
    ensures { result ≡ is_digit b }
{
    b >= b'0' && b <= b'9'
}

// The number that these bytes write, or `cap` where it is greater, if they are one or more digits. Each byte is looked at once.
fn number_of(bytes: &[u8], cap: u64) -> Option<u64>
    requires cap { cap ≤ max_number + 1 }
    ensures digits { IfSome result (λ _. are_digits bytes.now ≡ true) }
    ensures value { IfSome result (λ value. value ≡ min (number_from 0 bytes.now) cap) }
    ensures none { IfNone result (are_digits bytes.now ≡ false) }
{
    if bytes.is_empty() {
        return None;
    }
    let mut n: u64 = 0;
    for b in bytes {
        if !digit(*b) {
            return None;
        }
        n = n
            .saturating_mul(10)
            .saturating_add((*b - b'0') as u64)
            .min(cap);
    }
    Some(n)
}
