//! Sets that are kept as flags.
//!
//! A pass over clauses marks variables, literals or ids, asks often whether one is marked, and begins anew often. So a set costs a byte
//! for each number up to the greatest that ever came, and beside the flags stands a list of what came, so that `clear` costs as many
//! steps as members came since the last one, and not one for each number.
//!
//! A member that is taken out stays on that list: its flag says so, and it isn't listed again when it comes back. So the list is never
//! longer than the flags, however often members come and go. (A set whose members are to be gone through is a `WorkList`.)
ghost use Rattle.std.specs.Prelude.{◌≡◌, ◌<◌, ◌≤◌, ◌^◌, ◌||◌, ◌&&◌, ◌==◌, ◌↔◌, ℕ, true, false, not, length, ◌+◌, ◌++◌, ◌∷◌, [], if◌then◌else◌, OnOk, OnErr, IsTrue, All};
ghost use Rattle.std.specs.Vec.{vec_len, vec_capacity};
ghost use Rattle.flag_set.specs.Flags.{holds};
ghost use Rattle.flag_set.specs.Listed.{flag, is_in as flag_is_in, is_listed as flag_is_listed, lists};

use crate::member::Member;
use sat_model::memory::Memory;
use std::alloc::Global;
use std::marker::Model;

// What the set has for a number: it is out, in, or was taken out and is listed still.
#[derive(Clone, Copy)]
pub(crate) enum Flag {
    // It is no member, and not listed.
    Out,
    // It is a member, and listed.
    In,
    // It was taken out, and is listed still.
    Left,
}

/// A set of variables, of literals or of ids, a byte for each. Contracts see one truth value for each number, and `holds` reads them.
#[derive(Drop)]
pub struct FlagSet<T: Member> {
    // A flag for each number up to the greatest that came.
    flags: Vec<Flag>,
    // Each number whose flag is not `Out`, once.
    listed: Vec<T>,
}

impl<T: Member> Model for FlagSet<T> {
    ghost use Rattle.std.specs.Prelude.{List, Bool, map};
    ghost use Rattle.flag_set.specs.Listed.{is_in, IsListed};

    ghost Value = { List Bool };

    ghost view = { λ s. map is_in s.flags.items };

    ghost invariant = { λ s. IsListed T.number_of s.flags.items s.listed.items };
}

// Whether a flag says that its number is in the set.
fn is_in(flag: Flag) -> bool
    ensures { result ≡ flag_is_in flag }
{
    match flag {
        Flag::In => true,
        Flag::Out => false,
        Flag::Left => false,
    }
}

// Whether a flag says that its number is listed.
fn is_listed(flag: Flag) -> bool
    ensures { result ≡ flag_is_listed flag }
{
    match flag {
        Flag::In => true,
        Flag::Out => false,
        Flag::Left => true,
    }
}

// Makes room for the flag of a number; no flag changes.
fn reach(flags: &mut Vec<Flag>, at: usize) -> Result<(), Memory>
    requires { at < 2 ^ 32 }
    ensures long { OnOk result (at < length flags.new.items) }
    ensures same { (n : ℕ) → flag flags.new.items n ≡ flag flags.old.items n }
    ensures longer { length flags.old.items ≤ length flags.new.items }
    ensures err { OnErr result (flags.new.items ≡ flags.old.items) }
{
    if at >= flags.len() {
        flags.resize(at + 1, Flag::Out)?;
    }
    Ok(())
}

// Lists a member whose flag is `Out`, where there is room for one more.
fn enlist<T: Member>(listed: &mut Vec<T>, flag: Flag, member: T)
    requires { vec_len listed.old + 1 ≤ vec_capacity listed.old }
    ensures { listed.new.items ≡ (if flag_is_listed flag then listed.old.items else listed.old.items ++ member ∷ []) }
{
    if is_listed(flag) {
        return;
    }
    match listed.push(member) {
        Ok(()) => {}
        Err(_) => unreachable!(),
    }
}

// Takes back the flags of what is listed.
fn lower_all<T: Member>(flags: &mut Vec<Flag>, listed: &[T])
    requires { All (λ m. T.number_of m < length flags.old.items) listed.now }
    ensures listed { (n : ℕ) → lists T.number_of listed.now n ≡ true → flag_is_listed (flag flags.new.items n) ≡ false }
    ensures others { (n : ℕ) → flag_is_listed (flag flags.new.items n) ≡ true → flag_is_listed (flag flags.old.items n) ≡ true }
{
    for member in listed {
        flags[member.number()] = Flag::Out;
    }
}

// Whether those of some members whose flags say that they are in are in a set too.
fn are_in<T: Member>(members: &[T], flags: &[Flag], other: &FlagSet<T>) -> bool
    ensures { IsTrue result ↔ ((n : ℕ) → lists T.number_of members.now n ≡ true → flag_is_in (flag flags.now n) ≡ true → holds other.now n ≡ true) }
{
    for member in members {
        let at = member.number();
        if at < flags.len() && is_in(flags[at]) && !other.has(*member) {
            return false;
        }
    }
    true
}

impl<T: Member> FlagSet<T> {
    /// The empty set. It takes no memory.
    pub fn new(alloc: Global) -> FlagSet<T>
        ensures { (n : ℕ) → holds result n ≡ false }
    {
        FlagSet {
            flags: Vec::new(alloc),
            listed: Vec::new(alloc),
        }
    }

    /// Whether a member is in the set.
    pub fn has(&self, member: T) -> bool
        ensures { result ≡ holds self.now (T.number_of member) }
    {
        let at = member.number();
        at < self.flags.len() && is_in(self.flags[at])
    }

    /// A number above the number of each member.
    pub fn bound(&self) -> usize
        ensures { (n : ℕ) → holds self.now n ≡ true → n < result }
    {
        self.flags.len()
    }

    /// Puts a member into the set. After `Memory` the set is as before.
    pub fn put(&mut self, member: T) -> Result<(), Memory>
        ensures ok { OnOk result ((n : ℕ) → holds self.new n ≡ (T.number_of member == n || holds self.old n)) }
        ensures err { OnErr result (self.new ≡ self.old) }
    {
        let at = member.number();
        self.listed.reserve(1)?;
        reach(&mut self.flags, at)?;
        enlist(&mut self.listed, self.flags[at], member);
        self.flags[at] = Flag::In;
        Ok(())
    }

    /// Takes a member out of the set, if it is there.
    pub fn take_out(&mut self, member: T)
        ensures { (n : ℕ) → holds self.new n ≡ (holds self.old n && not (T.number_of member == n)) }
    {
        let at = member.number();
        if at < self.flags.len() && is_in(self.flags[at]) {
            self.flags[at] = Flag::Left;
        }
    }

    // Whether each member is in another set too.
    fn is_within(&self, other: &FlagSet<T>) -> bool
        ensures { IsTrue result ↔ ((n : ℕ) → holds self.now n ≡ true → holds other.now n ≡ true) }
    {
        are_in(self.listed.as_slice(), self.flags.as_slice(), other)
    }

    /// Whether two sets have the same members. It costs as many steps as members came to both since these were new or cleared.
    pub fn is_same(&self, other: &FlagSet<T>) -> bool
        ensures { IsTrue result ↔ ((n : ℕ) → holds self.now n ≡ holds other.now n) }
    {
        self.is_within(other) && other.is_within(self)
    }

    // Puts those of some members into the set whose flags say that they are in. After `Memory` some of them came.
    fn put_each(&mut self, members: &[T], flags: &[Flag]) -> Result<(), Memory>
        ensures more { (n : ℕ) → holds self.old n ≡ true → holds self.new n ≡ true }
        ensures came { OnOk result ((n : ℕ) → lists T.number_of members.now n ≡ true → flag_is_in (flag flags.now n) ≡ true → holds self.new n ≡ true) }
        ensures only { (n : ℕ) → holds self.new n ≡ true → (holds self.old n || flag_is_in (flag flags.now n)) ≡ true }
    {
        for member in members {
            let at = member.number();
            if at < flags.len() && is_in(flags[at]) {
                self.put(*member)?;
            }
        }
        Ok(())
    }

    /// Puts the members of another set into the set. After `Memory` some of them came. Whatever is answered, the old members stay, and
    /// none comes but those of the other set.
    pub fn put_all(&mut self, other: &FlagSet<T>) -> Result<(), Memory>
        ensures ok { OnOk result ((n : ℕ) → holds self.new n ≡ (holds self.old n || holds other.now n)) }
        ensures more { (n : ℕ) → holds self.old n ≡ true → holds self.new n ≡ true }
        ensures only { (n : ℕ) → holds self.new n ≡ true → (holds self.old n || holds other.now n) ≡ true }
    {
        self.put_each(other.listed.as_slice(), other.flags.as_slice())
    }

    /// Takes all members out of the set. It costs as many steps as members came since the set was new or cleared.
    pub fn clear(&mut self)
        ensures { (n : ℕ) → holds self.new n ≡ false }
    {
        lower_all(&mut self.flags, self.listed.as_slice());
        self.listed.clear();
    }
}
