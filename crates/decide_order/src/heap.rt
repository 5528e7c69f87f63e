//! The heap of variables: the one of the greatest score comes first.
//!
//! A bump adds to a variable's score, and the amount grows by an eighth at each conflict, so that
//! what was bumped lately counts for more (EVSIDS: Eén and Sörensson 2003, after VSIDS: Moskewicz
//! and others 2001). Scores are whole numbers; where one would pass 2^60, all of them and the
//! amount are divided by 2^30, which keeps their order as far as it still matters.
//!
//! All variables stand in one array, of which the heap is the front: so to leave the heap and to
//! come into it is an exchange, and nothing is ever appended or searched for. Variables with a
//! value stay in the heap until they come to its top, and come back when they lose it.
ghost use Rattle.std.specs.Prelude.{◌≡◌, ◌≢◌, ◌<◌, ◌≤◌, ◌+◌, ◌^◌, ℕ, OnOk, MatchOption, IfSome, length};
ghost use Rattle.sat_terms.specs.Limits.{max_var};
ghost use Rattle.decide_order.specs.Line.{at as entry};
ghost use Rattle.decide_order.specs.Pile.{IsHeaped, KeepsHeaped};

use crate::room::{reach_counts, reach_numbers};
use sat_model::literal::Var;
use sat_model::memory::Memory;
use std::alloc::Global;
use std::marker::Model;

// The score above which all scores are made smaller, and by how many places of two.
const GREATEST_SCORE: u64 = 0x1000_0000_0000_0000;

const SHIFT: u32 = 30;

// What the first bumps add.
const FIRST_STEP: u64 = 0x10_0000;

// Variables with scores, the greatest score at the top.
#[derive(Drop)]
pub(crate) struct Heap {
    // All variables, those in the heap first.
    items: Vec<u32>,
    // The place of each variable among `items`.
    places: Vec<u32>,
    // The score of each variable.
    scores: Vec<u64>,
    // How many variables there are: those from 1 on.
    count: u32,
    // For how many places each table has memory; the tables by variable have one for 0 too.
    room: usize,
    // How many variables are in the heap.
    size: usize,
    // What a bump adds.
    step: u64,
}

impl Model for Heap {
    ghost use Rattle.decide_order.specs.Pile.{Pile, IsPile};

    ghost Value = { Pile };

    ghost view = { λ h. record { count = h.count; room = h.room; size = h.size; items = h.items.items; places = h.places.items } };

    ghost invariant = { λ h. IsPile h.items.items h.places.items h.scores.items h.count h.room h.size };
}

// Divides each score.
fn shrink(scores: &mut Vec<u64>)
    ensures { length scores.new.items ≡ length scores.old.items }
{
    for score in scores.iter_mut() {
        *score >>= SHIFT;
    }
}

impl Heap {
    // The heap of no variables. It takes no memory.
    pub(crate) fn new(alloc: Global) -> Heap
        ensures count { result.count ≡ 0 }
        ensures size { result.size ≡ 0 }
    {
        Heap {
            items: Vec::new(alloc),
            places: Vec::new(alloc),
            scores: Vec::new(alloc),
            count: 0,
            room: 0,
            size: 0,
            step: FIRST_STEP,
        }
    }

    // Takes the memory for so many places. Nothing else changes.
    pub(crate) fn reach(&mut self, places: usize) -> Result<(), Memory>
        ensures room { OnOk result (places ≤ self.new.room) }
        ensures more { self.old.room ≤ self.new.room }
        ensures count { self.new.count ≡ self.old.count }
        ensures heaped { KeepsHeaped self.old self.new }
    {
        reach_numbers(&mut self.items, places)?;
        reach_numbers(&mut self.places, places)?;
        reach_counts(&mut self.scores, places)?;
        if self.room < places {
            self.room = places;
        }
        Ok(())
    }

    // The heap is a part of the variables. The call does nothing.
    fn law_size(&self)
        ensures sized { self.now.size ≤ self.now.count }
        ensures few { self.now.count ≤ max_var }
    {
        let _size = self.size;
    }

    // The score of the variable at a place.
    fn score_at(&self, at: usize) -> u64
        requires { at < self.now.count }
    {
        self.scores[self.items[at] as usize]
    }

    // Exchanges the variables at two places that are both in the heap or both behind it.
    fn swap(&mut self, one: usize, other: usize)
        requires one { one < self.old.count }
        requires other { other < self.old.count }
        ensures count { self.new.count ≡ self.old.count }
        ensures room { self.new.room ≡ self.old.room }
        ensures size { self.new.size ≡ self.old.size }
        ensures moved { entry self.new.places (entry self.old.items one) ≡ other }
        ensures top { entry self.new.items other ≡ entry self.old.items one }
        ensures inside { one < self.old.size → other < self.old.size → KeepsHeaped self.old self.new }
        ensures outside { self.old.size ≤ one → self.old.size ≤ other → KeepsHeaped self.old self.new }
    {
        let first = self.items[one];
        let second = self.items[other];
        self.items[one] = second;
        self.items[other] = first;
        self.places[second as usize] = one as u32;
        self.places[first as usize] = other as u32;
    }

    // Lets the variable at a place rise above those of lower scores.
    fn rise(&mut self, from: usize)
        requires { from < self.old.size }
        ensures count { self.new.count ≡ self.old.count }
        ensures room { self.new.room ≡ self.old.room }
        ensures size { self.new.size ≡ self.old.size }
        ensures heaped { KeepsHeaped self.old self.new }
    {
        self.law_size();
        let mut at = from;
        while at > 0 {
            let parent = (at - 1) / 2;
            if self.score_at(at) <= self.score_at(parent) {
                break;
            }
            self.swap(at, parent);
            at = parent;
        }
    }

    // The place of the child of the greater score.
    fn greater_child(&self, at: usize) -> Option<usize>
        requires { at < 2 ^ 32 }
        ensures { IfSome result (λ child. (at < child) × (child < self.now.size)) }
    {
        let left = 2 * at + 1;
        let right = left + 1;
        if left >= self.size {
            return None;
        }
        if right < self.size && self.score_at(right) > self.score_at(left) {
            return Some(right);
        }
        Some(left)
    }

    // Lets the variable at a place sink below those of greater scores.
    fn sink(&mut self, from: usize)
        requires { from ≤ self.old.size }
        ensures count { self.new.count ≡ self.old.count }
        ensures room { self.new.room ≡ self.old.room }
        ensures size { self.new.size ≡ self.old.size }
        ensures heaped { KeepsHeaped self.old self.new }
    {
        self.law_size();
        let mut at = from;
        while let Some(child) = self.greater_child(at) {
            if self.score_at(child) <= self.score_at(at) {
                break;
            }
            self.swap(at, child);
            at = child;
        }
    }

    // The variable at a place behind the heap comes into it.
    fn enter(&mut self, at: usize)
        requires behind { self.old.size ≤ at }
        requires known { at < self.old.count }
        ensures count { self.new.count ≡ self.old.count }
        ensures room { self.new.room ≡ self.old.room }
        ensures here { IsHeaped self.new (entry self.old.items at) }
        ensures heaped { KeepsHeaped self.old self.new }
    {
        let end = self.size;
        self.swap(at, end);
        self.size = end + 1;
        self.rise(end);
    }

    // The next variable comes in.
    pub(crate) fn append(&mut self)
        requires few { self.old.count < max_var }
        requires room { self.old.count + 1 < self.old.room }
        ensures count { self.new.count ≡ self.old.count + 1 }
        ensures room { self.new.room ≡ self.old.room }
        ensures here { IsHeaped self.new self.new.count }
        ensures heaped { KeepsHeaped self.old self.new }
    {
        let end = self.count as usize;
        let var = self.count + 1;
        self.items[end] = var;
        self.places[var as usize] = self.count;
        self.scores[var as usize] = 0;
        self.count = var;
        self.enter(end);
    }

    // The variable at the top; `None` where the heap is empty.
    pub(crate) fn top(&self) -> Option<Var>
        ensures { MatchOption result (self.now.size ≡ 0) (λ v. (0 < self.now.size) × (v ≡ entry self.now.items 0)) }
    {
        if self.size == 0 {
            return None;
        }
        Var::new(self.items[0])
    }

    // The variable at the top leaves the heap.
    pub(crate) fn pass(&mut self)
        requires { 0 < self.old.size }
        ensures count { self.new.count ≡ self.old.count }
        ensures room { self.new.room ≡ self.old.room }
        ensures heaped { (v : ℕ) → IsHeaped self.old v → v ≢ entry self.old.items 0 → IsHeaped self.new v }
        ensures smaller { self.new.size < self.old.size }
    {
        let last = self.size - 1;
        self.swap(0, last);
        self.size = last;
        self.sink(0);
    }

    // A variable comes into the heap, if it is not there.
    pub(crate) fn put_in(&mut self, var: Var)
        requires { var ≤ self.old.count }
        ensures count { self.new.count ≡ self.old.count }
        ensures room { self.new.room ≡ self.old.room }
        ensures here { IsHeaped self.new var }
        ensures heaped { KeepsHeaped self.old self.new }
    {
        let at = self.places[var.index() as usize] as usize;
        if at >= self.size {
            self.enter(at);
        }
    }

    // Makes all scores smaller.
    fn rescale(&mut self)
        ensures count { self.new.count ≡ self.old.count }
        ensures room { self.new.room ≡ self.old.room }
        ensures size { self.new.size ≡ self.old.size }
        ensures places { self.new.places ≡ self.old.places }
        ensures heaped { KeepsHeaped self.old self.new }
    {
        shrink(&mut self.scores);
        self.step = (self.step >> SHIFT).max(1);
    }

    // Raises the score of a variable.
    pub(crate) fn bump(&mut self, var: Var)
        requires { var ≤ self.old.count }
        ensures count { self.new.count ≡ self.old.count }
        ensures room { self.new.room ≡ self.old.room }
        ensures heaped { KeepsHeaped self.old self.new }
    {
        let at = var.index() as usize;
        let score = self.scores[at].saturating_add(self.step);
        self.scores[at] = score;
        if score > GREATEST_SCORE {
            self.rescale();
        }
        let place = self.places[at] as usize;
        if place < self.size {
            self.rise(place);
        }
    }

    // After a conflict bumps add one eighth more.
    pub(crate) fn next_conflict(&mut self)
        ensures count { self.new.count ≡ self.old.count }
        ensures room { self.new.room ≡ self.old.room }
        ensures heaped { KeepsHeaped self.old self.new }
    {
        self.step = self.step.saturating_add((self.step / 8).max(1));
        if self.step > GREATEST_SCORE {
            self.rescale();
        }
    }
}
