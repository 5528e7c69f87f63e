//! Where ids stand in the lists of occurrences.
//!
//! A firm clause has a cell of 32 bits for each of its literals, in their order. The cells of all clauses lie one clause after the other in
//! one array, as the literals do in the arena; a table of pieces has by id where. No two pieces overlap (`IsLaid`), so that writing
//! a cell of one clause leaves those of all others. Redundant clauses have an empty piece and no cell.
ghost use Rattle.std.specs.Prelude.{◌≡◌, ◌≢◌, ◌≤◌, ◌<◌, ◌+◌, ◌++◌, ℕ, [], length, IfOk, OnOk, OnErr, slice_set, slice_index_or};
ghost use Rattle.clause_store.specs.Lists.{occ_at};
ghost use Rattle.clause_store.specs.Spots.{spots_of, ends};
ghost use Rattle.clause_store.specs.Pieces.{Lengthens};

use crate::id_list::IdList;
use sat_model::literal::Lit;
use sat_model::memory::Memory;
use std::alloc::Global;
use std::marker::Model;

// The number below which the number of cells, and the length of each list stays.
const END: usize = 4_294_967_296;

// Where the cells of a clause lie.
#[derive(Clone, Copy)]
pub(crate) struct Piece {
    // The place of the first cell in the array.
    start: u32,
    // How many cells there are.
    len: u32,
}

// The cells of the clauses, by id.
#[derive(Drop)]
pub(crate) struct Spots {
    // The allocator for the array and the table that `compact` makes.
    alloc: Global,
    // The place of an id in the list of a literal.
    cells: Vec<u32>,
    // The cells of each id.
    pieces: Vec<Piece>,
}

impl Model for Spots {
    ghost use Rattle.std.specs.Prelude.{ℕ, List};
    ghost use Rattle.clause_store.specs.Pieces.{pieces_of, IsLaid};

    ghost Value = { List (List ℕ) };

    ghost view = { λ s. pieces_of s.cells.items s.pieces.items };

    ghost invariant = { λ s. IsLaid s.cells.items s.pieces.items };
}

impl Spots {
    // No cell. It takes no memory.
    pub(crate) fn new(alloc: Global) -> Spots
        ensures { result ≡ [] }
    {
        Spots {
            alloc,
            cells: Vec::new(alloc),
            pieces: Vec::new(alloc),
        }
    }

    // A cell of a clause.
    pub(crate) fn get(&self, id: usize, i: usize) -> u32
        requires { i < length (spots_of self.now id) }
        ensures { result ≡ slice_index_or (spots_of self.now id) i 0 }
    {
        let start = self.pieces[id].start as usize;
        self.cells[start + i]
    }

    // Writes a cell of a clause.
    pub(crate) fn set(&mut self, id: usize, i: usize, place: u32)
        requires { i < length (spots_of self.old id) }
        ensures { self.new ≡ slice_set self.old id (slice_set (spots_of self.old id) i place) }
    {
        let start = self.pieces[id].start as usize;
        self.cells[start + i] = place;
    }

    // Makes room for the cells of a clause; no cell changes.
    fn reach(&mut self, id: usize) -> Result<(), Memory>
        ensures long { OnOk result (id < length self.new) }
        ensures same { (k : ℕ) → spots_of self.new k ≡ spots_of self.old k }
    {
        while self.pieces.len() <= id {
            self.pieces.push(Piece { start: 0, len: 0 })?;
        }
        Ok(())
    }

    // Notes for a clause the ends of the lists of its literals, where its id is to stand. The cells of other clauses stay.
    pub(crate) fn add(&mut self, id: usize, lits: &[Lit], lists: &[IdList]) -> Result<(), Memory>
        ensures here { OnOk result (spots_of self.new id ≡ ends lists.now lits.now) }
        ensures others { (k : ℕ) → k ≢ id → spots_of self.new k ≡ spots_of self.old k }
    {
        self.reach(id)?;
        let start = self.cells.len();
        if lits.len() >= END - start {
            return Err(Memory);
        }
        append_ends(&mut self.cells, lits, lists)?;
        self.pieces[id] = Piece {
            start: start as u32,
            len: lits.len() as u32,
        };
        Ok(())
    }

    // Drops the cells of a clause. Those of other clauses stay.
    pub(crate) fn remove(&mut self, id: usize)
        ensures { (k : ℕ) → k ≢ id → spots_of self.new k ≡ spots_of self.old k }
    {
        if id < self.pieces.len() {
            self.pieces[id] = Piece { start: 0, len: 0 };
        }
    }

    // Closes the gaps that dropped cells left. After `Memory` they stay.
    pub(crate) fn compact(&mut self) -> Result<(), Memory>
        ensures { self.new ≡ self.old }
    {
        let mut cells: Vec<u32> = Vec::new(self.alloc);
        let mut pieces: Vec<Piece> = Vec::new(self.alloc);
        let mut id = 0;
        'each: while id < self.pieces.len() {
            let piece = self.pieces[id];
            let start = cells.len();
            let begin = piece.start as usize;
            let end = begin + piece.len as usize;
            cells.extend_from_slice(&self.cells[begin..end])?;
            pieces.push(Piece {
                start: start as u32,
                len: piece.len,
            })?;
            id += 1;
        }
        self.cells = cells;
        self.pieces = pieces;
        Ok(())
    }
}

// Appends the lengths of the lists of some literals. Whatever is answered, what was there stays.
fn append_ends(cells: &mut Vec<u32>, lits: &[Lit], lists: &[IdList]) -> Result<(), Memory>
    ensures ok { OnOk result (cells.new.items ≡ cells.old.items ++ ends lists.now lits.now) }
    ensures err { OnErr result (Lengthens cells.old.items cells.new.items) }
    ensures bound { length cells.new.items ≤ length cells.old.items + length lits.now }
{
    for i in 0..lits.len() {
        let end = end_of(lists, lits[i])?;
        cells.push(end)?;
    }
    Ok(())
}

// The length of the list of a literal. `Memory` where it has no 32 bits.
fn end_of(lists: &[IdList], lit: Lit) -> Result<u32, Memory>
    ensures { IfOk result (λ n. n ≡ length (occ_at lists.now lit)) }
{
    let code = lit.code() as usize;
    if code >= lists.len() {
        return Ok(0);
    }
    let len = lists[code].len();
    if len >= END {
        return Err(Memory);
    }
    Ok(len as u32)
}
