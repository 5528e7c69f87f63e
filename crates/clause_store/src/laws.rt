//! Laws of stores. Their calls do nothing.
//!
//! `firm_count test s` says how many firm clauses of a store pass a test. What a pass leaves is stated with it: two stores hold the same
//! firm clauses, in another order maybe, where the numbers are equal for every test. The laws say what adding, removing and compacting do
//! to these numbers, and that the lists of ids are as long as they say.
ghost use Rattle.clause_store.specs.FirmCount.{AddingCounts, RemovingCounts, SameSlotsCount, ListsCount};

/// `Store::add` adds a clause: as many firm clauses pass a test as before, and one more if it is firm and passes.
pub fn law_adding_counts()
    ensures { AddingCounts }
{}

/// `Store::remove` removes a clause: as many firm clauses pass a test as after it, and one more if it was firm and passes.
pub fn law_removing_counts()
    ensures { RemovingCounts }
{}

/// `Store::compact` leaves every clause under its id: as many firm clauses pass each test as before.
pub fn law_same_slots_count()
    ensures { SameSlotsCount }
{}

/// `Store::firm_ids` is as long as there are firm clauses, and `Store::occ` as there are firm clauses that hold the literal.
pub fn law_lists_count()
    ensures { ListsCount }
{}
