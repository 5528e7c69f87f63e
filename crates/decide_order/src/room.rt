//! Room for more variables.
//!
//! A variable is declared in several lists at once. All memory is taken first, list by list, and the lists are only then read
//! as longer: so where one of them gets no memory, none has changed for its reader.
ghost use Rattle.std.specs.Prelude.{◌≡◌, ◌≤◌, ℕ, false, length, OnOk, slice_index_or};

use sat_model::memory::Memory;

// Lengthens a list to so many places. What is read of it stays as it was; past its end it is read
// as 0.
pub(crate) fn reach_numbers(xs: &mut Vec<u32>, places: usize) -> Result<(), Memory>
    ensures long { OnOk result (places ≤ length xs.new.items) }
    ensures longer { length xs.old.items ≤ length xs.new.items }
    ensures same { (k : ℕ) → slice_index_or xs.new.items k 0 ≡ slice_index_or xs.old.items k 0 }
{
    if xs.len() < places {
        xs.resize(places, 0)?;
    }
    Ok(())
}

// The same of long numbers.
pub(crate) fn reach_counts(xs: &mut Vec<u64>, places: usize) -> Result<(), Memory>
    ensures long { OnOk result (places ≤ length xs.new.items) }
    ensures longer { length xs.old.items ≤ length xs.new.items }
    ensures same { (k : ℕ) → slice_index_or xs.new.items k 0 ≡ slice_index_or xs.old.items k 0 }
{
    if xs.len() < places {
        xs.resize(places, 0)?;
    }
    Ok(())
}

// The same of flags, which are read as false past the end.
pub(crate) fn reach_flags(xs: &mut Vec<bool>, places: usize) -> Result<(), Memory>
    ensures long { OnOk result (places ≤ length xs.new.items) }
    ensures longer { length xs.old.items ≤ length xs.new.items }
    ensures same { (k : ℕ) → slice_index_or xs.new.items k false ≡ slice_index_or xs.old.items k false }
{
    if xs.len() < places {
        xs.resize(places, false)?;
    }
    Ok(())
}
