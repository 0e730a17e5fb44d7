//! The check that each object of a file belongs to a tenant.

ghost use Rattle.std.specs.Prelude.{◌≡◌, ◌↔◌, ◌++◌, [], ◌∷◌, ℕ, List, true, IsTrue, All};
ghost use Rattle.pool_file_checks.specs.{Checks.{Checked}, Held.{AreMarked, held_checks}};
ghost use Rattle.pool_file_format.specs.Shown.{tenants_of};

use pool_file_format::{Fault, RawTenant, Refusal};
use std::alloc::Global;

// Sets the flag of a number, if it has one.
fn mark(flags: &mut [bool], number: u64)
    ensures { (count : ℕ) (numbers : List ℕ) → AreMarked flags.old count numbers
        → AreMarked flags.new count (numbers ++ number ∷ []) }
{
    let place = number as usize;
    if place < flags.len() {
        flags[place] = true;
    }
}

fn mark_all(flags: &mut [bool], more: &[u64])
    ensures { (count : ℕ) (numbers : List ℕ) → AreMarked flags.old count numbers
        → AreMarked flags.new count (numbers ++ more.now) }
{
    for number in more {
        mark(flags, *number);
    }
}

fn are_set(flags: &[bool]) -> bool
    ensures { IsTrue result ↔ All (λ flag. flag ≡ true) flags.now }
{
    flags.iter().all(|flag| *flag)
}

/// Judges whether each of the `count` objects of a file belongs to one of its tenants.
///
/// `Refused` with `NotCanonical` (64) if one does not. `Memory` (90) if there is no memory for one
/// flag for each object.
pub fn check_held(alloc: Global, count: usize, tenants: &[RawTenant]) -> Result<(), Fault>
    ensures { Checked (held_checks count (tenants_of tenants.now)) result }
{
    let mut marks = Vec::from_elem(alloc, false, count)?;
    let flags = marks.as_mut_slice();
    for tenant in tenants {
        mark_all(flags, &tenant.numbers);
    }
    if !are_set(flags) {
        return Err(Fault::Refused(Refusal::NotCanonical));
    }
    Ok(())
}
