//! Which states are accepted.

ghost use Rattle.std.specs.Prelude.{◌↔◌, ◌≢◌, IsTrue};
ghost use Rattle.pool_file_format.specs.declared.refusal.Refusal.TheVariants as refusal;
ghost use Rattle.store_format.specs.Sound.{IsUsed, IsSoundFile, AreSoundFrom, AreSoundListings};
ghost use Rattle.store_format.specs.Sound.{IsSoundState};
ghost use Rattle.store_format.specs.Shown.{Requires, contents_file_of, contents_files_of, state_of};

use crate::state::{ContentsFile, State};
use pool_file_format::{Fault, Refusal};

/// The most bytes of a file of contents: 2^30.
pub const CONTENTS_FILE_LIMIT: u32 = 1_073_741_824;

// Whether a file has had this number.
fn is_used(state: &State, number: u32) -> bool
    ensures { IsTrue result ↔ IsUsed (state_of state.now) number }
{
    0 < number && number < state.next
}

// Whether the number is that of neither the file of rows nor that of records.
fn is_other(state: &State, number: u32) -> bool
    ensures { IsTrue result
        ↔ ((number ≢ state.now.rows.number) × (number ≢ state.now.tenants.number)) }
{
    number != state.rows.number && number != state.tenants.number
}

// Whether a file of contents may come after the one with the number `last`.
fn is_sound_file(state: &State, last: u32, file: &ContentsFile) -> bool
    ensures { IsTrue result ↔ IsSoundFile (state_of state.now) last (contents_file_of file.now) }
{
    let is_next = last < file.number && file.number < state.next;
    is_next && is_other(state, file.number) && file.size <= CONTENTS_FILE_LIMIT
}

fn are_sound_files(state: &State, files: &[ContentsFile]) -> bool
    ensures { IsTrue result ↔ AreSoundFrom (state_of state.now) 0 (contents_files_of files.now) }
{
    let mut last = 0;
    for file in files {
        if !is_sound_file(state, last, file) {
            return false;
        }
        last = file.number;
    }
    true
}

fn are_sound_listings(state: &State) -> bool
    ensures { IsTrue result ↔ AreSoundListings (state_of state.now) }
{
    let are_used = is_used(state, state.rows.number) && is_used(state, state.tenants.number);
    let is_apart = state.rows.number != state.tenants.number;
    are_used && is_apart && state.rows.size == 41 * u64::from(state.rows.count)
}

/// Judges what a state says of its files.
///
/// `NotCanonical` (64) if the numbers of the files of contents do not rise; if a number is 0, or not
/// below `next`, or that of two files; if a file of contents has more than 2^30 bytes; or if the
/// size of the rows is not 41 times their count. Takes no memory.
pub fn check_state(state: &State) -> Result<(), Fault>
    ensures { Requires (IsSoundState (state_of state.now)) refusal.NotCanonical result }
{
    if !are_sound_listings(state) {
        return Err(Fault::Refused(Refusal::NotCanonical));
    }
    if !are_sound_files(state, &state.contents) {
        return Err(Fault::Refused(Refusal::NotCanonical));
    }
    Ok(())
}
