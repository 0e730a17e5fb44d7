//! A store byte by byte: read, refused, and written again.

use super::stored::{RECORD_CODES, RECORDS, ROW_CODES, ROWS, STATE, STATE_CODES};
use git_names::Sha1Naming;
use pool_file_format::Fault;
use std::alloc::Global;
use store_format::{
    AppendFault, Listing, NO_CHAIN, Row, State, Summary, TenantRecord, append_records, append_rows,
    append_state, read_records, read_rows, read_state,
};

// Which file of the store.
#[derive(Clone, Copy)]
enum Part {
    State,
    Rows,
    Records,
}

/// The number of a fault, and 0 where there is none.
pub fn code_of<T: Drop>(answer: Result<T, Fault>) -> u16 {
    match answer {
        Ok(_) => 0,
        Err(fault) => fault.code(),
    }
}

/// The state of the store.
pub fn stored_state(alloc: Global) -> Result<State, Fault> {
    read_state(alloc, &Sha1Naming, STATE)
}

fn rows_in(alloc: Global, bytes: &[u8]) -> Result<Vec<Row>, Fault> {
    let state = stored_state(alloc)?;
    read_rows(alloc, &Sha1Naming, &state.rows, bytes)
}

fn records_in(alloc: Global, bytes: &[u8]) -> Result<Vec<TenantRecord>, Fault> {
    let state = stored_state(alloc)?;
    read_records(alloc, &Sha1Naming, &state.tenants, bytes)
}

// What is answered if a file of the store has these bytes.
fn code_with(alloc: Global, part: Part, bytes: &[u8]) -> u16 {
    match part {
        Part::State => code_of(read_state(alloc, &Sha1Naming, bytes)),
        Part::Rows => code_of(rows_in(alloc, bytes)),
        Part::Records => code_of(records_in(alloc, bytes)),
    }
}

/// Makes a byte greater by one.
pub fn add_one(bytes: &mut [u8], place: usize) {
    if place < bytes.len() {
        bytes[place] = bytes[place].wrapping_add(1);
    }
}

fn code_with_change(alloc: Global, part: Part, file: &[u8], place: usize) -> Result<u16, Fault> {
    let mut bytes = Vec::from_slice(alloc, file)?;
    add_one(&mut bytes, place);
    Ok(code_with(alloc, part, &bytes))
}

fn are_refused(alloc: Global, part: Part, file: &[u8], digits: &[u8]) -> bool {
    for (place, digit) in digits.iter().enumerate() {
        let wanted = 60 + u16::from(digit.saturating_sub(b'0'));
        if code_with_change(alloc, part, file, place) != Ok(wanted) {
            return false;
        }
    }
    digits.len() == file.len()
}

fn are_fronts_refused(alloc: Global, part: Part, file: &[u8]) -> bool {
    for size in 0..file.len() {
        if code_with(alloc, part, file.split_at(size).0) != 62 {
            return false;
        }
    }
    code_with(alloc, part, file) == 0
}

fn code_with_more(alloc: Global, part: Part, file: &[u8]) -> Result<u16, Fault> {
    let mut bytes = Vec::from_slice(alloc, file)?;
    bytes.push(0)?;
    Ok(code_with(alloc, part, &bytes))
}

// A file of this number that has nothing yet.
fn empty(number: u32) -> Listing {
    Listing {
        number,
        count: 0,
        size: 0,
        chain: NO_CHAIN,
    }
}

fn is_same(listing: &Listing, other: &Listing) -> bool {
    let are_counts_same = listing.count == other.count && listing.size == other.size;
    are_counts_same && listing.number == other.number && listing.chain == other.chain
}

fn is_listing(answer: Result<Listing, AppendFault>, wanted: &Listing) -> bool {
    match answer {
        Ok(listing) => is_same(&listing, wanted),
        Err(_) => false,
    }
}

fn is_state_written(alloc: Global) -> Result<bool, Fault> {
    let state = stored_state(alloc)?;
    let mut text = Vec::new(alloc);
    append_state(alloc, &Sha1Naming, &mut text, &state)?;
    Ok(text.as_slice() == STATE)
}

// The rows are appended to `front`, which has some of them already.
fn are_rows_written(alloc: Global, front: &Listing, rows: &[Row], bytes: &[u8]) -> bool {
    let Ok(state) = stored_state(alloc) else {
        return false;
    };
    let mut text = Vec::new(alloc);
    let answer = append_rows(alloc, &Sha1Naming, &mut text, front, rows);
    is_listing(answer, &state.rows) && text.as_slice() == bytes
}

fn are_all_rows_written(alloc: Global) -> Result<bool, Fault> {
    let rows = rows_in(alloc, ROWS)?;
    Ok(are_rows_written(alloc, &empty(2), &rows, ROWS))
}

fn are_all_records_written(alloc: Global) -> Result<bool, Fault> {
    let state = stored_state(alloc)?;
    let records = records_in(alloc, RECORDS)?;
    let mut text = Vec::new(alloc);
    let answer = append_records(alloc, &Sha1Naming, &mut text, &empty(3), &records);
    Ok(is_listing(answer, &state.tenants) && text.as_slice() == RECORDS)
}

// A save of the first row, and then one of the others.
fn are_two_saves_one(alloc: Global) -> Result<bool, Fault> {
    let rows = rows_in(alloc, ROWS)?;
    let (first, others) = rows.split_at(rows.len().min(1));
    let mut text = Vec::new(alloc);
    match append_rows(alloc, &Sha1Naming, &mut text, &empty(2), first) {
        Ok(front) => Ok(are_rows_written(alloc, &front, others, ROWS.split_at(41).1)),
        Err(_) => Ok(false),
    }
}

const ONE_FILE: Summary = Summary {
    files: 1,
    depth: 1,
    longest: 1,
};

fn are_summaries_read(rows: &[Row]) -> bool {
    match rows {
        [blob, tree, commit, odd] => {
            let is_tree_read = tree.summary == Some(ONE_FILE) && tree.offset == 6;
            let are_others_none = blob.summary == None && commit.summary == None;
            is_tree_read && are_others_none && odd.summary == None && odd.kind == 2
        }
        _ => false,
    }
}

fn is_copy_read(records: &[TenantRecord]) -> bool {
    match records {
        [first, copy] => {
            let has_base = first.base == None && copy.base == Some(0);
            has_base
                && copy.shared == 3
                && copy.numbers.as_slice() == [3].as_slice()
                && copy.name.as_slice() == b"u".as_slice()
        }
        _ => false,
    }
}

fn are_values_read(alloc: Global) -> Result<bool, Fault> {
    let rows = rows_in(alloc, ROWS)?;
    let records = records_in(alloc, RECORDS)?;
    Ok(are_summaries_read(&rows) && is_copy_read(&records))
}

// A listing that is at the limit of its count.
fn is_full_refused(alloc: Global) -> Result<bool, Fault> {
    let rows = rows_in(alloc, ROWS)?;
    let mut full = empty(2);
    full.count = 0xffff_fffd;
    let mut text = Vec::new(alloc);
    let answer = append_rows(alloc, &Sha1Naming, &mut text, &full, &rows);
    Ok(matches!(answer, Err(AppendFault::Limit)) && text.is_empty())
}

#[test]
fn reads_what_a_script_wrote(rt: HostRuntime) {
    assert!(rt; are_values_read(rt.alloc()) == Ok(true));
}

#[test]
fn refuses_each_changed_byte(rt: HostRuntime) {
    assert!(rt; are_refused(rt.alloc(), Part::State, STATE, STATE_CODES));
    assert!(rt; are_refused(rt.alloc(), Part::Rows, ROWS, ROW_CODES));
    assert!(rt; are_refused(rt.alloc(), Part::Records, RECORDS, RECORD_CODES));
}

#[test]
fn refuses_each_shorter_front(rt: HostRuntime) {
    assert!(rt; are_fronts_refused(rt.alloc(), Part::State, STATE));
    assert!(rt; are_fronts_refused(rt.alloc(), Part::Rows, ROWS));
    assert!(rt; are_fronts_refused(rt.alloc(), Part::Records, RECORDS));
}

#[test]
fn counts_no_byte_after_the_sizes(rt: HostRuntime) {
    assert!(rt; code_with_more(rt.alloc(), Part::State, STATE) == Ok(69));
    assert!(rt; code_with_more(rt.alloc(), Part::Rows, ROWS) == Ok(0));
    assert!(rt; code_with_more(rt.alloc(), Part::Records, RECORDS) == Ok(0));
}

#[test]
fn writes_what_was_read(rt: HostRuntime) {
    assert!(rt; is_state_written(rt.alloc()) == Ok(true));
    assert!(rt; are_all_rows_written(rt.alloc()) == Ok(true));
    assert!(rt; are_all_records_written(rt.alloc()) == Ok(true));
}

#[test]
fn goes_on_with_the_chain(rt: HostRuntime) {
    assert!(rt; are_two_saves_one(rt.alloc()) == Ok(true));
}

#[test]
fn appends_nothing_at_the_limit(rt: HostRuntime) {
    assert!(rt; is_full_refused(rt.alloc()) == Ok(true));
}
