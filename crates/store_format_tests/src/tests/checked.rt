//! States with one thing wrong.

use super::whole::stored_state;
use pool_file_format::Fault;
use std::alloc::Global;
use store_format::{CONTENTS_FILE_LIMIT, ContentsFile, State, check_state};

// What is changed in the state of the store: it has the file of contents 1, rows in 2 and records
// in 3, and the next file gets 4.
#[derive(Clone, Copy)]
enum Change {
    Nothing,
    Next(u32),
    RowsNumber(u32),
    RecordsNumber(u32),
    RowsSize(u64),
    Contents(u32, u32),
    SecondContents(u32),
}

const CHANGES: &[(Change, u16)] = &[
    (Change::Nothing, 0),
    (Change::Next(3), 64),
    (Change::RowsNumber(0), 64),
    (Change::RowsNumber(1), 64),
    (Change::RowsNumber(3), 64),
    (Change::RowsNumber(4), 64),
    (Change::RecordsNumber(0), 64),
    (Change::RecordsNumber(1), 64),
    (Change::RecordsNumber(4), 64),
    (Change::RowsSize(165), 64),
    (Change::Contents(0, 164), 64),
    (Change::Contents(2, 164), 64),
    (Change::Contents(3, 164), 64),
    (Change::Contents(4, 164), 64),
    (Change::Contents(1, CONTENTS_FILE_LIMIT), 0),
    (Change::Contents(1, CONTENTS_FILE_LIMIT + 1), 64),
    (Change::SecondContents(1), 64),
    (Change::SecondContents(5), 64),
];

fn set_numbers(state: &mut State, change: Change) {
    match change {
        Change::Next(number) => state.next = number,
        Change::RowsNumber(number) => state.rows.number = number,
        Change::RecordsNumber(number) => state.tenants.number = number,
        Change::RowsSize(size) => state.rows.size = size,
        _ => {}
    }
}

fn set_first(files: &mut [ContentsFile], file: ContentsFile) {
    if let [first, ..] = files {
        *first = file;
    }
}

fn set_contents(state: &mut State, change: Change) -> Result<(), Fault> {
    match change {
        Change::Contents(number, size) => set_first(
            &mut state.contents,
            ContentsFile { number, size },
        ),
        Change::SecondContents(number) => state.contents.push(ContentsFile { number, size: 0 })?,
        _ => {}
    }
    Ok(())
}

fn code_of(alloc: Global, change: Change) -> Result<u16, Fault> {
    let mut state = stored_state(alloc)?;
    set_numbers(&mut state, change);
    set_contents(&mut state, change)?;
    match check_state(&state) {
        Ok(()) => Ok(0),
        Err(fault) => Ok(fault.code()),
    }
}

fn are_judged(alloc: Global) -> bool {
    for (change, code) in CHANGES {
        if code_of(alloc, *change) != Ok(*code) {
            return false;
        }
    }
    true
}

#[test]
fn judges_each_number_and_size(rt: HostRuntime) {
    assert!(rt; are_judged(rt.alloc()));
}
