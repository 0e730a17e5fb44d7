//! Rows and records of which one byte is greater by one, judged without their chains.

use super::stored::{CONTENTS, COUNT_CODES, NAME_CODES, PLACE_CODES, RECORDS, ROWS};
use super::whole::{add_one, code_of, stored_state};
use git_names::Sha1Naming;
use pool_file_format::Fault;
use std::alloc::Global;
use store_format::{
    LentFile, Row, TenantRecord, check_names, check_places, count_objects, read_record, read_row,
};

// What is judged.
#[derive(Clone, Copy)]
enum Judged {
    Places,
    Names,
    Counts,
}

fn rows_in(alloc: Global, bytes: &[u8]) -> Result<Vec<Row>, Fault> {
    let mut rows = Vec::new(alloc);
    let mut rest = bytes;
    for _ in 0..4 {
        let (row, after) = read_row(rest)?;
        rows.push(row)?;
        rest = after;
    }
    Ok(rows)
}

fn records_in(alloc: Global, bytes: &[u8]) -> Result<Vec<TenantRecord>, Fault> {
    let (first, rest) = read_record(alloc, bytes)?;
    let (copy, _rest) = read_record(alloc, rest)?;
    let mut records = Vec::new(alloc);
    records.push(first)?;
    records.push(copy)?;
    Ok(records)
}

fn judge_places(alloc: Global, bytes: &[u8]) -> Result<(), Fault> {
    let state = stored_state(alloc)?;
    let rows = rows_in(alloc, bytes)?;
    check_places(&state, &rows)
}

fn judge_names_of(alloc: Global, rows: &[Row]) -> Result<(), Fault> {
    let files = [LentFile {
        number: 1,
        bytes: CONTENTS,
    }];
    check_names(alloc, &Sha1Naming, &files, rows)
}

fn judge_names(alloc: Global, bytes: &[u8]) -> Result<(), Fault> {
    let rows = rows_in(alloc, bytes)?;
    judge_names_of(alloc, &rows)
}

fn counts_in(alloc: Global, bytes: &[u8]) -> Result<Vec<u64>, Fault> {
    let records = records_in(alloc, bytes)?;
    count_objects(alloc, &records)
}

fn code_with(alloc: Global, judged: Judged, bytes: &[u8]) -> u16 {
    match judged {
        Judged::Places => code_of(judge_places(alloc, bytes)),
        Judged::Names => code_of(judge_names(alloc, bytes)),
        Judged::Counts => code_of(counts_in(alloc, bytes)),
    }
}

fn code_with_change(
    alloc: Global,
    judged: Judged,
    file: &[u8],
    place: usize,
) -> Result<u16, Fault> {
    let mut bytes = Vec::from_slice(alloc, file)?;
    add_one(&mut bytes, place);
    Ok(code_with(alloc, judged, &bytes))
}

/// The number of a fault by its last digit. 0 stands for a file that passes.
pub fn number_of(digit: u8) -> u16 {
    match digit {
        b'0' => 0,
        digit => 60 + u16::from(digit.saturating_sub(b'0')),
    }
}

fn are_judged(alloc: Global, judged: Judged, file: &[u8], digits: &[u8]) -> bool {
    for (place, digit) in digits.iter().enumerate() {
        if code_with_change(alloc, judged, file, place) != Ok(number_of(*digit)) {
            return false;
        }
    }
    digits.len() == file.len() && code_with(alloc, judged, file) == 0
}

fn are_counts_found(alloc: Global) -> Result<bool, Fault> {
    let counts = counts_in(alloc, RECORDS)?;
    Ok(counts.as_slice() == [3, 4].as_slice())
}

// A row whose kind is this one.
fn code_of_kind(alloc: Global, kind: u8) -> Result<u16, Fault> {
    let mut bytes = Vec::from_slice(alloc, ROWS)?;
    if let Some(byte) = bytes.get_mut(20) {
        *byte = kind;
    }
    Ok(code_with(alloc, Judged::Names, &bytes))
}

#[test]
fn judges_each_place(rt: HostRuntime) {
    assert!(rt; are_judged(rt.alloc(), Judged::Places, ROWS, PLACE_CODES));
}

#[test]
fn judges_each_name(rt: HostRuntime) {
    assert!(rt; are_judged(rt.alloc(), Judged::Names, ROWS, NAME_CODES));
    assert!(rt; code_of_kind(rt.alloc(), 0) == Ok(65));
    assert!(rt; code_of_kind(rt.alloc(), 5) == Ok(65));
}

#[test]
fn judges_what_records_stand_on(rt: HostRuntime) {
    assert!(rt; are_judged(rt.alloc(), Judged::Counts, RECORDS, COUNT_CODES));
    assert!(rt; are_counts_found(rt.alloc()) == Ok(true));
}
