//! What records tell.

use super::judged::number_of;
use super::stored::{STORIES, TOLD, TOLD_CODES};
use super::whole::{add_one, code_of};
use pool_file_format::Fault;
use std::alloc::Global;
use store_format::{TenantRecord, Told, read_record, tell};

fn stories_in(alloc: Global, bytes: &[u8]) -> Result<Vec<TenantRecord>, Fault> {
    let mut records = Vec::new(alloc);
    let mut rest = bytes;
    for _ in 0..6 {
        let (tenant, after) = read_record(alloc, rest)?;
        records.push(tenant)?;
        rest = after;
    }
    Ok(records)
}

fn append_ended(text: &mut Vec<u8>, bytes: &[u8]) -> Result<(), Fault> {
    text.extend_from_slice(bytes)?;
    text.push(0)?;
    Ok(())
}

fn append_told(alloc: Global, text: &mut Vec<u8>, told: &Told<'_>) -> Result<(), Fault> {
    append_ended(text, told.name)?;
    for number in &told.numbers {
        text.extend_from_slice(&number.to_be_bytes())?;
    }
    for (name, place) in &told.refs.list(alloc)? {
        append_ended(text, name)?;
        text.extend_from_slice(&place.to_be_bytes())?;
    }
    append_ended(text, told.head)
}

fn told_text(alloc: Global) -> Result<Vec<u8>, Fault> {
    let records = stories_in(alloc, STORIES)?;
    let mut text = Vec::new(alloc);
    for number in 0..6 {
        let told = tell(alloc, &records, number)?;
        append_told(alloc, &mut text, &told)?;
    }
    Ok(text)
}

fn is_told_as_written(alloc: Global) -> Result<bool, Fault> {
    let text = told_text(alloc)?;
    Ok(text.as_slice() == TOLD)
}

fn judge(alloc: Global, bytes: &[u8], number: u32) -> Result<(), Fault> {
    let records = stories_in(alloc, bytes)?;
    let _told = tell(alloc, &records, number)?;
    Ok(())
}

fn code_with_change(alloc: Global, place: usize) -> Result<u16, Fault> {
    let mut bytes = Vec::from_slice(alloc, STORIES)?;
    add_one(&mut bytes, place);
    Ok(code_of(judge(alloc, &bytes, 3)))
}

fn are_judged(alloc: Global) -> bool {
    for (place, digit) in TOLD_CODES.iter().enumerate() {
        if code_with_change(alloc, place) != Ok(number_of(*digit)) {
            return false;
        }
    }
    TOLD_CODES.len() == STORIES.len()
}

#[test]
fn tells_what_each_tenant_has(rt: HostRuntime) {
    assert!(rt; is_told_as_written(rt.alloc()) == Ok(true));
}

#[test]
fn refuses_what_a_record_does_not_find(rt: HostRuntime) {
    assert!(rt; are_judged(rt.alloc()));
    assert!(rt; code_of(judge(rt.alloc(), STORIES, 5)) == 0);
    assert!(rt; code_of(judge(rt.alloc(), STORIES, 6)) == 66);
    assert!(rt; code_of(judge(rt.alloc(), STORIES, 0xffff_ffff)) == 66);
}
