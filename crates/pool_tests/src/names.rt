//! What no clause says about an index of names: that its calls succeed where there is memory.

use git_objects::{Memory, Name};
use name_index::{Between, NameIndex};
use std::alloc::Global;
use std::test::Fail;

// A step: what is done to an index, or what it finds. A byte stands for the name that repeats it.
#[derive(Clone, Copy)]
enum Step {
    // The names from one to another are added, without the last.
    Add(u8, u8),
    Commit,
    RollBack,
    // Among all names or the committed ones, these lie from one to another; of several, two.
    Find(bool, u8, u8, &'static [u8]),
}

const STEPS: &[Step] = &[
    Step::Add(0, 150),
    Step::Find(true, 7, 7, &[7]),
    Step::Find(false, 7, 7, &[]),
    Step::Commit,
    Step::Find(false, 149, 255, &[149]),
    Step::Add(150, 250),
    Step::Find(true, 149, 150, &[149, 150]),
    Step::Find(false, 149, 150, &[149]),
    Step::RollBack,
    Step::Find(true, 150, 255, &[]),
    Step::Add(200, 201),
    Step::Find(true, 150, 255, &[200]),
    Step::Find(true, 0, 1, &[0, 1]),
];

#[test]
fn names_are_found_in_what_an_index_has(rt: HostRuntime) -> Result<(), Fail> {
    assert_eq!(rt; first_wrong(rt.alloc())?, None);
    Ok(())
}

// The position of the first step that goes another way.
fn first_wrong(alloc: Global) -> Result<Option<usize>, Memory> {
    let mut index = NameIndex::new(alloc);
    let wrong = first_wrong_of(&mut index);
    drop(index);
    wrong
}

// Apart from the function that owns the index: each way out of an owner makes its proof longer.
fn first_wrong_of(index: &mut NameIndex) -> Result<Option<usize>, Memory> {
    for (place, step) in STEPS.iter().enumerate() {
        if !takes(index, step)? {
            return Ok(Some(place));
        }
    }
    Ok(None)
}

// Whether a step goes as it says.
fn takes(index: &mut NameIndex, step: &Step) -> Result<bool, Memory> {
    match step {
        Step::Add(first, end) => add(index, *first, *end)?,
        Step::Commit => index.commit(),
        Step::RollBack => index.roll_back(),
        Step::Find(all, first, last, found) => {
            return Ok(index.between(&name(*first), &name(*last), *all) == found_of(found));
        }
    }
    Ok(true)
}

fn add(index: &mut NameIndex, first: u8, end: u8) -> Result<(), Memory> {
    for byte in first..end {
        index.reserve()?;
        index.insert(name(byte));
    }
    Ok(())
}

fn name(byte: u8) -> Name {
    Name::from_bytes([byte; 20])
}

// What is found where these lie.
fn found_of(bytes: &[u8]) -> Between {
    match bytes {
        [] => Between::None,
        [byte] => Between::One(name(*byte)),
        _ => Between::Many,
    }
}
