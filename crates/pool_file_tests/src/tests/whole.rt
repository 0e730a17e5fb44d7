//! What whole files say, in the order of the checks.

use super::judged::code_of_judging;
use super::lines::{code_in, file_of, is_row};
use super::parts::{code_of, printed};
use git_names::Sha1Naming;
use pool_file_checks::{check_file, name_objects};
use pool_file_format::{Fault, RawFile};
use std::alloc::Global;

// Files as module `lines` reads them.
const ROWS: &[u8] = b"\
    .2\n\
    .1 cefbt t10324MV\n\
    .2 cefbt t10324MV\n\
    .2 cefbt t104 u/v32\n\
    # Objects come before all tenants.\n\
    42 BA t01\n\
    52 x -0\n\
    # Of one tenant names come before references, these before the sizes of trees, and these\n\
    # before refs.\n\
    42 cefbt t22\n\
    62 cefbt t2\n\
    52 efd t02M\n\
    62 efd t021M\n\
    72 cefbt t13M\n\
    # A name of two parts in version 1, and names out of order.\n\
    41 cefbt t/a10324\n\
    42 cefbt u10324 t10324\n\
    # One tenant comes before the next.\n\
    62 cefbt t2 -10324\n\
    # Tenants of the same objects, whose refs are judged each by themselves, and one of others.\n\
    .2 cefbt t10324MV u10324\n\
    72 cefbt s10324 t10324N\n\
    62 cefbt t10324 u10324 v2\n\
    # What no tenant has comes last.\n\
    42 cefbt t1032M\n\
    62 cefbt t13 u4\n\
    # Another HEAD.\n\
    .2 cefbt t10324MVK\n\
    # An object twice in the list, and twice in a tenant.\n\
    42 AA t01\n\
    42 A t00\n\
    # An object that nobody has.\n\
    42 AB t0\n\
    # Five objects have no place 5.\n\
    62 cefbt t10324O\n\
    # HEAD names no ref, and the tag `v` stands under another one.\n\
    72 cefbt t10324MVH\n\
    72 cefbt t10324W\n\
    # A commit before its tree, and a ref to a blob.\n\
    62 cefbt t01324MV\n\
    71 D t0N\n\
    # A bad object.\n\
    52 x t0\n";

fn code_of_checks(alloc: Global, file: &RawFile) -> Result<u16, Fault> {
    let names = name_objects(alloc, &Sha1Naming, &file.objects)?;
    Ok(code_of(check_file(alloc, &names, file)))
}

fn code_when_printed(alloc: Global, file: &RawFile) -> Result<u16, Fault> {
    let bytes = printed(alloc, &Sha1Naming, file)?;
    Ok(code_of_judging(alloc, &Sha1Naming, &bytes))
}

// Whether a file is judged as its line says, both as it is and printed with its digest.
fn is_judged_as(alloc: Global, file: &RawFile, code: u16) -> Result<bool, Fault> {
    Ok(code_of_checks(alloc, file)? == code && code_when_printed(alloc, file)? == code)
}

fn is_judged_so(alloc: Global, line: &[u8]) -> Result<bool, Fault> {
    let file = file_of(alloc, line)?;
    is_judged_as(alloc, &file, code_in(line))
}

#[test]
fn judges_whole_files(rt: HostRuntime) {
    for line in ROWS.split(|byte| *byte == b'\n') {
        if is_row(line) {
            assert!(rt; is_judged_so(rt.alloc(), line) == Ok(true));
        }
    }
}
