//! What the header lines of an open commit or tag have said: git-fast-import(1), "commit" and
//! "tag".

ghost use Rattle.std.specs.Prelude.{◌≡◌, Some, IfErr, OnOk};
ghost use Rattle.stream_grammar.specs.Shown.{commit_shown};
ghost use Rattle.stream_parts.specs.Headers.{new_commit_header, new_tag_header};

use crate::encoding::Encoding;
use crate::fault::Fault;
use crate::target::Target;
use git_model::FileMode;
use git_paths::Path;
use std::alloc::Global;
use stream_grammar::{CommitIsh, Ident};
use tenant_refs::RefName;

/// What the lines of a commit before its message have said.
#[derive(Drop)]
pub struct CommitHeader {
    /// The ref of its branch.
    pub ref_name: RefName,
    /// Who wrote it; if absent, its committer did.
    pub author: Option<Ident>,
    /// Who made it.
    pub committer: Option<Ident>,
    /// The encoding of its message, if it is not UTF-8.
    pub encoding: Option<Encoding>,
}

impl CommitHeader {
    /// A commit that has named its branch and nothing else yet. Allocates nothing.
    pub fn new(ref_name: RefName) -> CommitHeader
        ensures { result ≡ new_commit_header ref_name }
    {
        CommitHeader {
            ref_name,
            author: None,
            committer: None,
            encoding: None,
        }
    }
}

/// What the lines of a tag before its message have said.
#[derive(Drop)]
pub struct TagHeader {
    /// Its ref.
    pub ref_name: RefName,
    /// The commit-ish that it tags.
    pub target: Option<Target>,
    /// Who made it.
    pub tagger: Option<Ident>,
}

impl TagHeader {
    /// A tag that has named its ref and nothing else yet. Allocates nothing.
    pub fn new(ref_name: RefName) -> TagHeader
        ensures { result ≡ new_tag_header ref_name }
    {
        TagHeader {
            ref_name,
            target: None,
            tagger: None,
        }
    }
}

/// A file of the open commit that waits for its data.
#[derive(Drop)]
pub struct InlineFile {
    /// The mode of the file.
    pub mode: FileMode,
    /// The path of the file.
    pub path: Path,
}

/// Sets what the open tag names. `Fault::Memory` (90) if it cannot be copied.
pub fn set_target(
    alloc: Global,
    said: &CommitIsh<'_>,
    target: &mut Option<Target>,
) -> Result<(), Fault>
    ensures set { OnOk result (target.new ≡ Some (commit_shown said.now)) }
    ensures refused { IfErr result (λ fault. fault ≡ Fault.Memory) }
{
    *target = Some(Target::copy_of(alloc, said)?);
    Ok(())
}

/// Sets an ident of the open command. `Fault::Memory` (90) if it cannot be copied.
pub fn set_ident(alloc: Global, said: &Ident, ident: &mut Option<Ident>) -> Result<(), Fault>
    ensures set { OnOk result (ident.new ≡ Some said.now) }
    ensures refused { IfErr result (λ fault. fault ≡ Fault.Memory) }
{
    *ident = Some(said.try_clone(alloc)?);
    Ok(())
}

/// Sets the encoding of the open commit. `Fault::Memory` (90) if it cannot be copied.
pub fn set_encoding(
    alloc: Global,
    said: &[u8],
    encoding: &mut Option<Encoding>,
) -> Result<(), Fault>
    ensures set { OnOk result (encoding.new ≡ Some said.now) }
    ensures refused { IfErr result (λ fault. fault ≡ Fault.Memory) }
{
    *encoding = Some(Encoding::copy_of(alloc, said)?);
    Ok(())
}
