//! Tags: git-fast-import(1), "tag".

ghost use Rattle.std.specs.Prelude.{◌≡◌, ◌≢◌, ◌<◌, length, Ok, Err, MatchResult, IfOk, OnOk, IfErr};
ghost use Rattle.std.specs.{Option.{option_map}, Vec.{vec_capacity}};
ghost use Rattle.indexmap.specs.IndexMap.{spare};
ghost use Rattle.git_model.specs.{Content.{content_from}, References.{kind_named}};
ghost use Rattle.content_pool.specs.Pool.{HasHoldsLeft};
ghost use Rattle.tenant_tables.specs.{IsBackedBy.{IsBackedBy}, Lent.{Keeps}};
ghost use Rattle.stream_parts.specs.Tags.{room_for_tag, tag_content, tagged_kind};
ghost use Rattle.stream_parts.specs.Stored.{Stores};

use crate::fault::Fault;
use crate::headers::TagHeader;
use crate::objects::store;
use content_pool::Pool;
use git_objects::{Kind, Name, Naming, TagParts, write_tag};
use std::alloc::Global;
use stream_grammar::Ident;
use tenant_refs::RefName;
use tenant_tables::{Objects, Table};

/// How many tags may wait for a checkpoint.
pub const TAGS_LIMIT: usize = 65_536;

// The prefix of a tag's ref, before the tag's own name.
const TAGS: &[u8] = b"refs/tags/";

/// The kind of the tagged object: a commit, a blob or a tag.
pub fn tagged_kind<N: Naming>(objects: &Objects<'_, N>, target: Name) -> Result<Kind, Fault>
    ensures { result ≡ tagged_kind (kind_named target objects.now) }
{
    match objects.get(&target) {
        None => Err(Fault::UnknownRevision),
        Some((Kind::Tree, _)) => Err(Fault::WrongKind),
        Some((kind, _)) => Ok(kind),
    }
}

/// Makes room for one more tag. The tags are unchanged.
pub fn make_room(tags: &mut Vec<(RefName, Name)>) -> Result<(), Fault>
    ensures room { MatchResult result (λ _. room_for_tag tags.old.items ≡ Ok tt)
        (λ fault. fault ≢ Fault.Memory → room_for_tag tags.old.items ≡ Err fault) }
    ensures spare { OnOk result (length tags.new.items < vec_capacity tags.new) }
    ensures same { tags.new.items ≡ tags.old.items }
{
    if tags.len() >= TAGS_LIMIT {
        return Err(Fault::Limit);
    }
    tags.reserve(1)?;
    Ok(())
}

// A tagger's text, if there is one.
fn tagger_text(tagger: &Option<Ident>) -> Option<&[u8]>
    ensures { option_map (λ text. text.now) result ≡ tagger.now }
{
    match tagger {
        Some(ident) => Some(ident.as_bytes()),
        None => None,
    }
}

// The contents of the tag object.
fn write(
    alloc: Global,
    header: &TagHeader,
    target: Name,
    kind: Kind,
    message: &[u8],
) -> Result<Vec<u8>, Fault>
    ensures written { IfOk result (λ bytes. content_from Kind.Tag bytes.items
        ≡ tag_content header.now message.now target kind) }
    ensures refused { IfErr result (λ fault. fault ≡ Fault.Memory) }
{
    let mut contents = Vec::new(alloc);
    let ref_name = header.ref_name.as_bytes();
    let parts = TagParts {
        target,
        kind,
        name: &ref_name[TAGS.len().min(ref_name.len())..],
        tagger: tagger_text(&header.tagger),
        message,
    };
    write_tag(&parts, &mut contents)?;
    Ok(contents)
}

/// Writes a tag and stores it.
pub fn store_written<N: Naming>(
    pool: &mut Pool<N>,
    table: &mut Table,
    alloc: Global,
    header: &TagHeader,
    target: Name,
    kind: Kind,
    message: &[u8],
) -> Result<Name, Fault>
    requires stands { IsBackedBy N.digest_of pool.old table.old.entries }
    requires room { HasHoldsLeft pool.old }
    ensures keeps { Keeps N.digest_of pool.old table.old pool.new table.new }
    ensures stores { Stores N.digest_of (tag_content header.now message.now target kind) pool.old
        table.old pool.new table.new result }
{
    let contents = write(alloc, header, target, kind, message)?;
    store(pool, table, Kind::Tag, &contents)
}
