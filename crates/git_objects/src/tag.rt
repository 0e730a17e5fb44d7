//! The contents of tags: git-mktag(1).

ghost use Rattle.std.specs.Prelude.{◌≡◌, ◌≢◌, ◌↔◌, ◌++◌, length, take, MatchOption, IfSome, IfOk};
ghost use Rattle.std.specs.Prelude.{IsNone, IsSomeAnd, IsTrue, OnOk, OnErr, ⊤, codes};
ghost use Rattle.std.specs.Option.{option_map, option_copied};
ghost use Rattle.git_model.specs.{declared.kind.Kind.{Kind as Kinds}, Kind.{kind_word as word_of}};
ghost use Rattle.git_model.specs.{RefName.{IsRefName}, Tag.{Tag, CanWriteTag, tag_contents}};
ghost use Rattle.git_model.specs.{TagReading.{tag_read}, Readable.{IsReadable}};
ghost use Rattle.git_model.specs.declared.kind.Kind.TheVariants as kind;
ghost use Rattle.git_objects.specs.{Parts.{tag_of}, Fronts.{IsFront}, HeaderParts.{end_lines}};
ghost use Rattle.git_objects.specs.TagParts.{IsTagged, IsTagger, kind_line};

use crate::header::{
    append_end, append_line, append_name_line, find_value, message_in, take_digits_line, take_end,
    take_line, take_name_line,
};
use git_model::Kind;
use git_names::{Memory, Name, is_ref_name, is_written_ident, kind_word};
use std::alloc::Global;

/// The parts of a tag: git-mktag(1). Its texts are borrowed, for example from the contents that
/// were read. Where only `look_tag` reads the contents, the object may be a tree, and name and
/// tagger are any texts on one line.
#[derive(Clone, Copy)]
pub struct TagParts<'a> {
    /// The name of the object that is tagged.
    pub target: Name,
    /// The kind of that object: a commit, a blob or a tag.
    pub kind: Kind,
    /// The tag's own name, without `refs/tags/`.
    pub name: &'a [u8],
    /// Who made the tag and when, if the tag says so: an ident, without the line end.
    pub tagger: Option<&'a [u8]>,
    /// The message, usually with a line end at its end.
    pub message: &'a [u8],
}

fn append_tag(parts: &TagParts<'_>, contents: &mut Vec<u8>) -> Result<(), Memory>
    ensures written { OnOk result (contents.new.items ≡ contents.old.items
        ++ tag_contents (tag_of parts.now)) }
    ensures kept { take (length contents.old.items) contents.new.items ≡ contents.old.items }
{
    append_name_line(b"object ", &parts.target, contents)?;
    append_line(b"type ", kind_word(parts.kind), contents)?;
    append_line(b"tag ", parts.name, contents)?;
    append_end(b"tagger ", parts.tagger, parts.message, contents)
}

/// Appends the contents of a tag: git-mktag(1).
///
/// Any parts can be written. `read_tag` reads the contents back if the kind is not tree,
/// `refs/tags/` followed by the name is a ref name, and the tagger, if there is one, is an ident
/// that does not begin with `<`. `Memory` (90) if there is no memory for all of it; `contents` is
/// then unchanged.
pub fn write_tag(parts: &TagParts<'_>, contents: &mut Vec<u8>) -> Result<(), Memory>
    ensures written { OnOk result (contents.new.items ≡ contents.old.items
        ++ tag_contents (tag_of parts.now)) }
    ensures same { OnErr result (contents.new.items ≡ contents.old.items) }
{
    let start = contents.len();
    let written = append_tag(parts, contents);
    if written.is_err() {
        contents.truncate(start);
    }
    written
}

fn read_kind(word: &[u8]) -> Option<Kind>
    ensures { MatchOption result ((kind : Kinds) → word.now ≢ word_of kind)
        (λ kind. word.now ≡ word_of kind) }
{
    match word {
        b"commit" => Some(Kind::Commit),
        b"tree" => Some(Kind::Tree),
        b"blob" => Some(Kind::Blob),
        b"tag" => Some(Kind::Tag),
        _ => None,
    }
}

// Objects of every kind but tree can be tagged.
fn take_kind(bytes: &[u8]) -> Option<(Kind, &[u8])>
    ensures { IsFront IsTagged kind_line bytes.now (option_map (λ x. (x.0, x.1.now)) result) }
{
    let (word, rest) = take_line(b"type ", bytes)?;
    match read_kind(word) {
        None | Some(Kind::Tree) => None,
        Some(kind) => Some((kind, rest)),
    }
}

// Whether `refs/tags/` followed by this name is a ref name.
fn is_tag_name(alloc: Global, name: &[u8]) -> Result<bool, Memory>
    ensures { IfOk result (λ b. IsTrue b ↔ IsRefName (codes "refs/tags/" ++ name.now)) }
{
    let mut ref_name = Vec::from_slice(alloc, b"refs/tags/")?;
    ref_name.extend_from_slice(name)?;
    Ok(is_ref_name(&ref_name))
}

fn is_tagger(tagger: Option<&[u8]>) -> bool
    ensures { IsTrue result ↔ IsTagger (option_copied tagger.entry) }
{
    match tagger {
        Some(text) => is_written_ident(text),
        None => true,
    }
}

fn take_tagger(bytes: &[u8]) -> Option<(Option<&[u8]>, &[u8])>
    ensures { IsFront IsTagger (end_lines (codes "tagger ")) bytes.now
        (option_map (λ x. (option_copied x.0, x.1.now)) result) }
{
    let (tagger, message) = take_end(b"tagger ", bytes)?;
    if is_tagger(tagger) {
        Some((tagger, message))
    } else {
        None
    }
}

/// Reads the contents of a tag: git-mktag(1). The texts of the parts are borrowed from the
/// contents.
///
/// `None` if no tag that can be written has these contents: a header line is missing, repeated or
/// out of place; the object name is not 40 lowercase hexadecimal digits; the type is `tree`;
/// `refs/tags/` followed by the tag's name is not a ref name; or the tagger is not an ident or
/// begins with `<`. `Memory` (90) if there is no memory to check that ref name.
pub fn read_tag(alloc: Global, contents: &[u8]) -> Result<Option<TagParts<'_>>, Memory>
    ensures found { IfOk result (λ r. IfSome r
        (λ parts. CanWriteTag (tag_of parts) × (contents.now ≡ tag_contents (tag_of parts)))) }
    ensures only { (t : Tag) → CanWriteTag t → contents.now ≡ tag_contents t
        → IfOk result (λ r. IsSomeAnd r (λ parts. tag_of parts ≡ t)) }
    ensures read { IfOk result (λ r. IfSome r (λ parts. tag_of parts ≡ tag_read contents.now)) }
    ensures exact { IfOk result (λ r. IsNone r → (t : Tag) → CanWriteTag t → contents.now
        ≢ tag_contents t) }
{
    let Some(first) = take_name_line(b"object ", contents) else {
        return Ok(None);
    };
    let (target, rest) = first;
    let Some((kind, rest)) = take_kind(rest) else {
        return Ok(None);
    };
    let Some((name, rest)) = take_line(b"tag ", rest) else {
        return Ok(None);
    };
    let Some((tagger, message)) = take_tagger(rest) else {
        return Ok(None);
    };
    if !is_tag_name(alloc, name)? {
        return Ok(None);
    }
    Ok(Some(TagParts {
        target,
        kind,
        name,
        tagger,
        message,
    }))
}

fn take_any_kind(bytes: &[u8]) -> Option<(Kind, &[u8])>
    ensures { IsFront (λ _. ⊤) kind_line bytes.now (option_map (λ x. (x.0, x.1.now)) result) }
{
    let (word, rest) = take_line(b"type ", bytes)?;
    match read_kind(word) {
        Some(kind) => Some((kind, rest)),
        None => None,
    }
}

/// Reads the contents of any tag that Git can walk, whoever wrote it: git-cat-file(1), -p. The
/// texts of the parts are borrowed from the contents. Takes no memory.
///
/// `None` if the contents do not begin with the lines `object` with 40 hexadecimal digits of either
/// case, `type` with one of the four kinds, and `tag`. The tagger is any text, and so is the name,
/// which may be empty. A tag that `read_tag` reads has the same parts here.
pub fn look_tag(contents: &[u8]) -> Option<TagParts<'_>>
    ensures { MatchOption result (¬ IsReadable kind.Tag contents.now)
        (λ parts. IsReadable kind.Tag contents.now × (tag_of parts ≡ tag_read contents.now)) }
{
    let Some(first) = take_digits_line(b"object ", contents) else {
        return None;
    };
    let ((target, _digits), rest) = first;
    let (kind, rest) = take_any_kind(rest)?;
    let (name, rest) = take_line(b"tag ", rest)?;
    let tagger = find_value(b"tagger ", rest);
    let message = message_in(rest);
    Some(TagParts {
        target,
        kind,
        name,
        tagger,
        message,
    })
}
