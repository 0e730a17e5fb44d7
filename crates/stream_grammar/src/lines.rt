//! What an item asks for, by its words and its place; git-fast-import(1), "Commands".

ghost use Rattle.std.specs.{List.{list_all}, Prelude.{◌==◌, not, ◌≡◌, OnErr, Ok}};
ghost use Rattle.stream_lex.specs.Looking.{item_of};
ghost use Rattle.stream_grammar.specs.{Faults.{Gives}, Names.{commit_ish_of}, Acts.{Commit, Merge}};
ghost use Rattle.stream_grammar.specs.{Texts.{read}, Shown.{act_shown, Brings}};
ghost use Rattle.stream_grammar.specs.Features as features;
ghost use Rattle.stream_grammar.specs.Lines as lines;
ghost use Rattle.stream_grammar.specs.Changes as changes;
ghost use Rattle.stream_grammar.specs.declared.part.ChangeLine.TheVariants as change;

use crate::act::{
    Act, CommitCommand, ControlCommand, FileChange, ObjectCommand, RefCommand, ReplyCommand,
};
use crate::changes::{is_quoted, last_path, modified, modified_inline, object_and_path, paths_of};
use crate::fault::Fault;
use crate::feature::{OptionCommand, feature_of, in_time, option_of, quiet_of};
use crate::mark::Mark;
use crate::names::{commit_ish_of, head_of, ident_of, ref_of, tag_ref_of};
use crate::part::{
    ChangeLine, CommitIshLine, ControlLine, HeaderLine, OpeningLine, Part, ReplyLine,
};
use crate::stage::Opened;
use crate::text::{argument, dataref_of, mark_of};
use std::alloc::Global;
use stream_lex::Item;

// A `from`, by the open command.
fn from_act(opened: Opened, text: &[u8]) -> Result<Act<'_>, Fault>
    ensures { Gives act_shown result
        (read (commit_ish_of text.now) (λ commit. Ok (lines.from_act opened commit))) }
{
    match (commit_ish_of(text), opened) {
        (Ok(commit), Opened::Changes) => Ok(Act::Commit(CommitCommand::From(commit))),
        (Ok(commit), Opened::Tag) => Ok(Act::Object(ObjectCommand::TagTarget(commit))),
        (Ok(commit), Opened::Reset) => Ok(Act::Ref(RefCommand::ResetFrom(commit))),
        (Ok(_), _) => Ok(Act::Wait),
        (Err(fault), _) => Err(fault),
    }
}

// The `to` of an alias.
fn alias_act(mark: Option<Mark>, text: &[u8]) -> Result<Act<'_>, Fault>
    ensures { Gives act_shown result
        (read (commit_ish_of text.now) (λ commit. Ok (lines.alias_act mark commit))) }
{
    match (commit_ish_of(text), mark) {
        (Ok(commit), Some(mark)) => Ok(Act::Ref(RefCommand::Alias { mark, commit })),
        (Ok(_), None) => Ok(Act::Wait),
        (Err(fault), _) => Err(fault),
    }
}

// A `merge`.
fn merge_act(text: &[u8]) -> Result<Act<'_>, Fault>
    ensures { Gives act_shown result
        (read (commit_ish_of text.now) (λ commit. Ok (Commit (Merge commit)))) }
{
    match commit_ish_of(text) {
        Ok(commit) => Ok(Act::Commit(CommitCommand::Merge(commit))),
        Err(fault) => Err(fault),
    }
}

// Whether no byte of a text is a line end.
fn is_one_line(text: &[u8]) -> bool
    ensures { result ≡ list_all (λ byte. not (byte == 10)) text.now }
{
    text.iter().all(|byte| *byte != b'\n')
}

// Whether a text has at least one byte and no line end.
fn is_encoding(text: &[u8]) -> bool
    ensures { result ≡ changes.is_encoding text.now }
{
    !text.is_empty() && is_one_line(text)
}

// An encoding.
fn encoding_of(text: &[u8]) -> Result<&[u8], Fault>
    ensures { Gives (λ encoding. encoding.now) result (changes.encoding_of text.now) }
{
    if is_encoding(text) {
        Ok(text)
    } else {
        Err(Fault::Malformed)
    }
}

// A line of a header, by the text after its word.
fn header_act<'a>(
    alloc: Global,
    mark: &mut Option<Mark>,
    line: HeaderLine,
    text: &'a [u8],
) -> Result<Act<'a>, Fault>
    ensures brings { Brings result mark.new (lines.header_effect mark.old line text.now) }
    ensures same { OnErr result (mark.new ≡ mark.old) }
{
    match line {
        HeaderLine::Mark => {
            *mark = Some(mark_of(text)?);
            Ok(Act::Wait)
        }
        HeaderLine::OriginalOid => Ok(Act::Wait),
        HeaderLine::Author => Ok(Act::Commit(CommitCommand::Author(ident_of(alloc, text)?))),
        HeaderLine::Committer => Ok(Act::Commit(CommitCommand::Committer(ident_of(alloc, text)?))),
        HeaderLine::Encoding => Ok(Act::Commit(CommitCommand::Encoding(encoding_of(text)?))),
        HeaderLine::Tagger => Ok(Act::Object(ObjectCommand::Tagger(ident_of(alloc, text)?))),
    }
}

// A line with a commit-ish, by the text after its word.
fn commit_ish_act<'a>(
    opened: Opened,
    mark: &mut Option<Mark>,
    line: CommitIshLine,
    text: &'a [u8],
) -> Result<Act<'a>, Fault>
    ensures brings { Brings result mark.new
        (lines.commit_ish_effect opened mark.old line text.now) }
    ensures same { OnErr result (mark.new ≡ mark.old) }
{
    match line {
        CommitIshLine::From => from_act(opened, text),
        CommitIshLine::Merge => merge_act(text),
        CommitIshLine::To => {
            let act = alias_act(*mark, text)?;
            *mark = None;
            Ok(act)
        }
    }
}

// An `M` with a mark or a name, by the text after it.
fn modify_act(alloc: Global, text: &[u8]) -> Result<Act<'_>, Fault>
    ensures { Gives act_shown result (lines.change_act change.Modify text.now) }
{
    let (mode, object, path) = modified(alloc, text)?;
    Ok(Act::Change(FileChange::Modify { mode, object, path }))
}

// A line that changes the files of a commit, by the text after its word. Most are `M` lines: the
// room that the others need on the stack is cleared only for them.
fn change_act(alloc: Global, line: ChangeLine, text: &[u8]) -> Result<Act<'_>, Fault>
    ensures { Gives act_shown result (lines.change_act line text.now) }
{
    match line {
        ChangeLine::Modify => modify_act(alloc, text),
        _ => any_change_act(alloc, line, text),
    }
}

// The same.
#[inline(never)]
fn any_change_act(alloc: Global, line: ChangeLine, text: &[u8]) -> Result<Act<'_>, Fault>
    ensures { Gives act_shown result (lines.change_act line text.now) }
{
    match line {
        ChangeLine::Modify => modify_act(alloc, text),
        ChangeLine::ModifyInline => {
            let (mode, path) = modified_inline(alloc, text)?;
            Ok(Act::Change(FileChange::ModifyInline { mode, path }))
        }
        ChangeLine::Delete => Ok(Act::Change(FileChange::Delete(last_path(alloc, text)?))),
        ChangeLine::Copy => {
            let (source, path) = paths_of(alloc, text)?;
            Ok(Act::Change(FileChange::Copy { source, path }))
        }
        ChangeLine::Rename => {
            let (source, path) = paths_of(alloc, text)?;
            Ok(Act::Change(FileChange::Rename { source, path }))
        }
        ChangeLine::DeleteAll => Ok(Act::Change(FileChange::DeleteAll)),
    }
}

// An `ls` with a path alone, or with a dataref and a path.
fn ls_act(alloc: Global, path_alone: bool, text: &[u8]) -> Result<Act<'_>, Fault>
    ensures { Gives act_shown result (lines.ls_act path_alone text.now) }
{
    if path_alone {
        Ok(Act::Reply(ReplyCommand::LsInCommit(last_path(alloc, text)?)))
    } else {
        let (root, path) = object_and_path(alloc, text)?;
        Ok(Act::Reply(ReplyCommand::Ls { root, path }))
    }
}

// A command that prints something, inside a commit or not.
fn reply_act<'a>(
    alloc: Global,
    inside: bool,
    reply: ReplyLine,
    line: &'a [u8],
) -> Result<Act<'a>, Fault>
    ensures { Gives act_shown result (lines.reply_act inside reply line.now) }
{
    let text = argument(line);
    match reply {
        ReplyLine::Progress => Ok(Act::Reply(ReplyCommand::Progress(line))),
        ReplyLine::GetMark => Ok(Act::Reply(ReplyCommand::GetMark(mark_of(text)?))),
        ReplyLine::CatBlob => Ok(Act::Reply(ReplyCommand::CatBlob(dataref_of(text)?))),
        ReplyLine::Ls => ls_act(alloc, inside && is_quoted(text), text),
    }
}

// A line inside the open command, which may have a mark.
fn line_act<'a>(
    alloc: Global,
    opened: Opened,
    mark: &mut Option<Mark>,
    part: Part,
    line: &'a [u8],
) -> Result<Act<'a>, Fault>
    ensures brings { Brings result mark.new (lines.line_effect opened mark.old part line.now) }
    ensures same { OnErr result (mark.new ≡ mark.old) }
{
    match part {
        Part::Header(header) => header_act(alloc, mark, header, argument(line)),
        Part::CommitIsh(kind) => commit_ish_act(opened, mark, kind, argument(line)),
        Part::Change(change) => change_act(alloc, change, argument(line)),
        Part::Reply(reply) => reply_act(alloc, true, reply, line),
        Part::Opening(_) | Part::Control(_) | Part::Data | Part::Blank | Part::Unknown => {
            Ok(Act::Wait)
        }
    }
}

// Data, by the open command.
fn data_act(opened: Opened, mark: Option<Mark>, contents: &[u8]) -> Act<'_>
    ensures { act_shown result ≡ lines.data_act opened mark contents.now }
{
    match opened {
        Opened::Blob => Act::Object(ObjectCommand::Blob { mark, contents }),
        Opened::Commit => Act::Commit(CommitCommand::Message {
            mark,
            message: contents,
        }),
        Opened::Inline => Act::Change(FileChange::InlineData(contents)),
        Opened::Tag => Act::Object(ObjectCommand::Tag {
            mark,
            message: contents,
        }),
        _ => Act::Wait,
    }
}

/// Takes an item of the open command. The mark is unchanged after a fault.
pub fn inner_act<'a>(
    alloc: Global,
    opened: Opened,
    mark: &mut Option<Mark>,
    part: Part,
    item: Item<'a>,
) -> Result<Act<'a>, Fault>
    ensures brings { Brings result mark.new
        (lines.inner_effect opened mark.old part (item_of item.entry)) }
    ensures same { OnErr result (mark.new ≡ mark.old) }
{
    match item {
        Item::Line(line) => line_act(alloc, opened, mark, part, line),
        Item::Data(contents) => {
            let act = data_act(opened, *mark, contents);
            *mark = None;
            Ok(act)
        }
        Item::Blank => {
            *mark = None;
            Ok(Act::Wait)
        }
    }
}

// An option, by the system whose option it is.
fn option_act<'a>(alloc: Global, late: bool, words: &'a [u8]) -> Result<Act<'a>, Fault>
    ensures { Gives act_shown result
        (lines.option_act late (features.option_of words.now) words.now) }
{
    match option_of(words) {
        OptionCommand::Git => {
            in_time(late)?;
            quiet_of(words)?;
            Ok(Act::Wait)
        }
        OptionCommand::Head => {
            in_time(late)?;
            let head = head_of(alloc, argument(argument(words)))?;
            Ok(Act::Control(ControlCommand::Head(head)))
        }
        OptionCommand::Other => Ok(Act::Wait),
    }
}

// A command that is about the stream itself, by the text after its word.
fn control_act<'a>(
    alloc: Global,
    late: bool,
    line: ControlLine,
    text: &'a [u8],
) -> Result<Act<'a>, Fault>
    ensures { Gives act_shown result (lines.control_act late line text.now) }
{
    match line {
        ControlLine::Checkpoint => Ok(Act::Control(ControlCommand::Checkpoint)),
        ControlLine::Done => Ok(Act::Control(ControlCommand::Done)),
        ControlLine::Feature => {
            in_time(late)?;
            Ok(Act::Control(ControlCommand::Feature(feature_of(text)?)))
        }
        ControlLine::OptionCommand => option_act(alloc, late, text),
    }
}

// The first line of a command of several lines, by the text after its word.
fn opening_act<'a>(alloc: Global, line: OpeningLine, text: &'a [u8]) -> Result<Act<'a>, Fault>
    ensures { Gives act_shown result (lines.opening_act line text.now) }
{
    match line {
        OpeningLine::Commit => Ok(Act::Commit(CommitCommand::Begin(ref_of(alloc, text)?))),
        OpeningLine::Tag => Ok(Act::Object(ObjectCommand::BeginTag(tag_ref_of(alloc, text)?))),
        OpeningLine::Reset => Ok(Act::Ref(RefCommand::Reset(ref_of(alloc, text)?))),
        OpeningLine::Blob | OpeningLine::Alias => Ok(Act::Wait),
    }
}

// A line that begins a command.
fn first_line_act<'a>(
    alloc: Global,
    late: bool,
    part: Part,
    line: &'a [u8],
) -> Result<Act<'a>, Fault>
    ensures { Gives act_shown result (lines.first_line_act late part line.now) }
{
    match part {
        Part::Opening(opening) => opening_act(alloc, opening, argument(line)),
        Part::Reply(reply) => reply_act(alloc, false, reply, line),
        Part::Control(control) => control_act(alloc, late, control, argument(line)),
        Part::Header(_) | Part::CommitIsh(_) | Part::Change(_) => Ok(Act::Wait),
        Part::Data | Part::Blank | Part::Unknown => Ok(Act::Wait),
    }
}

/// Takes an item that begins a command.
pub fn first_act<'a>(
    alloc: Global,
    late: bool,
    part: Part,
    item: Item<'a>,
) -> Result<Act<'a>, Fault>
    ensures { Gives act_shown result (lines.first_act late part (item_of item.entry)) }
{
    match item {
        Item::Line(line) => first_line_act(alloc, late, part, line),
        Item::Data(_) | Item::Blank => Ok(Act::Wait),
    }
}
