//! Stages: which parts of the open command may still come.

ghost use Rattle.std.specs.{Prelude.{◌≡◌, IfSome, None}, Option.{option_map}};
ghost use Rattle.stream_grammar.specs.Commands.{opened_by, opened_by_line};
ghost use Rattle.stream_grammar.specs.Grammar.{fit, may_end, is_empty, production, production_of};
ghost use Rattle.stream_grammar.specs.declared.stage.Opened.TheVariants as opened;
ghost use Rattle.stream_grammar.specs.Stages as stages;

use crate::part::{ChangeLine, CommitIshLine, HeaderLine, OpeningLine, Part, ReplyLine};

/// The first part of a blob that may come next.
#[derive(Clone, Copy)]
pub enum BlobNext {
    Mark,
    OriginalOid,
    Data,
}

/// The first part of a commit that may come next, up to its message.
#[derive(Clone, Copy)]
pub enum CommitNext {
    Mark,
    OriginalOid,
    Author,
    Committer,
    Encoding,
    Data,
}

/// The first part of a commit that may come next, after its message.
#[derive(Clone, Copy)]
pub enum ChangeNext {
    From,
    Merge,
    Change,
}

/// The first part of a tag that may come next.
#[derive(Clone, Copy)]
pub enum TagNext {
    Mark,
    From,
    OriginalOid,
    Tagger,
    Data,
}

/// The first part of a reset that may come next.
#[derive(Clone, Copy)]
pub enum ResetNext {
    From,
    Blank,
}

/// The part of an alias that must come next.
#[derive(Clone, Copy)]
pub enum AliasNext {
    Mark,
    To,
}

/// The open command, and the first of its parts that may come next.
#[derive(Clone, Copy)]
pub enum Stage {
    /// No command is open.
    Top,
    Blob(BlobNext),
    Commit(CommitNext),
    Changes(ChangeNext),
    /// The data of a file in a commit must come next, and then changes.
    Inline,
    Tag(TagNext),
    Reset(ResetNext),
    Alias(AliasNext),
}

/// Which command is open.
#[derive(Clone, Copy)]
pub enum Opened {
    Nothing,
    Blob,
    /// A commit, up to its message.
    Commit,
    /// A commit, after its message.
    Changes,
    /// The same, before the data of a file.
    Inline,
    Tag,
    Reset,
    Alias,
}

/// The command that is open at a stage.
pub fn opened_of(stage: Stage) -> Opened
    ensures { result ≡ stages.opened_of stage }
{
    match stage {
        Stage::Top => Opened::Nothing,
        Stage::Blob(_) => Opened::Blob,
        Stage::Commit(_) => Opened::Commit,
        Stage::Changes(_) => Opened::Changes,
        Stage::Inline => Opened::Inline,
        Stage::Tag(_) => Opened::Tag,
        Stage::Reset(_) => Opened::Reset,
        Stage::Alias(_) => Opened::Alias,
    }
}

/// How a part fits the open command.
#[derive(Clone, Copy)]
pub enum Fit {
    /// It belongs to the command, which is then at this stage.
    Stands(Stage),
    /// It comes after the command, which may end here.
    Ends,
    /// A part of the command is missing before it.
    Misses,
}

// How a part fits an open blob.
fn fit_in_blob(next: BlobNext, part: Part) -> Fit
    ensures fit { stages.fit_of result ≡ fit part (stages.blob_terms next) }
    ensures opened { stages.KeepsOpened opened.Blob part result }
    ensures means { stages.Means (Stage.Blob next) part result }
{
    match (part, next) {
        (Part::Header(HeaderLine::Mark), BlobNext::Mark) => Fit::Stands(Stage::Blob(
            BlobNext::OriginalOid,
        )),
        (Part::Header(HeaderLine::OriginalOid), BlobNext::Mark | BlobNext::OriginalOid) => {
            Fit::Stands(Stage::Blob(BlobNext::Data))
        }
        (Part::Data, _) => Fit::Stands(Stage::Top),
        _ => Fit::Misses,
    }
}

// How a part fits a commit up to its message.
fn fit_in_commit(next: CommitNext, part: Part) -> Fit
    ensures fit { stages.fit_of result ≡ fit part (stages.commit_terms next) }
    ensures opened { stages.KeepsOpened opened.Commit part result }
    ensures means { stages.Means (Stage.Commit next) part result }
{
    use CommitNext::{Author, Committer, Data, Encoding, Mark, OriginalOid};
    match (part, next) {
        (Part::Header(HeaderLine::Mark), Mark) => Fit::Stands(Stage::Commit(OriginalOid)),
        (Part::Header(HeaderLine::OriginalOid), Mark | OriginalOid) => Fit::Stands(Stage::Commit(
            Author,
        )),
        (Part::Header(HeaderLine::Author), Mark | OriginalOid | Author) => Fit::Stands(
            Stage::Commit(Committer),
        ),
        (Part::Header(HeaderLine::Committer), Mark | OriginalOid | Author | Committer) => {
            Fit::Stands(Stage::Commit(Encoding))
        }
        (Part::Header(HeaderLine::Encoding), Encoding) => Fit::Stands(Stage::Commit(Data)),
        (Part::Data, Encoding | Data) => Fit::Stands(Stage::Changes(ChangeNext::From)),
        _ => Fit::Misses,
    }
}

// How a part fits a commit after its message.
fn fit_in_changes(next: ChangeNext, part: Part) -> Fit
    ensures fit { stages.fit_of result ≡ fit part (stages.change_terms next) }
    ensures opened { stages.KeepsOpened opened.Changes part result }
    ensures means { stages.Means (Stage.Changes next) part result }
{
    match (part, next) {
        (Part::CommitIsh(CommitIshLine::From), ChangeNext::From) => Fit::Stands(Stage::Changes(
            ChangeNext::Merge,
        )),
        (Part::CommitIsh(CommitIshLine::Merge), ChangeNext::From | ChangeNext::Merge) => {
            Fit::Stands(Stage::Changes(ChangeNext::Merge))
        }
        (Part::Change(ChangeLine::ModifyInline), _) => Fit::Stands(Stage::Inline),
        (Part::Change(_) | Part::Reply(ReplyLine::CatBlob | ReplyLine::Ls), _) => {
            Fit::Stands(Stage::Changes(ChangeNext::Change))
        }
        (Part::Blank, _) => Fit::Stands(Stage::Top),
        _ => Fit::Ends,
    }
}

// How a part fits where the data of a file must come.
fn fit_inline(part: Part) -> Fit
    ensures fit { stages.fit_of result ≡ fit part (stages.terms_of Stage.Inline) }
    ensures opened { stages.KeepsOpened opened.Inline part result }
    ensures means { stages.Means Stage.Inline part result }
{
    match part {
        Part::Data => Fit::Stands(Stage::Changes(ChangeNext::Change)),
        _ => Fit::Misses,
    }
}

// How a part fits an open tag.
fn fit_in_tag(next: TagNext, part: Part) -> Fit
    ensures fit { stages.fit_of result ≡ fit part (stages.tag_terms next) }
    ensures opened { stages.KeepsOpened opened.Tag part result }
    ensures means { stages.Means (Stage.Tag next) part result }
{
    match (part, next) {
        (Part::Header(HeaderLine::Mark), TagNext::Mark) => Fit::Stands(Stage::Tag(TagNext::From)),
        (Part::CommitIsh(CommitIshLine::From), TagNext::Mark | TagNext::From) => {
            Fit::Stands(Stage::Tag(TagNext::OriginalOid))
        }
        (Part::Header(HeaderLine::OriginalOid), TagNext::OriginalOid) => Fit::Stands(Stage::Tag(
            TagNext::Tagger,
        )),
        (Part::Header(HeaderLine::Tagger), TagNext::OriginalOid | TagNext::Tagger) => {
            Fit::Stands(Stage::Tag(TagNext::Data))
        }
        (Part::Data, TagNext::OriginalOid | TagNext::Tagger | TagNext::Data) => {
            Fit::Stands(Stage::Top)
        }
        _ => Fit::Misses,
    }
}

// How a part fits an open reset.
fn fit_in_reset(next: ResetNext, part: Part) -> Fit
    ensures fit { stages.fit_of result ≡ fit part (stages.reset_terms next) }
    ensures opened { stages.KeepsOpened opened.Reset part result }
    ensures means { stages.Means (Stage.Reset next) part result }
{
    match (part, next) {
        (Part::CommitIsh(CommitIshLine::From), ResetNext::From) => Fit::Stands(Stage::Reset(
            ResetNext::Blank,
        )),
        (Part::Blank, _) => Fit::Stands(Stage::Top),
        _ => Fit::Ends,
    }
}

// How a part fits an open alias.
fn fit_in_alias(next: AliasNext, part: Part) -> Fit
    ensures fit { stages.fit_of result ≡ fit part (stages.alias_terms next) }
    ensures opened { stages.KeepsOpened opened.Alias part result }
    ensures means { stages.Means (Stage.Alias next) part result }
{
    match (part, next) {
        (Part::Header(HeaderLine::Mark), AliasNext::Mark) => Fit::Stands(Stage::Alias(
            AliasNext::To,
        )),
        (Part::CommitIsh(CommitIshLine::To), AliasNext::To) => Fit::Stands(Stage::Top),
        _ => Fit::Misses,
    }
}

/// How a part fits the open command at a stage.
pub fn fit_of(stage: Stage, part: Part) -> Fit
    ensures fit { stages.fit_of result ≡ fit part (stages.terms_of stage) }
    ensures opened { stages.KeepsOpened (stages.opened_of stage) part result }
    ensures means { stages.Means stage part result }
{
    match stage {
        Stage::Top => Fit::Ends,
        Stage::Blob(next) => fit_in_blob(next, part),
        Stage::Commit(next) => fit_in_commit(next, part),
        Stage::Changes(next) => fit_in_changes(next, part),
        Stage::Inline => fit_inline(part),
        Stage::Tag(next) => fit_in_tag(next, part),
        Stage::Reset(next) => fit_in_reset(next, part),
        Stage::Alias(next) => fit_in_alias(next, part),
    }
}

// The stage after the first line of a command of several lines.
fn opening_stage(line: OpeningLine) -> Stage
    ensures terms { stages.terms_of result ≡ production line }
    ensures opened { stages.opened_of result ≡ opened_by_line line }
    ensures marked { stages.HasMark result None }
{
    match line {
        OpeningLine::Blob => Stage::Blob(BlobNext::Mark),
        OpeningLine::Commit => Stage::Commit(CommitNext::Mark),
        OpeningLine::Tag => Stage::Tag(TagNext::Mark),
        OpeningLine::Reset => Stage::Reset(ResetNext::From),
        OpeningLine::Alias => Stage::Alias(AliasNext::Mark),
    }
}

/// The stage after the first part of a command; `None` for a part that begins no command.
pub fn first_stage(part: Part) -> Option<Stage>
    ensures terms { option_map stages.terms_of result ≡ production_of part }
    ensures opened { IfSome result (λ stage. stages.opened_of stage ≡ opened_by part) }
    ensures marked { IfSome result (λ stage. stages.HasMark stage None) }
{
    match part {
        Part::Opening(line) => Some(opening_stage(line)),
        Part::Reply(_) | Part::Control(_) | Part::Blank => Some(Stage::Top),
        Part::Header(_) | Part::CommitIsh(_) | Part::Change(_) | Part::Data | Part::Unknown => None,
    }
}

/// Whether the open command may end at this stage.
pub fn may_end_at(stage: Stage) -> bool
    ensures { result ≡ may_end (stages.terms_of stage) }
{
    match stage {
        Stage::Top | Stage::Changes(_) | Stage::Reset(_) => true,
        Stage::Blob(_) | Stage::Commit(_) | Stage::Inline | Stage::Tag(_) | Stage::Alias(_) => {
            false
        }
    }
}

/// Whether no further part may come in the command at this stage.
pub fn is_whole(stage: Stage) -> bool
    ensures { result ≡ is_empty (stages.terms_of stage) }
{
    matches!(stage, Stage::Top)
}
