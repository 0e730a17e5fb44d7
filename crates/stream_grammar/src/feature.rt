//! Features and options: git-fast-import(1), "feature" and "option".

ghost use Rattle.std.specs.Prelude.{◌≡◌};
ghost use Rattle.stream_grammar.specs.Features as features;

use crate::fault::Fault;

/// A feature that a stream uses, named before its other commands: git-fast-import(1), "feature".
#[derive(Clone, Copy, PartialEq, Eq)]
pub enum Feature {
    /// The stream ends with `done`.
    Done,
    /// Refs are updated even if the update is not a fast-forward.
    Force,
    /// The command `get-mark` is used.
    GetMark,
    /// The command `cat-blob` is used.
    CatBlob,
    /// The command `ls` is used.
    Ls,
    /// Dates are in the raw format, which is the only one supported.
    RawDates,
}

/// An `option` command, by the system whose option it is.
#[derive(Clone, Copy)]
pub enum OptionCommand {
    /// Git's.
    Git,
    /// The `head` option of gitpool: the ref that HEAD points to.
    Head,
    /// Another system's, which is ignored.
    Other,
}

/// Refuses a feature after other commands: `Fault::FeatureTooLate` (9).
#[tactic(auto, unfolding(crate::specs::Features::in_time))]
pub fn in_time(late: bool) -> Result<(), Fault>
    ensures { result ≡ features.in_time late }
{
    if late {
        Err(Fault::FeatureTooLate)
    } else {
        Ok(())
    }
}

/// Reads a feature. `Fault::FeatureNotSupported` (8) for every word that is not in the list.
#[tactic(auto, unfolding(crate::specs::Features::feature_of))]
pub fn feature_of(word: &[u8]) -> Result<Feature, Fault>
    ensures { result ≡ features.feature_of word.now }
{
    if word == b"done".as_slice() {
        Ok(Feature::Done)
    } else if word == b"force".as_slice() {
        Ok(Feature::Force)
    } else if word == b"get-mark".as_slice() {
        Ok(Feature::GetMark)
    } else if word == b"cat-blob".as_slice() {
        Ok(Feature::CatBlob)
    } else if word == b"ls".as_slice() {
        Ok(Feature::Ls)
    } else if word == b"date-format=raw".as_slice() {
        Ok(Feature::RawDates)
    } else {
        Err(Fault::FeatureNotSupported)
    }
}

/// Tells whose option these words are.
#[tactic(auto, unfolding(crate::specs::Features::option_of))]
pub fn option_of(words: &[u8]) -> OptionCommand
    ensures { result ≡ features.option_of words.now }
{
    if words == b"git".as_slice() || words.starts_with(b"git ") {
        OptionCommand::Git
    } else if words.starts_with(b"gitpool head ") {
        OptionCommand::Head
    } else {
        OptionCommand::Other
    }
}

/// Reads an option of Git. `Fault::FeatureNotSupported` (8) for every option but `quiet`.
#[tactic(auto, unfolding(crate::specs::Features::quiet_of))]
pub fn quiet_of(words: &[u8]) -> Result<(), Fault>
    ensures { result ≡ features.quiet_of words.now }
{
    if words == b"git quiet".as_slice() {
        Ok(())
    } else {
        Err(Fault::FeatureNotSupported)
    }
}
