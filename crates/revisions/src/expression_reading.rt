//! How expressions are read: gitrevisions(7), "Specifying Revisions". Nothing is looked up.

ghost use Rattle.std.specs.{Prelude.{◌≡◌, ◌++◌, [], codes}, Option.{option_map}};
ghost use Rattle.git_model.specs.{Bytes.{holds}, Results.{or_fault}};
ghost use Rattle.git_paths.specs.Reading.{canonical_path};
ghost use Rattle.revisions.specs.{Faults.{Gives, GivesBy}, ExpressionReading.{path_suffix}};
ghost use Rattle.revisions.specs.ExpressionReading.{expression_of, is_base, cut, suffixes_of};
ghost use Rattle.revisions.specs.declared.fault.Fault.TheVariants as fault;

use crate::cutting::{split_at_colon, split_at_mark, split_at_part, take_piece};
use crate::expression::Expression;
use crate::fault::Fault;
use crate::suffix::Suffix;
use crate::suffix_reading::read_suffix;
use git_paths::Path;
use std::alloc::Global;

fn holds_reflog(text: &[u8]) -> bool
    ensures { result ≡ holds text.now (codes "@{") }
{
    split_at_part(text, b"@{").is_some()
}

// Whether a text may be a base. `@{` begins a reflog suffix, and there are no reflogs here.
fn is_base(text: &[u8]) -> bool
    ensures { result ≡ is_base text.now }
{
    !text.is_empty() && !holds_reflog(text)
}

// The suffixes of a text that is empty or begins with a mark.
fn read_suffixes(alloc: Global, marked: &[u8]) -> Result<Vec<Suffix>, Fault>
    requires { (cut marked.now).front ≡ [] }
    ensures { GivesBy (λ suffixes. suffixes.items) result
        (or_fault fault.Malformed (suffixes_of (cut marked.now).pieces)) }
{
    let mut suffixes = Vec::new(alloc);
    let mut rest = marked;
    while let Some((piece, after)) = take_piece(rest) {
        let Some(suffix) = read_suffix(piece) else {
            return Err(Fault::Malformed);
        };
        suffixes.push(suffix)?;
        rest = after;
    }
    Ok(suffixes)
}

fn read_path(alloc: Global, bytes: &[u8]) -> Result<Path, Fault>
    ensures { Gives result (or_fault fault.Malformed (canonical_path bytes.now)) }
{
    match Path::from_canonical(alloc, bytes)? {
        Some(path) => Ok(path),
        None => Err(Fault::Malformed),
    }
}

// The suffixes, and after them the path, where there is one.
fn with_path(
    alloc: Global,
    suffixes: Vec<Suffix>,
    path: Option<&[u8]>,
) -> Result<Vec<Suffix>, Fault>
    ensures { GivesBy (λ all. all.items) result (or_fault fault.Malformed
        (option_map (λ last. suffixes.items ++ last)
        (path_suffix (option_map (λ bytes. bytes.now) path.entry)))) }
{
    let mut suffixes = suffixes;
    if let Some(bytes) = path {
        let path = read_path(alloc, bytes)?;
        suffixes.push(Suffix::AtPath(path))?;
    }
    Ok(suffixes)
}

impl<'a> Expression<'a> {
    /// Reads an expression: a base, suffixes, and at the end a path after a colon.
    ///
    /// `Fault::Malformed` (3) where the base is empty or holds `@{`, a suffix is none of
    /// gitrevisions(7), a number has more than ten digits or is above 4,294,967,295, or the path is
    /// not canonical. The path is taken as it is, and quotes in it mean themselves. Takes memory
    /// for the suffixes and the path; `Fault::Memory` (90) where there is none. Nothing is looked
    /// up.
    #[tactic(auto, unfolding(crate::specs::ExpressionReading::expression_of))]
    pub fn read(alloc: Global, text: &'a [u8]) -> Result<Expression<'a>, Fault>
        ensures { Gives result (or_fault fault.Malformed (expression_of text.now)) }
    {
        let (head, path) = split_at_colon(text);
        let (base, marked) = split_at_mark(head);
        if !is_base(base) {
            return Err(Fault::Malformed);
        }
        let suffixes = read_suffixes(alloc, marked)?;
        let suffixes = with_path(alloc, suffixes, path)?;
        Ok(Expression::of(base, suffixes))
    }
}
