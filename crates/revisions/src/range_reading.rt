//! How ranges are read: gitrevisions(7), "Specifying Ranges". Nothing is looked up.

ghost use Rattle.revisions.specs.declared.fault.Fault.TheVariants as fault;
ghost use Rattle.git_model.specs.Results.{or_fault};
ghost use Rattle.revisions.specs.Faults.{Gives};
ghost use Rattle.revisions.specs.ExpressionReading.{side_of, sides_of, dotted, range_of};

use crate::commit_range::Range;
use crate::cutting::split_at_part;
use crate::expression::Expression;
use crate::fault::Fault;
use std::alloc::Global;

// One side of a range; an empty one is HEAD.
fn read_side<'a>(alloc: Global, text: &'a [u8]) -> Result<Expression<'a>, Fault>
    ensures { Gives result (or_fault fault.Malformed (side_of text.now)) }
{
    if text.is_empty() {
        return Ok(Expression::head(alloc));
    }
    let side = Expression::read(alloc, text)?;
    Ok(side)
}

// Both sides, of which one may be empty.
fn read_sides<'a>(
    alloc: Global,
    left: &'a [u8],
    right: &'a [u8],
) -> Result<(Expression<'a>, Expression<'a>), Fault>
    ensures { Gives result (or_fault fault.Malformed (sides_of left.now right.now)) }
{
    if left.is_empty() && right.is_empty() {
        return Err(Fault::Malformed);
    }
    let left = read_side(alloc, left)?;
    let right = read_side(alloc, right)?;
    Ok((left, right))
}

// What is before and after the first two dots. A third dot makes it the form with three.
#[tactic(auto, unfolding(crate::specs::ExpressionReading::dotted))]
fn read_dotted<'a>(
    alloc: Global,
    left: &'a [u8],
    right: &'a [u8],
) -> Result<Range<Expression<'a>>, Fault>
    ensures { Gives result (or_fault fault.Malformed (dotted left.now right.now)) }
{
    if right.starts_with(b".") {
        let (left, right) = read_sides(alloc, left, right.split_at(1).1)?;
        return Ok(Range::Either(left, right));
    }
    let (left, right) = read_sides(alloc, left, right)?;
    Ok(Range::Between(left, right))
}

/// Reads a range: one expression, or two with `..` or `...` between them. One of the two may be
/// empty, and then means HEAD.
///
/// The text is split at its first `..`, even inside a path. `Fault::Malformed` (3) where a side is
/// no expression or both are empty. Takes memory for the suffixes and the paths; `Fault::Memory`
/// (90) where there is none. Nothing is looked up.
pub fn read_range<'a>(alloc: Global, text: &'a [u8]) -> Result<Range<Expression<'a>>, Fault>
    ensures { Gives result (or_fault fault.Malformed (range_of text.now)) }
{
    if let Some((left, right)) = split_at_part(text, b"..") {
        let range = read_dotted(alloc, left, right)?;
        return Ok(range);
    }
    let tip = Expression::read(alloc, text)?;
    Ok(Range::From(tip))
}
