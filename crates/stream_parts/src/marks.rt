//! The marks of a stream: git-fast-import(1), "mark".

ghost use Rattle.std.specs.Prelude.{◌≡◌, ◌≢◌, ◌<◌, Ok, Err, MatchResult, OnOk};
ghost use Rattle.stream_parts.specs.Marks.{has_room, marked_name, referred_name, room_for};
ghost use Rattle.stream_parts.specs.Marks.{with_mark};

use crate::fault::Fault;
use git_objects::{Kind, Name};
use stream_grammar::{DataRef, Mark, MarkedObject};
use stream_marks::Marks;

/// How many marks a stream may have.
pub const MARKS_LIMIT: usize = 4_194_304;

// Whether a mark may be set: it is there already, or there are fewer marks than the limit.
#[tactic(auto, unfolding(crate::specs::Marks::has_room))]
fn has_room(marks: &Marks, mark: Mark) -> bool
    ensures { result ≡ has_room marks.now.entries mark }
{
    marks.contains(mark) || marks.len() < MARKS_LIMIT
}

/// Makes room for one more mark, if one is to be set. The marks are unchanged.
pub fn make_room(marks: &mut Marks, mark: &Option<Mark>) -> Result<(), Fault>
    ensures room { MatchResult result (λ _. room_for marks.old.entries mark.now ≡ Ok tt)
        (λ fault. fault ≢ Fault.Memory → room_for marks.old.entries mark.now ≡ Err fault) }
    ensures spare { OnOk result (0 < marks.new.spare) }
    ensures same { marks.new.entries ≡ marks.old.entries }
{
    match mark {
        Some(mark) if !has_room(marks, *mark) => Err(Fault::Limit),
        _ => {
            marks.reserve()?;
            Ok(())
        }
    }
}

/// Sets a mark, if one is given, to an object of this kind. It may have been set before.
pub fn set(marks: &mut Marks, mark: Option<Mark>, kind: Kind, id: Name)
    requires { 0 < marks.old.spare }
    ensures { marks.new.entries ≡ with_mark marks.old.entries mark kind id }
{
    if let Some(mark) = mark {
        marks.set(mark, MarkedObject { name: id, kind });
    }
}

/// The name of the object that a mark was set to last.
pub fn find(marks: &Marks, mark: Mark) -> Result<Name, Fault>
    ensures { result ≡ marked_name marks.now.entries mark }
{
    match marks.get(mark) {
        Some(object) => Ok(object.name),
        None => Err(Fault::MarkUnknown),
    }
}

/// The name of the object that a dataref stands for.
pub fn referred(marks: &Marks, object: DataRef) -> Result<Name, Fault>
    ensures { result ≡ referred_name marks.now.entries object }
{
    match object {
        DataRef::Mark(mark) => find(marks, mark),
        DataRef::Name(id) => Ok(id),
    }
}
