//! Which bytes are a path, and which paths are within the limits.

ghost use Rattle.std.specs.Prelude.{◌≡◌, ◌↔◌, ◌+◌, length, IsTrue, OnOk, IfErr, Ok, Err};
ghost use Rattle.git_paths.specs.Paths.{IsComponent, is_part, is_component, is_path};
ghost use Rattle.git_paths.specs.Paths.{is_within_limits, components_of};
ghost use Rattle.git_paths.specs.Reading.{path_within_limits};

use crate::fault::Fault;

/// The most bytes of a path.
const MOST_BYTES: usize = 16383;

/// The most components of a path.
const MOST_COMPONENTS: usize = 256;

// Whether bytes between two slashes are a component.
#[tactic(auto, unfolding(crate::specs::Paths::is_part))]
fn is_part(name: &[u8]) -> bool
    ensures { result ≡ is_part name.now }
{
    match name {
        [] | [b'.'] | [b'.', b'.'] => false,
        _ => !name.contains(&0),
    }
}

fn is_name(name: &[u8]) -> bool
    ensures { result ≡ is_component name.now }
{
    is_part(name) && !name.contains(&b'/')
}

/// Whether bytes are those of a path.
pub(crate) fn are_names(bytes: &[u8]) -> bool
    ensures { result ≡ is_path (components_of bytes.now) }
{
    bytes.is_empty() || bytes.split(|b| *b == b'/').all(|part| is_part(part))
}

/// The number of components. Bytes that are there have one component more than slashes.
pub(crate) fn count_components(bytes: &[u8]) -> usize
    ensures { result ≡ length (components_of bytes.now) }
{
    if bytes.is_empty() {
        return 0;
    }
    bytes.iter().filter(|b| **b == b'/').count() + 1
}

/// Whether the path with these bytes is within the limits. There are at most as many slashes as
/// bytes.
pub(crate) fn are_few(bytes: &[u8]) -> bool
    ensures { result ≡ is_within_limits (components_of bytes.now) }
{
    bytes.len() < MOST_COMPONENTS
        || bytes.len() <= MOST_BYTES && count_components(bytes) <= MOST_COMPONENTS
}

/// The first rule of paths that bytes break, if any: bad path comes before limit.
#[tactic(auto, unfolding(crate::specs::Reading::path_within_limits))]
pub(crate) fn judge(bytes: &[u8]) -> Result<(), Fault>
    ensures ok { OnOk result (path_within_limits bytes.now ≡ Ok (components_of bytes.now)) }
    ensures err { IfErr result (λ e. path_within_limits bytes.now ≡ Err e) }
{
    if !are_names(bytes) {
        return Err(Fault::BadPath);
    }
    if !are_few(bytes) {
        return Err(Fault::Limit);
    }
    Ok(())
}

/// Whether a name can be a component of a path: it is not empty, `.` or `..`, and has no NUL and no
/// `/`. Takes no memory.
pub fn is_component(name: &[u8]) -> bool
    ensures { IsTrue result ↔ IsComponent name.now }
{
    is_name(name)
}
