//! Whether files may be put into a file map.

ghost use Rattle.std.specs.{Prelude.{◌≡◌, ◌≤◌, ◌+◌, length, nat_le}, List.{list_any, list_all}};
ghost use Rattle.git_model.specs.Limits.{files_limit};
ghost use Rattle.git_paths.specs.Paths.{IsPath, is_within_limits};
ghost use Rattle.file_maps.specs.{Edits.{is_root, is_empty}, Kept.{refusal_beside}};

use file_maps::{Entry, FILES_LIMIT, Fault};
use git_paths::Path;

fn is_root(path: &Path) -> bool
    ensures { result ≡ is_root path.now }
{
    path.is_root()
}

fn is_short(path: &Path) -> bool
    ensures { result ≡ is_within_limits path.now }
{
    path.is_within_limits()
}

fn has_root(files: &[(Path, Entry)]) -> bool
    ensures { result ≡ list_any (λ f. is_root f.0) files.now }
{
    files.iter().any(|file| is_root(&file.0))
}

fn are_short(files: &[(Path, Entry)]) -> bool
    ensures { result ≡ list_all (λ f. is_within_limits f.0) files.now }
{
    files.iter().all(|file| is_short(&file.0))
}

fn are_few(staying: usize, files: &[(Path, Entry)]) -> bool
    requires { staying ≤ files_limit }
    ensures { result ≡ nat_le (staying + length files.now) files_limit }
{
    files.len() <= FILES_LIMIT && staying + files.len() <= FILES_LIMIT
}

/// Whether there are no files.
#[tactic(auto, using(crate::proofs::Empty::empties))]
pub(crate) fn are_none(files: &[(Path, Entry)]) -> bool
    ensures { result ≡ is_empty files.now }
{
    files.is_empty()
}

/// Why these files cannot be put beside those that stay; `None` where they can.
pub(crate) fn refusal_beside(staying: usize, files: &[(Path, Entry)]) -> Option<Fault>
    requires { staying ≤ files_limit }
    ensures { result ≡ refusal_beside staying files.now }
{
    if has_root(files) {
        return Some(Fault::RootNotDirectory);
    }
    if are_short(files) && are_few(staying, files) {
        None
    } else {
        Some(Fault::Limit)
    }
}

/// A fact for proofs: a path consists of components. Calling it does nothing.
pub(crate) fn has_components(path: &Path)
    ensures { IsPath path.now }
{
    let _bytes = path.as_bytes();
}
