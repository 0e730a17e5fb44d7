//! Whether files may be put below a path, by their summary alone.

ghost use Rattle.std.specs.Prelude.{◌≡◌};
ghost use Rattle.tree_build.specs.{Moving.{fits_below}, Sums.{IsSmall}};

use git_paths::Path;
use tenant_tables::Summary;

/// Whether no path would be too long if files with this summary were put below a path: at most
/// 16,383 bytes and 256 components.
pub(crate) fn fits_below(path: &Path, files: Summary) -> bool
    requires { IsSmall files }
    ensures { result ≡ fits_below path.now files }
{
    if !path.is_within_limits() {
        return false;
    }
    let slash = if path.is_root() || files.depth == 0 {
        0
    } else {
        1
    };
    let bytes = path.as_bytes().len() + slash + files.longest as usize;
    let components = path.component_count() + files.depth as usize;
    bytes <= 16_383 && components <= 256
}
