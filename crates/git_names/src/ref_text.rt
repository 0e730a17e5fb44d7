//! Which texts are ref names: git-check-ref-format(1), and two rules of this service.
//!
//! Only the bytes of the text count. Its length has no limit, and the ref need not exist.
//! `refs/heads/main` is a ref name; `refs/heads/a..b` and `HEAD` are not.

ghost use Rattle.std.specs.{Prelude.{◌≡◌, ◌↔◌, IsTrue, not}, List.{list_all}};
ghost use Rattle.git_model.specs.{Bytes.{holds}, RefName.{is_ref_component as ref_component}};
ghost use Rattle.git_model.specs.RefName.{IsRefName, components, is_forbidden as forbidden};
ghost use Rattle.git_model.specs.RefName.{is_in_refs as in_refs, is_ref_text as ref_text};
ghost use Rattle.git_model.specs.RefName.{is_ref_name as ref_name};

/// Whether a text is a ref name by the rules of git-check-ref-format(1), and begins with `refs/`
/// but not with `refs/namespaces/`. Its length has no limit. Takes no memory.
#[tactic(auto, unfolding(git_model::specs::RefName::is_ref_name))]
pub fn is_ref_name(text: &[u8]) -> bool
    ensures value { result ≡ ref_name text.now }
    ensures rules { IsTrue result ↔ IsRefName text.now }
{
    is_in_refs(text) && is_ref_text(text) && are_ref_components(text)
}

// Whether a text begins as ref names do.
fn is_in_refs(text: &[u8]) -> bool
    ensures { result ≡ in_refs text.now }
{
    text.starts_with(b"refs/") && !text.starts_with(b"refs/namespaces/")
}

// Whether a text has no `..`, no `@{`, no dot at its end and no forbidden byte.
fn is_ref_text(text: &[u8]) -> bool
    ensures { result ≡ ref_text text.now }
{
    !holds_part(text, b"..")
        && !holds_part(text, b"@{")
        && !text.ends_with(b".")
        && are_ref_bytes(text)
}

// Whether each byte of a text is allowed in a ref name.
fn are_ref_bytes(text: &[u8]) -> bool
    ensures { result ≡ list_all (λ byte. not (forbidden byte)) text.now }
{
    text.iter().all(|byte| !is_forbidden(*byte))
}

// Whether each component of a text is allowed in a ref name.
fn are_ref_components(text: &[u8]) -> bool
    ensures { result ≡ list_all ref_component (components text.now) }
{
    text.split(|byte| *byte == b'/').all(is_ref_component)
}

// Whether a part occurs somewhere in a text.
fn holds_part(text: &[u8], part: &[u8]) -> bool
    ensures { result ≡ holds text.now part.now }
{
    let mut rest = text;
    while let [_, tail @ ..] = rest {
        if rest.starts_with(part) {
            return true;
        }
        rest = tail;
    }
    rest.starts_with(part)
}

// Whether a byte is forbidden in a ref name.
fn is_forbidden(byte: u8) -> bool
    ensures { result ≡ forbidden byte }
{
    matches!(
        byte,
        0..=b' ' | 0x7f | b'~' | b'^' | b':' | b'?' | b'*' | b'[' | b'\\'
    )
}

// Whether a component is allowed in a ref name.
fn is_ref_component(component: &[u8]) -> bool
    ensures { result ≡ ref_component component.now }
{
    !component.is_empty() && !component.starts_with(b".") && !component.ends_with(b".lock")
}
