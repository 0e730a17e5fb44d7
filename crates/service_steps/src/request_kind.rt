//! The kinds of the frames of requests, and what their parts may be.

ghost use Rattle.std.specs.Prelude.{◌≡◌};
ghost use Rattle.service_steps.specs.FrameKinds.{rules_of};
ghost use Rattle.service_steps.specs.Requests.{request_kind_of, request_number, name_limit};
ghost use Rattle.service_steps.specs.Requests.{request_limit, is_body, is_save_body};
ghost use Rattle.service_steps.specs.Requests.{is_missing_body, is_entries_body, wrong_request_at};

use crate::kind::{BODY_LIMIT, FrameKind, Kind};

/// The kind of the frame of a request.
#[derive(Clone, Copy, Debug, PartialEq, Eq)]
pub enum RequestKind {
    /// A step of this kind.
    Step(Kind),
    /// Save the pool file.
    Save,
    /// Give up a stream.
    Abandon,
    /// Remove a tenant.
    Remove,
    /// Compact a tenant.
    Compact,
    /// Copy a tenant.
    Copy,
    /// Say what each tenant has.
    Sizes,
    /// Say which objects are missing.
    Missing,
    /// Give objects as entries of a pack.
    Entries,
}

// The one byte of a Save's body, if it has one.
const OPENED: u8 = 1;

// How many bytes a name has.
const NAME_BYTES: usize = 20;

fn is_save_body(body: &[u8]) -> bool
    ensures { result ≡ is_save_body body.now }
{
    match body {
        [] => true,
        [byte, ..] => *byte == OPENED,
    }
}

fn is_missing_body(body: &[u8]) -> bool
    ensures { result ≡ is_missing_body body.now }
{
    match body.split_first_chunk::<4>() {
        Some((count, names)) => {
            names.len() % NAME_BYTES == 0
                && u32::from_be_bytes(*count) as usize <= names.len() / NAME_BYTES
        }
        None => false,
    }
}

fn is_entries_body(body: &[u8]) -> bool
    ensures { result ≡ is_entries_body body.now }
{
    match body.split_first_chunk::<8>() {
        Some((_, names)) => names.len() % NAME_BYTES == 0,
        None => false,
    }
}

impl FrameKind for RequestKind {
    ghost rules = { rules_of wrong_request_at request_kind_of request_number name_limit request_limit is_body };

    fn of(byte: u8) -> Option<RequestKind> {
        match byte {
            1 => Some(RequestKind::Step(Kind::Open)),
            2 => Some(RequestKind::Step(Kind::Feed)),
            3 => Some(RequestKind::Step(Kind::End)),
            4 => Some(RequestKind::Step(Kind::Ask)),
            5 => Some(RequestKind::Step(Kind::Restart)),
            16 => Some(RequestKind::Save),
            17 => Some(RequestKind::Abandon),
            18 => Some(RequestKind::Remove),
            19 => Some(RequestKind::Compact),
            20 => Some(RequestKind::Copy),
            21 => Some(RequestKind::Sizes),
            22 => Some(RequestKind::Missing),
            23 => Some(RequestKind::Entries),
            _ => None,
        }
    }

    // A Restart, a Save and a Sizes name no tenant.
    fn name_limit(self) -> usize {
        match self {
            RequestKind::Step(kind) => kind.name_limit(),
            RequestKind::Save => 0,
            RequestKind::Sizes => 0,
            _ => u16::MAX as usize,
        }
    }

    // Only a Feed, an Ask, a Copy, a Save, a Missing and an Entries have a body.
    fn body_limit(self) -> usize {
        match self {
            RequestKind::Step(kind) => kind.body_limit(),
            RequestKind::Save => 1,
            RequestKind::Copy => BODY_LIMIT as usize,
            RequestKind::Missing => BODY_LIMIT as usize,
            RequestKind::Entries => BODY_LIMIT as usize,
            _ => 0,
        }
    }

    // The body of a Save is empty or the byte 01. A Missing has a count in four bytes, and at least
    // as many names of 20 bytes; an Entries a limit in eight bytes, and names.
    fn is_body(self, body: &[u8]) -> bool {
        match self {
            RequestKind::Save => is_save_body(body),
            RequestKind::Missing => is_missing_body(body),
            RequestKind::Entries => is_entries_body(body),
            _ => true,
        }
    }
}
