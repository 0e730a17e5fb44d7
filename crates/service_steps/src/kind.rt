//! The kinds of frames, and how long their parts may be.

ghost use Rattle.std.specs.Prelude.{◌≡◌, true};
ghost use Rattle.service_steps.specs.{FrameKinds.{Rules, rules_of}, Frames.{wrong_at}};
ghost use Rattle.service_steps.specs.Frames.{kind_of, kind_number, tenant_limit, body_limit};

/// The kind of a frame.
#[derive(Clone, Copy, Debug, PartialEq, Eq)]
pub enum Kind {
    /// Open a stream.
    Open,
    /// Feed a stream.
    Feed,
    /// End a stream.
    End,
    /// Ask a query.
    Ask,
    /// Close every stream.
    Restart,
}

/// The greatest length of a body in bytes: 16 MiB.
pub const BODY_LIMIT: u32 = 16_777_216;

/// The kinds of the frames of steps, or of requests.
pub trait FrameKind: Copy {
    ghost rules: { Rules Self };

    /// The kind with this number; `None` for an unknown kind.
    fn of(byte: u8) -> Option<Self>
        ensures { result ≡ rules.kind_of byte };

    /// The greatest length of the tenant's name in bytes.
    fn name_limit(self) -> usize
        ensures { result ≡ rules.names self };

    /// The greatest length of the body in bytes.
    fn body_limit(self) -> usize
        ensures { result ≡ rules.bodies self };

    /// Whether a body of this kind may be these bytes, if it may be as long.
    fn is_body(self, body: &[u8]) -> bool
        ensures { result ≡ rules.good self body.now };
}

impl FrameKind for Kind {
    ghost rules = { rules_of wrong_at kind_of kind_number tenant_limit body_limit (λ _ _. true) };

    fn of(byte: u8) -> Option<Kind> {
        match byte {
            1 => Some(Kind::Open),
            2 => Some(Kind::Feed),
            3 => Some(Kind::End),
            4 => Some(Kind::Ask),
            5 => Some(Kind::Restart),
            _ => None,
        }
    }

    // A Restart names no tenant.
    fn name_limit(self) -> usize {
        match self {
            Kind::Restart => 0,
            _ => u16::MAX as usize,
        }
    }

    // Only Feed and Ask have a body.
    fn body_limit(self) -> usize {
        match self {
            Kind::Feed => BODY_LIMIT as usize,
            Kind::Ask => BODY_LIMIT as usize,
            _ => 0,
        }
    }

    fn is_body(self, _body: &[u8]) -> bool {
        true
    }
}
