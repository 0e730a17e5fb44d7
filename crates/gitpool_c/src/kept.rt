//! What the handles keep.

ghost use Rattle.std.specs.Prelude.{◌≡◌, []};
ghost use Rattle.service_steps.specs.declared.answer.Answer.TheVariants as answer;

use git_names::Sha1Naming;
use std::alloc::Global;
use tenant_service::{Answer, Reply, Service};

/// What one tenant has, with its name in memory of its own.
#[derive(Drop)]
pub struct ListedSizes {
    pub tenant: Vec<u8>,
    pub objects: u64,
    pub bytes: u64,
    pub own_bytes: u64,
    pub refs: u64,
}

/// What a handle keeps: a service, a reply or a list of sizes. The other two are empty. This is one
/// type for all three, so that it is proved once how a handle owns its memory.
#[derive(Drop)]
pub struct Kept {
    pub service: Service<Sha1Naming>,
    pub reply: Reply,
    pub sizes: Vec<ListedSizes>,
}

impl Kept {
    /// This service, an empty reply, and an empty list. Takes no memory.
    pub fn of(alloc: Global, service: Service<Sha1Naming>) -> Kept
        ensures service { result.service ≡ service }
        ensures answer { result.reply.answer ≡ answer.Ok }
        ensures bytes { result.reply.bytes.items ≡ [] }
        ensures sizes { result.sizes.items ≡ [] }
    {
        let bytes = Vec::new(alloc);
        let answer = Answer::Ok;
        Kept {
            service,
            reply: Reply { answer, bytes },
            sizes: Vec::new(alloc),
        }
    }
}
