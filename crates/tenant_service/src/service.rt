//! A service of many tenants over one pool of contents.
//!
//! Each tenant has its own table, refs and stream. All tenants share the pool, and no tenant is
//! told anything about it. Steps come one at a time, and may cut a stream at any byte:
//!
//! ```text
//! let mut service = Service::new(alloc, Sha1Naming);
//! service.step(Step::Open { tenant: b"a" }, &mut out);         a stream of the tenant `a`
//! service.step(Step::Feed { tenant: b"a", bytes }, &mut out);  as often as bytes come
//! service.step(Step::End { tenant: b"a" }, &mut out);          the last checkpoint, and no stream
//! ```
//!
//! Each answers `Answer::Ok`, and `out` has what the stream prints: crates/gitpool_tests has an
//! example, `two_tenants`.

ghost use Rattle.std.specs.Prelude.{◌≡◌, ◌+◌, ◌^◌, ◌++◌, ℕ, List, [], ◌∷◌, length, drop, count_by};
ghost use Rattle.std.specs.Prelude.{true, false, None, IsNone, IsSome, IfOk, IfSome, OnErr, OnOk};
ghost use Rattle.std.specs.{Prelude.{map, ◌<◌}, List.{AllByRecursion, IsDistinct}, Map.{keys_of}};
ghost use Rattle.std.specs.{Set.{unique_keys}, Str.{bytes_eq}};
ghost use Rattle.byte_devices.specs.Device.{device_of, calls_of, counted_on, seen};
ghost use Rattle.content_pool.specs.LiveContents.{live_contents, stored_sizes};
ghost use Rattle.export_laws.specs.Copies.{CanBeCopied};
ghost use Rattle.git_model.specs.{Content.{same_content}, Limits.{reads_limit}};
ghost use Rattle.pool_file_checks.specs.{Judging.{IsBlamed}, Repositories.{file_text}};
ghost use Rattle.pool_file_checks.specs.Saving.{IsTextOf};
ghost use Rattle.tenant_refs.specs.TenantName.{is_tenant_name};
ghost use Rattle.tenant_service.specs.{Alone.{added, Restart, State}, Copies.{CopiesAs, StoresAs}};
ghost use Rattle.tenant_service.specs.Copying.{HasTaken, IsCopyRun, IsExport, copy_refusal};
ghost use Rattle.tenant_service.specs.Headline.{IsIsolated, IsRefused, response_in, told_since};
ghost use Rattle.tenant_service.specs.{Headline.{run_of}, TenantState.{empty_repository, held_of}};
ghost use Rattle.tenant_service.specs.TenantState.{TenantStates, Represents, Idle};
ghost use Rattle.tenant_service.specs.{Soundness.{IsSoundTenantState}, HeldSteps.{step_held}};
ghost use Rattle.tenant_service.specs.HeldObjects.{held_contents, has_committed_object};
ghost use Rattle.tenant_service.specs.HeldObjects.{has_read_done as read_done, last_held};
ghost use Rattle.tenant_service.specs.Kept.{may_change, KeepsOpened};
ghost use Rattle.tenant_service.specs.Saved.{saved_of, IsLoadedFrom, LoadsAs, LoadsText, LoadsEach};
ghost use Rattle.tenant_service.specs.Sizes.{sizes_of, sizes_told};
ghost use Rattle.tenant_service.specs.Tenants.{CountsTenants, Shows};
ghost use Rattle.tenant_tables.specs.IsBackedBy.{IsBackedBy};

use crate::by_places::copy_by_places;
use crate::copying::{copy, copy_refusal};
use crate::saving::lend_all;
use crate::sizes::{TenantSizes, sizes_of_saved};
use crate::tenant::{Tenant, has_read_done};
use crate::tenants::{count_committed, name_of, take_step};
use byte_devices::{Copied, Counted};
use content_pool::Pool;
use git_objects::{Memory, Naming};
use indexmap::IndexMap;
use pool_file_format::{Fault, StreamingDigest};
use service_steps::{Answer, Reply, Step};
use std::alloc::Global;
use std::io::Read;
use std::marker::Model;
use tenant_refs::{Refs, TenantName};
use tenant_tables::Table;

/// The repositories and streams of any number of tenants. Contracts see what is held of each.
pub struct Service<N: Naming> {
    pub(crate) alloc: Global,
    pub(crate) pool: Pool<N>,
    pub(crate) tenants: IndexMap<TenantName, Tenant>,
}

// Not derived, so that crates above need not prove again how its parts are dropped.
impl<N: Naming> Drop for Service<N> {
    fn drop(self) {
        let Service {
            alloc: _,
            pool,
            tenants,
        } = self;
        drop(pool);
        drop(tenants);
    }
}

impl<N: Naming> Model for Service<N> {
    ghost use Rattle.tenant_service.specs.{TenantState.{TenantStates}, HeldObjects.{ref_map_code}};
    ghost use Rattle.tenant_service.specs.Tenants.{IsService, holdings};
    ghost use Rattle.std.specs.Coded.{codes};
    ghost use Rattle.file_maps.specs.FileMap.{file_map_code};

    ghost Value = { TenantStates };

    ghost coded = { Prim.hlevel (codes, ref_map_code, file_map_code) };

    ghost view = { λ service. holdings service.pool service.tenants.entries };

    ghost invariant = { λ service.
        IsService N.digest_of service.pool service.tenants.entries };
}

impl<N: Naming> Service<N> {
    /// A service that has seen no tenant. Takes no memory; what it keeps later comes from `alloc`.
    pub fn new(alloc: Global, naming: N) -> Service<N>
        ensures { result ≡ [] }
    {
        Service {
            alloc,
            pool: Pool::new(alloc, naming),
            tenants: IndexMap::new(alloc),
        }
    }

    /// For every tenant there is a repository and a stream of its own that lead to what the service
    /// holds of it. This is a fact for proofs: a call does nothing.
    pub fn is_led(&self)
        ensures { (tenant : List ℕ) → (state : State)
            × Represents N.digest_of state (held_of tenant self.now) }
    {
        let _pool = &self.pool;
    }

    /// The objects of every tenant are good, and each running stream is sound. This is a fact for
    /// proofs: a call does nothing.
    pub fn is_sound(&self)
        ensures { (tenant : List ℕ) → IsSoundTenantState N.digest_of (held_of tenant self.now) }
    {
        let _pool = &self.pool;
    }

    /// No name occurs twice among the holdings. This is a fact for proofs: a call does nothing.
    pub fn has_distinct_names(&self)
        ensures { IsDistinct bytes_eq (keys_of self.now) }
    {
        let _many = self.tenants.len();
    }

    /// The text that `save` writes is a text of what is saved. A service that is loaded from it has
    /// of every tenant what a restart leaves here. This is a fact for proofs: a call does nothing.
    pub fn comes_back(&self)
        ensures text { IsTextOf N.digest_of (saved_of self.now)
            (file_text N.digest_of (saved_of self.now)) }
        ensures same { (loaded : TenantStates)
            → IsLoadedFrom N.digest_of (file_text N.digest_of (saved_of self.now)) loaded
            → (tenant : List ℕ) → held_of tenant loaded
            ≡ (step_held N.digest_of Restart None (held_of tenant self.now)).state }
    {
        self.is_sound();
        self.has_distinct_names();
        self.has_few_names();
        self.has_few_contents();
    }

    // Every tenant has a good name, and there are fewer than 2^63 tenants: a fact for proofs.
    pub(crate) fn has_few_names(&self)
        ensures names { AllByRecursion (λ name. is_tenant_name name ≡ true) (keys_of self.now) }
        ensures few { length self.now < 2 ^ 63 }
    {
        let _many = self.tenants.len();
    }

    // All tenants together have fewer than 2^64 distinct contents: a fact for proofs.
    #[tactic(auto, unfolding(content_pool::specs::LiveContents::stored_sizes))]
    pub(crate) fn has_few_contents(&self)
        ensures { length (unique_keys same_content (held_contents self.now)) < 2 ^ 64 }
    {
        let (_contents, _size) = self.stored();
    }

    /// The number of distinct contents that all tenants hold, running streams included, and the sum
    /// of their sizes in bytes, or 2^64 - 1 if the sum is greater. This is for the operator: no
    /// step tells a tenant of it. Takes no memory.
    pub fn stored(&self) -> (u64, u64)
        ensures { result ≡ stored_sizes (held_contents self.now) }
    {
        self.pool.stored()
    }

    /// The number of tenants that have an object at their last checkpoint. This is for the
    /// operator. Takes no memory.
    pub fn tenants(&self) -> u64
        ensures { result ≡ count_by (λ e. has_committed_object e.1) self.now }
    {
        count_committed(&self.tenants) as u64
    }

    /// What each tenant has at its last checkpoint, in rising order of the bytes of their names: how
    /// many objects and refs, the sum of the sizes of its objects in bytes, and that sum without
    /// the objects whose contents another tenant has too, running streams of others included. Those
    /// tenants are listed that `save` writes. A sum is 2^64 - 1 if it would be greater. This is for
    /// the operator: no step tells a tenant of it.
    ///
    /// `Memory` (90) if there is no room for the list.
    pub fn sizes(&self) -> Result<Vec<TenantSizes<'_>>, Memory>
        ensures { IfOk result (λ sizes. map sizes_told sizes.items ≡ sizes_of self.now) }
    {
        self.has_distinct_names();
        let lent = lend_all(self.alloc, &self.tenants)?;
        sizes_of_saved(self.alloc, &self.pool, &lent)
    }

    /// Whether a tenant has a stream that has read `done`, so that no later byte of it counts.
    /// Takes no memory.
    pub fn has_read_done(&self, tenant: &[u8]) -> bool
        ensures { result ≡ read_done (held_of tenant.now self.now) }
    {
        let tenants = &self.tenants;
        let Ok(name) = name_of(tenant) else {
            return false;
        };
        match tenants.get(&name) {
            Some(tenant) => has_read_done(tenant),
            None => false,
        }
    }

    /// The pool of all tenants, and the table and refs of one. This is for the operator. `None`
    /// only for a tenant with an empty repository and no stream. Takes no memory.
    ///
    /// The table has first the objects of the last checkpoint, up to its committed length, and then
    /// those of the running stream. The pool holds each content as often as there are tenants that
    /// have an object with it (`counted`).
    pub fn view(&self, tenant: &[u8]) -> Option<(&Pool<N>, &Table, &Refs)>
        ensures unseen { IsNone result → held_of tenant.now self.now ≡ Idle empty_repository }
        ensures shown { IfSome result (λ lent.
            Shows (held_of tenant.now self.now) lent.0.now lent.1.now lent.2.now) }
        ensures stands { IfSome result (λ lent.
            IsBackedBy N.digest_of lent.0.now lent.1.now.entries) }
        ensures pool { IfSome result (λ lent.
            stored_sizes (live_contents lent.0.now) ≡ stored_sizes (held_contents self.now)) }
        ensures counted { IfSome result (λ lent. CountsTenants lent.0.now self.now) }
    {
        self.has_distinct_names();
        let tenants = &self.tenants;
        let Ok(name) = name_of(tenant) else {
            return None;
        };
        let Some(tenant) = tenants.get(&name) else {
            return None;
        };
        Some((&self.pool, &tenant.table, &tenant.refs))
    }

    /// Takes one step, and appends the bytes of its reply to `out`. Streams are those of
    /// git-fast-import(1); crate answers has the queries.
    ///
    /// `Answer::Fault`: a bad tenant name is 32, an Open with a stream is 31, and a Feed or an End
    /// without one is 30. These change nothing and take no memory. A fault in the bytes of a Feed,
    /// or of an End, is answered under its number and leaves the last checkpoint. After a Feed the
    /// stream is dead: each later Feed answers the number again, and so does the End, which always
    /// closes the stream. An Ask is answered from the last checkpoint, also while a stream runs,
    /// and changes nothing. If the query (40, 41) or what it asks for (15, 16, 17, 25) is refused,
    /// nothing is printed.
    ///
    /// `Answer::Memory(k)`: an allocation failed. In an Open or an Ask, k is 0 and nothing has
    /// changed. In an End, k is 0 and the last checkpoint is left, and no stream. In a Feed, k
    /// whole items of the call took effect: `out` has their replies, the tenant is at its last
    /// checkpoint, and its stream is dead under 90.
    pub fn step(&mut self, step: Step<'_>, out: &mut Vec<u8>) -> Answer
        ensures own { (tenant : List ℕ) → IsIsolated N.digest_of tenant (held_of tenant self.old)
            ((step.entry, response_in result out.old.items out.new.items) ∷ [])
            (held_of tenant self.new) }
        // No other tenant is changed, and an Ask changes none.
        ensures kept { (tenant : List ℕ) → may_change tenant step.entry ≡ false
            → held_of tenant self.new ≡ held_of tenant self.old }
        // What a stream was opened on stays until it ends.
        ensures opened { (tenant : List ℕ)
            → KeepsOpened (held_of tenant self.old) (held_of tenant self.new) }
        ensures appended { out.new.items
            ≡ out.old.items ++ added out.old.items out.new.items }
        ensures bad_names { IsRefused (step.entry, response_in result out.old.items out.new.items) }
    {
        take_step(self.alloc, &mut self.pool, &mut self.tenants, step, out)
    }

    /// Takes steps in turn, and appends a reply for each to `replies`. Every tenant gets the
    /// replies that it would get in a repository of its own.
    ///
    /// `Memory` (90): there was no room for a further reply. The steps that have a reply were
    /// taken, and no others.
    pub fn run(&mut self, steps: &[Step<'_>], replies: &mut Vec<Reply>) -> Result<(), Memory>
        ensures own { (tenant : List ℕ) → IsIsolated N.digest_of tenant (held_of tenant self.old)
            (run_of steps.now (told_since replies.old.items replies.new.items))
            (held_of tenant self.new) }
        ensures kept { (tenant : List ℕ)
            → AllByRecursion (λ s. may_change tenant s ≡ false) steps.now
            → held_of tenant self.new ≡ held_of tenant self.old }
        ensures appended { replies.new.items
            ≡ replies.old.items ++ drop (length replies.old.items) replies.new.items }
        ensures all { OnOk result
            (length replies.new.items ≡ length replies.old.items + length steps.now) }
        ensures short { OnErr result
            (length replies.new.items < length replies.old.items + length steps.now) }
        ensures bad_names { AllByRecursion IsRefused
            (run_of steps.now (told_since replies.old.items replies.new.items)) }
    {
        for step in steps {
            replies.reserve(1)?;
            let mut bytes = Vec::new(self.alloc);
            let answer = self.step(*step, &mut bytes);
            replies.push(Reply { answer, bytes }).unwrap();
        }
        Ok(())
    }

    // Copies a repository by the places of its objects, which leaves what the steps of a copy leave.
    // `None` if the steps have to be taken; then nothing has changed.
    pub(crate) fn copy_by_places(&mut self, from: &[u8], to: &[u8]) -> Option<Answer>
        requires { copy_refusal from.now to.now self.old ≡ None }
        ensures copied { IfSome result (λ answer. HasTaken N.digest_of self.old self.new
            (λ run. IsExport from.now to.now run answer)) }
        ensures others { IfSome result (λ answer. (tenant : List ℕ)
            → bytes_eq tenant to.now ≡ false
            → held_of tenant self.new ≡ held_of tenant self.old) }
        ensures same { IsNone result → self.new ≡ self.old }
    {
        copy_by_places(self.alloc, &mut self.pool, &mut self.tenants, from, to)
    }

    /// Copies the repository of `from`, as it is at its last checkpoint, to the empty tenant `to`.
    /// This is for the operator. The steps are an Ask `export` of `from`, and then Open, one Feed
    /// of that text, and End of `to`. The answer is the first of theirs that is not Ok, else Ok.
    /// For every tenant this is a run of these steps, as by `run` (`copied`). If the export carries
    /// the repository, no export is made: `to` gets the objects by their places, and has the same.
    ///
    /// `Answer::Fault`, in this order: 32 if one of the names is bad; 31 if `to` has a stream, even
    /// a dead one; 33 if `to` has an object, a ref, or another HEAD than `refs/heads/main`. Next, a
    /// refused Ask (25 if there are too many refs for an export, or `Memory`) and a refused Open
    /// (`Memory`) are answered. After all of these everything is as it was. A fault of the text, or
    /// `Memory`, in the Feed or the End leaves what of `to` was saved until then, and no stream.
    /// `from` and all other tenants have what they had.
    ///
    /// If each object of `from`, reached by a ref or not, fits into a stream, and the refs of `from`
    /// are few enough for an export and reach at most 65,536 tags, no step is refused: a copy that
    /// is not refused before its steps is Ok or `Memory`. After Ok, `to` has the refs and HEAD of `from`,
    /// each object that these reach, with the same name, kind and bytes, and no other object
    /// (`copies`). Then nothing more is stored than before: `stored` answers what it did.
    pub fn copy_tenant(&mut self, from: &[u8], to: &[u8]) -> Answer
        ensures copied { HasTaken N.digest_of self.old self.new (λ run.
            IsCopyRun (copy_refusal from.now to.now self.old) from.now to.now run result) }
        ensures others { (tenant : List ℕ) → bytes_eq tenant to.now ≡ false
            → held_of tenant self.new ≡ held_of tenant self.old }
        ensures refused { IsSome (copy_refusal from.now to.now self.old) → self.new ≡ self.old }
        ensures copies { copy_refusal from.now to.now self.old ≡ None
            → CanBeCopied (last_held (held_of from.now self.old))
            → CopiesAs result (last_held (held_of from.now self.old)) (held_of to.now self.new) }
        ensures stored { copy_refusal from.now to.now self.old ≡ None
            → CanBeCopied (last_held (held_of from.now self.old))
            → StoresAs result self.old self.new }
    {
        match copy_refusal(&self.tenants, from, to) {
            Some(refusal) => refusal.answer(),
            None => {
                self.has_distinct_names();
                let answer = copy(self.alloc, self, from, to);
                self.has_distinct_names();
                answer
            }
        }
    }
}

impl<N: StreamingDigest> Service<N> {
    /// Reads a pool file, in either version, up to the end of the input. Each tenant of the file
    /// then has its repository, and no stream. What the service keeps later comes from `alloc`.
    ///
    /// `Fault::Refused` has the first thing that is wrong: `NoPoolFile` (60), `UnknownVersion`
    /// (61), `CutOff` (62) and `TrailingBytes` (69) from left to right; then `WrongDigest` (63);
    /// then what the file says may be `NotCanonical` (64), `BadObject` (65), `MissingReference`
    /// (66) or `BadRef` (67). `Fault::Device` (68): a call of `read` failed, or 2^32 calls were
    /// made. `Fault::Memory` (90): an allocation failed. After a fault there is no service, and
    /// what was read is gone from the reader. After a service nothing is left in the reader.
    pub fn load<R: Read>(
        alloc: Global,
        naming: N,
        reader: &mut Counted<R>,
    ) -> Result<Service<N>, Fault>
        // If the bytes of the reader are known: what they say, or the first refusal.
        ensures exact { LoadsAs N.digest_of (R.remaining (device_of reader.old)) result
            (R.remaining (device_of reader.new)) }
        // The bytes are a text of what the service has.
        ensures found { LoadsText N.digest_of (R.remaining (device_of reader.old)) result }
        // Each text of repositories gives a service that has them.
        ensures only { LoadsEach N.digest_of (R.remaining (device_of reader.old)) result }
        // Which calls are made, and when the device is blamed.
        ensures cause { IsBlamed (counted_on (calls_of reader.old) reads_limit)
            (seen (R.remaining (device_of reader.old)) reader.old) result
            (seen (R.remaining (device_of reader.new)) reader.new) }
    {
        Service::load_by::<R, Copied>(alloc, naming, reader)
    }
}
