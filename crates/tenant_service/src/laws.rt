//! What the import of an export does to a tenant, which contents are in a pool file, and how a stream
//! is carried out again: laws over the definitions alone, which run nothing.

ghost use Rattle.std.specs.Prelude.{◌≡◌, ◌≤◌, ℕ, List, [], ◌∷◌, length, Contains, None, Ok};
ghost use Rattle.git_model.specs.{Content.{Content}, Repository.{Repository}};
ghost use Rattle.git_names.specs.Naming.{AnswersNames};
ghost use Rattle.export_laws.specs.Copies.{CanBeCopied};
ghost use Rattle.export_text.specs.Export.{export_text};
ghost use Rattle.import_session.specs.{Sound.{IsSoundRepository}, Stream.{Running, Step, step}};
ghost use Rattle.stream_lex.specs.Items.{Item};
ghost use Rattle.pool_file_checks.specs.Repositories.{listed_contents};
ghost use Rattle.tenant_service.specs.{Alone.{Open, Feed, Closed, Streaming}, Copies.{Takes}};
ghost use Rattle.tenant_service.specs.{Growing.{KeepsObjects}, Headline.{left_alone}};
ghost use Rattle.tenant_service.specs.{HeldObjects.{opened_held}, Saved.{SomebodyHas, saved_of}};
ghost use Rattle.tenant_service.specs.TenantState.{TenantState, TenantStates, Represents};

/// A tenant that has nothing opens a stream, feeds it the export of another repository, and ends
/// it. If none of these three steps runs out of memory, each is answered Ok and prints nothing, and
/// the tenant is left with a copy: the refs and HEAD of the repository, each object that these
/// reach, with the same name, kind and bytes, and no other object.
///
/// The premises: the repository is sound, as every repository is that a stream leaves; each of its
/// objects, reached by a ref or not, fits into a stream; its refs are few enough for an export; and
/// they reach at most 65,536 tags.
pub fn exports_are_taken()
    ensures { (digest : List ℕ → List ℕ) → AnswersNames digest → (repository : Repository)
        → IsSoundRepository digest repository → CanBeCopied repository
        → Takes digest (export_text repository) repository }
{}

/// Each content that stands in the pool file of a service is one that a tenant has at its last
/// checkpoint. So once a tenant is removed, no content that was this tenant's alone stands in it.
pub fn files_have_contents_of_tenants()
    ensures { (all : TenantStates) → (c : Content)
        → Contains (listed_contents (saved_of all)) c → SomebodyHas c all }
{}

/// No item of a stream takes an object away, and what is committed stays committed: each checkpoint
/// has all objects of the ones before it, and of the repository that the stream was opened on.
pub fn each_item_keeps_objects()
    ensures { (digest : List ℕ → List ℕ) (now : Running) (item : Item) (next : Step)
        → now.workspace.committed ≤ length now.workspace.objects
        → step digest now item ≡ Ok next
        → KeepsObjects now.workspace next.running.workspace }
{}

/// While a stream runs, the service has the repository that the stream was opened on (`opened`),
/// which `save_as_opened` writes. If a tenant that has just this repository opens a stream and feeds
/// it all bytes since the Open, it has what the service has now (`again`). A journal that keeps a
/// stream from its Open on rests on these two.
pub fn streams_are_carried_out_again()
    ensures opened { (digest : List ℕ → List ℕ) (repository : Repository) (bytes : List ℕ)
        (held : TenantState) → Represents digest (Streaming repository bytes) held
        → opened_held held ≡ repository }
    ensures again { (digest : List ℕ → List ℕ) (repository : Repository) (bytes : List ℕ)
        (held again : TenantState) → Represents digest (Streaming repository bytes) held
        → Represents digest (left_alone digest (Closed (opened_held held))
        ((Open, None) ∷ (Feed bytes, None) ∷ [])) again
        → again ≡ held }
{}
