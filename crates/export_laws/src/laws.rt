//! What the acts of exported objects leave when they are carried out one after another, in the
//! stream of a repository that was empty.

ghost use Rattle.std.specs.Prelude.{◌≡◌, ◌↔◌, ℕ, ◌<◌, ◌≤◌, List, [], ◌∷◌, ◌++◌, length, take, true};
ghost use Rattle.std.specs.Prelude.{nat_eq, if◌then◌else◌, All, Option, Some, is_some};
ghost use Rattle.std.specs.List.{flat_map, list_any, range_with_len};
ghost use Rattle.git_model.specs.{Content.{content_from}, GoodRepository.{AreObjects, AreRefs}};
ghost use Rattle.git_model.specs.{Reach.{is_referred_to}, References.{kind_named, object_at}};
ghost use Rattle.git_model.specs.Repository.{Object, Repository, object_named};
ghost use Rattle.git_model.specs.StoredPath.{entries_of};
ghost use Rattle.git_names.specs.Naming.{AnswersNames};
ghost use Rattle.tenant_tables.specs.Sums.{TreesFit};
ghost use Rattle.file_maps.specs.{FileMap.{AreFiles, FileMap, listed}, GoodTrees.{IsRepository}};
ghost use Rattle.export_text.specs.Reached.{is_exportable, reached_tags};
ghost use Rattle.import_session.specs.Sound.{IsSound, IsSoundRepository};
ghost use Rattle.stream_parts.specs.Tags.{tag_limit};
ghost use Rattle.stream_commands.specs.Workspace.{Workspace};
ghost use Rattle.export_laws.specs.{Copies.{CanBeCopied}, Ends.{AreRefsLeft, IsImported}};
ghost use Rattle.export_laws.specs.Order.{AreWhole, HasDirectories, IsTreeAdded, objects_at};
ghost use Rattle.export_laws.specs.{Order.{trees_by, trees_of, with_named}, Putting.{Puts}};
ghost use Rattle.export_laws.specs.{Saved.{IsSaved}, Whole.{AreSaved}};
ghost use Rattle.export_laws.specs.Told.{AreTold, IsToldNext, Told, workspace_of};
ghost use Rattle.std.specs.FinMap as finmap;
ghost use Rattle.git_model.specs.declared.kind.Kind.TheVariants as kind;

/// The two definitions of a good repository agree: file_maps asks that each tree lists the files of
/// a branch, and a session that the sums of each tree are within the limits.
pub fn sound_repositories_are_good()
    ensures { (digest : List ℕ → List ℕ) (repository : Repository)
        → IsSoundRepository digest repository ↔ IsRepository digest repository }
{}

/// If the first objects of a good repository were told, and the next object is a reached blob, its
/// acts tell it: it is there under its name and its mark, the other objects stay, and no other
/// object comes.
pub fn blobs_are_told()
    ensures { (digest : List ℕ → List ℕ) (repository : Repository)
        → AreObjects digest repository.objects → (first rest : List Object) (id bytes : List ℕ)
        → repository.objects
        ≡ first ++ record { id = id; content = content_from kind.Blob bytes } ∷ rest
        → is_referred_to repository id ≡ true → (told : Told) → AreTold repository first told
        → IsToldNext digest repository first
        (record { id = id; content = content_from kind.Blob bytes }) told }
{}

/// The acts of a reached tag tell it, if no more tags are reached than may wait for one checkpoint.
pub fn tags_are_told()
    ensures { (digest : List ℕ → List ℕ) (repository : Repository)
        → AreObjects digest repository.objects → length (reached_tags repository) ≤ tag_limit
        → (first rest : List Object) (id bytes : List ℕ)
        → repository.objects
        ≡ first ++ record { id = id; content = content_from kind.Tag bytes } ∷ rest
        → is_referred_to repository id ≡ true → (told : Told) → AreTold repository first told
        → IsToldNext digest repository first
        (record { id = id; content = content_from kind.Tag bytes }) told }
{}

/// The acts of a reached commit tell it, if the trees of the repository are within the limits of a
/// branch and the stream is sound so far. This holds whatever HEAD will name. The commit gets its
/// name and contents again, its trees are stored under the names that they had, and no other object
/// comes.
pub fn commits_are_told()
    ensures { (digest : List ℕ → List ℕ) (repository : Repository)
        → AreObjects digest repository.objects → TreesFit [] repository.objects
        → (first rest : List Object) (id bytes : List ℕ)
        → repository.objects
        ≡ first ++ record { id = id; content = content_from kind.Commit bytes } ∷ rest
        → is_referred_to repository id ≡ true → (told : Told) → AreTold repository first told
        → (head : Option (List ℕ)) → IsSound digest (workspace_of head told)
        → IsToldNext digest repository first
        (record { id = id; content = content_from kind.Commit bytes }) told }
{}

/// The files of a map, put one by one in the order in which the map lists them, starting from no
/// files, give that map, and none is refused. This is what `deleteall` and the files of a tree
/// leave of an open commit.
pub fn files_are_put()
    ensures { (m : FileMap) → AreFiles (listed m) → Puts (listed m) finmap.empty m }
{}

/// The acts of an export up to the checkpoint after its last object lead from an empty repository
/// to a workspace in which all its objects are told and saved. None of these acts is refused. The
/// premises: the repository is good, its trees are within the limits, and its refs and reached tags
/// are no more than may be imported at once. Then everything that its refs reach is there, trees
/// too, with the name and the content that it had, and nothing else is. The refs are those that the
/// tags leave, and HEAD is that of the repository.
pub fn objects_are_told()
    ensures { (digest : List ℕ → List ℕ) → AnswersNames digest → (repository : Repository)
        → AreObjects digest repository.objects → TreesFit [] repository.objects
        → AreRefs repository.objects repository.refs
        → length (reached_tags repository) ≤ tag_limit → is_exportable repository ≡ true
        → AreSaved digest repository }
{}

/// If all objects of a good repository were told and saved, the rest of its export removes the refs
/// that the tags have set and the repository does not have. It sets each ref of the repository: a
/// ref to a commit by a reset, and a ref to a tag by the tag once more. None of these commands is
/// refused, and none prints anything. The checkpoint at the end is not refused and keeps no ref
/// back: it leaves the refs and HEAD of the repository, no other refs, and all objects that were
/// told.
pub fn refs_are_left()
    ensures { (digest : List ℕ → List ℕ) (repository : Repository)
        → AreObjects digest repository.objects → AreRefs repository.objects repository.refs
        → is_exportable repository ≡ true → (told : Told)
        → AreTold repository repository.objects told → (saved : Workspace)
        → IsSaved repository told saved → AreRefsLeft digest repository told saved }
{}

/// The export law. The text that a repository exports is imported into an empty one as `git
/// fast-import` would import it: no command is refused, nothing is printed, and the stream ends
/// well. It leaves the refs and HEAD of the repository and no other refs; each object that these
/// reach, with the same name, kind and bytes; and no other object. So each commit, tree, blob and
/// tag has its name again. They come in the order of the repository, but trees: those of a commit
/// come right before it, unless they came earlier, each after those of its directories
/// (`copied_objects`).
///
/// The premises: the repository is sound, as every repository is that a stream leaves; each of its
/// objects, reached by a ref or not, fits into a stream; its refs are few enough for an export; and
/// they reach at most 65,536 tags.
pub fn exports_are_imported()
    ensures { (digest : List ℕ → List ℕ) → AnswersNames digest → (repository : Repository)
        → IsSoundRepository digest repository → CanBeCopied repository
        → IsImported digest repository }
{}

/// The trees that come with a tree of a good repository are those that come with its directories,
/// in the order of its entries, and then the tree itself (`order`).
///
/// If each tree among some objects has those of its directories there, a tree that is there adds
/// nothing, nor do the trees below it. After any tree is added, with those below it, it is there,
/// and again each tree has those of its directories there (`added`). That also stays true if an
/// object is added whose directories are there, as it is if it has none (`whole`).
pub fn trees_come_once()
    ensures order { (digest : List ℕ → List ℕ) (os : List Object) → AreObjects digest os
        → (tree : List ℕ) → kind_named tree os ≡ Some kind.Tree → trees_of os tree
        ≡ flat_map (λ e. trees_by e.mode (trees_of os e.id)) (entries_of os tree) ++ tree ∷ [] }
    ensures added { (digest : List ℕ → List ℕ) (os : List Object) → AreObjects digest os
        → (tree : List ℕ) → kind_named tree os ≡ Some kind.Tree
        → (held : List Object) → AreWhole os held → IsTreeAdded os held tree }
    ensures whole { (os held : List Object) (id : List ℕ) → AreWhole os held
        → HasDirectories held (entries_of os id) → AreWhole os (with_named os (id ∷ []) held) }
{}

/// The objects that a copy has so far can be kept as places in the repository: an object is there
/// if its place is one of them (`there`), and adding it adds its place, unless that is there
/// (`added`). The objects at the first places are the first objects (`first`).
pub fn objects_are_added_by_place()
    ensures there { (digest : List ℕ → List ℕ) (os : List Object) → AreObjects digest os
        → (place : ℕ) → place < length os
        → (places : List ℕ) → All (λ p. p < length os) places
        → is_some (object_named (object_at place os).id (objects_at os places))
        ≡ list_any (nat_eq place) places }
    ensures added { (digest : List ℕ → List ℕ) (os : List Object) → AreObjects digest os
        → (place : ℕ) → place < length os
        → (places : List ℕ) → All (λ p. p < length os) places
        → with_named os ((object_at place os).id ∷ []) (objects_at os places) ≡ objects_at os
        (if list_any (nat_eq place) places then places else places ++ place ∷ []) }
    ensures first { (os : List Object) (n : ℕ) → n ≤ length os
        → objects_at os (range_with_len 0 n) ≡ take n os }
{}
