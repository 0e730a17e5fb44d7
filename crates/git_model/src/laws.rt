//! Laws of the definitions: of reading contents, of good objects and refs, of reach and of peeling.
//!
//! A law is a function with an empty body: its clause states the law, and a call does nothing.

ghost use Rattle.std.specs.Prelude.{◌≡◌, ◌↔◌, ℕ, List, [], ◌∷◌, ◌++◌, ◌≤◌, take, Option, Some};
ghost use Rattle.std.specs.{Prelude.{IsTrue, All, length, map}, List.{flat_map}};
ghost use Rattle.git_model.specs.Readable.{IsReadable, RawEntry, IsRawEntry, raw_entry_text};
ghost use Rattle.git_model.specs.{Readable.{entry_from}, HeldObjects.{AreHeld, MayPut}};
ghost use Rattle.git_model.specs.Limits.{parents_limit};
ghost use Rattle.git_model.specs.{declared.kind.Kind.{Kind as Kinds}, TreeReading.{tree_read}};
ghost use Rattle.git_model.specs.Tree.{TreeEntry, CanWriteTree, tree_contents};
ghost use Rattle.git_model.specs.Commit.{Commit, CanWriteCommit, commit_contents};
ghost use Rattle.git_model.specs.{CommitReading.{commit_read, commit_time, time_of}, TagReading.{tag_read}};
ghost use Rattle.git_model.specs.{Tag.{Tag, CanWriteTag, tag_contents}, Repository.{Object}};
ghost use Rattle.git_model.specs.References.{kind_named, parents_of, referred_by};
ghost use Rattle.git_model.specs.GoodRepository.{AreObjects, MayAdd, AreRefs, IsShortRefName};
ghost use Rattle.git_model.specs.GoodRepository.{MayHold, refs_limit};
ghost use Rattle.git_model.specs.RefStore.{RefStore, no_refs, with_head, ChangesRef};
ghost use Rattle.git_model.specs.Peeling.{ComesFirstTo, is_of, is_there_untagged, next_to};
ghost use Rattle.git_model.specs.{Peeling.{peeled_to, without_tags}, Reach.{Reaches, is_reachable}};
ghost use Rattle.std.specs.FinMap as map;
ghost use Rattle.git_model.specs.declared.kind.Kind.TheVariants as kind;

/// Reading the contents of a tree gives back its entries.
pub fn trees_are_read_back()
    ensures { (es : List TreeEntry) → CanWriteTree es → tree_read (tree_contents es) ≡ es }
{}

/// Reading the contents of a commit gives back the commit.
pub fn commits_are_read_back()
    ensures { (c : Commit) → CanWriteCommit c → commit_read (commit_contents c) ≡ c }
{}

/// Reading the contents of a tag gives back the tag.
pub fn tags_are_read_back()
    ensures { (t : Tag) → CanWriteTag t → tag_read (tag_contents t) ≡ t }
{}

/// What can be written can be read: a commit with few enough parents, a tag and a tree.
pub fn written_contents_are_readable()
    ensures commits { (c : Commit) → CanWriteCommit c → length c.parents ≤ parents_limit
        → IsReadable kind.Commit (commit_contents c) }
    ensures tags { (t : Tag) → CanWriteTag t → IsReadable kind.Tag (tag_contents t) }
    ensures trees { (es : List TreeEntry) → CanWriteTree es
        → IsReadable kind.Tree (tree_contents es) }
{}

/// Reading the contents of a tree that can be read gives its entries, in their order.
pub fn readable_trees_are_read_back()
    ensures { (es : List RawEntry) → All IsRawEntry es
        → tree_read (flat_map raw_entry_text es) ≡ map entry_from es }
{}

/// A commit that can be written was made when its committer says.
pub fn written_commits_have_their_time()
    ensures { (c : Commit) → CanWriteCommit c → time_of (commit_contents c) ≡ commit_time c }
{}

/// Good objects are held.
pub fn good_objects_are_held()
    ensures { (digest : List ℕ → List ℕ) (os : List Object) → AreObjects digest os
        → AreHeld digest os }
{}

/// Each prefix of held objects is held.
pub fn each_prefix_is_held()
    ensures { (digest : List ℕ → List ℕ) (os : List Object) (n : ℕ) → AreHeld digest os
        → AreHeld digest (take n os) }
{}

/// Held objects stay held where one more is added that may be put there.
pub fn one_more_object_is_held()
    ensures { (digest : List ℕ → List ℕ) (os : List Object) (o : Object) → AreHeld digest os
        → MayPut digest os o → AreHeld digest (os ++ o ∷ []) }
{}

/// The empty list of objects is good.
pub fn no_objects_are_good()
    ensures { (digest : List ℕ → List ℕ) → AreObjects digest [] }
{}

/// Good objects stay good if an object is added that may be added.
pub fn one_more_object_is_good()
    ensures { (digest : List ℕ → List ℕ) (os : List Object) (o : Object)
        → AreObjects digest os → MayAdd digest os o → AreObjects digest (os ++ o ∷ []) }
{}

/// Each prefix of good objects is good by itself.
pub fn each_prefix_is_good()
    ensures { (digest : List ℕ → List ℕ) (os : List Object) (n : ℕ)
        → AreObjects digest os → AreObjects digest (take n os) }
{}

/// The empty set of refs, with the initial HEAD, is good.
pub fn no_refs_are_good()
    ensures { (os : List Object) → AreRefs os no_refs }
{}

/// Good refs stay good if objects are added.
pub fn refs_stay_good_beside_more_objects()
    ensures { (os more : List Object) (store : RefStore) → AreRefs os store
        → AreRefs (os ++ more) store }
{}

/// Good refs stay good if one ref is set to a target that it may hold, or is removed, and there are
/// not too many refs afterwards.
pub fn refs_stay_good_where_one_changes()
    ensures { (os : List Object) (old new : RefStore) (ref : List ℕ) (target : Option (List ℕ))
        → AreRefs os old → ChangesRef old new ref target
        → ((id : List ℕ) → target ≡ Some id → IsShortRefName ref × MayHold os ref id)
        → map.len new.refs ≤ refs_limit
        → AreRefs os new }
{}

/// Good refs stay good if HEAD is set to another ref name.
pub fn refs_stay_good_under_another_head()
    ensures { (os : List Object) (store : RefStore) (ref : List ℕ) → AreRefs os store
        → IsShortRefName ref → AreRefs os (with_head store ref) }
{}

/// Among held objects, the test finds exactly what is reachable by parents, the least closed set.
/// It walks at most as many steps as there are objects.
pub fn parents_reach_the_least_set()
    ensures { (digest : List ℕ → List ℕ) (os : List Object) → AreHeld digest os
        → (from to : List ℕ)
        → IsTrue (is_reachable os (parents_of os) from to) ↔ Reaches (parents_of os) from to }
{}

/// The same for all references of objects, not only for parents.
pub fn references_reach_the_least_set()
    ensures { (digest : List ℕ → List ℕ) (os : List Object) → AreHeld digest os
        → (from to : List ℕ)
        → IsTrue (is_reachable os (referred_by os) from to) ↔ Reaches (referred_by os) from to }
{}

/// The test of a kind is true exactly if the object with the name exists and has that kind.
pub fn kinds_are_tested()
    ensures { (os : List Object) (wanted : Kinds) (id : List ℕ)
        → IsTrue (is_of os wanted id) ↔ (kind_named id os ≡ Some wanted) }
{}

/// Among held objects, peeling ends at the first object of the wanted kind on the way, however far
/// that is, and answers none if there is no such object on the way.
pub fn peeling_ends_at_the_first()
    ensures { (digest : List ℕ → List ℕ) (os : List Object) → AreHeld digest os
        → (wanted : Kinds) (id found : List ℕ)
        → (peeled_to os wanted id ≡ Some found)
        ↔ ComesFirstTo (is_of os wanted) (next_to os wanted) id found }
{}

/// The same for tags that are followed to the first object that is not a tag.
pub fn tags_lead_to_the_first_that_is_none()
    ensures { (digest : List ℕ → List ℕ) (os : List Object) → AreHeld digest os
        → (id found : List ℕ)
        → (without_tags os id ≡ Some found)
        ↔ ComesFirstTo (is_there_untagged os) (next_to os kind.Blob) id found }
{}
