//! Laws of tables and of the summaries of trees: functions over the definitions alone, which run
//! nothing.

ghost use Rattle.std.specs.Prelude.{◌≡◌, ◌↔◌, ◌<◌, ℕ, List, [], length, Option, Some, IsTrue, IsSome};
ghost use Rattle.git_model.specs.{Content.{Content}, Repository.{Object, object_named}};
ghost use Rattle.git_model.specs.{References.{object_at, place_of}, TreeReading.{tree_read}};
ghost use Rattle.git_model.specs.declared.kind.Kind.TheVariants as kind;
ghost use Rattle.content_pool.specs.Pool.{Cells};
ghost use Rattle.tenant_tables.specs.declared.summary.Summary.{Summary};
ghost use Rattle.tenant_tables.specs.{View.{Entries, summary_of}, Objects.{objects}};
ghost use Rattle.tenant_tables.specs.{IsBackedBy.{IsBackedBy}, Sums.{IsTreeText, TreesFit}};
ghost use Rattle.tenant_tables.specs.SumIn.{is_tree_text, plain_sum, IsPlain, sum_in};

/// Bytes pass the test of the text of a tree exactly if they are the contents of entries that can
/// be written, and these are then the entries that are read from them.
pub fn tree_texts_are_known_by_a_test()
    ensures { (bytes : List ℕ) → IsTrue (is_tree_text bytes) ↔ IsTreeText bytes (tree_read bytes) }
{}

/// Bytes have a summary, by what is known of other trees, exactly if they are the text of a tree
/// whose directories are known and have files, and which is within the limits. It is the summary of
/// the tree's files.
pub fn plain_sums_are_of_trees_that_fit()
    ensures { (known : List ℕ → Option Summary) (bytes : List ℕ) (s : Summary)
        → (plain_sum known bytes ≡ Some s) ↔ IsPlain known bytes s }
{}

/// The summary that a table keeps beside an object is the one that its objects give it.
pub fn sums_are_those_of_the_table()
    ensures { (digest : List ℕ → List ℕ) (pool : Cells) (entries : Entries)
        → IsBackedBy digest pool entries
        → (id : List ℕ) → summary_of id entries ≡ sum_in (objects pool entries) id }
{}

/// Where each tree fits after the objects before it and no two objects have one name, each tree has
/// a summary.
pub fn fitting_trees_have_sums()
    ensures { (os : List Object) → TreesFit [] os
        → ((i : ℕ) → i < length os → place_of (object_at i os).id os ≡ i)
        → (id : List ℕ) (c : Content) → object_named id os ≡ Some c → c.kind ≡ kind.Tree
        → IsSome (sum_in os id) }
{}
