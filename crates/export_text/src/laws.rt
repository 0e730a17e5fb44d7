//! Laws of exports: functions over the definitions alone, which run nothing.

ghost use Rattle.std.specs.Prelude.{◌≡◌, ℕ, [], false, All, List};
ghost use Rattle.git_model.specs.{GoodRepository.{AreObjects}, Repository.{Repository}};
ghost use Rattle.stream_lex.specs.{Items.{Item, Rest}, Reading.{reading}};
ghost use Rattle.export_text.specs.{Export.{export_items, export_text}, ExportActs.{AsksFor}};
ghost use Rattle.export_text.specs.{ItemText.{CanWriteItem, items_text}, Limits.{CanExport}};

/// Reading the text of items that can be written gives these items, with nothing left over.
pub fn items_are_read_back()
    ensures { (items : List Item) → All CanWriteItem items
        → reading false (items_text items) ≡ record { items = items; tail = Rest false [] } }
{}

/// Reading the text of an export gives its items, with nothing left over, where the objects are
/// good and fit into a stream, and the refs have good names.
pub fn exports_are_read_back()
    ensures { (digest : List ℕ → List ℕ) (repository : Repository)
        → AreObjects digest repository.objects → CanExport repository
        → reading false (export_text repository)
        ≡ record { items = export_items repository; tail = Rest false [] } }
{}

/// The commands of an export are its acts, item by item, and the stream may end after them.
pub fn exports_ask_for_their_acts()
    ensures { (digest : List ℕ → List ℕ) (repository : Repository)
        → AreObjects digest repository.objects → CanExport repository → AsksFor repository }
{}
