//! Laws of stores. Each is a function with an empty body, whose clauses speak only of definitions.

ghost use Rattle.std.specs.Prelude.{◌≡◌, ℕ, ◌<◌, ◌^◌, List, [], ◌++◌, length, Option, Ok};
ghost use Rattle.std.specs.List.{flat_map, AllByRecursion};
ghost use Rattle.byte_devices.specs.Reading.{AreBytes};
ghost use Rattle.git_model.specs.{Repository.{Object}, HeldObjects.{IsHeldObject}};
ghost use Rattle.pool_file_format.specs.Format.{RawFile, RawObject};
ghost use Rattle.store_format.specs.Rows.{Summary, Row, FitsSummary, FitsRow, row_text, row_for};
ghost use Rattle.store_format.specs.Lengths.{row_at, record_at, state_of_bytes};
ghost use Rattle.store_format.specs.Records.{TenantRecord, FitsRecord, record_text};
ghost use Rattle.store_format.specs.State.{State, Listing, FitsState, body_text, state_text};
ghost use Rattle.store_format.specs.Saves.{Appended, listing_after, appended_to, files_after};
ghost use Rattle.store_format.specs.Saves.{state_after, counted_after, Meets, file_after};
ghost use Rattle.store_format.specs.Saying.{Files, Counted, Numbered, listed, counted_in, says};
ghost use Rattle.store_format.specs.Saying.{contents_of, objects_of, Told, all_told};
ghost use Rattle.store_format.specs.{Sound.{IsSoundState}, Tiling.{AreTiled}};
ghost use Rattle.store_format.specs.Telling.{tells, told_at};
ghost use Rattle.store_format.specs.Tiling.{object_bytes, file_bytes};
ghost use Rattle.store_format.specs.Tails.{HaveGrown, Covers};

/// The crash law: what follows the bytes that count, and in other files, does not matter. So
/// until its state is replaced, a store says what it said, whatever a save has appended.
pub fn what_follows_does_not_count()
    ensures same { (digest : List ℕ → List ℕ) (s : State) (old new : Files) → Covers s old
        → HaveGrown old new → says digest s new ≡ says digest s old }
    ensures stays { (digest : List ℕ → List ℕ) (s : State) (old new : Files) (file : RawFile)
        → HaveGrown old new → says digest s old ≡ Ok file → says digest s new ≡ Ok file }
{}

/// The text of a row that fits is read as that row, and no other bytes are: a row has one text.
pub fn a_row_has_one_text()
    ensures again { (r : Row) (rest : List ℕ) → FitsRow r
        → row_at (row_text r ++ rest) ≡ Ok (r, rest) }
    ensures found { (bytes : List ℕ) (x : Row × List ℕ) → AreBytes bytes → row_at bytes ≡ Ok x
        → (bytes ≡ row_text x.0 ++ x.1) × FitsRow x.0 }
{}

/// Each object that a tenant may have has a row, wherever its contents begin, with or without a
/// summary.
pub fn a_held_object_has_a_row()
    ensures { (digest : List ℕ → List ℕ) (o : Object) (file offset : ℕ) (summary : Option Summary)
        → IsHeldObject digest o → file < 2 ^ 32 → offset < 2 ^ 32 → FitsSummary summary
        → FitsRow (row_for o file offset summary) }
{}

/// The text of a state that fits is read as that state, if the digest answers 20 bytes. No other
/// bytes are read as a state: it has one text.
pub fn a_state_has_one_text()
    ensures again { (digest : List ℕ → List ℕ) (s : State) → FitsState s
        → length (digest (body_text s)) ≡ 20
        → state_of_bytes digest (state_text digest s) ≡ Ok s }
    ensures found { (digest : List ℕ → List ℕ) (bytes : List ℕ) (s : State) → AreBytes bytes
        → state_of_bytes digest bytes ≡ Ok s → (bytes ≡ state_text digest s) × FitsState s }
{}

/// The same of a record of a tenant.
pub fn a_record_has_one_text()
    ensures again { (r : TenantRecord) (rest : List ℕ) → FitsRecord r
        → record_at (record_text r ++ rest) ≡ Ok (r, rest) }
    ensures found { (bytes : List ℕ) (x : TenantRecord × List ℕ) → AreBytes bytes
        → record_at bytes ≡ Ok x → (bytes ≡ record_text x.0 ++ x.1) × FitsRecord x.0 }
{}

/// The save law of a listing: after the bytes that count, more rows are appended, and the state
/// counts them and goes on with the chain. Then the listing has the old rows, and these after them.
pub fn appended_rows_are_read()
    ensures { (digest : List ℕ → List ℕ) (l : Listing) (bytes : List ℕ) (old new : List Row)
        → AreBytes bytes → AllByRecursion FitsRow new
        → listed digest row_text row_at l bytes ≡ Ok old
        → listed digest row_text row_at (listing_after digest row_text l new)
        (appended_to l.size bytes (flat_map row_text new)) ≡ Ok (old ++ new) }
{}

/// The same of records.
pub fn appended_records_are_read()
    ensures { (digest : List ℕ → List ℕ) (l : Listing) (bytes : List ℕ)
        (old new : List TenantRecord) → AreBytes bytes → AllByRecursion FitsRecord new
        → listed digest record_text record_at l bytes ≡ Ok old
        → listed digest record_text record_at (listing_after digest record_text l new)
        (appended_to l.size bytes (flat_map record_text new)) ≡ Ok (old ++ new) }
{}

/// The save law: the files of a store to which a save appended, under the new state, have what they
/// had and then what was appended.
pub fn what_is_appended_is_counted()
    ensures { (digest : List ℕ → List ℕ) (s : State) (f : Files) (a : Appended) (old : Counted)
        → AreBytes f.rows → AreBytes f.tenants → AllByRecursion FitsRow a.rows
        → AllByRecursion FitsRecord a.records → counted_in digest s f ≡ Ok old
        → counted_in digest (state_after digest s a) (files_after s f a)
        ≡ Ok (counted_after s old a) }
{}

/// The same, up to what the store says: the old objects and the new ones, and of each tenant its
/// last record.
pub fn what_is_saved_is_said()
    ensures { (digest : List ℕ → List ℕ) (s : State) (f : Files) (a : Appended) (old : Counted)
        (m : Meets s a old) → AreBytes f.rows → AreBytes f.tenants
        → AllByRecursion FitsRow a.rows → AllByRecursion FitsRecord a.records
        → counted_in digest s f ≡ Ok old
        → says digest (state_after digest s a) (files_after s f a)
        ≡ Ok (file_after m.was m.added m.tells) }
{}

/// Contents that lie one after the other are all bytes of the files: what the rows say, in their
/// order, is what the files have, in theirs. So no byte that counts is that of no row, or of two.
pub fn each_byte_is_that_of_one_row()
    ensures { (s : State) (bytes : List (List ℕ)) (files : List Numbered) (rows : List Row)
        (objects : List RawObject) → IsSoundState s → contents_of s.contents bytes ≡ Ok files
        → AreTiled s.contents rows → objects_of files rows ≡ Ok objects
        → flat_map object_bytes objects ≡ flat_map file_bytes files }
{}

/// If no record is refused, the record of a number tells what the one of this number among all tells.
pub fn a_record_tells_what_all_tell()
    ensures { (rs : List TenantRecord) (all : List Told) (number : ℕ) → all_told [] rs ≡ Ok all
        → tells rs number ≡ told_at all number }
{}
