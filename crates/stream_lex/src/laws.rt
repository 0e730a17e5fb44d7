//! Laws of the items, over the definitions alone.
//!
//! Each is a function with an empty body: its clause is the law, and the check is its proof.

ghost use Rattle.std.specs.Prelude.{◌≡◌, ℕ, false, List, ◌++◌};
ghost use Rattle.stream_lex.specs.{declared.fault.Fault.{Fault}, Reading.{reading}, Reads.{Reads}};
ghost use Rattle.stream_lex.specs.{Items.{Item, Tail, Failed, after_items}, Running.{more_of}};

/// Bytes have at most one reading, and it is the one that `reading` computes.
pub fn readings_agree()
    ensures { (bytes : List ℕ) (items : List Item) (tail : Tail) → Reads bytes items tail
        → reading false bytes ≡ record { items = items; tail = tail } }
{}

/// Every sequence of bytes has a reading.
pub fn readings_exist()
    ensures { (bytes : List ℕ) → (items : List Item) × (tail : Tail) × Reads bytes items tail }
{}

/// The items of a prefix are a prefix of the items: the bytes after the prefix are read from the
/// tail that the prefix leaves.
pub fn prefixes_agree()
    ensures { (bytes more : List ℕ) → reading false (bytes ++ more)
        ≡ after_items (reading false bytes).items (more_of (reading false bytes).tail more) }
{}

/// After a fault no byte changes the reading.
pub fn faults_stay()
    ensures { (bytes more : List ℕ) (fault : Fault) → (reading false bytes).tail ≡ Failed fault
        → reading false (bytes ++ more) ≡ reading false bytes }
{}
