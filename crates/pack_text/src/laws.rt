//! Laws of packs. Each is a function with an empty body, whose clauses speak only of definitions.

ghost use Rattle.std.specs.Prelude.{◌≡◌, ℕ, ◌<◌, ◌^◌, ◌++◌, List, length, All, Some};
ghost use Rattle.git_model.specs.Content.{Content};
ghost use Rattle.pack_text.specs.{PackText.{entry_text, pack_text}, Contents.{FitsEntry}};
ghost use Rattle.pack_text.specs.PackReading.{entry_read, pack_read};

/// The entry of an object is read as its kind and contents, whatever comes after it.
pub fn entries_are_read_back()
    ensures { (c : Content) (rest : List ℕ) → FitsEntry c
        → entry_read (entry_text c ++ rest) ≡ Some (c, rest) }
{}

/// The pack of some contents is read as those contents, whatever the digest.
pub fn packs_are_read_back()
    ensures { (digest : List ℕ → List ℕ) (contents : List Content)
        → All FitsEntry contents → length contents < 2 ^ 32
        → pack_read digest (pack_text digest contents) ≡ Some contents }
{}
