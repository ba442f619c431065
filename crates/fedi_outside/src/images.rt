//! Laws of files of records, each the contract of a function that does nothing.
ghost use Rattle.std.specs.Prelude.{◌≡◌, ℕ, List};
ghost use Rattle.fedi_outside.specs.Images.{Format, IsFormat, IsImage, plain};
ghost use Rattle.fedi_outside.specs.Opening.{IsDamagedAt, IsNoStore, IsOlder};

/// The format without seals is a format.
pub fn plain_is_a_format()
    ensures { IsFormat plain }
{}

/// A file has at most one list of records.
pub fn files_have_one_list()
    ensures { (f : Format) → IsFormat f → (xs ys : List (List ℕ)) (bytes : List ℕ)
        → IsImage f xs bytes → IsImage f ys bytes → xs ≡ ys }
{}

/// The possible findings of an opening exclude each other: a file of records is not damaged, what
/// is no store is neither, a file of the older format is none of these, and a damaged file is
/// damaged at one offset only.
pub fn openings_exclude_each_other()
    ensures place { (f : Format) → IsFormat f → (here there : ℕ) (bytes : List ℕ)
        → IsDamagedAt f here bytes → IsDamagedAt f there bytes → here ≡ there }
    ensures whole { (f : Format) → IsFormat f → (rs : List (List ℕ)) (place : ℕ) (bytes : List ℕ)
        → IsImage f rs bytes → IsDamagedAt f place bytes → ⊥ }
    ensures store { (f : Format) → IsFormat f → (rs : List (List ℕ)) (bytes : List ℕ)
        → IsImage f rs bytes → IsNoStore f bytes → ⊥ }
    ensures neither { (f : Format) → IsFormat f → (place : ℕ) (bytes : List ℕ)
        → IsDamagedAt f place bytes → IsNoStore f bytes → ⊥ }
    ensures older { (f : Format) → IsFormat f → (rs : List (List ℕ)) (bytes : List ℕ)
        → IsImage f rs bytes → IsOlder f bytes → ⊥ }
    ensures former { (f : Format) → IsFormat f → (place : ℕ) (bytes : List ℕ)
        → IsDamagedAt f place bytes → IsOlder f bytes → ⊥ }
    ensures old_store { (f : Format) → (bytes : List ℕ)
        → IsOlder f bytes → IsNoStore f bytes → ⊥ }
{}
