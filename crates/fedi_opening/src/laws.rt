//! An opening has only one possible result, and admissible entries can be written.

ghost use Rattle.std.specs.Prelude.{◌≡◌, ◌<◌, ℕ, IsTrue, List, Some, length};
ghost use Rattle.fedi_entry.specs.Limits.{IsAttemptWithin, KeepsLimits};
ghost use Rattle.fedi_objects.specs.declared.entry.Entry.{Entry};
ghost use Rattle.fedi_town.specs.Legal.{is_admissible};
ghost use Rattle.fedi_town.specs.Towns.{Town};
ghost use Rattle.fedi_opening.specs.Opening.{IsDamaged, IsRead};

/// Each list of records has one answer: it is the records of at most one history, it is damaged at
/// one index at most, the first, and it is not both. And if there is no record, it is not damaged.
pub fn records_have_one_answer()
    ensures opened { (records : List (List ℕ)) (a b : List Entry)
        → IsRead (Some records) (length records) a → IsRead (Some records) (length records) b
        → a ≡ b }
    ensures damaged { (records : List (List ℕ)) (p q : ℕ) (a b : List Entry)
        → IsDamaged (Some records) (length records) p a
        → IsDamaged (Some records) (length records) q b → p ≡ q }
    ensures either { (records : List (List ℕ)) (p : ℕ) (a b : List Entry)
        → IsRead (Some records) (length records) a
        → IsDamaged (Some records) (length records) p b → ⊥ }
{}

/// An entry that may come next can be written: each of its fields keeps its limit, if the outcome
/// of an attempt does. That the attempt was due says nothing about its outcome.
#[tactic(auto, using(crate::proofs::AdmissibleLimits::admissible_keeps))]
pub fn admissible_entries_keep_limits()
    ensures { (t : Town) (e : Entry) → IsTrue (is_admissible t e) → IsAttemptWithin e
        → KeepsLimits e }
{}
