//! Laws of the definitions. Each is the contract of a function that does nothing.

ghost use Rattle.std.specs.Prelude.{◌≡◌, ℕ, List, [], ◌∷◌, ◌++◌, Ok};
ghost use Rattle.fedi_objects.specs.declared.entry.Entry.{Entry};
ghost use Rattle.fedi_entry.specs.Codes.{code_of, entry_number, Fits};
ghost use Rattle.fedi_entry.specs.Fields.{IsFormed};
ghost use Rattle.fedi_entry.specs.Limits.{KeepsLimits};
ghost use Rattle.fedi_entry.specs.Reading.{read_entry};

/// The code of an entry begins with the number of its kind, for example 4 for a post, and so is not
/// empty.
#[tactic(auto, unfolding(crate::specs::Codes::code_of))]
pub fn codes_begin_with_the_kind()
    ensures { (entry : Entry) → (fields : List ℕ) × (code_of entry ≡ entry_number entry ∷ fields) }
{}

/// No two entries have the same code, if nothing in them is too large for the bytes it is written
/// in.
#[tactic(auto, using(crate::proofs::EntryLemmas::code_of_injective))]
pub fn codes_are_unique()
    ensures { (a b : Entry) → Fits a → Fits b → code_of a ≡ code_of b → a ≡ b }
{}

/// What was written is read again: the round trip of an entry whose fields are well formed.
#[tactic(auto, using(crate::proofs::ReadEntries::whole_again))]
pub fn codes_are_read()
    ensures { (entry : Entry) → IsFormed entry → read_entry (code_of entry) ≡ Ok entry }
{}

/// No code is a proper prefix of another: an entry ends where its code ends.
pub fn codes_are_no_fronts()
    ensures { (a b : Entry) (rest : List ℕ) → IsFormed a → IsFormed b
        → code_of a ++ rest ≡ code_of b → (a ≡ b) × (rest ≡ []) }
{}

/// What is read can be written again: if the fields of an entry are well formed, each keeps its
/// limit.
#[tactic(auto, using(crate::proofs::Formed::formed_keeps))]
pub fn forms_keep_limits()
    ensures { (entry : Entry) → IsFormed entry → KeepsLimits entry }
{}
