//! Laws of lives, each the contract of a function that does nothing.

ghost use Rattle.std.specs.Prelude.{◌≡◌, ◌≤◌, ℕ, List, [], ◌∷◌, ◌++◌, length, map, Some, slice_get};
ghost use Rattle.std.specs.List.{AllByRecursion};
ghost use Rattle.fedi_entry.specs.Codes.{code_of};
ghost use Rattle.fedi_entry.specs.Fields.{IsFormed};
ghost use Rattle.fedi_outside.specs.Images.{Format, IsFormat, IsImage};
ghost use Rattle.fedi_outside.specs.Known.{record_crashes};
ghost use Rattle.fedi_objects.specs.declared.entry.Entry.{Entry};
ghost use Rattle.fedi_outside.specs.Keepers.{Adds, MayLeave};
ghost use Rattle.fedi_log.specs.Keeping.{Base, since};
ghost use Rattle.fedi_log.specs.Leaving.{IsLeft, IsLeftAfter};
ghost use Rattle.fedi_log.specs.Log.{Log, history_of};
ghost use Rattle.fedi_log.specs.Lives.{AreLives, IsFollowed, IsFoundAfter, IsLife, Life};
ghost use Rattle.fedi_log.specs.Lives.{history_at_end};

use fedi_outside::Disk;

/// Whatever a crash since the opening leaves on a disk is a file: it holds the records of the
/// opening, then those of the first of the entries that were kept since, and after them at most one
/// that was in doubt. This follows from what a keeper on that disk says of lists of records alone.
pub fn crashes_leave_files<D: Disk>()
    ensures { (f : Format) (opened now : D) (base : Base) (log : Log) (kept : List (List ℕ))
        → let before = D.crashes opened in let after = D.crashes now in
        let told = record_crashes f (D.shown opened) before in IsFormat f
        → ((left : List (List ℕ)) → told.left_since before.clock left
        → MayLeave kept base.shown.doubt left)
        → Adds before.clock told.left_since
        (record_crashes f (D.shown now) after).left_since (IsLeft base log kept)
        → (image : List ℕ) → after.left_since before.clock image
        → (left : List (List ℕ)) × IsImage f left image × IsLeft base log kept left }
{}

/// A crash at any moment of a run ends a life whose log is that of the run up to that moment, since
/// the fields of everything that a run keeps are well formed.
pub fn crashes_end_lives()
    ensures { (base : Base) (opened : List Entry) (log : Log) (left : List (List ℕ))
        → AllByRecursion IsFormed (opened ++ history_of (since base log))
        → (crash : IsLeft base log (map code_of opened) left)
        → IsLife (record { base = base; opened = opened; log = crash.past; left = left }) }
{}

/// A crash at any moment after an exchange ended ends a life whose log is the one up to the crash.
/// That log begins with all that the exchange found and added, so what was acknowledged is in it.
pub fn later_crashes_end_lives()
    ensures life { (base : Base) (opened : List Entry) (seen log : Log) (left : List (List ℕ))
        → AllByRecursion IsFormed (opened ++ history_of (since base log))
        → base.kept ≤ length seen
        → (crash : IsLeftAfter base seen log (map code_of opened) left)
        → IsLife (record {
          base = base;
          opened = opened;
          log = since base (seen ++ crash.past);
          left = left;
        }) }
    ensures begins { (base : Base) (seen past : Log) → base.kept ≤ length seen
        → since base (seen ++ past) ≡ since base seen ++ past }
{}

/// A life that opens the file that another life left opens the records that the other left.
pub fn files_join_lives()
    ensures { (f : Format) (life next : Life) (image : List ℕ) → IsFormat f
        → IsImage f life.left image → IsImage f (map code_of next.opened) image
        → IsFollowed life (next ∷ []) }
{}

/// No kept record is lost, torn or moved: the records that a life had at its end are the first of
/// those that each later life opens.
pub fn kept_records_stay()
    ensures { (before between after : List Life) (life later : Life)
        → AreLives (before ++ life ∷ (between ++ later ∷ after)) → (more : List (List ℕ))
        × (map code_of later.opened ≡ map code_of (history_at_end life) ++ more) }
{}

/// No kept entry is lost, torn or moved: the history of a life at its end is the beginning of the
/// history that each later life opens. After it, the next life finds at most the one entry that was
/// in doubt.
pub fn kept_entries_stay()
    ensures history { (before between after : List Life) (life later : Life)
        → AreLives (before ++ life ∷ (between ++ later ∷ after))
        → (more : List Entry) × (later.opened ≡ history_at_end life ++ more) }
    ensures place { (before between after : List Life) (life later : Life)
        → AreLives (before ++ life ∷ (between ++ later ∷ after))
        → (place : ℕ) (entry : Entry) → slice_get (history_at_end life) place ≡ Some entry
        → slice_get later.opened place ≡ Some entry }
    ensures behind { (before after : List Life) (life next : Life)
        → AreLives (before ++ life ∷ (next ∷ after)) → IsFoundAfter life next.opened }
{}
