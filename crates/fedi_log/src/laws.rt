//! Laws of logs, each the contract of a function that does nothing.

ghost use Rattle.std.specs.Prelude.{◌≡◌, ◌≢◌, ℕ, List, [], ◌∷◌, ◌++◌, Option, All};
ghost use Rattle.std.specs.List.{filter};
ghost use Rattle.fedi_entry.specs.Codes.{code_of};
ghost use Rattle.fedi_objects.specs.declared.entry.Entry.{Entry};
ghost use Rattle.fedi_log.specs.declared.items.What.{What};
ghost use Rattle.fedi_log.specs.Keeping.{Base, Follows, Holds, HoldsSince, State, base_of};
ghost use Rattle.fedi_log.specs.Log.{Added, Goes, IsOthers, Log, Outcome, doubts_of, failed_in};
ghost use Rattle.fedi_log.specs.Log.{given, history_of, items_of, made_by, marks_of};

/// The log of a history that was kept before has this history, and no marks.
pub fn given_logs_hold_their_history()
    ensures history { (history : List Entry) → history_of (given history) ≡ history }
    ensures marks { (history : List Entry) → marks_of (given history) ≡ [] }
{}

/// A log that others add to still extends what was seen of it.
pub fn logs_go_on()
    ensures here { (by : Option ℕ) (log : Log) → Goes by log log }
    ensures on { (by : Option ℕ) (a b c : Log) → Goes by a b → Goes by b c → Goes by a c }
    ensures more { (by : Option ℕ) (a b more : Log) → Goes by a b → All (IsOthers by) more
        → Goes by a (b ++ more) }
{}

/// The items that a pass added are those that it had added before and those that it added since.
pub fn items_past_are_added()
    ensures others { (by : Option ℕ) (a b : Log) → Goes by a b → Added by a b [] }
    ensures one { (by : Option ℕ) (a : Log) (what : What)
        → Added by a (a ++ made_by by what ∷ []) (made_by by what ∷ []) }
    ensures both { (by : Option ℕ) (a b c xs ys : Log) → Added by a b xs → Added by b c ys
        → Added by a c (xs ++ ys) }
{}

/// The outcome of a request determines what the request adds to a log: a kept entry ends all
/// doubts, and one that the keeper failed to keep leaves its mark and may be in doubt.
pub fn doubts_are_marked()
    ensures marks { (by : Option ℕ) (o : Outcome) (log : Log) → marks_of (log ++ items_of by o)
        ≡ marks_of log ++ failed_in o }
    ensures kept { (by : Option ℕ) (e : Entry) (before : List (List ℕ)) (log : Log)
        → doubts_of before (log ++ items_of by (Outcome.Kept e)) ≡ [] }
    ensures failed { (by : Option ℕ) (e : Entry) (before : List (List ℕ)) (log : Log)
        → doubts_of before (log ++ items_of by (Outcome.Failed e))
        ≡ doubts_of before log ++ code_of e ∷ [] }
{}

/// A machine that is opened holds the log of its history. After a turn it holds the log with the
/// item that the turn added, and so on for each turn after it.
pub fn machines_stand_for_logs()
    ensures opened { (growth room : ℕ → ℕ) (by : Option ℕ) (opened : State)
        → HoldsSince (base_of growth room opened) by (given opened.history) opened
        (given opened.history) }
    ensures more { (b : Base) (by : Option ℕ) (before after : State) (log : Log) (o : Outcome)
        → Holds b before log
        → Follows b.growth before after o → HoldsSince b by log after (log ++ items_of by o) }
    ensures on { (b : Base) (by : Option ℕ) (x y z : Log) (before after : State)
        → HoldsSince b by x before y
        → HoldsSince b by y after z → HoldsSince b by x after z }
{}
