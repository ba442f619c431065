//! The machine over one history and the keeper of its records.

ghost use Rattle.std.specs.Prelude.{◌≡◌, ◌↔◌, ◌||◌, List, IfOk, IfErr, IfSome, IsErrOf, IsTrue};
ghost use Rattle.std.specs.Prelude.{None, OnOk, OnErr, length, map, option_copied};
ghost use Rattle.std.specs.List.{AllByRecursion};
ghost use Rattle.fedi_entry.specs.Codes.{code_of};
ghost use Rattle.fedi_entry.specs.Fields.{IsFormed};
ghost use Rattle.fedi_town.specs.Histories.{town};
ghost use Rattle.fedi_town.specs.Legal.{IsLegal, broken_command};
ghost use Rattle.fedi_model.specs.Asks.{entry_of};
ghost use Rattle.fedi_model.specs.Callers.{caller_by};
ghost use Rattle.fedi_model.specs.Credentials.{shown_by as credentials_shown_by};
ghost use Rattle.fedi_model.specs.Memory.{copies_host, takes_memory};
ghost use Rattle.fedi_model.specs.Replies.{IsPrivate, reply};
ghost use Rattle.fedi_model.specs.Routes.{IsPostableAt};
ghost use Rattle.fedi_core.specs.Commands.{IsCommand, RefusesCommand, unkept};
ghost use Rattle.fedi_core.specs.Drafts.{is_ready, reply_in};
ghost use Rattle.fedi_core.specs.Keeping.{HidesDeliveries, HidesPosts, Keeps, MayAdd, TellsOwners};
ghost use Rattle.fedi_core.specs.Keeping.{TellsPeers, fault_by};
ghost use Rattle.fedi_core.specs.Opening.{IsUnopened, keeper_after, outcome_of};
ghost use Rattle.fedi_objects.specs.declared.entry.Entry.{Entry};
ghost use Rattle.fedi_core.specs.Machines.{IsNextCode};
ghost use Rattle.fedi_opening.specs.Opening.{IsRead, IsStopped, after_open};
ghost use Rattle.fedi_outside.specs.Keepers.{PassesTime, after_fault};
ghost use Rattle.fedi_queue.specs.Claims.{release};
ghost use Rattle.fedi_queue.specs.Rows.{rows_of};
ghost use Rattle.fedi_visible.specs.Shelves.{empty_holding};

use crate::callers::caller_of;
use crate::deciding::{Decision, decide};
use crate::keeping::{KeepError, KeepFault, store_entry};
use fedi_address::Host;
use fedi_effects::Facts;
use fedi_model::{Ask, Credentials};
use fedi_objects::Entry;
use fedi_opening::{OpenFault, open_history};
use fedi_outside::{Failed, Keeper};
use fedi_queue::Queue;
use fedi_text::Moment;
use fedi_town::{Caller, CommandFault, Refusal};
use fedi_visible::Shelf;
use std::alloc::{AllocError, Global};
use std::marker::Model;

/// The machine: a shelf with a legal history, the keeper of its records, which are the codes of the
/// entries in order, and the queue of its deliveries. Contracts see it as the history, the keeper
/// and the rows of the queue.
pub struct Core<S: Shelf, P: Keeper> {
    pub(crate) shelf: S,
    pub(crate) keeper: P,
    pub(crate) queue: Queue,
}

// Written out, so that a caller does not prove again how each part is dropped.
impl<S: Shelf + Drop, P: Keeper + Drop> Drop for Core<S, P> {
    fn drop(self) {
        let Core {
            shelf: _,
            keeper: _,
            queue: _,
        } = self;
    }
}

impl<S: Shelf, P: Keeper> Model for Core<S, P> {
    ghost use Rattle.fedi_core.specs.Machines.{IsMachine, Machine};

    ghost Value = { Machine P };

    ghost view = { λ c. record {
      history = (S.holding c.shelf).history;
      keeper = c.keeper;
      rows = c.queue.rows;
    } };

    ghost invariant = { λ c. IsMachine (S.holding c.shelf) (P.shown c.keeper) c.queue };
}

impl<S: Shelf + Drop, P: Keeper> Core<S, P> {
    /// Opens the history of the records that the keeper holds on an empty shelf. Each record is
    /// read as the entry that it is the code of, which has to be one that may come next there. None
    /// of its deliveries is claimed.
    ///
    /// An error hands the keeper back. It is `Empty`, exactly if there is no record; `Damaged`,
    /// with the index of the first record that is not the code of any entry that may come next;
    /// `Failed`, if the keeper failed, which it counts once; and `Memory`, out of memory. In every
    /// case the keeper's records, the record in doubt and the keeper's end are unchanged, and what
    /// lies outside is read and not written. A machine may be opened only if nothing is in doubt.
    pub fn open(alloc: Global, shelf: S, keeper: P) -> Result<Core<S, P>, (OpenFault, P)>
        requires empty { S.holding shelf ≡ empty_holding }
        requires settled { (P.shown keeper).doubt ≡ None }
        ensures opened { IfOk result (λ core.
            IsRead (P.shown keeper).records (P.shown keeper).held core.history) }
        ensures unclaimed { IfOk result (λ core. core.rows ≡ rows_of (town core.history)) }
        ensures none { IsErrOf (outcome_of result) OpenFault.Empty ↔ ((P.shown keeper).held ≡ 0) }
        ensures stopped { IfErr result (λ back.
            (history : List Entry) × IsStopped back.0 (P.shown keeper) history) }
        ensures shown { P.shown (keeper_after result)
            ≡ after_open (outcome_of result) (P.shown keeper) }
        ensures outside { P.only_read keeper (keeper_after result) }
        ensures time { PassesTime (P.shown keeper).records (P.shown keeper).doubt
            (P.crashes keeper) (P.crashes (keeper_after result)) }
    {
        let (mut shelf, mut keeper) = (shelf, keeper);
        match open_history(alloc, &mut keeper, &mut shelf) {
            Ok(()) => {
                shelf.facts().show_town();
                match Queue::of(alloc, shelf.facts()) {
                    Ok(queue) => Ok(Core {
                        shelf,
                        keeper,
                        queue,
                    }),
                    Err(AllocError) => Err((OpenFault::Memory, keeper)),
                }
            }
            Err(fault) => Err((fault, keeper)),
        }
    }

    /// Opens the history anew from the keeper's records, on an empty shelf, as after a crash: what
    /// was only in memory is lost, and none of the deliveries is claimed any more.
    ///
    /// The errors are those of `open`, and after one the machine is unchanged, except that a fault
    /// of the keeper is counted. If the keeper reports its records, they are those of the history:
    /// it is opened again, or the error is `Failed`, if the keeper failed, `Memory`, out of memory,
    /// or `Empty`, if the history has no entry.
    pub fn reopen(&mut self, alloc: Global, blank: S) -> Result<(), OpenFault>
        requires empty { S.holding blank ≡ empty_holding }
        requires settled { (P.shown self.old.keeper).doubt ≡ None }
        ensures opened { OnOk result (IsRead (P.shown self.old.keeper).records
            (P.shown self.old.keeper).held self.new.history) }
        ensures history { IfSome (P.shown self.old.keeper).records
            (λ _. self.new.history ≡ self.old.history) }
        ensures unclaimed { OnOk result (self.new.rows ≡ rows_of (town self.new.history)) }
        ensures same { OnErr result (self.new.history ≡ self.old.history) }
        ensures rows { OnErr result (self.new.rows ≡ self.old.rows) }
        ensures refused { IfErr result
            (IsUnopened (P.shown self.old.keeper).records self.old.history) }
        ensures shown { P.shown self.new.keeper ≡ after_open result (P.shown self.old.keeper) }
        ensures outside { P.only_read self.old.keeper self.new.keeper }
        ensures time { PassesTime (P.shown self.old.keeper).records (P.shown self.old.keeper).doubt
            (P.crashes self.old.keeper) (P.crashes self.new.keeper) }
    {
        let mut shelf = blank;
        open_history(alloc, &mut self.keeper, &mut shelf)?;
        shelf.facts().show_town();
        let queue = Queue::of(alloc, shelf.facts())?;
        self.shelf = shelf;
        self.queue = queue;
        Ok(())
    }

    /// The facts of the history, which is legal.
    pub fn facts(&self) -> &Facts
        ensures history { result.now.history ≡ self.now.history }
        ensures town { result.now.town ≡ town self.now.history }
        ensures legal { IsLegal self.now.history }
    {
        self.shelf.facts()
    }

    /// How many entries the history has.
    pub fn count(&self) -> u64
        ensures { result ≡ length self.now.history }
    {
        self.keeper.count()
    }

    /// The host, if the server has been set up.
    pub fn host(&self) -> Option<&Host>
        ensures { option_copied result ≡ (town self.now.history).host }
    {
        self.shelf.facts().host()
    }

    /// Who makes a request with these credentials (RFC 6750, section 2.1): nobody if there are
    /// none, the member whose key they show, or the peer that signed the request with the key that
    /// it shares with this server (RFC 2104). It is `WrongKey` if a key is shown that belongs to no
    /// member, and `WrongMac` if one of a peer's fields is present but no peer of that host signed
    /// the request. The error is out of memory, which occurs only if the caller is a peer.
    #[tactic(auto, unfolding(fedi_model::specs::Callers::caller_by))]
    pub fn caller_of(
        &self,
        credentials: &Credentials,
    ) -> Result<Result<Caller, Refusal>, AllocError>
        ensures caller { IfOk result (λ caller. caller
            ≡ caller_by (town self.now.history) (credentials_shown_by credentials.now)) }
        ensures memory { OnErr result (IsTrue (copies_host
            (caller_by (town self.now.history) (credentials_shown_by credentials.now)))) }
    {
        caller_of(self.shelf.facts(), credentials)
    }

    /// Decides on an ask at a moment (ActivityPub, sections 3.2, 4.1, 6 and 7; RFC 7033, section
    /// 4.2). The result is the reply, whose document can be written later, and, for a post or a
    /// delivery that is accepted and new, the entry that `keep` has to keep before the reply is
    /// sent. Nothing changes. The error is out of memory, which occurs only if the answer takes
    /// memory: a refusal takes none, unless an id is made to look something up, and writing it
    /// takes none either.
    pub fn decide(
        &self,
        alloc: Global,
        caller: &Caller,
        ask: Ask,
        moment: Moment,
    ) -> Result<Decision, AllocError>
        requires postable { IsPostableAt (town self.now.history).host ask }
        ensures reply { IfOk result (λ d.
            reply_in d.draft ≡ reply (town self.now.history) caller.now ask) }
        ensures entry { IfOk result (λ d.
            d.entry ≡ entry_of (town self.now.history) caller.now ask moment) }
        ensures may_add { IfOk result (λ d. IfSome d.entry (MayAdd (town self.now.history))) }
        // Every legal history that agrees with this one on what the caller may know gives the same
        // reply.
        ensures private { IfOk result (λ d.
            IsPrivate self.now.history caller.now ask (reply_in d.draft)) }
        ensures memory { OnErr result
            (IsTrue (takes_memory (town self.now.history) caller.now ask)) }
        ensures ready { IfOk result (λ d. IsTrue
            (is_ready d.draft || takes_memory (town self.now.history) caller.now ask)) }
    {
        decide(alloc, &self.shelf, caller, ask, moment)
    }

    /// Appends an entry that may come next to the history, after the keeper has its bytes.
    /// Everything that takes memory is done before the keeper's doubt is settled. What is claimed
    /// stays claimed, except for a delivery that the entry records an attempt of. After an error
    /// the history and the deliveries are unchanged and the entry is handed back. The error is
    /// `Full` if the keeper has no room for it, `Failed` if the keeper failed, which it counts
    /// once, and `Memory` if memory runs out, which the keeper does not count.
    #[tactic(auto, using(crate::proofs::Limits::added_keeps))]
    pub fn keep(&mut self, alloc: Global, entry: Entry) -> Result<(), KeepError>
        requires { MayAdd (town self.old.history) entry }
        ensures keeps { Keeps P.Keeper self.old self.new entry
            (fault_by (λ e. e.fault) result) }
        ensures rows { OnErr result (self.new.rows ≡ self.old.rows) }
        ensures queue { map release self.new.rows ≡ rows_of (town self.new.history) }
        ensures back { IfErr result (λ e. e.entry ≡ entry) }
        // A post that changes nothing earlier shows nothing to a caller that does not see it.
        ensures unseen { HidesPosts self.old.history self.new.history }
        // Neither does a delivery of a new id that is not a Follow.
        ensures unseen_deliveries { HidesDeliveries self.old.history self.new.history }
        // A delivery of a known id shows nothing except to the owner of its inbox.
        ensures added_inboxes { TellsOwners self.old.history self.new.history }
    {
        let stored = store_entry(
            alloc,
            &mut self.shelf,
            &mut self.queue,
            &mut self.keeper,
            &entry,
        );
        self.queue.entries();
        match stored {
            Ok(()) => Ok(()),
            Err(fault) => Err(KeepError { fault, entry }),
        }
    }

    /// Carries out an operator's command: its entry is kept, unless it breaks a rule, the first of
    /// which is reported, or the keeper refuses it, as `keep` describes. What is claimed stays
    /// claimed. After an error the history and the deliveries are unchanged.
    #[tactic(auto, using(crate::proofs::Commanding::command_may, crate::proofs::Rules::rule_refuses))]
    pub fn command(&mut self, alloc: Global, entry: Entry) -> Result<(), CommandFault>
        requires { IsCommand (town self.old.history) entry }
        ensures unbroken { OnOk result (broken_command (town self.old.history) entry ≡ None) }
        ensures refused { IfErr result (λ fault. RefusesCommand P.room
            (town self.old.history) entry fault
            (P.shown self.old.keeper) (P.shown self.new.keeper)) }
        ensures keeps { Keeps P.Keeper self.old self.new entry (fault_by unkept result) }
        ensures rows { OnErr result (self.new.rows ≡ self.old.rows) }
        // Adding a peer changes nothing for any caller except that peer.
        ensures added_peers { TellsPeers self.old.history self.new.history }
    {
        if let Err(fault) = self.shelf.facts().judge_command(&entry) {
            drop(entry);
            return Err(fault);
        }
        match self.keep(alloc, entry) {
            Ok(()) => Ok(()),
            Err(error) => match error.fault {
                KeepFault::Full => Err(CommandFault::Full),
                KeepFault::Failed => Err(CommandFault::KeeperFault),
                KeepFault::Memory => Err(CommandFault::Memory),
            },
        }
    }

    /// Removes what a failed `keep` may have left, so that nothing is in doubt. It takes no memory.
    /// After an error, which the keeper counts, nothing has changed.
    pub fn settle(&mut self) -> Result<(), Failed>
        ensures history { self.new.history ≡ self.old.history }
        ensures rows { self.new.rows ≡ self.old.rows }
        ensures settled { OnOk result (P.shown self.new.keeper
            ≡ record (P.shown self.old.keeper) { doubt = None }) }
        ensures refused { OnErr result
            (P.shown self.new.keeper ≡ after_fault (P.shown self.old.keeper)) }
        ensures time { PassesTime (P.shown self.old.keeper).records (P.shown self.old.keeper).doubt
            (P.crashes self.old.keeper) (P.crashes self.new.keeper) }
    {
        self.keeper.settle()
    }

    /// The keeper, which holds the records of the history.
    pub fn close(self) -> P
        ensures keeper { result ≡ self.keeper }
        ensures kept { IfSome (P.shown self.keeper).records (λ records.
            map code_of self.history ≡ records) }
        ensures held { (P.shown self.keeper).held ≡ length self.history }
        ensures doubted { IfSome (P.shown self.keeper).doubt (IsNextCode self.history) }
        ensures legal { IsLegal self.history }
        ensures formed { AllByRecursion IsFormed self.history }
    {
        let Core {
            shelf: _,
            keeper,
            queue: _,
        } = self;
        keeper
    }
}
