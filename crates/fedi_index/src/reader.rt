//! A caller who reads many activities.

ghost use Rattle.std.specs.Prelude.{◌≡◌, ℕ, Bool, false, true, List, IfSome, None, Some};
ghost use Rattle.std.specs.Prelude.{option_copied};
ghost use Rattle.fedi_index.specs.Readers.{GoesTo, Remembers, reader_id};
ghost use Rattle.fedi_town.specs.declared.caller.Caller.TheVariants.{Peer};
ghost use Rattle.fedi_town.specs.Relations.{follows, has_block_between};
ghost use Rattle.fedi_town.specs.Seeing.{is_followed_from, sees, sees_as};

use fedi_address::{Host, Iri, is_among};
use fedi_effects::{Facts, is_by};
use fedi_register::Kept;
use fedi_town::Caller;
use fedi_visible::{is_followed_from, is_of_peer, reaches_any};
use std::marker::Model;

// An answer about the author for whom it was looked up last.
#[derive(Drop)]
struct Memo<'a> {
    author: Option<&'a Iri>,
    answer: bool,
}

impl<'a> Model for Memo<'a> {
    ghost use Rattle.std.specs.Prelude.{ℕ, Bool, List, Option, option_copied};

    ghost Value = { Option (List ℕ) × Bool };

    ghost view = { λ m. (option_copied m.author, m.answer) };
}

impl<'a> Memo<'a> {
    // No answer.
    fn none() -> Memo<'a>
        ensures { result ≡ (None, false) }
    {
        Memo {
            author: None,
            answer: false,
        }
    }

    fn new(author: &'a Iri, answer: bool) -> Memo<'a>
        ensures { result ≡ (Some author.now, answer) }
    {
        Memo {
            author: Some(author),
            answer,
        }
    }

    // The answer, if it is about this author.
    fn answer(&self, author: &Iri) -> Option<bool>
        ensures { (p : List ℕ → Bool) → Remembers p self.now
            → IfSome result (λ answer. answer ≡ p author.now) }
    {
        match self.author {
            Some(known) if known == author => Some(self.answer),
            _ => None,
        }
    }
}

/// A caller who reads many activities. Blocks and Follows are looked up once for activities in a row
/// that have the same author, which are most of an outbox, and many of an inbox.
#[derive(Drop)]
pub(crate) struct Reader<'a> {
    facts: &'a Facts,
    caller: &'a Caller,
    // The id of the caller, if it is a member.
    id: Option<&'a Iri>,
    // Whether there is a Block between the caller and an author.
    block: Memo<'a>,
    // Whether the caller follows an author, or, if it is a server, somebody of it does.
    follow: Memo<'a>,
}

impl<'a> Model for Reader<'a> {
    ghost use Rattle.std.specs.Prelude.{option_copied};
    ghost use Rattle.fedi_index.specs.Readers.{IsReader, Reading};

    ghost Value = { Reading };

    ghost view = { λ r. record { town = r.facts.now.town; caller = r.caller.now } };

    ghost invariant = { λ r.
        IsReader r.facts.now.town r.caller.now (option_copied r.id) r.block r.follow };
}

fn id_of<'a>(facts: &'a Facts, caller: &Caller) -> Option<&'a Iri>
    ensures { option_copied result ≡ reader_id facts.now.town caller.now }
{
    match caller {
        Caller::Actor(name) => facts.id_of(name),
        Caller::Nobody | Caller::Peer(_) => None,
    }
}

impl<'a> Reader<'a> {
    /// The caller as a reader of these facts.
    pub(crate) fn new(facts: &'a Facts, caller: &'a Caller) -> Reader<'a>
        ensures { result ≡ record { town = facts.now.town; caller = caller.now } }
    {
        Reader {
            facts,
            caller,
            id: id_of(facts, caller),
            block: Memo::none(),
            follow: Memo::none(),
        }
    }

    /// The facts that are read.
    pub(crate) fn facts(&self) -> &'a Facts
        ensures { result.now.town ≡ self.now.town }
    {
        self.facts
    }

    /// The caller.
    pub(crate) fn caller(&self) -> &'a Caller
        ensures { result.now ≡ self.now.caller }
    {
        self.caller
    }

    /// Whether the caller is the member with this id.
    pub(crate) fn is(&self, member: &Iri) -> bool
        ensures { result ≡ true → reader_id self.now.town self.now.caller ≡ Some member.now }
    {
        self.id.is_some_and(|id| id == member)
    }

    #[tactic(auto, using(crate::proofs::Readers::block_of_member))]
    fn is_blocked(&mut self, id: &Iri, author: &'a Iri) -> bool
        requires { reader_id self.old.town self.old.caller ≡ Some id.now }
        ensures value { result ≡ has_block_between self.old.town id.now author.now }
        ensures same { self.new ≡ self.old }
    {
        match self.block.answer(author) {
            Some(answer) => answer,
            None => {
                let answer = self.facts.has_block_between(id, author);
                self.block = Memo::new(author, answer);
                answer
            }
        }
    }

    #[tactic(auto, using(crate::proofs::Readers::follow_of_member))]
    fn follows(&mut self, id: &Iri, author: &'a Iri) -> bool
        requires { reader_id self.old.town self.old.caller ≡ Some id.now }
        ensures value { result ≡ follows self.old.town id.now author.now }
        ensures same { self.new ≡ self.old }
    {
        match self.follow.answer(author) {
            Some(answer) => answer,
            None => {
                let answer = self.facts.follows(id, author);
                self.follow = Memo::new(author, answer);
                answer
            }
        }
    }

    #[tactic(auto, using(crate::proofs::Readers::follow_of_peer))]
    fn is_followed_from(&mut self, host: &Host, author: &'a Iri) -> bool
        requires { self.old.caller ≡ Peer host.now }
        ensures value { result ≡ is_followed_from self.old.town host.now author.now }
        ensures same { self.new ≡ self.old }
    {
        match self.follow.answer(author) {
            Some(answer) => answer,
            None => {
                let answer = is_followed_from(self.facts, host, author);
                self.follow = Memo::new(author, answer);
                answer
            }
        }
    }

    // Whether the caller, who is the member with this id, sees the activity. A Block is looked up
    // last, for what would be seen without it.
    #[tactic(auto, unfolding(fedi_town::specs::Seeing::sees_as, fedi_town::specs::Seeing::is_for_follower))]
    fn sees_as(&mut self, id: &Iri, act: &'a Kept, goes_to: bool) -> bool
        requires id { reader_id self.old.town self.old.caller ≡ Some id.now }
        requires goes { GoesTo goes_to (reader_id self.old.town self.old.caller) act.now }
        ensures value { result ≡ sees_as self.old.town id.now act.now }
        ensures same { self.new ≡ self.old }
    {
        is_by(act, id)
            || ((act.is_public()
                || goes_to
                || is_among(id.text(), act.recipients())
                || (act.is_for_followers() && self.follows(id, act.author())))
                && !self.is_blocked(id, act.author()))
    }

    // Whether the other server, which is the caller, sees the activity.
    #[tactic(auto, unfolding(fedi_town::specs::Seeing::sees))]
    fn sees_from(&mut self, host: &Host, act: &'a Kept) -> bool
        requires { self.old.caller ≡ Peer host.now }
        ensures value { result ≡ sees self.old.town self.old.caller act.now }
        ensures same { self.new ≡ self.old }
    {
        act.is_public()
            || is_of_peer(host, act.author())
            || reaches_any(self.facts, host, act.author(), act.recipients())
            || (act.is_for_followers() && self.is_followed_from(host, act.author()))
    }

    /// Whether the caller sees the activity (ActivityPub, sections 5, 6 and 6.9), of which it may be
    /// known that it goes to the caller.
    #[tactic(auto, unfolding(fedi_town::specs::Seeing::sees))]
    pub(crate) fn sees(&mut self, act: &'a Kept, goes_to: bool) -> bool
        requires { GoesTo goes_to (reader_id self.old.town self.old.caller) act.now }
        ensures value { result ≡ sees self.old.town self.old.caller act.now }
        ensures same { self.new ≡ self.old }
    {
        match (self.caller, self.id) {
            (Caller::Peer(host), _) => self.sees_from(host, act),
            (_, Some(id)) => self.sees_as(id, act, goes_to),
            (_, None) => act.is_public(),
        }
    }
}
