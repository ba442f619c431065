//! The accepted activities and the indexes used to look them up.

ghost use Rattle.std.specs.Prelude.{◌≡◌, ◌∷◌, Bool, [], ◌+◌, ◌-◌, ◌&&◌, ◌^◌, ◌<◌, ◌≤◌, ◌++◌, IfOk};
ghost use Rattle.std.specs.Prelude.{IsTrue, OnErr, OnOk, Some, map, take, vec_len, vec_capacity};
ghost use Rattle.std.specs.Prelude.{option_copied, option_map, if◌then◌else◌};
ghost use Rattle.std.specs.Fn.{FnReturnsAt};
ghost use Rattle.std.specs.List.{find, fold, list_any};
ghost use Rattle.fedi_address.specs.Recipients.{add_new, is_among};
ghost use Rattle.fedi_town.specs.declared.act.Act.{Act};
ghost use Rattle.fedi_town.specs.Effects.{affect};
ghost use Rattle.fedi_town.specs.Histories.{with_recipient};
ghost use Rattle.fedi_town.specs.Lists.{PassesOnce};
ghost use Rattle.fedi_town.specs.Objects.{makes};
ghost use Rattle.fedi_town.specs.Relations.{has_activity_id, is_block_of, is_follow_of};
ghost use Rattle.fedi_town.specs.Relations.{is_following};
ghost use Rattle.fedi_town.specs.States.{is_announce_of, is_like_of};
ghost use Rattle.fedi_register.specs.Changes.{AreMadeOnce, longer_of, place_where};
ghost use Rattle.fedi_register.specs.Following.{followers_in, is_first_follow, with_follower_at};
ghost use Rattle.fedi_register.specs.Keys.{is_repeat};
ghost use Rattle.fedi_register.specs.Marks.{Decides, marks_from};
ghost use Rattle.fedi_register.specs.Registers.{IsNarrower, asks_to_follow, count_by, has_own_id};
ghost use Rattle.fedi_register.specs.Registers.{is_keyed, is_making, object_mark, own_mark};
ghost use Rattle.fedi_register.specs.Registers.{ref_mark, relates, relates_by_key, relation_mark};

use crate::acts::{
    has_activity_id, is_announce_of, is_block_of, is_follow_of, is_following, is_like_of, makes,
};
use crate::applying::{add_inbox, apply_effect, position_of_id};
use crate::authors::Authors;
use crate::extras::Spare;
use crate::iris::Iris;
use crate::kept::Kept;
use crate::marking::{
    asks_to_follow, found_object_mark, found_relation_mark, has_own_id, is_blocking, is_keyed,
    is_making, key_mark, own_mark, relates,
};
use crate::marks::{MOST_ITEMS, Marks};
use crate::repeats::is_repeat;
use crate::seeds::Seed;
use fedi_address::Iri;
use fedi_objects::RepeatKey;
use fedi_town::Effect;
use std::alloc::{AllocError, Global};
use std::marker::Model;
use std::snapshot::Snapshot;

/// The accepted activities in order, indexed by what is looked up for each post so that no look-up
/// scans all of them. There are marks of the keys under which posts were made, of the objects that
/// were created, of the activities' own ids, of who follows, likes, shares or blocks what, of who
/// is followed, and of who blocks whom alone, since that is asked for each recipient of each post.
/// The number of activities of each author is kept too.
#[derive(Drop)]
pub struct Register {
    seed: Seed,
    acts: Vec<Kept>,
    keyed: Marks,
    made: Marks,
    ids: Marks,
    pairs: Marks,
    followed: Marks,
    blocked: Marks,
    authors: Authors,
    // The number of further activities that there is room for in each of the lists.
    room: usize,
}

impl Model for Register {
    ghost use Rattle.fedi_register.specs.Registers.{registered_in, IsRegister, Registered};

    ghost Value = { Registered };

    ghost view = { registered_in };

    ghost invariant = { IsRegister };
}

// Appends a mark if the test was passed. There is room for one more mark.
fn mark_if(list: &mut Marks, passes: bool, mark: u32, place: u32)
    requires { 1 ≤ list.old.room }
    ensures marks { list.new.marks ≡ list.old.marks
        ++ (if passes then record { mark = mark; place = place } ∷ [] else []) }
    ensures room { list.old.room ≤ list.new.room + 1 }
{
    if passes {
        list.push(mark, place);
    }
}

// Whether the activity has this id and passes the test.
fn has_id_where<F: Fn(&Kept) -> bool>(act: &Kept, id: &Iri, passes: &F) -> bool
    requires { F.IsAlwaysCallable passes.now }
    ensures { (p : Act → Bool) → Decides (FnReturnsAt F.Fn passes.now) p
        → result ≡ (has_activity_id id.now act.now && p act.now) }
{
    has_activity_id(act, id) && passes(act)
}

// Whether the activity created the object with this id and passes the test.
fn makes_where<F: Fn(&Kept) -> bool>(act: &Kept, id: &Iri, passes: &F) -> bool
    requires { F.IsAlwaysCallable passes.now }
    ensures { (p : Act → Bool) → Decides (FnReturnsAt F.Fn passes.now) p
        → result ≡ (makes id.now act.now && p act.now) }
{
    makes(act, id) && passes(act)
}

fn apply_in_place(
    acts: &mut Vec<Kept>,
    seed: &Seed,
    made: &Marks,
    ids: &Marks,
    pairs: &Marks,
    effect: Effect,
    spare: Spare,
)
    requires once { AreMadeOnce acts.old.items }
    requires made { made.now.marks ≡ marks_from is_making (object_mark seed.now) 0 acts.old.items }
    requires ids { ids.now.marks ≡ marks_from has_own_id (own_mark seed.now) 0 acts.old.items }
    requires pairs { pairs.now.marks
        ≡ marks_from relates (relation_mark seed.now) 0 acts.old.items }
    ensures items { acts.new.items ≡ map (affect effect) acts.old.items }
    ensures len { vec_len acts.new ≡ vec_len acts.old }
    ensures capacity { vec_capacity acts.new ≡ vec_capacity acts.old }
{
    apply_effect(acts.as_mut_slice(), seed, made, ids, pairs, effect, spare);
}

fn add_inbox_in_place(
    acts: &mut Vec<Kept>,
    seed: &Seed,
    ids: &Marks,
    id: &Iri,
    owner: &Snapshot<Iri>,
    recipients: Iris,
)
    requires once { PassesOnce (has_activity_id id.now) acts.old.items }
    requires longer { longer_of id.now owner.now.value acts.old.items ≡ Some recipients }
    requires ids { ids.now.marks ≡ marks_from has_own_id (own_mark seed.now) 0 acts.old.items }
    ensures items { acts.new.items ≡ map (with_recipient id.now owner.now.value) acts.old.items }
    ensures len { vec_len acts.new ≡ vec_len acts.old }
    ensures capacity { vec_capacity acts.new ≡ vec_capacity acts.old }
{
    add_inbox(acts.as_mut_slice(), seed, ids, id, owner, recipients);
}

impl Register {
    /// No activities. The seed is for the marks by which they are looked up.
    pub fn empty(alloc: Global, seed: Seed) -> Register
        ensures { result ≡ record { acts = []; known = []; room = 0 } }
    {
        Register {
            seed,
            acts: Vec::new(alloc),
            keyed: Marks::empty(alloc),
            made: Marks::empty(alloc),
            ids: Marks::empty(alloc),
            pairs: Marks::empty(alloc),
            followed: Marks::empty(alloc),
            blocked: Marks::empty(alloc),
            authors: Authors::empty(alloc, seed),
            room: 0,
        }
    }

    /// The activities.
    pub fn acts(&self) -> &[Kept]
        ensures { result.now ≡ self.now.acts }
    {
        self.acts.as_slice()
    }

    /// Whether an activity before this position passes the test: a Follow, a Like, an Announce or a
    /// Block by the author about this id. An activity whose object has no id counts as about the
    /// empty string. The test must let nothing else pass.
    pub fn is_related_before<F: Fn(&Kept) -> bool>(
        &self,
        place: usize,
        author: &Iri,
        about: &str,
        passes: F,
    ) -> bool
        requires { F.IsAlwaysCallable passes }
        ensures { (p : Act → Bool) → Decides (FnReturnsAt F.Fn passes) p
            → IsNarrower p (relates_by_key author.now about.now)
            → result ≡ list_any p (take place self.now.acts) }
    {
        let earlier = &self.acts[..place.min(self.acts.len())];
        self.pairs
            .any_of(earlier, self.seed.mark_of_pair(author, about), passes)
    }

    // The same among all activities.
    fn relates<F: Fn(&Kept) -> bool>(&self, author: &Iri, id: &Iri, passes: F) -> bool
        requires { F.IsAlwaysCallable passes }
        ensures { (p : Act → Bool) → Decides (FnReturnsAt F.Fn passes) p
            → IsNarrower p (relates_by_key author.now id.now) → result ≡ list_any p self.now.acts }
    {
        self.is_related_before(self.acts.len(), author, id.text(), passes)
    }

    /// Whether a blocks b.
    pub fn blocks(&self, a: &Iri, b: &Iri) -> bool
        ensures { result ≡ list_any (is_block_of a.now b.now) self.now.acts }
    {
        // In most towns nobody blocks anybody, and then nothing is hashed.
        if self.blocked.is_empty() {
            return false;
        }
        let mark = self.seed.mark_of_pair(a, b.text());
        self.blocked
            .any_of(&self.acts, mark, |act| is_block_of(act, a, b))
    }

    /// Whether a follows b: a Follow of b by a was accepted.
    pub fn follows(&self, a: &Iri, b: &Iri) -> bool
        ensures { result ≡ list_any (is_follow_of a.now b.now) self.now.acts }
    {
        self.relates(a, b, |act| is_follow_of(act, a, b))
    }

    /// Whether a likes this: a Like of it by a is in effect.
    pub fn likes(&self, a: &Iri, id: &Iri) -> bool
        ensures { result ≡ list_any (is_like_of a.now id.now) self.now.acts }
    {
        self.relates(a, id, |act| is_like_of(act, a, id))
    }

    /// Whether a shares this: an Announce of it by a is in effect.
    pub fn shares(&self, a: &Iri, id: &Iri) -> bool
        ensures { result ≡ list_any (is_announce_of a.now id.now) self.now.acts }
    {
        self.relates(a, id, |act| is_announce_of(act, a, id))
    }

    /// The activity with this id.
    pub fn activity(&self, id: &Iri) -> Option<&Kept>
        ensures { option_copied result ≡ find (has_activity_id id.now) self.now.acts }
    {
        self.ids.first_of(
            &self.acts,
            self.seed.mark_of_iri(id),
            |act| has_activity_id(act, id),
        )
    }

    /// The position of the activity with this id.
    pub fn position_of(&self, id: &Iri) -> Option<usize>
        ensures { result ≡ place_where (has_activity_id id.now) self.now.acts }
    {
        position_of_id(&self.acts, &self.seed, &self.ids, id)
    }

    /// The first activity with this id that passes the test.
    pub fn first_by_id<F: Fn(&Kept) -> bool>(&self, id: &Iri, passes: F) -> Option<&Kept>
        requires { F.IsAlwaysCallable passes }
        ensures { (p : Act → Bool) → Decides (FnReturnsAt F.Fn passes) p
            → option_copied result
            ≡ find (λ x. has_activity_id id.now x && p x) self.now.acts }
    {
        self.ids.first_of(
            &self.acts,
            self.seed.mark_of_iri(id),
            |act| has_id_where(act, id, &passes),
        )
    }

    /// The activity that created the object with this id.
    pub fn maker(&self, id: &Iri) -> Option<&Kept>
        ensures { option_copied result ≡ find (makes id.now) self.now.acts }
    {
        self.made.first_of(&self.acts, self.seed.mark_of_iri(id), |act| makes(act, id))
    }

    /// The first activity that created the object with this id and passes the test.
    pub fn first_maker<F: Fn(&Kept) -> bool>(&self, id: &Iri, passes: F) -> Option<&Kept>
        requires { F.IsAlwaysCallable passes }
        ensures { (p : Act → Bool) → Decides (FnReturnsAt F.Fn passes) p
            → option_copied result ≡ find (λ x. makes id.now x && p x) self.now.acts }
    {
        self.made.first_of(
            &self.acts,
            self.seed.mark_of_iri(id),
            |act| makes_where(act, id, &passes),
        )
    }

    /// The first activity that the author posted under the key.
    pub fn first_under(&self, author: &Iri, key: &RepeatKey) -> Option<&Kept>
        ensures { option_copied result ≡ find (is_repeat author.now key.now) self.now.acts }
    {
        let mark = self.seed.mark_of(key.bytes());
        self.keyed
            .first_of(&self.acts, mark, |act| is_repeat(act, author, key))
    }

    // Whether a Follow of b by a before this position was accepted.
    fn follows_before(&self, place: usize, a: &Iri, b: &Iri) -> bool
        ensures { result ≡ list_any (is_follow_of a.now b.now) (take place self.now.acts) }
    {
        self.is_related_before(place, a, b.text(), |act| is_follow_of(act, a, b))
    }

    // Whether the activity at this position is the first accepted Follow of b by its author.
    #[tactic(auto, unfolding(crate::specs::Following::is_first_follow))]
    fn is_first_follow(&self, place: usize, act: &Kept, b: &Iri) -> bool
        ensures { result ≡ is_first_follow self.now.acts b.now place act.now }
    {
        is_following(act, b) && !self.follows_before(place, act.author(), b)
    }

    #[tactic(auto, unfolding(crate::specs::Following::with_follower_at))]
    fn add_follower_at(&self, found: &mut Vec<Iri>, b: &Iri, place: usize) -> Result<(), AllocError>
        ensures { OnOk result (found.new.items
            ≡ with_follower_at self.now.acts b.now found.old.items place) }
    {
        let Some(act) = self.acts().get(place) else {
            return Ok(());
        };
        if self.is_first_follow(place, act, b) {
            found.push(act.author().clone()?)?;
        }
        Ok(())
    }

    fn add_followers(
        &self,
        found: &mut Vec<Iri>,
        b: &Iri,
        places: &[usize],
    ) -> Result<(), AllocError>
        ensures { OnOk result (found.new.items
            ≡ fold (with_follower_at self.now.acts b.now) found.old.items places.now) }
    {
        for place in places {
            self.add_follower_at(found, b, *place)?;
        }
        Ok(())
    }

    /// The followers of b, in the order of their Follows (ActivityPub, section 5.3). The error is
    /// out of memory.
    pub fn followers_of(&self, alloc: Global, b: &Iri) -> Result<Vec<Iri>, AllocError>
        ensures { IfOk result (λ found. found.items ≡ followers_in b.now self.now.acts) }
    {
        let places = self.followed.places_of(alloc, self.seed.mark_of_iri(b))?;
        let mut found = Vec::new(alloc);
        self.add_followers(&mut found, b, &places)?;
        Ok(found)
    }

    /// Whether one of the accepted Follows of b passes the test. It must let nothing else pass.
    pub fn is_followed_by<F: Fn(&Kept) -> bool>(&self, b: &Iri, passes: F) -> bool
        requires { F.IsAlwaysCallable passes }
        ensures { (p : Act → Bool) → Decides (FnReturnsAt F.Fn passes) p
            → IsNarrower p (is_following b.now) → result ≡ list_any p self.now.acts }
    {
        self.followed
            .any_of(&self.acts, self.seed.mark_of_iri(b), passes)
    }

    /// The number of the author's activities.
    #[tactic(auto, using(crate::proofs::Counts::counted, crate::proofs::Counts::few))]
    pub fn count_of(&self, author: &Iri) -> usize
        ensures value { result ≡ count_by self.now.acts author.now }
        ensures few { result < 2 ^ 63 }
    {
        self.authors.count_of(author)
    }

    /// Makes room for two more activities in each list. The error is out of memory, also if there
    /// are more than [`MOST_ITEMS`] activities.
    pub fn reserve(&mut self) -> Result<(), AllocError>
        ensures acts { self.new.acts ≡ self.old.acts }
        ensures known { self.new.known ≡ self.old.known }
        ensures room { OnOk result (self.new.room ≡ 2) }
    {
        self.room = 0;
        if self.acts.len() > MOST_ITEMS {
            return Err(AllocError);
        }
        self.acts.reserve(2)?;
        self.keyed.reserve()?;
        self.made.reserve()?;
        self.ids.reserve()?;
        self.pairs.reserve()?;
        self.followed.reserve()?;
        self.blocked.reserve()?;
        self.room = 2;
        Ok(())
    }

    /// Starts counting the activities of the author if they are not counted yet. The error is out
    /// of memory, and then the same authors are counted as before.
    pub fn add_author(&mut self, author: &Iri) -> Result<(), AllocError>
        ensures acts { self.new.acts ≡ self.old.acts }
        ensures room { self.new.room ≡ self.old.room }
        ensures ok { OnOk result (self.new.known ≡ add_new self.old.known author.now) }
        ensures err { OnErr result (self.new.known ≡ self.old.known) }
    {
        self.authors.add(author)
    }

    /// Applies the effect of an accepted activity to the earlier ones. This uses no memory except
    /// `spare`.
    pub fn apply(&mut self, effect: Effect, spare: Spare)
        requires { AreMadeOnce self.old.acts }
        ensures { self.new ≡ record self.old { acts = map (affect effect) self.old.acts } }
    {
        apply_in_place(
            &mut self.acts,
            &self.seed,
            &self.made,
            &self.ids,
            &self.pairs,
            effect,
            spare,
        );
    }

    /// Adds one more inbox owner to the recipients of the activity with this id (ActivityPub,
    /// section 7.1): `recipients` is the resulting list. The owner is for contracts only. This
    /// allocates nothing.
    pub fn add_inbox(&mut self, id: &Iri, owner: &Snapshot<Iri>, recipients: Iris)
        requires once { PassesOnce (has_activity_id id.now) self.old.acts }
        requires longer { longer_of id.now owner.now.value self.old.acts ≡ Some recipients }
        ensures { self.new ≡ record self.old {
          acts = map (with_recipient id.now owner.now.value) self.old.acts;
        } }
    {
        add_inbox_in_place(&mut self.acts, &self.seed, &self.ids, id, owner, recipients);
    }

    /// Appends an activity by a known author, for which there is room. This allocates nothing.
    pub fn push(&mut self, act: Kept)
        requires room { 1 ≤ self.old.room }
        requires known { IsTrue (is_among act.author self.old.known) }
        ensures { self.new ≡ record self.old {
          acts = self.old.acts ++ act ∷ [];
          room = self.old.room - 1;
        } }
    {
        let at = self.acts.len() as u32;
        mark_if(
            &mut self.keyed,
            is_keyed(&act),
            key_mark(&self.seed, &act),
            at,
        );
        let object = found_object_mark(&self.seed, &act);
        mark_if(&mut self.made, is_making(&act), object, at);
        mark_if(&mut self.followed, asks_to_follow(&act), object, at);
        mark_if(
            &mut self.ids,
            has_own_id(&act),
            own_mark(&self.seed, &act),
            at,
        );
        let relation = found_relation_mark(&self.seed, &act);
        mark_if(&mut self.pairs, relates(&act), relation, at);
        mark_if(&mut self.blocked, is_blocking(&act), relation, at);
        self.authors.count_one(act.author());
        self.acts.push_reserved(act);
        self.room -= 1;
    }
}
