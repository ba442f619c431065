//! Who blocks, follows, likes and shares what.

ghost use Rattle.std.specs.Prelude.{◌≡◌, Bool, IfOk, take};
ghost use Rattle.std.specs.Fn.{FnReturnsAt};
ghost use Rattle.std.specs.List.{list_any};
ghost use Rattle.fedi_register.specs.Marks.{Decides};
ghost use Rattle.fedi_register.specs.Registers.{IsNarrower, relates_by_key};
ghost use Rattle.fedi_town.specs.declared.act.Act.{Act};
ghost use Rattle.fedi_town.specs.Relations.{blocks, followers, follows, has_block_between};
ghost use Rattle.fedi_town.specs.Relations.{is_following};
ghost use Rattle.fedi_town.specs.States.{is_announce_of, is_like_of};

use crate::facts::Facts;
use fedi_address::Iri;
use fedi_register::Kept;
use std::alloc::{AllocError, Global};

impl Facts {
    /// Whether a blocks b (ActivityPub, section 6.9).
    pub fn blocks(&self, a: &Iri, b: &Iri) -> bool
        ensures { result ≡ blocks self.now.town a.now b.now }
    {
        self.register().blocks(a, b)
    }

    /// Whether one of the two blocks the other (ActivityPub, section 6.9).
    #[tactic(auto, unfolding(fedi_town::specs::Relations::has_block_between))]
    pub fn has_block_between(&self, a: &Iri, b: &Iri) -> bool
        ensures { result ≡ has_block_between self.now.town a.now b.now }
    {
        self.blocks(a, b) || self.blocks(b, a)
    }

    /// Whether a follows b: a Follow of b by a was accepted, and neither ended nor was undone since
    /// (ActivityPub, sections 6.5 and 7.5).
    pub fn follows(&self, a: &Iri, b: &Iri) -> bool
        ensures { result ≡ follows self.now.town a.now b.now }
    {
        self.register().follows(a, b)
    }

    /// Whether an accepted Follow of b passes the test (ActivityPub, section 5.3), which nothing
    /// else may pass.
    pub fn is_followed_by<F: Fn(&Kept) -> bool>(&self, b: &Iri, passes: F) -> bool
        requires { F.IsAlwaysCallable passes }
        ensures { (p : Act → Bool) → Decides (FnReturnsAt F.Fn passes) p
            → IsNarrower p (is_following b.now) → result ≡ list_any p self.now.town.acts }
    {
        self.register().is_followed_by(b, passes)
    }

    /// Whether an activity before this position passes the test: a Follow, a Like, an Announce or a
    /// Block by the author about this. Nothing else may pass the test. An activity without an
    /// object counts as about the empty string.
    pub fn is_related_before<F: Fn(&Kept) -> bool>(
        &self,
        place: usize,
        author: &Iri,
        about: &str,
        passes: F,
    ) -> bool
        requires { F.IsAlwaysCallable passes }
        ensures { (p : Act → Bool) → Decides (FnReturnsAt F.Fn passes) p
            → IsNarrower p (relates_by_key author.now about.now)
            → result ≡ list_any p (take place self.now.town.acts) }
    {
        self.register()
            .is_related_before(place, author, about, passes)
    }

    /// Whether a likes this: a Like of it by a is in force (ActivityPub, section 6.8).
    pub fn likes(&self, a: &Iri, id: &Iri) -> bool
        ensures { result ≡ list_any (is_like_of a.now id.now) self.now.town.acts }
    {
        self.register().likes(a, id)
    }

    /// Whether a shares this: an Announce of it by a is in force (ActivityPub, section 7.11).
    pub fn shares(&self, a: &Iri, id: &Iri) -> bool
        ensures { result ≡ list_any (is_announce_of a.now id.now) self.now.town.acts }
    {
        self.register().shares(a, id)
    }

    /// Those who follow b, in the order of their Follows (ActivityPub, section 5.3). The error is
    /// out of memory.
    #[tactic(auto, unfolding(fedi_town::specs::Relations::followers, fedi_register::specs::Following::followers_in))]
    pub fn followers_of(&self, alloc: Global, b: &Iri) -> Result<Vec<Iri>, AllocError>
        ensures { IfOk result (λ found. found.items ≡ followers self.now.town b.now) }
    {
        self.register().followers_of(alloc, b)
    }
}
