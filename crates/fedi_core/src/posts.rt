//! What becomes of a post before it is kept.

ghost use Rattle.std.specs.Prelude.{◌≡◌, ℕ, List, Option, Some, MatchResult};
ghost use Rattle.fedi_model.specs.Posting.{is_bad_key, Judgement, judge_post, repeat_by};
ghost use Rattle.fedi_model.specs.Posting.{repeat_under, unless_repeat};
ghost use Rattle.fedi_core.specs.Judging.{IsAdmitted, IsJudged, IsTurnedAway};
ghost use Rattle.fedi_town.specs.Agreement.{repeats_of};
ghost use Rattle.fedi_town.specs.Towns.{id_of};
ghost use Rattle.fedi_town.specs.declared.caller.Caller.TheVariants.{Actor};

use fedi_address::{Iri, LocalName};
use fedi_effects::{Facts, Repeat, judge_local};
use fedi_model::{KeyAsk, Post, Read, Reply, is_nobody, is_self, misshapen_reply, refusal_reply};
use fedi_objects::{Activity, Boxed, RepeatKey};
use fedi_town::{Caller, Refusal};

/// What becomes of a post.
#[derive(Drop)]
pub enum Judged<'a> {
    /// It is refused with this reply.
    Refused(Reply),
    /// It is the repeat of the post that made the activity of this id.
    Repeated(Option<&'a Iri>),
    /// Its activity is kept, under this key and digest if it has a key.
    Kept(Boxed<Activity>, Option<(RepeatKey, [u8; 32])>),
}

fn is_bad_key(key: &KeyAsk) -> bool
    ensures { result ≡ is_bad_key key.now }
{
    match key {
        KeyAsk::Malformed => true,
        KeyAsk::Absent | KeyAsk::Given(_) => false,
    }
}

// Whether the body of the post at this name is examined. It is not if its key is malformed, if
// nobody is known to post it or it is somebody else, or if it has another media type. The first of
// these reasons is reported.
#[tactic(auto, using(crate::proofs::Judging::is_own))]
fn admit(caller: &Caller, name: &LocalName, post: &Post) -> Result<(), Refusal>
    ensures { MatchResult result
        (λ _. IsAdmitted caller.now name.now post.now)
        (λ refusal. IsTurnedAway caller.now name.now post.now refusal) }
{
    if is_bad_key(&post.key) {
        return Err(Refusal::BadQuery);
    }
    if is_nobody(caller) {
        return Err(Refusal::NoKey);
    }
    if !is_self(caller, name) {
        return Err(Refusal::NotOwner);
    }
    if !post.is_typed {
        return Err(Refusal::WrongType);
    }
    Ok(())
}

// What the author posted before under the key of a post.
fn repeat_under<'a>(facts: &'a Facts, author: &Iri, key: &KeyAsk) -> Option<Repeat<'a>>
    ensures { result ≡ repeat_under (repeats_of facts.now.town author.now) key.now }
{
    match key {
        KeyAsk::Given(key) => facts.repeat_of(author, key),
        KeyAsk::Absent | KeyAsk::Malformed => None,
    }
}

// What becomes of a post under the key of this earlier one: it is a repeat if it has the same body,
// and otherwise refused.
fn judge_repeat<'a>(repeat: &Repeat<'a>, digest: &[u8; 32]) -> Judged<'a>
    ensures { (j : Judgement) → (key : Option (List ℕ × List ℕ))
        → IsJudged (unless_repeat digest.now (Some repeat.now) j) key result }
{
    if repeat.digest() == digest {
        Judged::Repeated(repeat.activity())
    } else {
        Judged::Refused(refusal_reply(Refusal::KeyReused))
    }
}

// The key that a post is kept under, with the digest of its body.
fn repeat_by(digest: [u8; 32], key: KeyAsk) -> Option<(RepeatKey, [u8; 32])>
    ensures { result ≡ repeat_by digest key }
{
    match key {
        KeyAsk::Given(key) => {
            let pair = (key, digest);
            Some(pair)
        }
        KeyAsk::Absent | KeyAsk::Malformed => None,
    }
}

/// What becomes of the post at the name of the member who is the author with this id. It is refused
/// if its key is malformed, if nobody is known to post it or it is somebody else, if it has another
/// media type, if it is not JSON or does not have the shape of a post, if its key was used for
/// another body, if it breaks a rule, or if the author already has the most activities. The first
/// of these reasons is reported.
pub fn judge<'a>(
    facts: &'a Facts,
    caller: &Caller,
    name: &LocalName,
    author: &Iri,
    post: Post,
) -> Judged<'a>
    requires { id_of facts.now.town name.now ≡ Some author.now }
    ensures { IsJudged (judge_post facts.now.town caller.now name.now author.now post)
        (repeat_by post.digest post.key) result }
{
    if let Err(refusal) = admit(caller, name, &post) {
        return Judged::Refused(refusal_reply(refusal));
    }
    let Post {
        is_typed: _,
        key,
        digest,
        read,
    } = post;
    let activity = match read {
        Read::NotJson => return Judged::Refused(refusal_reply(Refusal::BadBody)),
        Read::Bad(fault) => return Judged::Refused(misshapen_reply(fault)),
        Read::Ready(activity) => activity,
    };
    if let Some(repeat) = repeat_under(facts, author, &key) {
        return judge_repeat(&repeat, &digest);
    }
    match judge_local(facts, author, activity.get()) {
        Ok(()) => Judged::Kept(activity, repeat_by(digest, key)),
        Err(refusal) => Judged::Refused(refusal_reply(refusal)),
    }
}
