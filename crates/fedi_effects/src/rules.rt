//! The rules that a member's post may break (ActivityPub, section 6).

ghost use Rattle.std.specs.Prelude.{◌≡◌, ℕ, List, Some, None, option_copied};
ghost use Rattle.std.specs.Result.{result_err};
ghost use Rattle.fedi_town.specs.declared.caller.Caller.TheVariants.{Actor};
ghost use Rattle.fedi_town.specs.declared.refusal.Refusal.TheVariants.{Blocked, NotFound};
ghost use Rattle.fedi_town.specs.Addressing.{is_nobody_here};
ghost use Rattle.fedi_town.specs.Deeds.{deed_of, is_follow, is_open, is_pending};
ghost use Rattle.fedi_town.specs.Relations.{has_block_between, ref_id};
ghost use Rattle.fedi_town.specs.Rules.{announce_rule, answer_rule, broken, broken_about};
ghost use Rattle.fedi_town.specs.Rules.{broken_post, change_rule, like_rule, number_rule};
ghost use Rattle.fedi_town.specs.Rules.{refuse_if, seen_act, seen_maker, undo_rule};
ghost use Rattle.fedi_town.specs.Towns.{id_of};

use crate::addressing::is_nobody_here;
use crate::facts::Facts;
use crate::seeing::sees_as;
use crate::states::has_next;
use crate::subjects::ref_id;
use fedi_address::Iri;
use fedi_objects::Activity;
use fedi_register::{Kept, can_be_undone, is_about, is_by, is_follow, is_open, is_pending};
use fedi_town::{Deed, Refusal};

// ---- what the author sees

// The activity that made the object with this id, if the author sees it.
fn seen_maker<'a>(facts: &'a Facts, author: &Iri, id: &Iri) -> Option<&'a Kept>
    ensures { (name : List ℕ) → id_of facts.now.town name ≡ Some author.now
        → option_copied result ≡ seen_maker facts.now.town (Actor name) id.now }
{
    facts.first_maker(id, |act| sees_as(facts, author, act))
}

// The activity with this id, if the author sees it.
fn seen_act<'a>(facts: &'a Facts, author: &Iri, id: &Iri) -> Option<&'a Kept>
    ensures { (name : List ℕ) → id_of facts.now.town name ≡ Some author.now
        → option_copied result ≡ seen_act facts.now.town (Actor name) id.now }
{
    facts.first_by_id(id, |act| sees_as(facts, author, act))
}

// ---- the rules

// An Update or a Delete: of the author's own object, which was not deleted.
fn judge_change(author: &Iri, made: Option<&Kept>) -> Result<(), Refusal>
    ensures { result_err result ≡ change_rule author.now (option_copied made.entry) }
{
    match made {
        None => Err(Refusal::NotFound),
        Some(made) if !is_by(made, author) => Err(Refusal::NotOwner),
        Some(made) if made.is_deleted() => Err(Refusal::Gone),
        Some(_) => Ok(()),
    }
}

// A Like: of an object that was not deleted.
fn judge_like(liked: Option<&Kept>) -> Result<(), Refusal>
    ensures { result_err result ≡ like_rule (option_copied liked.entry) }
{
    match liked {
        None => Err(Refusal::NotFound),
        Some(liked) if liked.is_deleted() => Err(Refusal::Gone),
        Some(_) => Ok(()),
    }
}

// An Announce: of an object that was not deleted and is public.
fn judge_announce(shared: Option<&Kept>) -> Result<(), Refusal>
    ensures { result_err result ≡ announce_rule (option_copied shared.entry) }
{
    match shared {
        None => Err(Refusal::NotFound),
        Some(shared) if shared.is_deleted() => Err(Refusal::Gone),
        Some(shared) if !shared.is_public() => Err(Refusal::NotPublic),
        Some(_) => Ok(()),
    }
}

// An Accept: of a pending Follow of the author.
fn judge_accept(author: &Iri, follow: Option<&Kept>) -> Result<(), Refusal>
    ensures { result_err result ≡ answer_rule is_pending author.now (option_copied follow.entry) }
{
    match follow {
        None => Err(Refusal::NotFound),
        Some(follow) if !is_follow(follow) || !is_about(follow, author) => Err(Refusal::NotFound),
        Some(follow) if !is_pending(follow.state()) => Err(Refusal::NotStanding),
        Some(_) => Ok(()),
    }
}

// A Reject: of a pending or accepted Follow of the author.
fn judge_reject(author: &Iri, follow: Option<&Kept>) -> Result<(), Refusal>
    ensures { result_err result ≡ answer_rule is_open author.now (option_copied follow.entry) }
{
    match follow {
        None => Err(Refusal::NotFound),
        Some(follow) if !is_follow(follow) || !is_about(follow, author) => Err(Refusal::NotFound),
        Some(follow) if !is_open(follow.state()) => Err(Refusal::NotStanding),
        Some(_) => Ok(()),
    }
}

// An Undo: of the author's own activity, which can be undone.
fn judge_undo(author: &Iri, undone: Option<&Kept>) -> Result<(), Refusal>
    ensures { result_err result ≡ undo_rule author.now (option_copied undone.entry) }
{
    match undone {
        None => Err(Refusal::NotFound),
        Some(undone) if !is_by(undone, author) => Err(Refusal::NotOwner),
        Some(undone) if !can_be_undone(undone) => Err(Refusal::NotStanding),
        Some(_) => Ok(()),
    }
}

// A Follow: of an existing actor, with no Block between the two.
fn judge_follow(facts: &Facts, author: &Iri, id: &Iri) -> Result<(), Refusal>
    ensures { result_err result
        ≡ refuse_if (is_nobody_here facts.now.town id.now) NotFound
        (refuse_if (has_block_between facts.now.town author.now id.now) Blocked None) }
{
    if is_nobody_here(facts, id) {
        Err(Refusal::NotFound)
    } else if facts.has_block_between(author, id) {
        Err(Refusal::Blocked)
    } else {
        Ok(())
    }
}

// A Block: of an existing actor.
fn judge_block(facts: &Facts, id: &Iri) -> Result<(), Refusal>
    ensures { result_err result
        ≡ refuse_if (is_nobody_here facts.now.town id.now) NotFound None }
{
    if is_nobody_here(facts, id) {
        Err(Refusal::NotFound)
    } else {
        Ok(())
    }
}

// What the author does about this id.
#[tactic(auto, unfolding(fedi_town::specs::Rules::broken_about))]
fn judge_about(facts: &Facts, author: &Iri, deed: Deed, id: &Iri) -> Result<(), Refusal>
    ensures { (name : List ℕ) → id_of facts.now.town name ≡ Some author.now
        → result_err result
        ≡ broken_about facts.now.town (Actor name) author.now deed id.now }
{
    match deed {
        Deed::Create | Deed::Other => Ok(()),
        Deed::Update | Deed::Delete => judge_change(author, seen_maker(facts, author, id)),
        Deed::Follow => judge_follow(facts, author, id),
        Deed::Like => judge_like(seen_maker(facts, author, id)),
        Deed::Announce => judge_announce(seen_maker(facts, author, id)),
        Deed::Block => judge_block(facts, id),
        Deed::Accept => judge_accept(author, seen_act(facts, author, id)),
        Deed::Reject => judge_reject(author, seen_act(facts, author, id)),
        Deed::Undo => judge_undo(author, seen_act(facts, author, id)),
    }
}

// What the author does. An activity about nothing breaks no rule.
fn judge_deed(facts: &Facts, author: &Iri, activity: &Activity) -> Result<(), Refusal>
    ensures { (name : List ℕ) → id_of facts.now.town name ≡ Some author.now
        → result_err result
        ≡ broken facts.now.town (Actor name) author.now (deed_of activity.now.kind)
        (ref_id activity.now.object) }
{
    match ref_id(&activity.object) {
        Some(id) => judge_about(facts, author, Deed::of(activity.kind), id),
        None => Ok(()),
    }
}

// The author has a number left for one more activity.
fn judge_number(facts: &Facts, author: &Iri) -> Result<(), Refusal>
    ensures { result_err result ≡ number_rule facts.now.town author.now }
{
    if has_next(facts.count_of(author) as u64) {
        Ok(())
    } else {
        Err(Refusal::ActorFull)
    }
}

/// Whether a member, who is the author with this id, may post the activity (ActivityPub, section
/// 6). What the author does not see is missing to the author. The error is the first rule that the
/// activity breaks: it is about nothing that exists, about what somebody else made or did, about an
/// object that was deleted or that may not be shared, or about an actor with a Block between the
/// two, it answers or undoes something in another state, or the author has 4,294,967,295
/// activities. It takes no memory.
pub fn judge_local(facts: &Facts, author: &Iri, activity: &Activity) -> Result<(), Refusal>
    ensures { (name : List ℕ) → id_of facts.now.town name ≡ Some author.now
        → result_err result
        ≡ broken_post facts.now.town (Actor name) author.now activity.now }
{
    judge_deed(facts, author, activity)?;
    judge_number(facts, author)
}
