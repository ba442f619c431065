//! The positions of the items of a collection among the activities of the facts. The owner of a
//! collection is the member or the object with this id. Nothing here takes memory.

ghost use Rattle.std.specs.Prelude.{◌≡◌, ◌+◌, ◌*◌, ◌<◌, ◌≤◌, drop, length, take};
ghost use Rattle.std.specs.List.{list_any};
ghost use Rattle.fedi_visible.specs.Places.{can_come_again, is_first, is_same_seen};
ghost use Rattle.fedi_visible.specs.Places.{is_seen_item, places};

use crate::listing::{is_item, is_same_item};
use crate::seeing::sees;
use crate::shelf::VisiblePage;
use fedi_address::Iri;
use fedi_effects::{Facts, Steps};
use fedi_register::Kept;
use fedi_town::{Caller, Which};
use std::sync::ledger::Ledger;

/// Whether the activity is in the owner's collection and the caller sees it.
#[tactic(auto, unfolding(crate::specs::Places::is_seen_item))]
pub fn is_seen_item(facts: &Facts, caller: &Caller, which: &Which, owner: &Iri, act: &Kept) -> bool
    ensures { result ≡ is_seen_item facts.now.town caller.now which.now owner.now act.now }
{
    is_item(act, which, owner) && sees(facts, caller, act)
}

/// Whether the earlier activity is an item that the caller sees and is the same item as this one.
#[tactic(auto, unfolding(crate::specs::Places::is_same_seen))]
pub fn is_same_seen(
    facts: &Facts,
    caller: &Caller,
    which: &Which,
    owner: &Iri,
    act: &Kept,
    earlier: &Kept,
) -> bool
    ensures { result
        ≡ is_same_seen facts.now.town caller.now which.now owner.now act.now earlier.now }
{
    is_item(earlier, which, owner)
        && (is_same_item(which, earlier, act) && sees(facts, caller, earlier))
}

// Whether one of the first `count` activities is the same item and the caller sees it.
fn is_any_same_seen<L: Ledger>(
    facts: &Facts,
    caller: &Caller,
    which: &Which,
    owner: &Iri,
    act: &Kept,
    count: usize,
    steps: &mut Steps<L>,
) -> bool
    requires { count ≤ length facts.now.town.acts }
    ensures value { result ≡ list_any
        (is_same_seen facts.now.town caller.now which.now owner.now act.now)
        (take count facts.now.town.acts) }
    ensures cost { steps.new ≤ steps.old + count }
{
    for place in 0..count {
        let earlier = facts.shown(place, steps);
        if is_same_seen(facts, caller, which, owner, act, earlier) {
            return true;
        }
    }
    false
}

// Whether an item can be repeated: the same follower, or the same followed actor. The items of all
// other collections differ from each other.
fn can_come_again(which: &Which) -> bool
    ensures { result ≡ can_come_again which.now }
{
    matches!(which, Which::Followers(_) | Which::Following(_))
}

// Whether one of the first `count` activities is the same item and the caller sees it. They are
// scanned only if an item can be repeated.
#[tactic(auto, using(crate::proofs::Listed::none_again))]
fn comes_again<L: Ledger>(
    facts: &Facts,
    caller: &Caller,
    which: &Which,
    owner: &Iri,
    act: &Kept,
    count: usize,
    steps: &mut Steps<L>,
) -> bool
    requires { count ≤ length facts.now.town.acts }
    ensures value { result ≡ list_any
        (is_same_seen facts.now.town caller.now which.now owner.now act.now)
        (take count facts.now.town.acts) }
    ensures cost { steps.new ≤ steps.old + count }
{
    can_come_again(which) && is_any_same_seen(facts, caller, which, owner, act, count, steps)
}

// Whether the activity is an item that the caller sees and none of the first `count` is the same.
#[tactic(auto, unfolding(crate::specs::Places::is_first))]
fn is_first<L: Ledger>(
    facts: &Facts,
    caller: &Caller,
    which: &Which,
    owner: &Iri,
    act: &Kept,
    count: usize,
    steps: &mut Steps<L>,
) -> bool
    requires { count ≤ length facts.now.town.acts }
    ensures value { result ≡ is_first facts.now.town caller.now which.now owner.now
        (take count facts.now.town.acts) act.now }
    ensures cost { steps.new ≤ steps.old + count }
{
    is_seen_item(facts, caller, which, owner, act)
        && !comes_again(facts, caller, which, owner, act, count, steps)
}

/// The positions of the items on the page of this number, and the number of items on all pages. For
/// each activity it reads at most those before it.
pub fn page<L: Ledger>(
    facts: &Facts,
    caller: &Caller,
    which: &Which,
    owner: &Iri,
    number: u64,
    steps: &mut Steps<L>,
) -> VisiblePage
    ensures total { result.total
        ≡ length (places facts.now.town caller.now which.now owner.now) }
    ensures places { result.places.items ≡ take 20 (drop (20 * number)
        (places facts.now.town caller.now which.now owner.now)) }
    ensures cost { let n = length facts.now.town.acts in steps.new ≤ steps.old + n * (n + 1) }
{
    let mut page = VisiblePage::empty();
    for place in 0..facts.activities() {
        let act = facts.shown(place, steps);
        if is_first(facts, caller, which, owner, act, place, steps) {
            page.add_act(number, place, facts, act);
        }
    }
    page
}
