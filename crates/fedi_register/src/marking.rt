//! Which activities are looked up by which property, and the marks used for this.

ghost use Rattle.std.specs.Prelude.{◌≡◌, true, option_copied, option_map};
ghost use Rattle.fedi_register.specs.Registers.{asks_to_follow, has_own_id, is_blocking, is_keyed};
ghost use Rattle.fedi_register.specs.Registers.{is_making};
ghost use Rattle.fedi_register.specs.Registers.{key_mark, object_mark, own_mark, ref_mark, relates};
ghost use Rattle.fedi_register.specs.Registers.{relation_mark};

use crate::acts::{is_block, is_create, is_follow, object_key};
use crate::kept::Kept;
use crate::seeds::Seed;
use fedi_address::Iri;
use fedi_objects::RepeatKey;
use fedi_town::Deed;

fn id_mark(seed: &Seed, id: Option<&Iri>) -> u32
    ensures { result ≡ ref_mark seed.now (option_copied id.entry) }
{
    match id {
        Some(id) => seed.mark_of_iri(id),
        None => 0,
    }
}

fn repeat_mark(seed: &Seed, pair: Option<&(RepeatKey, [u8; 32])>) -> u32
    ensures { result ≡ ref_mark seed.now (option_map (λ r. r.0) (option_copied pair.entry)) }
{
    match pair {
        Some(pair) => seed.mark_of(pair.0.bytes()),
        None => 0,
    }
}

#[tactic(auto, unfolding(crate::specs::Registers::key_mark))]
pub(crate) fn key_mark(seed: &Seed, act: &Kept) -> u32
    ensures { result ≡ key_mark seed.now act.now }
{
    repeat_mark(seed, act.repeat())
}

#[tactic(auto, unfolding(crate::specs::Registers::object_mark))]
pub(crate) fn object_mark(seed: &Seed, act: &Kept) -> u32
    ensures { result ≡ object_mark seed.now act.now }
{
    id_mark(seed, act.object_id())
}

#[tactic(auto, unfolding(crate::specs::Registers::own_mark))]
pub(crate) fn own_mark(seed: &Seed, act: &Kept) -> u32
    ensures { result ≡ own_mark seed.now act.now }
{
    id_mark(seed, act.id())
}

#[tactic(auto, unfolding(crate::specs::Registers::relation_mark))]
pub(crate) fn relation_mark(seed: &Seed, act: &Kept) -> u32
    ensures { result ≡ relation_mark seed.now act.now }
{
    seed.mark_of_pair(act.author(), object_key(act))
}

#[tactic(auto, unfolding(crate::specs::Registers::is_making))]
pub(crate) fn is_making(act: &Kept) -> bool
    ensures { result ≡ is_making act.now }
{
    is_create(act)
}

#[tactic(auto, unfolding(crate::specs::Registers::asks_to_follow))]
pub(crate) fn asks_to_follow(act: &Kept) -> bool
    ensures { result ≡ asks_to_follow act.now }
{
    is_follow(act)
}

#[tactic(auto, unfolding(crate::specs::Registers::is_blocking))]
pub(crate) fn is_blocking(act: &Kept) -> bool
    ensures { result ≡ is_blocking act.now }
{
    is_block(act)
}

#[tactic(auto, unfolding(crate::specs::Registers::is_keyed))]
pub(crate) fn is_keyed(act: &Kept) -> bool
    ensures { result ≡ is_keyed act.now }
{
    act.repeat().is_some()
}

#[tactic(auto, unfolding(crate::specs::Registers::has_own_id))]
pub(crate) fn has_own_id(act: &Kept) -> bool
    ensures { result ≡ has_own_id act.now }
{
    act.id().is_some()
}

#[tactic(auto, unfolding(crate::specs::Registers::relates))]
pub(crate) fn relates(act: &Kept) -> bool
    ensures { result ≡ relates act.now }
{
    match act.deed() {
        Deed::Follow | Deed::Like | Deed::Announce | Deed::Block => true,
        _ => false,
    }
}

/// The mark of the object if the activity is looked up by it, and else any number, since hashing
/// takes much of the time of an entry.
pub(crate) fn found_object_mark(seed: &Seed, act: &Kept) -> u32
    ensures made { is_making act.now ≡ true → result ≡ object_mark seed.now act.now }
    ensures followed { asks_to_follow act.now ≡ true → result ≡ object_mark seed.now act.now }
{
    if is_making(act) || asks_to_follow(act) {
        object_mark(seed, act)
    } else {
        0
    }
}

/// The mark of the author and the object if the activity is looked up by them, and else any number.
#[tactic(auto, using(crate::proofs::Places::blocking_relates))]
pub(crate) fn found_relation_mark(seed: &Seed, act: &Kept) -> u32
    ensures related { relates act.now ≡ true → result ≡ relation_mark seed.now act.now }
    ensures blocked { is_blocking act.now ≡ true → result ≡ relation_mark seed.now act.now }
{
    if relates(act) {
        relation_mark(seed, act)
    } else {
        0
    }
}
