//! Posts that may be repeated.

ghost use Rattle.std.specs.Prelude.{◌≡◌, option_copied};
ghost use Rattle.fedi_town.specs.Legal.{has_key};
ghost use Rattle.fedi_register.specs.Keys.{is_repeat};

use crate::acts::is_by;
use crate::kept::Kept;
use fedi_address::Iri;
use fedi_objects::RepeatKey;

fn has_key(pair: Option<&(RepeatKey, [u8; 32])>, key: &RepeatKey) -> bool
    ensures { result ≡ has_key key.now (option_copied pair.entry) }
{
    match pair {
        Some(pair) => pair.0 == *key,
        None => false,
    }
}

// Whether the author posted the activity under this key.
#[tactic(auto, unfolding(crate::specs::Keys::is_repeat))]
pub(crate) fn is_repeat(act: &Kept, author: &Iri, key: &RepeatKey) -> bool
    ensures { result ≡ is_repeat author.now key.now act.now }
{
    is_by(act, author) && has_key(act.repeat(), key)
}
