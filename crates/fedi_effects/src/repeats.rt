//! Posts that may be repeated.

ghost use Rattle.std.specs.Prelude.{◌≡◌, option_copied};
ghost use Rattle.std.specs.List.{find};
ghost use Rattle.std.specs.Str.{bytes_eq};
ghost use Rattle.fedi_town.specs.Agreement.{repeats_of};
ghost use Rattle.fedi_register.specs.Keys.{is_repeat};
ghost use Rattle.fedi_effects.specs.Repeats.{repeat_in};

use crate::facts::Facts;
use fedi_address::Iri;
use fedi_objects::RepeatKey;
use fedi_register::Kept;
use std::marker::Model;

/// What a member posted under a key. A contract sees it as the key with the digest of the posted
/// body, and the id of the activity.
#[derive(Drop)]
pub struct Repeat<'a> {
    pair: &'a (RepeatKey, [u8; 32]),
    activity: Option<&'a Iri>,
}

impl<'a> Model for Repeat<'a> {
    ghost use Rattle.std.specs.Prelude.{ℕ, List, Option, option_copied};

    ghost Value = { (List ℕ × List ℕ) × Option (List ℕ) };

    ghost view = { λ r. (r.pair.now, option_copied r.activity) };
}

impl<'a> Repeat<'a> {
    /// The digest of the body that was posted.
    pub fn digest(&self) -> &'a [u8; 32]
        ensures { result.now ≡ self.now.0.1 }
    {
        &self.pair.1
    }

    /// The id of the activity that it made.
    pub fn activity(&self) -> Option<&'a Iri>
        ensures { option_copied result ≡ self.now.1 }
    {
        self.activity
    }
}

// What is known of the activity, if it was posted under a key.
fn repeat_in(act: &Kept) -> Option<Repeat<'_>>
    ensures { result ≡ repeat_in act.now }
{
    let pair = act.repeat()?;
    Some(Repeat {
        pair,
        activity: act.id(),
    })
}

impl Facts {
    fn first_under(&self, author: &Iri, key: &RepeatKey) -> Option<&Kept>
        ensures { option_copied result ≡ find (is_repeat author.now key.now) self.now.town.acts }
    {
        self.register().first_under(author, key)
    }

    /// What the author posted first under this key, if anything.
    pub fn repeat_of(&self, author: &Iri, key: &RepeatKey) -> Option<Repeat<'_>>
        ensures { result ≡ find (λ r. bytes_eq r.0.0 key.now)
            (repeats_of self.now.town author.now) }
    {
        match self.first_under(author, key) {
            Some(act) => repeat_in(act),
            None => None,
        }
    }
}
