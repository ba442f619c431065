//! What activities need as their objects.

ghost use Rattle.std.specs.Prelude.{◌≡◌};
ghost use Rattle.fedi_reading.specs.Activities.{need_of, needs_id};

use fedi_objects::Kind;

/// What an activity needs as its object, by the activity's type (ActivityPub, sections 6.2 to
/// 6.10).
#[derive(Clone, Copy, Debug, PartialEq, Eq)]
pub enum Need {
    /// The object itself, which is created: `Create`.
    Whole,
    /// The object's `id`, with what changes in the object: `Update`.
    Change,
    /// The `id` of an actor other than the author: `Follow` and `Block`.
    Another,
    /// An `id`.
    Id,
    /// An `id`, or nothing.
    Anything,
}

impl Need {
    /// What an activity of this type needs.
    pub fn of(kind: Kind) -> Need
        ensures { result ≡ need_of kind }
    {
        match kind {
            Kind::Create => Need::Whole,
            Kind::Update => Need::Change,
            Kind::Follow | Kind::Block => Need::Another,
            Kind::Accept | Kind::Announce | Kind::Delete | Kind::Like | Kind::Reject | Kind::Undo =>
                Need::Id,
            _ => Need::Anything,
        }
    }

    // Whether an `id` is needed.
    pub(crate) fn needs_id(self) -> bool
        ensures { result ≡ needs_id self }
    {
        match self {
            Need::Anything => false,
            _ => true,
        }
    }
}
