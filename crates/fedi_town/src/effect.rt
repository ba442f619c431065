//! What an accepted activity changes in earlier ones. The values own all that the change needs. So
//! the change can be prepared before the activity is kept, and needs no memory afterwards.

use fedi_address::Iri;
use fedi_objects::{ObjectRef, State};
use fedi_text::Text;

/// What an accepted activity does to earlier ones (ActivityPub, sections 6 and 7).
#[derive(Drop)]
pub enum Effect {
    /// Nothing.
    Nothing,
    /// The object is changed.
    Update {
        /// The id of the object.
        object: Iri,
        /// What the Update carries: the new object, or a change.
        by: ObjectRef,
        /// The Update's moment.
        stamp: Text,
    },
    /// The object is replaced with a Tombstone.
    Delete {
        /// The id of the object.
        object: Iri,
        /// The type of a Tombstone.
        kind: Text,
        /// The Delete's moment.
        stamp: Text,
    },
    /// The Follow is accepted.
    Accept {
        /// The id of the Follow.
        follow: Iri,
    },
    /// Each Follow of one actor by the other that waits or was accepted ends, by a Reject or an
    /// Undo.
    EndFollows {
        /// The follower.
        follower: Iri,
        /// The followed actor.
        followee: Iri,
        /// How the Follows end.
        state: State,
    },
    /// Each Follow between the two ends, in either direction, by a Block.
    EndBoth {
        /// The actor that blocks.
        author: Iri,
        /// The blocked actor.
        other: Iri,
    },
    /// A Like, an Announce or a Block is undone.
    Undo {
        /// The id of the undone activity.
        activity: Iri,
    },
}
