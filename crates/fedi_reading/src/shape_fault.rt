//! Why a thing is refused for its shape.

ghost use Rattle.std.specs.Prelude.{◌≡◌};
ghost use Rattle.fedi_reading.specs.declared.shape_fault.ShapeFault.TheVariants.{Memory};

use std::alloc::AllocError;
use thiserror::Error;

/// Why a thing that was posted or delivered is refused for its shape. If several faults apply, the
/// first of them in this order is returned.
#[derive(Clone, Copy, Debug, PartialEq, Eq, Error)]
pub enum ShapeFault {
    /// It is not a JSON object.
    #[error("the body is no JSON object")]
    NotObject = 1,
    /// Its `@context` is present, but is not that of ActivityStreams (Core, section 2.1).
    #[error("the context is not that of ActivityStreams")]
    BadContext,
    /// Its type is missing, does not have 1 to 64 bytes, or may not be posted.
    #[error("the type is missing, or is none that may be posted")]
    NoType,
    /// An `id` is missing.
    #[error("the id is missing")]
    NoId,
    /// The actor is missing.
    #[error("the actor is missing")]
    NoActor,
    /// The object is missing.
    #[error("the object is missing")]
    NoObject,
    /// An address that is read is not a web address of at most 2,048 bytes.
    #[error("an address is no web address of at most 2,048 bytes")]
    BadIri,
    /// The five fields of recipients have more than 500 entries as written, or more than 501 in a
    /// delivery.
    #[error("there are more than 500 recipients")]
    TooManyRecipients,
    /// The content, the summary or the name has more than 65,536 bytes.
    #[error("the content, the summary or the name has more than 65,536 bytes")]
    BadText,
    /// The actor who posts is also the target.
    #[error("the actor is also the target")]
    SelfTarget,
    /// Out of memory.
    #[error("out of memory")]
    Memory,
}

impl ShapeFault {
    ghost use Rattle.fedi_reading.specs.Shapes.{fault_number, fault_name};

    /// The fault's number, from 1 on, in the order in which faults are checked. `Memory` has none.
    pub fn number(self) -> Option<u8>
        ensures { result ≡ fault_number self }
    {
        match self {
            ShapeFault::Memory => None,
            fault => Some(fault as u8),
        }
    }

    /// The fault's name.
    pub fn name(self) -> &'static str
        ensures { result.now ≡ fault_name self }
    {
        match self {
            ShapeFault::NotObject => "NotObject",
            ShapeFault::BadContext => "BadContext",
            ShapeFault::NoType => "NoType",
            ShapeFault::NoId => "NoId",
            ShapeFault::NoActor => "NoActor",
            ShapeFault::NoObject => "NoObject",
            ShapeFault::BadIri => "BadIri",
            ShapeFault::TooManyRecipients => "TooManyRecipients",
            ShapeFault::BadText => "BadText",
            ShapeFault::SelfTarget => "SelfTarget",
            ShapeFault::Memory => "Memory",
        }
    }
}

impl From<AllocError> for ShapeFault {
    ghost from_gives = { λ _ e. e ≡ Memory };

    fn from(_error: AllocError) -> ShapeFault {
        ShapeFault::Memory
    }
}
