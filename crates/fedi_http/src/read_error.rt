//! Why no request was read.

use fedi_model::Refusal;
use std::alloc::AllocError;

/// Why no request was read.
#[derive(Clone, Copy)]
pub(crate) enum ReadError {
    /// The input ended before a request.
    End,
    /// The input ended inside a request.
    CutShort,
    /// The request is refused.
    Refused(Refusal),
    /// A read failed.
    ReadFault,
    /// Out of memory.
    Memory,
}

impl ReadError {
    ghost use Rattle.std.specs.Prelude.{◌≡◌};
    ghost use Rattle.fedi_http.specs.Moves.{error_after};

    /// The same error, after this many bytes of a request. An input that ends after 0 bytes is not
    /// cut short.
    pub(crate) fn after(self, count: usize) -> Self
        ensures { result ≡ error_after self count }
    {
        match self {
            ReadError::CutShort if count == 0 => ReadError::End,
            other => other,
        }
    }
}

impl From<AllocError> for ReadError {
    ghost use Rattle.std.specs.Prelude.{◌≡◌};
    ghost use Rattle.fedi_http.specs.declared.read_error.ReadError.TheVariants.{Memory};

    ghost from_gives = { λ _ e. e ≡ Memory };

    fn from(_: AllocError) -> Self {
        ReadError::Memory
    }
}

impl From<Refusal> for ReadError {
    ghost use Rattle.std.specs.Prelude.{◌≡◌};
    ghost use Rattle.fedi_http.specs.Moves.{error_by};

    ghost from_gives = { λ refusal e. e ≡ error_by refusal };

    fn from(refusal: Refusal) -> Self {
        match refusal {
            Refusal::Memory => ReadError::Memory,
            other => ReadError::Refused(other),
        }
    }
}
