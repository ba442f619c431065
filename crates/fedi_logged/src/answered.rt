//! What a turn answers, before its text is written.
ghost use Rattle.std.specs.Prelude.{◌≡◌, IfOk, IsTrue, OnErr};
ghost use Rattle.fedi_logged.specs.Turning.{is_draft, text_in};

use fedi_core::Draft;
use fedi_http::reply_bytes;
use fedi_text::Moment;
use std::alloc::{AllocError, Global};

/// What a turn answers to a request. It no longer depends on the machine.
#[derive(Drop)]
pub enum Answered {
    /// The text of the reply to a post or a delivery that was kept, or that the keeper failed to
    /// keep.
    Text(Vec<u8>),
    /// Any other reply. Nothing was kept.
    Draft(Draft),
}

impl Answered {
    /// The text of the reply, which has no body if `head_only` and says that the connection closes
    /// if `closing`. All three are those of the turn. The error is out of memory, which
    /// occurs only if nothing was kept.
    pub fn write(
        self,
        alloc: Global,
        moment: Moment,
        head_only: bool,
        closing: bool,
    ) -> Result<Vec<u8>, AllocError>
        ensures text { IfOk result (λ text. text.items ≡ text_in moment head_only closing self) }
        ensures memory { OnErr result (IsTrue (is_draft self)) }
    {
        match self {
            Answered::Text(text) => Ok(text),
            Answered::Draft(draft) => {
                let reply = draft.write(alloc)?;
                reply_bytes(alloc, &reply, moment, head_only, closing)
            }
        }
    }
}
