//! The text of a reply that reports a refusal.
ghost use Rattle.std.specs.Prelude.{◌≡◌, IfOk};
ghost use Rattle.fedi_model.specs.Refusing.{refused};
ghost use Rattle.fedi_model.specs.ReplyText.{reply_text};

use fedi_http::reply_bytes;
use fedi_model::{Refusal, refusal_reply};
use fedi_text::Moment;
use std::alloc::{AllocError, Global};

/// The text of the reply that reports a refusal, without its body if `head_only`. It says that the
/// connection closes if `closing`. The error is out of memory.
pub fn refusal_text(
    alloc: Global,
    refusal: Refusal,
    moment: Moment,
    head_only: bool,
    closing: bool,
) -> Result<Vec<u8>, AllocError>
    ensures { IfOk result (λ text.
        text.items ≡ reply_text moment head_only closing (refused refusal)) }
{
    reply_bytes(alloc, &refusal_reply(refusal), moment, head_only, closing)
}
