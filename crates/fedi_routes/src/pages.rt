//! Which part of a collection a query asks for (ActivityStreams 2.0 Core, section 5).

ghost use Rattle.std.specs.Prelude.{◌≡◌, IfOk};
ghost use Rattle.fedi_model.specs.Pages as pages;

use crate::queries::values_of;
use fedi_model::PageAsk;
use fedi_text::read_decimal;
use std::alloc::{AllocError, Global};

/// The part that the query asks for: the page whose number `page` gives, or without `page` the
/// collection without its items. `Malformed` if `page` occurs twice, or is not 1 to 10 digits. The
/// error is out of memory.
#[tactic(auto, unfolding(fedi_model::specs::Pages::page_in))]
pub(crate) fn page_in(alloc: Global, query: &[u8]) -> Result<PageAsk, AllocError>
    ensures { IfOk result (λ part. part ≡ pages.page_in query.now) }
{
    let texts = values_of(alloc, query, "page")?;
    match texts.as_slice() {
        [] => Ok(PageAsk::Summary),
        [text] => Ok(page_of_text(text.text().as_bytes())),
        _ => Ok(PageAsk::Malformed),
    }
}

/// The page whose number the text writes.
fn page_of_text(text: &[u8]) -> PageAsk
    ensures { result ≡ pages.page_of_text text.now }
{
    if text.len() > 10 {
        return PageAsk::Malformed;
    }
    match read_decimal(text) {
        Some(number) => PageAsk::Page(number),
        None => PageAsk::Malformed,
    }
}
