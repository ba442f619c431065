//! Which documents are brief. A brief one is written at once, while the facts are held, since that
//! takes about as long as to copy what it says. All others are written from an excerpt.

use crate::showing::present_object;
use fedi_address::Iri;
use fedi_effects::Facts;
use fedi_objects::Tag;
use fedi_register::Kept;
use fedi_text::Text;

// The most bytes that the texts and the IRIs of a brief document have in all.
const MOST: usize = 2_048;

// The bytes of what was counted.
#[derive(Drop)]
struct Count {
    bytes: usize,
}

impl Count {
    fn add(&mut self, text: &str) {
        self.bytes = self.bytes.saturating_add(text.len());
    }

    fn text(&mut self, text: Option<&Text>) {
        if let Some(text) = text {
            self.add(text.text());
        }
    }

    fn iri(&mut self, iri: Option<&Iri>) {
        if let Some(iri) = iri {
            self.add(iri.text());
        }
    }

    fn iris(&mut self, iris: &[Iri]) {
        for iri in iris {
            self.add(iri.text());
        }
    }

    fn tags(&mut self, tags: &[Tag]) {
        for tag in tags {
            self.add(tag.href.text());
            self.add(tag.name.text());
        }
    }

    // What is shown of the activity itself.
    fn act(&mut self, act: &Kept) {
        self.iri(act.id());
        self.iri(Some(act.author()));
        self.iri(act.object_id());
        self.iri(act.target());
        self.iri(act.in_reply_to());
        self.iris(act.to());
        self.iris(act.cc());
        self.iris(act.audience());
        self.tags(act.tags());
        self.text(act.content());
        self.text(act.summary());
        self.text(act.name());
    }

    // What is shown of its object.
    fn object(&mut self, facts: &Facts, act: &Kept) {
        if let Some(object) = present_object(facts, act) {
            let object = object.view();
            self.iri(object.attributed_to);
            self.iri(object.in_reply_to);
            self.iri(object.url);
            self.iris(object.to);
            self.iris(object.cc);
            self.iris(object.audience);
            self.tags(object.tags);
            self.text(object.content);
            self.text(object.summary);
            self.text(object.name);
        }
    }
}

/// Whether the document of the activity is brief, and so is that of its object: what it says, with
/// its IRIs, has at most 2,048 bytes, besides types and dates.
pub fn is_brief(facts: &Facts, act: &Kept) -> bool {
    let mut count = Count { bytes: 0 };
    count.act(act);
    count.object(facts, act);
    count.bytes <= MOST
}
