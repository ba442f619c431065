//! What the server sets at the head of each activity that it completes or makes.

ghost use Rattle.std.specs.Prelude.{◌≡◌, IfOk, Some};
ghost use Rattle.fedi_text.specs.Dates.{moment_text};
ghost use Rattle.fedi_town.specs.Ids.{activity_id};

use fedi_address::{Host, Iri, LocalName};
use fedi_objects::{Activity, set};
use fedi_text::{Moment, Text};
use fedi_town::activity_iri;
use std::alloc::{AllocError, Global};

/// The head of an activity.
#[derive(Drop)]
pub(crate) struct Head {
    /// Its id.
    pub(crate) id: Iri,
    /// Its author.
    pub(crate) actor: Iri,
    /// When it was accepted.
    pub(crate) published: Text,
}

impl Head {
    /// The head of the author's activity of this number. The error is out of memory.
    pub(crate) fn new(
        alloc: Global,
        host: &Host,
        name: &LocalName,
        number: u64,
        author: &Iri,
        moment: Moment,
    ) -> Result<Head, AllocError>
        ensures { IfOk result (λ head. head ≡ record {
          id = activity_id host.now name.now number;
          actor = author.now;
          published = moment_text moment;
        }) }
    {
        let id = activity_iri(alloc, host, name, number)?;
        let actor = author.clone()?;
        let published = moment.to_text(alloc)?;
        Ok(Head {
            id,
            actor,
            published,
        })
    }

    /// Sets this head on the activity.
    pub(crate) fn set_on(self, activity: &mut Activity)
        ensures { activity.new ≡ record activity.old {
          id = Some self.id;
          actor = Some self.actor;
          published = Some self.published;
        } }
    {
        let Head {
            id,
            actor,
            published,
        } = self;
        set(&mut activity.id, Some(id));
        set(&mut activity.actor, Some(actor));
        set(&mut activity.published, Some(published));
    }
}
