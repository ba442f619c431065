//! The properties that objects of one author have in common, and the addressees of an activity or
//! an object.

ghost use Rattle.std.specs.Prelude.{◌≡◌, true, IfOk};

use crate::iris::{Iris, are_same};
use crate::pool::Pool;
use fedi_address::{Iri, Items, Recipients};
use std::alloc::{AllocError, Global};
use std::sync::Arc;

/// The addressees of an activity or an object that are shown to everybody who sees it.
#[derive(Drop)]
pub(crate) struct Lists {
    pub(crate) to: Iris,
    pub(crate) cc: Iris,
    pub(crate) audience: Iris,
}

impl Lists {
    /// Converts the lists to their stored form. The error is out of memory.
    pub(crate) fn new(
        alloc: Global,
        to: Items<Iri>,
        cc: Items<Iri>,
        audience: Items<Iri>,
    ) -> Result<Lists, AllocError>
        ensures to { IfOk result (λ lists. lists.to ≡ to) }
        ensures cc { IfOk result (λ lists. lists.cc ≡ cc) }
        ensures audience { IfOk result (λ lists. lists.audience ≡ audience) }
    {
        let to = Iris::new(alloc, to)?;
        let cc = Iris::new(alloc, cc)?;
        let audience = Iris::new(alloc, audience)?;
        Ok(Lists { to, cc, audience })
    }

    /// Makes frequently repeated IRIs share the text of equal ones.
    pub(crate) fn share(&mut self, pool: &mut Pool)
        ensures { self.new ≡ self.old }
    {
        self.to.share(pool);
        self.cc.share(pool);
        self.audience.share(pool);
    }
}

/// What most objects of an author have in common. Equal values are stored once.
#[derive(Drop)]
pub(crate) struct Common {
    pub(crate) attributed_to: Option<Iri>,
    pub(crate) lists: Lists,
}

impl Common {
    /// Converts the object's common properties to their stored form. The error is out of memory.
    pub(crate) fn new(
        alloc: Global,
        attributed_to: Option<Iri>,
        names: Recipients,
    ) -> Result<Arc<Common>, AllocError>
        ensures author { IfOk result (λ common. common.value.attributed_to ≡ attributed_to) }
        ensures to { IfOk result (λ common. common.value.lists.to ≡ names.to) }
        ensures cc { IfOk result (λ common. common.value.lists.cc ≡ names.cc) }
        ensures audience { IfOk result (λ common. common.value.lists.audience ≡ names.audience) }
    {
        let lists = Lists::new(alloc, names.to, names.cc, names.audience)?;
        let common = Arc::new(
            alloc,
            Common {
                attributed_to,
                lists,
            },
        )?;
        Ok(common)
    }

    /// Makes frequently repeated IRIs share the text of equal ones.
    pub(crate) fn share(&mut self, pool: &mut Pool)
        ensures { self.new ≡ self.old }
    {
        pool.share_some(&mut self.attributed_to);
        self.lists.share(pool);
    }

    /// Whether the other value is equal to this one.
    pub(crate) fn is_same(&self, other: &Common) -> bool
        ensures { result ≡ true → self.now ≡ other.now }
    {
        is_same_iri(&self.attributed_to, &other.attributed_to)
            && are_same(self.lists.to.as_slice(), other.lists.to.as_slice())
            && are_same(self.lists.cc.as_slice(), other.lists.cc.as_slice())
            && are_same(
                self.lists.audience.as_slice(),
                other.lists.audience.as_slice(),
            )
    }
}

fn is_same_iri(left: &Option<Iri>, right: &Option<Iri>) -> bool
    ensures { result ≡ true → left.now ≡ right.now }
{
    match (left, right) {
        (None, None) => true,
        (Some(left), Some(right)) => left.text() == right.text(),
        _ => false,
    }
}
