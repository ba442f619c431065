//! IRIs and lists of IRIs that are frequently repeated.

ghost use Rattle.std.specs.Prelude.{◌≡◌, true};

use crate::common::Common;
use crate::iris::are_same;
use fedi_address::Iri;
use std::alloc::{AllocError, Global};
use std::sync::Arc;

// The maximum number of known IRIs.
const IRIS: usize = 4096;

// The maximum number of known lists of recipients.
const LISTS: usize = 256;

// The maximum number of authors for which the common properties of their objects are known.
const COMMON: usize = 4096;

/// Recently seen values, so that equal ones are stored once: IRIs, such as those of authors and of
/// their followers collections, lists of recipients, and the common properties of an author's
/// objects. Memory is allocated when the pool is created, and none later.
#[derive(Drop)]
pub struct Pool {
    // Each IRI has one slot, chosen by a hash of its text, and each list has one, chosen by its
    // length and its ends.
    known: Vec<Option<Iri>>,
    lists: Vec<Option<Arc<Vec<Iri>>>>,
    common: Vec<Option<Arc<Common>>>,
}

// This many slots, all free.
fn vacant<T: Drop>(alloc: Global, count: usize) -> Result<Vec<Option<T>>, AllocError> {
    let mut places = Vec::new(alloc);
    for _ in 0..count {
        places.push(None)?;
    }
    Ok(places)
}

// Replaces the value that is known in a slot.
fn replace_at<T: Drop>(known: &mut [Option<T>], place: usize, value: T) {
    if let Some(known) = known.get_mut(place) {
        *known = Some(value);
    }
}

// The eight bytes from this position on as a number, or 0 if there are fewer.
fn word_at(text: &[u8], at: usize) -> u64 {
    match text.get(at..) {
        Some([a, b, c, d, e, f, g, h, ..]) => u64::from_le_bytes([*a, *b, *c, *d, *e, *f, *g, *h]),
        _ => 0,
    }
}

fn mix(hash: u64, word: u64) -> u64 {
    (hash.rotate_left(5) ^ word).wrapping_mul(0x517c_c1b7_2722_0a95)
}

// A number for a text of eight bytes or more, taken in by words of eight bytes, the last of which
// ends with the text. It has no secret, and so somebody may choose texts with equal numbers. These
// replace one another in their slot, and then fewer texts are shared; no look-up takes longer.
fn hash(text: &[u8]) -> u32 {
    let mut hash = text.len() as u64;
    for at in (0..text.len()).step_by(8) {
        hash = mix(hash, word_at(text, at));
    }
    hash = mix(hash, word_at(text, text.len().saturating_sub(8)));
    // The upper half depends on all bits of each word, and the lower one does not.
    (mix(hash.rotate_left(32), 0) >> 32) as u32
}

fn hash_list(iris: &[Iri]) -> u32 {
    match iris {
        [] => 0,
        [only] => hash(only.text().as_bytes()),
        [first, .., last] => {
            let ends = hash(first.text().as_bytes())
                ^ hash(last.text().as_bytes()).wrapping_mul(31);
            ends ^ (iris.len() % 65_536) as u32
        }
    }
}

fn hash_common(common: &Common) -> u32 {
    let author = match &common.attributed_to {
        Some(author) => hash(author.text().as_bytes()),
        None => 0,
    };
    author
        ^ hash_list(common.lists.to.as_slice()).wrapping_mul(31)
        ^ hash_list(common.lists.cc.as_slice()).wrapping_mul(961)
        ^ hash_list(common.lists.audience.as_slice()).wrapping_mul(29_791)
}

fn is_same(left: &Iri, right: &Iri) -> bool
    ensures { result ≡ true → left.now ≡ right.now }
{
    left.text() == right.text()
}

// Makes an IRI share the text of a known one that is equal to it. It is left as it is if the text
// has too many owners.
fn share_text(iri: &mut Iri, known: &Iri) -> bool
    ensures { iri.new ≡ iri.old }
{
    if !is_same(iri, known) {
        return false;
    }
    if let Ok(shared) = known.copy() {
        *iri = shared;
    }
    true
}

// The same, if a value is known.
fn is_shared(iri: &mut Iri, known: &Option<Iri>) -> bool
    ensures { iri.new ≡ iri.old }
{
    match known {
        Some(known) => share_text(iri, known),
        None => false,
    }
}

// Replaces a list by an equal known one in the same way.
fn share_list(list: &mut Arc<Vec<Iri>>, known: &Arc<Vec<Iri>>) -> bool
    ensures { list.new.value.items ≡ list.old.value.items }
{
    if !are_same(list.as_slice(), known.as_slice()) {
        return false;
    }
    if let Ok(shared) = Arc::try_clone(known) {
        *list = shared;
    }
    true
}

// The same, if a value is known.
fn is_list_shared(list: &mut Arc<Vec<Iri>>, known: &Option<Arc<Vec<Iri>>>) -> bool
    ensures { list.new.value.items ≡ list.old.value.items }
{
    match known {
        Some(known) => share_list(list, known),
        None => false,
    }
}

// Replaces the common properties of objects by equal known ones in the same way.
fn share_common(common: &mut Arc<Common>, known: &Arc<Common>) -> bool
    ensures { common.new.value ≡ common.old.value }
{
    if !common.is_same(known) {
        return false;
    }
    if let Ok(shared) = Arc::try_clone(known) {
        *common = shared;
    }
    true
}

// The same, if a value is known.
fn is_common_shared(common: &mut Arc<Common>, known: &Option<Arc<Common>>) -> bool
    ensures { common.new.value ≡ common.old.value }
{
    match known {
        Some(known) => share_common(common, known),
        None => false,
    }
}

impl Pool {
    /// An empty pool. The error is out of memory.
    pub fn new(alloc: Global) -> Result<Pool, AllocError> {
        let known = vacant(alloc, IRIS)?;
        let lists = vacant(alloc, LISTS)?;
        let common = vacant(alloc, COMMON)?;
        Ok(Pool {
            known,
            lists,
            common,
        })
    }

    /// Makes the IRI share the text of an equal one if one is known. Otherwise the IRI is
    /// remembered.
    pub(crate) fn share(&mut self, iri: &mut Iri)
        ensures { iri.new ≡ iri.old }
    {
        let count = self.known.len();
        if count == 0 {
            return;
        }
        let place = hash(iri.text().as_bytes()) as usize % count;
        if is_shared(iri, &self.known[place]) {
            return;
        }
        if let Ok(own) = iri.copy() {
            self.known[place] = Some(own);
        }
    }

    /// The same, if there is an IRI.
    pub(crate) fn share_some(&mut self, iri: &mut Option<Iri>)
        ensures { iri.new ≡ iri.old }
    {
        if let Some(iri) = iri {
            self.share(iri);
        }
    }

    /// Replaces the list by an equal one if one is known. Otherwise the list is remembered.
    pub(crate) fn share_list(&mut self, list: &mut Arc<Vec<Iri>>)
        ensures { list.new.value.items ≡ list.old.value.items }
    {
        let count = self.lists.len();
        if count == 0 {
            return;
        }
        let place = hash_list(list.as_slice()) as usize % count;
        if is_list_shared(list, &self.lists[place]) {
            return;
        }
        if let Ok(own) = Arc::try_clone(list) {
            self.lists[place] = Some(own);
        }
    }

    /// Replaces the properties that an object has in common with others by equal known ones. If
    /// there are none, the properties are remembered, and their IRIs share the text of equal ones.
    pub(crate) fn share_common(&mut self, common: &mut Arc<Common>)
        ensures { common.new.value ≡ common.old.value }
    {
        let count = self.common.len();
        if count == 0 {
            return;
        }
        let place = hash_common(common) as usize % count;
        if is_common_shared(common, &self.common[place]) {
            return;
        }
        if let Some(own) = Arc::get_mut(common) {
            own.share(self);
        }
        if let Ok(own) = Arc::try_clone(common) {
            replace_at(&mut self.common, place, own);
        }
    }
}
