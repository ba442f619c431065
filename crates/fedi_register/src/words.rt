//! What members write, in its stored form: texts and mentions that may be long, and that are copied
//! in a limited time.

ghost use Rattle.std.specs.Prelude.{◌≡◌, [], IfErr, IfOk, None, OnOk, Some, option_copied, true};
ghost use Rattle.fedi_town.specs.Objects as objects;
ghost use Rattle.fedi_register.specs.Words.{tags_in, text_in};

use crate::iris::shrunk;
use fedi_address::{Iri, Items};
use fedi_objects::{Edit, ObjectRef, Tag, set};
use fedi_text::Text;
use fedi_town::Effect;
use std::alloc::{AllocError, Global};
use std::marker::Model;
use std::sync::Arc;

// The longest text that is stored in place, in bytes. A copy of it takes about as long as sharing
// a longer one, and a shared text takes 40 bytes more.
const LONGEST_OWN: usize = 256;

// The storage of a text that may be absent. The three cases take no more than an optional text.
#[derive(Drop)]
enum HeldText {
    Nothing,
    Own(Text),
    Shared(Arc<Text>),
}

/// A text that may be absent. It is never changed in place, so that the copies of a long one share
/// it.
#[derive(Drop)]
pub(crate) struct Words {
    held: HeldText,
}

impl Model for Words {
    ghost use Rattle.std.specs.Prelude.{ℕ, List, Option};

    ghost Value = { Option (List ℕ) };

    ghost use Rattle.fedi_register.specs.Words.{text_in};

    ghost view = { λ a. text_in a.held };
}

// The storage of mentions.
#[derive(Drop)]
enum HeldTags {
    Nothing,
    Own(Items<Tag>),
    Shared(Arc<Items<Tag>>),
}

/// An immutable list of mentions, which its copies share.
#[derive(Drop)]
pub(crate) struct TagList {
    held: HeldTags,
}

impl Model for TagList {
    ghost use Rattle.std.specs.Prelude.{List};
    ghost use Rattle.fedi_objects.specs.declared.object.Tag.{Tag};

    ghost Value = { List Tag };

    ghost use Rattle.fedi_register.specs.Words.{tags_in};

    ghost view = { λ a. tags_in a.held };
}

/// The stored form of what is written about an activity or an object.
#[derive(Drop)]
pub(crate) struct Said {
    pub(crate) content: Words,
    pub(crate) summary: Words,
    pub(crate) name: Words,
    pub(crate) tags: TagList,
}

/// Memory for the long texts and the mentions of one Update, so that storing them takes none.
#[derive(Drop)]
pub(crate) struct Blocks {
    pub(crate) content: Option<Arc<Text>>,
    pub(crate) summary: Option<Arc<Text>>,
    pub(crate) name: Option<Arc<Text>>,
    pub(crate) tags: Option<Arc<Items<Tag>>>,
}

/// Puts a copy of an IRI that may be absent in a field. The error means that its text has too many
/// owners.
pub(crate) fn copy_iri(field: &mut Option<Iri>, iri: &Option<Iri>) -> Result<(), AllocError>
    ensures { OnOk result (field.new ≡ iri.now) }
{
    *field = match iri {
        None => None,
        Some(iri) => Some(iri.copy()?),
    };
    Ok(())
}

/// Puts a copy of a date or a type that may be absent in a field. The error is out of memory.
pub(crate) fn copy_text(field: &mut Option<Text>, text: &Option<Text>) -> Result<(), AllocError>
    ensures { OnOk result (field.new ≡ text.now) }
{
    *field = match text {
        None => None,
        Some(text) => Some(text.clone()?),
    };
    Ok(())
}

fn is_short(text: &Text) -> bool {
    text.text().len() <= LONGEST_OWN
}

// Puts a value in a block. It is given back if the block has another owner.
fn fill<T: Drop>(block: &mut Arc<T>, value: T) -> Result<(), T>
    ensures ok { OnOk result (block.new.value ≡ value) }
    ensures err { IfErr result (λ back. back ≡ value) }
{
    match Arc::get_mut(block) {
        Some(place) => {
            set(place, value);
            Ok(())
        }
        None => Err(value),
    }
}

fn text_in_block(text: Text, block: Arc<Text>) -> HeldText
    ensures { text_in result ≡ Some text }
{
    let mut block = block;
    match fill(&mut block, text) {
        Ok(()) => HeldText::Shared(block),
        Err(text) => HeldText::Own(text),
    }
}

fn tags_in_block(tags: Items<Tag>, block: Arc<Items<Tag>>) -> HeldTags
    ensures { tags_in result ≡ tags }
{
    let mut block = block;
    match fill(&mut block, tags) {
        Ok(()) => HeldTags::Shared(block),
        Err(tags) => HeldTags::Own(tags),
    }
}

impl Words {
    /// The same text. The error is out of memory.
    pub(crate) fn new(alloc: Global, text: Option<Text>) -> Result<Words, AllocError>
        ensures { IfOk result (λ words. words ≡ text) }
    {
        let held = match text {
            None => HeldText::Nothing,
            Some(text) if is_short(&text) => HeldText::Own(text),
            Some(text) => HeldText::Shared(Arc::new(alloc, text)?),
        };
        Ok(Words { held })
    }

    /// No text.
    pub(crate) fn none() -> Words
        ensures { result ≡ None }
    {
        Words {
            held: HeldText::Nothing,
        }
    }

    /// The same text, which is shared if there is a block for it. It takes no memory except that.
    pub(crate) fn in_block(text: Option<Text>, block: Option<Arc<Text>>) -> Words
        ensures { result ≡ text }
    {
        let held = match (text, block) {
            (None, _) => HeldText::Nothing,
            (Some(text), None) => HeldText::Own(text),
            (Some(text), Some(block)) => text_in_block(text, block),
        };
        Words { held }
    }

    /// The text.
    pub(crate) fn as_ref(&self) -> Option<&Text>
        ensures { option_copied result ≡ self.now }
    {
        match &self.held {
            HeldText::Nothing => None,
            HeldText::Own(text) => Some(text),
            HeldText::Shared(text) => Some(&**text),
        }
    }

    /// Whether there is no text.
    pub(crate) fn is_none(&self) -> bool
        ensures { result ≡ true → self.now ≡ None }
    {
        match &self.held {
            HeldText::Nothing => true,
            HeldText::Own(_) | HeldText::Shared(_) => false,
        }
    }

    /// A copy, which shares a long text. The error is out of memory, or that the text has too many
    /// owners.
    pub(crate) fn copy(&self) -> Result<Words, AllocError>
        ensures { IfOk result (λ words. words ≡ self.now) }
    {
        let held = match &self.held {
            HeldText::Nothing => HeldText::Nothing,
            HeldText::Own(text) => HeldText::Own(text.clone()?),
            HeldText::Shared(text) => HeldText::Shared(Arc::try_clone(text)?),
        };
        Ok(Words { held })
    }
}

impl TagList {
    /// The same mentions. The error is out of memory.
    pub(crate) fn new(alloc: Global, tags: Items<Tag>) -> Result<TagList, AllocError>
        ensures { IfOk result (λ list. list ≡ tags) }
    {
        let held = match tags.as_slice() {
            [] => HeldTags::Nothing,
            _ => HeldTags::Shared(Arc::new(alloc, shrunk(tags))?),
        };
        Ok(TagList { held })
    }

    /// No mentions.
    pub(crate) fn none() -> TagList
        ensures { result ≡ [] }
    {
        TagList {
            held: HeldTags::Nothing,
        }
    }

    /// The same mentions, which are shared if there is a block for them. It takes no memory except
    /// that.
    pub(crate) fn in_block(tags: Items<Tag>, block: Option<Arc<Items<Tag>>>) -> TagList
        ensures { result ≡ tags }
    {
        let held = match block {
            Some(block) => tags_in_block(tags, block),
            None => HeldTags::Own(tags),
        };
        TagList { held }
    }

    /// The mentions, in order.
    pub(crate) fn as_slice(&self) -> &[Tag]
        ensures { result.now ≡ self.now }
    {
        match &self.held {
            HeldTags::Nothing => &[],
            HeldTags::Own(tags) => tags.as_slice(),
            HeldTags::Shared(tags) => tags.as_slice(),
        }
    }

    /// Whether there are no mentions.
    pub(crate) fn is_empty(&self) -> bool
        ensures { result ≡ true → self.now ≡ [] }
    {
        self.as_slice().is_empty()
    }

    /// A copy, which shares the mentions. The error is out of memory, or that they have too many
    /// owners.
    pub(crate) fn copy(&self) -> Result<TagList, AllocError>
        ensures { IfOk result (λ list. list ≡ self.now) }
    {
        let held = match &self.held {
            HeldTags::Nothing => HeldTags::Nothing,
            HeldTags::Own(tags) => HeldTags::Own(tags.clone()?),
            HeldTags::Shared(tags) => HeldTags::Shared(Arc::try_clone(tags)?),
        };
        Ok(TagList { held })
    }
}

impl Said {
    /// Converts what is said to its stored form. The error is out of memory.
    pub(crate) fn new(
        alloc: Global,
        content: Option<Text>,
        summary: Option<Text>,
        name: Option<Text>,
        tags: Items<Tag>,
    ) -> Result<Said, AllocError>
        ensures content { IfOk result (λ said. said.content ≡ content) }
        ensures summary { IfOk result (λ said. said.summary ≡ summary) }
        ensures name { IfOk result (λ said. said.name ≡ name) }
        ensures tags { IfOk result (λ said. said.tags ≡ tags) }
    {
        let content = Words::new(alloc, content)?;
        let summary = Words::new(alloc, summary)?;
        let name = Words::new(alloc, name)?;
        let tags = TagList::new(alloc, tags)?;
        Ok(Said {
            content,
            summary,
            name,
            tags,
        })
    }
}

// An empty block for the text, if it is long.
fn block_for_text(alloc: Global, text: Option<&Text>) -> Result<Option<Arc<Text>>, AllocError> {
    match text {
        Some(text) if !is_short(text) => {
            let block = Arc::new(alloc, Text::new(String::new(alloc)))?;
            Ok(Some(block))
        }
        _ => Ok(None),
    }
}

// An empty block for the mentions, if there are any.
fn block_for_tags(alloc: Global, tags: &[Tag]) -> Result<Option<Arc<Items<Tag>>>, AllocError> {
    match tags {
        [] => Ok(None),
        _ => {
            let block = Arc::new(alloc, Items::empty(alloc))?;
            Ok(Some(block))
        }
    }
}

fn given_text(by: &Edit<Text>) -> Option<&Text> {
    match by {
        Edit::Give(text) => Some(text),
        Edit::Keep | Edit::Remove => None,
    }
}

fn given_tags(by: &Edit<Items<Tag>>) -> &[Tag] {
    match by {
        Edit::Give(tags) => tags.as_slice(),
        Edit::Keep | Edit::Remove => &[],
    }
}

impl Blocks {
    fn none() -> Blocks {
        Blocks {
            content: None,
            summary: None,
            name: None,
            tags: None,
        }
    }

    fn for_each(
        alloc: Global,
        content: Option<&Text>,
        summary: Option<&Text>,
        name: Option<&Text>,
        tags: &[Tag],
    ) -> Result<Blocks, AllocError> {
        let content = block_for_text(alloc, content)?;
        let summary = block_for_text(alloc, summary)?;
        let name = block_for_text(alloc, name)?;
        let tags = block_for_tags(alloc, tags)?;
        Ok(Blocks {
            content,
            summary,
            name,
            tags,
        })
    }

    /// Blocks for what an Update gives to an object. The error is out of memory.
    pub(crate) fn for_update(alloc: Global, by: &ObjectRef) -> Result<Blocks, AllocError> {
        match by {
            ObjectRef::Whole(object) => {
                let by = object.get();
                Blocks::for_each(
                    alloc,
                    by.content.as_ref(),
                    by.summary.as_ref(),
                    by.name.as_ref(),
                    by.tags.as_slice(),
                )
            }
            ObjectRef::Changed(by) => Blocks::for_each(
                alloc,
                given_text(&by.content),
                given_text(&by.summary),
                given_text(&by.name),
                given_tags(&by.tags),
            ),
            ObjectRef::Nothing | ObjectRef::Id(_) => Ok(Blocks::none()),
        }
    }

    /// Blocks for what the effect of an activity stores. The error is out of memory.
    pub(crate) fn new(alloc: Global, effect: &Effect) -> Result<Blocks, AllocError> {
        match effect {
            Effect::Update { by, .. } => Blocks::for_update(alloc, by),
            _ => Ok(Blocks::none()),
        }
    }
}

/// Applies a client's Update to a text.
pub(crate) fn edit_words(words: &mut Words, by: Edit<Text>, block: Option<Arc<Text>>)
    ensures { words.new ≡ objects.edit by words.old }
{
    match by {
        Edit::Keep => drop(block),
        Edit::Remove => *words = Words::none(),
        Edit::Give(text) => *words = Words::in_block(Some(text), block),
    }
}

/// Applies a client's Update to mentions.
pub(crate) fn edit_tags(list: &mut TagList, by: Edit<Items<Tag>>, block: Option<Arc<Items<Tag>>>)
    ensures { list.new ≡ objects.edit_list by list.old }
{
    match by {
        Edit::Keep => drop(block),
        Edit::Remove => *list = TagList::none(),
        Edit::Give(tags) => *list = TagList::in_block(tags, block),
    }
}
