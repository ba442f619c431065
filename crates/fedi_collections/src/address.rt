//! The ids of collections and of their pages.

ghost use Rattle.std.specs.Prelude.{◌≡◌, ℕ, List, ◌++◌, IfOk, OnOk, codes, string_bytes};
ghost use Rattle.fedi_model.specs.Documents.{collection_id, page_id};
ghost use Rattle.fedi_collections.specs.Members.{text_member};
ghost use Rattle.fedi_objects.specs.Writing.{Adds};

use fedi_address::Iri;
use fedi_objects::write_str;
use fedi_town::Which;
use json::Writer;
use std::alloc::{AllocError, Global};
use std::marker::Model;

/// The id of a collection, with room for the ids of its pages.
#[derive(Drop)]
pub struct Address {
    id: String,
    page: String,
}

impl Model for Address {
    ghost use Rattle.std.specs.Prelude.{ℕ, List, string_bytes};

    ghost Value = { List ℕ };

    ghost view = { λ address. string_bytes address.id };
}

fn suffix(which: &Which) -> &'static str
    ensures { (owner : List ℕ) → owner ++ result.now ≡ collection_id which.now owner }
{
    match which {
        Which::Inbox(_) => "/inbox",
        Which::Outbox(_) => "/outbox",
        Which::Followers(_) => "/followers",
        Which::Following(_) => "/following",
        Which::Liked(_) => "/liked",
        Which::Likes(..) => "/likes",
        Which::Shares(..) => "/shares",
    }
}

// Puts the id of the page of this number in the buffer.
fn put_page_id(buffer: &mut String, id: &str, number: u64) -> Result<(), AllocError>
    ensures { OnOk result (string_bytes buffer.new ≡ page_id id.now number) }
{
    let mut digits = itoa::Buffer::new();
    buffer.clear();
    buffer.push_str(id)?;
    buffer.push_str("?page=")?;
    buffer.push_str(digits.format(number))
}

impl Address {
    /// The collection with this id. The error is out of memory.
    pub fn of_text(alloc: Global, id: String) -> Result<Address, AllocError>
        ensures { IfOk result (λ address. address ≡ string_bytes id) }
    {
        let page = String::with_capacity(alloc, id.len().saturating_add(32))?;
        Ok(Address { id, page })
    }

    /// The id of the owner's collection. The owner is the member or the object with this id.
    pub(crate) fn of(alloc: Global, which: &Which, owner: &Iri) -> Result<Address, AllocError>
        ensures { IfOk result (λ address. address ≡ collection_id which.now owner.now) }
    {
        let mut id = String::with_capacity(alloc, owner.text().len() + 16)?;
        id.push_str(owner.text())?;
        id.push_str(suffix(which))?;
        Address::of_text(alloc, id)
    }

    /// The text of the collection's id.
    pub fn id(&self) -> &str
        ensures { result.now ≡ self.now }
    {
        self.id.as_str()
    }

    /// Writes a member that holds the id of the page of this number.
    pub(crate) fn write_page(
        &mut self,
        out: &mut Writer,
        key: &str,
        number: u64,
    ) -> Result<(), AllocError>
        ensures written { OnOk result
            (Adds (text_member key.now (page_id self.old number)) out.old out.new) }
        ensures same { self.new ≡ self.old }
    {
        put_page_id(&mut self.page, self.id.as_str(), number)?;
        write_str(out, key, self.page.as_str())
    }
}
