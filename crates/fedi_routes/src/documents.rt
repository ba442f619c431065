//! Documents that say who a member is: the actor document (ActivityPub, section 4.1) and the JRD of
//! WebFinger (RFC 7033, section 4.4).

ghost use Rattle.std.specs.Prelude.{◌≡◌, ◌≤◌, [], ◌∷◌, ◌++◌, codes, length, true, IfOk, OnOk};
ghost use Rattle.std.specs.String.{string_bytes};
ghost use Rattle.serde_json.specs.Data.{array, object, string, no_members, put};
ghost use Rattle.serde_json.specs.View.{items_of};
ghost use Rattle.fedi_address.specs.Recipients.{is_among};
ghost use Rattle.fedi_model.specs.Documents.{actor_form, actor_members, jrd_form, links_of};
ghost use Rattle.fedi_model.specs.Documents.{self_link};
ghost use Rattle.fedi_objects.specs.Forms.{with_context};
ghost use Rattle.fedi_objects.specs.Writing.{IsWritten};
ghost use Rattle.fedi_town.specs.Ids.{actor_id};

use fedi_address::{Host, LocalName};
use fedi_objects::{CONTEXT, write_joined, write_str};
use fedi_text::Text;
use json::Writer;
use std::alloc::{AllocError, Global};

/// The relation of the link that leads to the actor document.
const SELF: &str = "self";

/// Writes the member's actor document. The error is out of memory.
#[tactic(auto, unfolding(fedi_model::specs::Documents::actor_form))]
pub fn write_actor(
    out: &mut Writer,
    alloc: Global,
    name: &LocalName,
    host: &Host,
) -> Result<(), AllocError>
    ensures { OnOk result (IsWritten (actor_form host.now name.now) out.old out.new) }
{
    let id = actor_text(alloc, name, host)?;
    write_person(out, id.as_str(), name.text())
}

// Writes the actor document of this id.
fn write_person(out: &mut Writer, id: &str, name: &str) -> Result<(), AllocError>
    requires { length id.now ≤ 2200 }
    ensures { OnOk result
        (IsWritten (object (with_context true (actor_members id.now name.now))) out.old out.new) }
{
    out.begin_object()?;
    write_str(out, "@context", CONTEXT)?;
    write_joined(out, "followers", id, "/followers")?;
    write_joined(out, "following", id, "/following")?;
    write_str(out, "id", id)?;
    write_joined(out, "inbox", id, "/inbox")?;
    write_joined(out, "liked", id, "/liked")?;
    write_joined(out, "outbox", id, "/outbox")?;
    write_str(out, "preferredUsername", name)?;
    write_str(out, "type", "Person")?;
    out.end_object()
}

/// Writes what WebFinger says of the member, with the links of these relations only, or with all
/// links if there are no relations. The error is out of memory.
#[tactic(auto, unfolding(fedi_model::specs::Documents::jrd_form))]
pub fn write_jrd(
    out: &mut Writer,
    alloc: Global,
    name: &LocalName,
    host: &Host,
    rels: &[Text],
) -> Result<(), AllocError>
    ensures { OnOk result (IsWritten (jrd_form host.now name.now rels.now) out.old out.new) }
{
    let id = actor_text(alloc, name, host)?;
    let account = account_text(alloc, name.text(), host.text())?;
    write_description(out, id.as_str(), account.as_str(), rels)
}

// Writes what WebFinger says of the account with this id.
fn write_description(
    out: &mut Writer,
    id: &str,
    account: &str,
    rels: &[Text],
) -> Result<(), AllocError>
    ensures { OnOk result (IsWritten
        (object (put (codes "aliases") (array (items_of (string id.now ∷ [])))
        (put (codes "links") (array (items_of (links_of id.now rels.now)))
        (put (codes "subject") (string account.now) no_members)))) out.old out.new) }
{
    out.begin_object()?;
    out.key("aliases")?;
    out.begin_array()?;
    out.string(id)?;
    out.end_array()?;
    out.key("links")?;
    write_links(out, id, rels)?;
    write_str(out, "subject", account)?;
    out.end_object()
}

/// The id of the member.
#[tactic(auto, unfolding(fedi_town::specs::Ids::actor_id))]
fn actor_text(alloc: Global, name: &LocalName, host: &Host) -> Result<String, AllocError>
    ensures value { IfOk result (λ id. string_bytes id ≡ actor_id host.now name.now) }
    ensures short { IfOk result (λ id. length (string_bytes id) ≤ 2200) }
{
    let name = name.text();
    let host = host.text();
    format!(in alloc; "https://{host}/users/{name}")
}

/// The account of the name at the host (RFC 7565, section 7).
fn account_text(alloc: Global, name: &str, host: &str) -> Result<String, AllocError>
    ensures { IfOk result (λ account.
        string_bytes account ≡ codes "acct:" ++ (name.now ++ (codes "@" ++ host.now))) }
{
    format!(in alloc; "acct:{name}@{host}")
}

// Writes the links of these relations, or all links if there are no relations.
fn write_links(out: &mut Writer, id: &str, rels: &[Text]) -> Result<(), AllocError>
    ensures { OnOk result
        (IsWritten (array (items_of (links_of id.now rels.now))) out.old out.new) }
{
    if rels.is_empty() || names_self(rels) {
        write_self_link(out, id)
    } else {
        write_no_link(out)
    }
}

/// Whether the relation to the actor document is among these.
#[tactic(auto, unfolding(fedi_address::specs::Recipients::is_among))]
fn names_self(rels: &[Text]) -> bool
    ensures { result ≡ is_among (codes "self") rels.now }
{
    rels.iter().any(|rel| rel.text() == SELF)
}

// Writes the link to the actor document alone (RFC 7033, section 4.4.4).
fn write_self_link(out: &mut Writer, id: &str) -> Result<(), AllocError>
    ensures { OnOk result (IsWritten (array (items_of (self_link id.now ∷ []))) out.old out.new) }
{
    out.begin_array()?;
    out.begin_object()?;
    write_str(out, "href", id)?;
    write_str(out, "rel", SELF)?;
    write_str(out, "type", "application/activity+json")?;
    out.end_object()?;
    out.end_array()
}

fn write_no_link(out: &mut Writer) -> Result<(), AllocError>
    ensures { OnOk result (IsWritten (array (items_of [])) out.old out.new) }
{
    out.begin_array()?;
    out.end_array()
}
