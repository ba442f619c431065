//! The member that a WebFinger query asks for (RFC 7033, sections 4.1 to 4.3).

ghost use Rattle.std.specs.Prelude.{◌≡◌, [], Some, IfOk, MatchOption, option_copied};
ghost use Rattle.std.specs.List.{before_last, after_last};
ghost use Rattle.fedi_address.specs.Iris.{is_at, normal};
ghost use Rattle.fedi_town.specs.Ids.{actor_id};
ghost use Rattle.fedi_model.specs.Webfinger as webfinger;

use crate::queries::values_of;
use fedi_address::{Host, Iri, IriFault, LocalName};
use fedi_model::Resource;
use std::alloc::{AllocError, Global};

/// The resource that the query asks for, at the server of this host, with the relations that it
/// asks for. `None` if there is no resource or more than one, or if it is malformed: neither an
/// account (`acct:`, RFC 7565) nor an IRI. The error is out of memory.
#[tactic(auto, unfolding(fedi_model::specs::Webfinger::resource_in))]
pub(crate) fn resource_in(
    alloc: Global,
    query: &[u8],
    host: Option<&Host>,
) -> Result<Option<Resource>, AllocError>
    ensures { IfOk result (λ resource.
        resource ≡ webfinger.resource_in (option_copied host.entry) query.now) }
{
    let texts = values_of(alloc, query, "resource")?;
    let [text] = texts.as_slice() else {
        return Ok(None);
    };
    let Some(name) = resource_name(alloc, host, text.text())? else {
        return Ok(None);
    };
    let rels = values_of(alloc, query, "rel")?;
    Ok(Some(Resource { name, rels }))
}

/// What the resource names: a member, or certainly nobody here. `None` if it is malformed.
#[tactic(auto, unfolding(fedi_model::specs::Webfinger::resource_name))]
fn resource_name(
    alloc: Global,
    host: Option<&Host>,
    text: &str,
) -> Result<Option<Option<LocalName>>, AllocError>
    ensures { IfOk result (λ name.
        name ≡ webfinger.resource_name (option_copied host.entry) text.now) }
{
    match after_front(text, "acct:") {
        Some(account) => Ok(name_of_account(host, account)),
        None => name_of_iri(alloc, host, text),
    }
}

/// What the account names: a member or nobody. `None` if it is not an account.
fn name_of_account(host: Option<&Host>, account: &str) -> Option<Option<LocalName>>
    ensures { result ≡ webfinger.name_of_account (option_copied host.entry) account.now }
{
    let (user, domain) = account_parts(account)?;
    if user.is_empty() || domain.is_empty() {
        return None;
    }
    Some(account_name(host, user, domain))
}

/// What the string names when it is read as an IRI: a member or nobody. `None` if it is not an IRI.
fn name_of_iri(
    alloc: Global,
    host: Option<&Host>,
    text: &str,
) -> Result<Option<Option<LocalName>>, AllocError>
    ensures { IfOk result (λ name.
        name ≡ webfinger.name_of_iri (option_copied host.entry) (normal text.now)) }
{
    match Iri::parse(alloc, text) {
        Ok(iri) => Ok(Some(id_name(host, iri.text()))),
        Err(IriFault::NotIri) | Err(IriFault::TooLong) => Ok(None),
        Err(IriFault::Memory) => Err(AllocError),
    }
}

/// The user and the host of the account: what is before and after its last `@`. `None` if it has no
/// `@`.
fn account_parts(account: &str) -> Option<(&str, &str)>
    ensures { MatchOption result (before_last is_at account.now ≡ [])
        (λ parts. (parts.0.now ≡ before_last is_at account.now)
        × (parts.1.now ≡ after_last is_at account.now)) }
{
    account.rsplit_once('@')
}

/// The member who has the account of this user at this domain.
fn account_name(host: Option<&Host>, user: &str, domain: &str) -> Option<LocalName>
    ensures { result ≡ webfinger.account_name (option_copied host.entry) user.now domain.now }
{
    if domain == host?.text() {
        name_in(user)
    } else {
        None
    }
}

/// The member with this id.
fn id_name(host: Option<&Host>, iri: &str) -> Option<LocalName>
    ensures { result ≡ webfinger.id_name (option_copied host.entry) iri.now }
{
    name_in(after_users(host?.text(), iri)?)
}

/// What follows the beginning that the ids of members have.
fn after_users<'a>(host: &str, iri: &'a str) -> Option<&'a str>
    ensures { option_copied result ≡ webfinger.after_front (actor_id host.now []) iri.now }
{
    let rest = after_front(iri, "https://")?;
    let path = after_front(rest, host)?;
    after_front(path, "/users/")
}

/// The name with this text.
fn name_in(text: &str) -> Option<LocalName>
    ensures { result ≡ webfinger.as_name (Some text.now) }
{
    LocalName::parse(text)
}

/// What follows this prefix of the text, if it begins with it.
fn after_front<'a>(text: &'a str, front: &str) -> Option<&'a str>
    ensures { option_copied result ≡ webfinger.after_front front.now text.now }
{
    text.strip_prefix(front)
}
