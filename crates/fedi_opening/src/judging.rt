//! Which entry may come next.

ghost use Rattle.std.specs.Prelude.{◌≡◌, ◌&&◌, IsTrue, Some, filter, is_none};
ghost use Rattle.std.specs.List.{find};
ghost use Rattle.fedi_address.specs.Hosts.{IsHost, is_host_text};
ghost use Rattle.fedi_address.specs.Names.{is_name};
ghost use Rattle.fedi_town.specs.declared.caller.Caller.TheVariants.{Actor};
ghost use Rattle.fedi_town.specs.Legal.{broken_command, is_admissible, is_new_key, lacks};
ghost use Rattle.fedi_town.specs.Legal.{may_deliver, may_post};
ghost use Rattle.fedi_town.specs.Rules.{broken_post};
ghost use Rattle.fedi_town.specs.Shapes.{is_delivered};
ghost use Rattle.fedi_town.specs.Towns.{has_host, id_of, is_by};

use crate::delivered::is_delivered;
use crate::posted::is_posted;
use fedi_address::{Host, Iri, LocalName};
use fedi_effects::{Facts, judge_local, judge_tried};
use fedi_inbound::{lacks, may_deliver};
use fedi_objects::{Activity, Entry, RepeatKey};

// For the proof: shows that the text of a `Host` is always that of a host. It does nothing when it
// runs.
fn show_host(host: &Host)
    ensures { IsHost host.now }
{
    let _ = host.text();
}

// For the proof: shows that the text of a `LocalName` is always that of a name. It does nothing
// when it runs.
fn show_name(name: &LocalName)
    ensures { IsTrue (is_name name.now) }
{
    let _ = name.text();
}

// Whether the server may be set up for the host. The text of a `Host` is always that of a host.
fn may_be_set_up(facts: &Facts, host: &Host) -> bool
    requires { IsTrue (is_host_text host.now) }
    ensures { result ≡ (is_none facts.now.town.host && is_host_text host.now) }
{
    facts.host().is_none()
}

// Whether an operator's command breaks no rule.
fn is_allowed(facts: &Facts, command: &Entry) -> bool
    ensures { result ≡ is_none (broken_command facts.now.town command.now) }
{
    facts.judge_command(command).is_ok()
}

// Whether the author has posted nothing under this key before, if there is a key.
fn is_new_key(facts: &Facts, author: &Iri, repeat: &Option<(RepeatKey, [u8; 32])>) -> bool
    ensures { result ≡ is_new_key (filter (is_by author.now) facts.now.town.acts) repeat.now }
{
    match repeat {
        None => true,
        Some(repeat) => facts.repeat_of(author, &repeat.0).is_none(),
    }
}

// Whether the activity of the member of this name breaks no rule.
fn breaks_no_rule(facts: &Facts, name: &LocalName, author: &Iri, activity: &Activity) -> bool
    requires { id_of facts.now.town name.now ≡ Some author.now }
    ensures { result ≡ is_none (broken_post facts.now.town (Actor name.now) author.now
        activity.now) }
{
    judge_local(facts, author, activity).is_ok()
}

// Whether the post of the member of this name may come next.
fn may_post(
    facts: &Facts,
    name: &LocalName,
    repeat: &Option<(RepeatKey, [u8; 32])>,
    activity: &Activity,
) -> bool
    ensures { result ≡ may_post facts.now.town name.now repeat.now activity.now
        (id_of facts.now.town name.now) }
{
    match facts.id_of(name) {
        None => false,
        Some(author) => {
            is_posted(author, activity)
                && is_new_key(facts, author, repeat)
                && breaks_no_rule(facts, name, author, activity)
        }
    }
}

// Whether the peer of this host may deliver the activity to the inbox of the member of this name.
fn may_be_delivered(facts: &Facts, peer: &Host, inbox: &LocalName, activity: &Activity) -> bool
    ensures { result ≡ (is_delivered activity.now
        && (may_deliver facts.now.town (find (has_host peer.now) facts.now.town.peers) activity.now
        && lacks facts.now.town activity.now.id (id_of facts.now.town inbox.now))) }
{
    is_delivered(activity)
        && may_deliver(facts, facts.peer(peer.text()), activity)
        && lacks(facts, activity.id.as_ref(), facts.id_of(inbox))
}

/// Whether an entry may come next in the history of these facts. The server is set up once, by the
/// first entry. A member has a name and a key that no member had before. A peer has an address, and
/// a host that is neither the server's nor that of an earlier peer. A post is by a member, has the
/// shape of a post, breaks no rule (ActivityPub, section 6; the last rule is that its author has
/// fewer than 4,294,967,295 activities), and is under a new key, if it has one. A delivery has the
/// shape of a delivery, its peer may deliver it (section 7), and the member's inbox lacks it. An
/// attempt is one to deliver something that is due.
pub fn may_come(facts: &Facts, entry: &Entry) -> bool
    ensures { result ≡ is_admissible facts.now.town entry.now }
{
    match entry {
        Entry::Hosted { host, .. } => {
            show_host(host);
            may_be_set_up(facts, host)
        }
        Entry::Made { name, .. } => {
            show_name(name);
            facts.host().is_some() && is_allowed(facts, entry)
        }
        Entry::PeerSet { host, .. } => {
            show_host(host);
            facts.host().is_some() && is_allowed(facts, entry)
        }
        Entry::Local {
            name,
            repeat,
            activity,
            ..
        } => may_post(facts, name, repeat, activity.get()),
        Entry::Remote {
            peer,
            inbox,
            activity,
            ..
        } => may_be_delivered(facts, peer, inbox, activity.get()),
        Entry::Tried {
            activity,
            recipient,
            moment,
            ..
        } => judge_tried(facts, activity, recipient, *moment),
    }
}
