//! The kinds of places that paths lead to, and the route of each.

ghost use Rattle.std.specs.Prelude.{◌≡◌};
ghost use Rattle.fedi_routes.specs.Table as table;

use fedi_address::LocalName;
use fedi_model::{Place, Which};

/// What has a path that continues after a member's name.
#[derive(Clone, Copy, Drop)]
pub(crate) enum Part {
    Actor,
    Inbox,
    Outbox,
    Followers,
    Following,
    Liked,
    Boards,
}

/// What has a path that continues after a member's name and a number.
#[derive(Clone, Copy, Drop)]
pub(crate) enum NumberedPart {
    Activity,
    Object,
    Likes,
    Shares,
}

/// A kind of place: the places that share one route.
#[derive(Clone, Copy, Drop)]
pub(crate) enum Kind {
    Webfinger,
    Member(Part),
    Numbered(NumberedPart),
    Board,
}

impl Part {
    /// The place of this part, for this member.
    pub(crate) fn place(self, name: LocalName) -> Place
        ensures { result ≡ table.member_place self name }
    {
        match self {
            Part::Actor => Place::Actor(name),
            Part::Inbox => Place::Collection(Which::Inbox(name)),
            Part::Outbox => Place::Collection(Which::Outbox(name)),
            Part::Followers => Place::Collection(Which::Followers(name)),
            Part::Following => Place::Collection(Which::Following(name)),
            Part::Liked => Place::Collection(Which::Liked(name)),
            Part::Boards => Place::Board(name, None),
        }
    }
}

impl NumberedPart {
    /// The place of this part, for this member and this number.
    pub(crate) fn place(self, name: LocalName, number: u32) -> Place
        ensures { result ≡ table.numbered_place self name number }
    {
        match self {
            NumberedPart::Activity => Place::Activity(name, number),
            NumberedPart::Object => Place::Object(name, number),
            NumberedPart::Likes => Place::Collection(Which::Likes(name, number)),
            NumberedPart::Shares => Place::Collection(Which::Shares(name, number)),
        }
    }
}

impl Kind {
    /// All of them.
    pub(crate) const ALL: [Kind; 13] = [
        Kind::Webfinger,
        Kind::Member(Part::Actor),
        Kind::Member(Part::Inbox),
        Kind::Member(Part::Outbox),
        Kind::Member(Part::Followers),
        Kind::Member(Part::Following),
        Kind::Member(Part::Liked),
        Kind::Member(Part::Boards),
        Kind::Numbered(NumberedPart::Activity),
        Kind::Numbered(NumberedPart::Object),
        Kind::Numbered(NumberedPart::Likes),
        Kind::Numbered(NumberedPart::Shares),
        Kind::Board,
    ];

    /// The route as the router writes it: parameters are in braces.
    pub(crate) fn route(self) -> &'static str
        ensures { result.now ≡ table.route_text self }
    {
        match self {
            Kind::Webfinger => "/.well-known/webfinger",
            Kind::Member(Part::Actor) => "/users/{name}",
            Kind::Member(Part::Inbox) => "/users/{name}/inbox",
            Kind::Member(Part::Outbox) => "/users/{name}/outbox",
            Kind::Member(Part::Followers) => "/users/{name}/followers",
            Kind::Member(Part::Following) => "/users/{name}/following",
            Kind::Member(Part::Liked) => "/users/{name}/liked",
            Kind::Member(Part::Boards) => "/users/{name}/c",
            Kind::Numbered(NumberedPart::Activity) => "/users/{name}/a/{item}",
            Kind::Numbered(NumberedPart::Object) => "/users/{name}/o/{item}",
            Kind::Numbered(NumberedPart::Likes) => "/users/{name}/o/{item}/likes",
            Kind::Numbered(NumberedPart::Shares) => "/users/{name}/o/{item}/shares",
            Kind::Board => "/users/{name}/c/{item}",
        }
    }
}
