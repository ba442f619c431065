//! The types of activities, and the states that an activity goes through.

ghost use Rattle.std.specs.Prelude.{◌≡◌};

/// The 28 types of activities (ActivityStreams 2.0 Vocabulary, section 3.1).
#[derive(Clone, Copy, Debug, PartialEq, Eq)]
pub enum Kind {
    Accept = 1,
    Add = 2,
    Announce = 3,
    Arrive = 4,
    Block = 5,
    Create = 6,
    Delete = 7,
    Dislike = 8,
    Flag = 9,
    Follow = 10,
    Ignore = 11,
    Invite = 12,
    Join = 13,
    Leave = 14,
    Like = 15,
    Listen = 16,
    Move = 17,
    Offer = 18,
    Question = 19,
    Read = 20,
    Reject = 21,
    Remove = 22,
    TentativeAccept = 23,
    TentativeReject = 24,
    Travel = 25,
    Undo = 26,
    Update = 27,
    View = 28,
}

impl Kind {
    ghost use Rattle.fedi_objects.specs.Kinds.{kind_number, kind_name, is_create};

    /// All types, in the order of their numbers.
    pub const ALL: [Kind; 28] = [
        Kind::Accept,
        Kind::Add,
        Kind::Announce,
        Kind::Arrive,
        Kind::Block,
        Kind::Create,
        Kind::Delete,
        Kind::Dislike,
        Kind::Flag,
        Kind::Follow,
        Kind::Ignore,
        Kind::Invite,
        Kind::Join,
        Kind::Leave,
        Kind::Like,
        Kind::Listen,
        Kind::Move,
        Kind::Offer,
        Kind::Question,
        Kind::Read,
        Kind::Reject,
        Kind::Remove,
        Kind::TentativeAccept,
        Kind::TentativeReject,
        Kind::Travel,
        Kind::Undo,
        Kind::Update,
        Kind::View,
    ];

    /// The type's position among the 28, counted from 1.
    pub fn number(self) -> u8
        ensures { result ≡ kind_number self }
    {
        self as u8
    }

    /// The name of the type, as spelled in the vocabulary.
    pub fn name(self) -> &'static str
        ensures { result.now ≡ kind_name self }
    {
        match self {
            Kind::Accept => "Accept",
            Kind::Add => "Add",
            Kind::Announce => "Announce",
            Kind::Arrive => "Arrive",
            Kind::Block => "Block",
            Kind::Create => "Create",
            Kind::Delete => "Delete",
            Kind::Dislike => "Dislike",
            Kind::Flag => "Flag",
            Kind::Follow => "Follow",
            Kind::Ignore => "Ignore",
            Kind::Invite => "Invite",
            Kind::Join => "Join",
            Kind::Leave => "Leave",
            Kind::Like => "Like",
            Kind::Listen => "Listen",
            Kind::Move => "Move",
            Kind::Offer => "Offer",
            Kind::Question => "Question",
            Kind::Read => "Read",
            Kind::Reject => "Reject",
            Kind::Remove => "Remove",
            Kind::TentativeAccept => "TentativeAccept",
            Kind::TentativeReject => "TentativeReject",
            Kind::Travel => "Travel",
            Kind::Undo => "Undo",
            Kind::Update => "Update",
            Kind::View => "View",
        }
    }

    /// Whether it is `Create`.
    pub fn is_create(self) -> bool
        ensures { result ≡ is_create self }
    {
        match self {
            Kind::Create => true,
            _ => false,
        }
    }
}

/// What became of an activity.
#[derive(Clone, Copy, Debug, PartialEq, Eq)]
pub enum State {
    /// It has no effect beyond being there.
    Plain,
    /// Its effect has happened.
    Done,
    /// A follow that waits for its answer.
    Pending,
    /// A follow that was accepted.
    Accepted,
    /// A follow that was rejected.
    Rejected,
    /// A like, a boost or a block that is in force.
    Standing,
    /// A follow, a like, a boost or a block that was undone.
    Undone,
}

impl State {
    ghost use Rattle.fedi_objects.specs.Kinds.{state_name};

    /// The state's name, in lower case.
    pub fn name(self) -> &'static str
        ensures { result.now ≡ state_name self }
    {
        match self {
            State::Plain => "plain",
            State::Done => "done",
            State::Pending => "pending",
            State::Accepted => "accepted",
            State::Rejected => "rejected",
            State::Standing => "standing",
            State::Undone => "undone",
        }
    }
}
