//! The objects and activities of ActivityStreams, the entries of a history, and the JSON in which
//! objects are shown.
#![tactic(auto)]

mod activity;
mod boxed;
mod entry;
mod fields;
mod kind;
mod limits;
mod members;
mod object;
mod repeat_key;
mod shown;
mod writing;

pub use activity::{Activity, ObjectRef};
pub use boxed::Boxed;
pub use entry::{Came, Entry, Sent, What};
pub use fields::set;
pub use kind::{Kind, State};
pub use limits::{is_address, is_content, is_date, is_type};
pub use members::{
    new_document, text_of, write_iri, write_iris, write_joined, write_str, write_text,
};
pub use object::{Change, Edit, Object, TOMBSTONE, Tag};
pub use repeat_key::RepeatKey;
pub use shown::{ObjectView, Shown, ShownObject, StrippedObject};
pub use writing::{CONTEXT, MENTION, write_activity, write_object};
