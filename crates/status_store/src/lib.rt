//! The objects that are stored in a cluster, and the writing of services' records to them: the
//! store, the line of a put, and the reply to it.
#![tactic(auto)]

mod change;
mod place;
mod store;
mod stored;

pub use change::{Edit, Outcome};
pub use kube_lines::{ReplyFault, put_line, read_reply};
pub use kube_model::{Put, PutReply};
pub use store::Store;
pub use stored::{Stored, StoredList};
