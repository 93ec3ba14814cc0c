//! The terms under which a service holds its addresses, which services may share one, and the mark
//! that keeps the terms.
#![tactic(auto)]

mod mark;
mod port_set;
mod reading;
mod sharing;
mod terms;

pub use mark::mark_text;
pub use port_set::PortSet;
pub use reading::read_mark;
pub use sharing::{is_alike, may_share};
pub use terms::{Backend, Terms, terms_of};
