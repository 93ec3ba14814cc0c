//! What a bridge asks the API server for, so that any number of controllers may run at once: a
//! machine that takes the program's puts, answers of the API server and ticks of a clock, and says
//! which request is to be made next, and which reply the program hears. It has no clock and no
//! connection of its own. The rules are those of `fence_rules`, and that it keeps them is proved in
//! `fence_laws`.
#![tactic(auto)]

mod answer;
mod answers;
mod fence;
mod fields;
mod known;
mod lease;
mod output;
mod stage;

pub use answer::{Answer, Input};
pub use fence::Fence;
pub use known::Known;
pub use lease::{Asked, Lease, ServiceVersion, ServiceVersions};
pub use output::{Output, Request, Taken};
pub use stage::{CheckCall, LeaseCall, Stage};
