//! Which node announces an address: of those that are eligible, the one of the least hash.
#![tactic(auto)]

mod announcers;
mod election;
mod eligible;
mod laws;
mod listening;
mod move_list;
mod winner;

pub use announcers::Announcers;
pub use election::{announcer, announces};
pub use laws::{
    election_moves_least, eligible_nodes_stay, one_announces, only_an_eligible_node_announces,
};
pub use listening::{listens, listens_known};
pub use move_list::{Move, MoveList, elected_moves};
