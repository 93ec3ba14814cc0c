//! The routes that a node announces to BGP peers.
//!
//! Of routes the addresses that contribute are kept, not tables: an aggregate of many addresses
//! then costs an event of one of them the logarithm of their number. A table is made when it is
//! told, and takes memory then.
#![tactic(auto)]

mod announced;
mod contributors;
mod finding;
mod kept;
mod kept_config;
mod laws;
mod peers;
mod told;
mod touching;
mod uniting;

pub use announced::routes;
pub use kept::KeptRoutes;
pub use laws::{
    changed_views_differ, contributions_are_listed, contributions_stay, ipv4_routes_are_the_same,
    others_agree, routes_are_of_ipv4, routes_are_stated, routes_unite_contributions,
    same_views_keep_tables, tables_are_determined,
};
pub use peers::peers_of;
