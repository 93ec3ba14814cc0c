//! Laws of the events and objects that are read of JSON. Each is the contract of a function that
//! does nothing.
#![tactic(auto)]

mod laws;

pub use laws::{
    annotations_are_read, bgp_advs_are_read, bookmarks_are_read, communities_are_read,
    deleted_fault_is_first, deleted_lines_are_read, fault_is_first, fields_are_read,
    frames_are_read, frames_read_back, item_fault_is_first, l2_advs_are_read, lines_go_by_name,
    members_are_read, namespaces_are_read, nodes_are_read, nothing_is_asked, objects_go_by_name,
    part_fault_is_first, peers_are_read, pools_are_read, replies_are_json, replies_are_read,
    services_are_read, set_lines_are_read, set_objects_are_stated, set_versions_are_versions,
    slices_are_read, stated_fault_is_first, versions_are_decimal,
};
