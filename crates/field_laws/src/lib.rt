//! What is read of lines and objects, told by tables of their fields. Each law is the contract of a
//! function that does nothing.
#![tactic(auto)]

mod fields;
mod tables;
mod values;

pub use fields::{fields_are_read, lists_are_read};
pub use tables::{
    changed_objects_are_told, deleted_objects_are_told, frames_are_told, lines_are_read_by_value,
    lines_are_told, members_are_told, others_are_passed_by, rows_are_told, stated_objects_are_told,
};
pub use values::{numbers_are_read, texts_are_read, values_are_read};
