//! An item that comes back.

use crate::item::Item;

/// The item was not sent: there was no memory for it.
#[derive(Drop)]
pub struct PutBack {
    pub item: Item,
}
