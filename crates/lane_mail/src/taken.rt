//! What a look into the mail gives.

use crate::item::Item;

/// The answer of `Mail::take`.
#[derive(Drop)]
pub enum Taken {
    /// The next item.
    Item(Item),
    /// Both lanes have ended, and each of their items was taken.
    AllEnded,
}
