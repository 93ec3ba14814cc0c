//! What the rule of a queue knows of each pass.

use std::collections::LinkedList;

/// What a pass may do, what it sent and what it got. No value of it is made.
pub struct Hand<T> {
    /// Whether it may send for the first lane.
    pub first: bool,
    /// Whether it may send for the second lane.
    pub second: bool,
    pub takes: bool,
    pub sent: LinkedList<T>,
    pub got: LinkedList<T>,
}
