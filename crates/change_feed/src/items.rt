//! What is sent.

/// The most items of one call of `send`: a cell for each pair of vertices, and the mark.
pub const MOST_ITEMS: u64 = 262145;

/// The three values of a pair of vertices in a version.
#[derive(Clone, Copy, Debug, PartialEq, Eq)]
pub struct Cell {
    pub x: u32,
    pub y: u32,
    pub dist: u64,
    pub hops: u32,
    pub next: u32,
}

/// A cell that changed, or behind the last of them the number of the version.
#[derive(Clone, Copy, Debug, PartialEq, Eq)]
pub enum Item {
    Cell(Cell),
    Mark(u64),
}
