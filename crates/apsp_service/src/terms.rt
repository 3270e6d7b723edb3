//! What a mode sets for a session.

/// What does not change from line to line: how many readers a block has, and none where there are no
/// blocks; whether smoothing is on; and which commands are not served.
#[derive(Clone, Copy)]
pub struct Terms {
    pub readers: Option<u32>,
    pub smooth: bool,
    pub no_age: bool,
    pub no_grow: bool,
}
