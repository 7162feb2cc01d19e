//! What a search is asked for.

/// What a search is asked for.
#[derive(Clone, Copy)]
pub struct ExploreRequest {
    /// At most how many states are found, 1 to 10,000,000.
    pub states: u32,
    /// The number of the outcome of which a deck is printed in place of the report.
    pub deck: Option<u32>,
}
