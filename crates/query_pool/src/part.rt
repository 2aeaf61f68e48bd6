//! What one worker did.

/// The places that one worker served, with their results.
#[derive(Drop)]
pub struct Part<Out> {
    pub done: Vec<(u32, Out)>,
}
