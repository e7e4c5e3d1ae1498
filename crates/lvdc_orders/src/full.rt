use thiserror::Error;

/// Sixteen orders were added before.
#[derive(Clone, Copy, Debug, Error)]
#[error("no room for one more order")]
pub struct OrdersFull;
