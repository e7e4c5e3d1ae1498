use thiserror::Error;

/// No twin that holds the address showed a good cell.
#[derive(Clone, Copy, Debug, PartialEq, Eq, Error)]
#[error("both bad")]
pub struct BothBad;
