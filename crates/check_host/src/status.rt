//! The statuses that calls return to the host.

/// A certificate is accepted.
pub const DONE: u32 = 0;

/// A picture, a certificate or a file of givens is refused.
pub const REFUSED: u32 = 1;

/// Memory was refused.
pub const MEMORY: u32 = 4;

/// The background has neither no samples nor three.
pub const OPTIONS: u32 = 6;
