//! The statuses that calls return to the host.

/// The call did what it was asked for.
pub const DONE: u32 = 0;

/// Memory was refused.
pub const MEMORY: u32 = 4;

/// No bench has that handle: it was closed, or never given.
pub const CLOSED: u32 = 5;

/// The options or the background are not lawful.
pub const OPTIONS: u32 = 6;
