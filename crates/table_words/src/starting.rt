//! The size of the buffers of calls.

use picture::MAX_SIDE;

/// The most cells that a line can have.
pub const MOST: usize = MAX_SIDE as usize;
