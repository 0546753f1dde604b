//! The limits of a scene, as `specs/Limits.antt` defines them.

/// The most pixels along a side of the screen or of a window; so far a window's corner may lie from the screen's.
pub const MOST_SIDE: u32 = 1024;

/// How far from its window's corner a scissor may reach.
pub const MOST_SCISSOR: u16 = 2048;

/// The most commands of all clients together.
pub const MOST_COMMANDS: usize = 100_000;

/// The most changes of the server.
pub const MOST_CHANGES: usize = 4_096;

/// The most items of a schedule.
pub const MOST_ITEMS: usize = 1_000_000;
