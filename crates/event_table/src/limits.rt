//! The limits of tables of events.

/// The most slots of a table.
pub const MAX_SLOTS: u32 = 8_192;

/// The most waiters of a table.
pub const MAX_WAITERS: u32 = 65_536;

/// The most handles that all slots of a table give: 65,536 of each of 8,192 slots.
pub const MAX_HANDLES: u32 = 536_870_912;
