//! How reservations are held.

/// How a reservation is held.
#[derive(Clone, Copy)]
pub enum LockState {
    /// By an exclusive acquire alone.
    Alone,
    /// By so many shared acquires, of which there may be none.
    Shared(u32),
}
