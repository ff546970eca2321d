//! What a handle of a window holds.

use task_window::window::TaskWindow;

/// What a handle holds. `Empty` stands for a moment alone, while the window moves.
#[derive(Drop)]
pub enum Token {
    Window(TaskWindow),
    Empty,
}

fn is_send<T: Send>() {}

/// A window may go to another thread. It does nothing: it is well typed where that is proved.
pub(crate) fn may_cross() {
    is_send::<TaskWindow>();
}
