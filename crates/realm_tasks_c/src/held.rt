//! The handles of C.

ghost use Rattle.std.specs.Prelude.{◌≡◌, Option, Some, None, true, false, IfSome};
ghost use Rattle.std.specs.Option.{MatchOption};
ghost use Rattle.c_handles.specs.Ownership.{box_or_null_owns};
ghost use Rattle.realm_tasks_c.specs.Windows.{HoldsAny};
ghost use Rattle.realm_tasks_c.specs.contracts.token.Token.{the_row as token_row};
ghost use Rattle.realm_tasks_c.specs.declared.token.Token.{Token as TheToken};

use crate::token::Token;
use c_handles::BoxOrNull;
use std::alloc::Global;
use std::marker::Model;

/// A handle of C: empty, or a box of what it holds. A struct of zero bytes is empty.
///
/// It may go to another thread with its window, as `token::may_cross` shows.
#[repr(C)]
#[derive(Drop)]
pub struct Held {
    at: *mut u8,
    alloc: Global,
    /// What it holds.
    pub ghost value: { Option TheToken },
}

impl Model for Held {
    ghost also_owns = { λ h. box_or_null_owns token_row h.alloc h.at h.value };
}

impl Held {
    fn of(pointer: BoxOrNull<Token>) -> Held
        ensures { result.value ≡ pointer.value }
    {
        let BoxOrNull { at, alloc } = pointer;
        Held {
            at: at as *mut u8,
            alloc,
        }
    }

    fn into_pointer(self) -> BoxOrNull<Token>
        ensures { result.value ≡ self.value }
    {
        let Held { at, alloc } = self;
        BoxOrNull {
            at: at as *mut Token,
            alloc,
        }
    }
}

impl Held {
    /// Takes what the handle holds. None comes exactly where it is empty.
    pub(crate) fn take(&mut self, alloc: Global) -> Option<Box<Token, Global>>
        ensures taken { MatchOption result (self.old.value ≡ None) (λ b. self.old.value ≡ Some b.value) }
        ensures empty { self.new.value ≡ None }
    {
        let held = std::mem::replace(self, Held::of(BoxOrNull::null(alloc)));
        held.into_pointer().into_box()
    }

    /// Whether the handle is empty.
    pub(crate) fn is_empty(&mut self, alloc: Global) -> bool
        ensures same { self.new.value ≡ self.old.value }
        ensures yes { result ≡ true → self.old.value ≡ None }
        ensures no { result ≡ false → HoldsAny self.old.value }
    {
        match self.take(alloc) {
            Some(token) => {
                self.put(token);
                false
            }
            None => true,
        }
    }

    /// Has the empty handle hold this.
    pub(crate) fn put(&mut self, token: Box<Token, Global>)
        requires { self.old.value ≡ None }
        ensures { self.new.value ≡ Some token.value }
    {
        *self = Held::of(BoxOrNull::of(token));
    }
}
