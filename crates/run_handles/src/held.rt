//! The handles of C.

ghost use Rattle.std.specs.Prelude.{◌≡◌, Option, Some, None, true, false, IfSome};
ghost use Rattle.std.specs.Option.{MatchOption};
ghost use Rattle.c_handles.specs.Ownership.{box_or_null_owns};
ghost use Rattle.run_handles.specs.Runs.{held_of, HoldsAny};
ghost use Rattle.run_handles.specs.contracts.token.Token.{the_row as token_row};
ghost use Rattle.run_handles.specs.declared.token.Token.{Token as TheToken};

use crate::token::Token;
use c_handles::BoxOrNull;
use std::alloc::Global;
use std::marker::Model;

/// A handle of C: empty, or a box of what it holds. A struct of zero bytes is empty.
///
/// It may go to another thread with each kind of value, as `token::may_cross` shows.
#[repr(C)]
#[derive(Drop)]
pub struct Held {
    at: *mut u8,
    alloc: Global,
    /// What it holds.
    pub ghost value: { Option TheToken },
}

impl Model for Held {
    ghost also_owns = { λ h. box_or_null_owns token_row h.alloc h.at h.value };
}

impl Held {
    fn of(pointer: BoxOrNull<Token>) -> Held
        ensures { result.value ≡ pointer.value }
    {
        let BoxOrNull { at, alloc } = pointer;
        Held {
            at: at as *mut u8,
            alloc,
        }
    }

    fn into_pointer(self) -> BoxOrNull<Token>
        ensures { result.value ≡ self.value }
    {
        let Held { at, alloc } = self;
        BoxOrNull {
            at: at as *mut Token,
            alloc,
        }
    }
}

/// A box for what a call makes. None comes where memory ran out.
pub(crate) fn room(alloc: Global) -> Option<Box<Token, Global>>
    ensures { IfSome result (λ b. b.value ≡ Token.Empty) }
{
    Box::new(alloc, Token::Empty).ok()
}

impl Held {
    /// Takes what the handle holds. None comes exactly where it is empty.
    pub fn take(&mut self, alloc: Global) -> Option<Box<Token, Global>>
        ensures taken { MatchOption result (self.old.value ≡ None) (λ b. self.old.value ≡ Some b.value) }
        ensures empty { self.new.value ≡ None }
    {
        let held = std::mem::replace(self, Held::of(BoxOrNull::null(alloc)));
        held.into_pointer().into_box()
    }

    /// Whether the handle is empty.
    pub fn is_empty(&mut self, alloc: Global) -> bool
        ensures same { self.new.value ≡ self.old.value }
        ensures yes { result ≡ true → self.old.value ≡ None }
        ensures no { result ≡ false → HoldsAny self.old.value }
    {
        match self.take(alloc) {
            Some(token) => {
                self.put(token);
                false
            }
            None => true,
        }
    }

    /// Has the empty handle hold what was put into the room, where it was.
    pub(crate) fn fill(&mut self, room: Box<Token, Global>)
        requires { self.old.value ≡ None }
        ensures { self.new.value ≡ held_of room.value }
    {
        match &*room {
            Token::Empty => (),
            _ => self.put(room),
        }
    }

    /// Has the empty handle hold this.
    pub fn put(&mut self, token: Box<Token, Global>)
        requires { self.old.value ≡ None }
        ensures { self.new.value ≡ Some token.value }
    {
        *self = Held::of(BoxOrNull::of(token));
    }
}
