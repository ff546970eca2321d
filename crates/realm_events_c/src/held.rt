//! The handles of C.

ghost use Rattle.std.specs.Prelude.{◌≡◌, Option, Some, None, IfSome};
ghost use Rattle.c_handles.specs.Ownership.{box_or_null_owns};
ghost use Rattle.realm_events_c.specs.Kinds.{held_of};
ghost use Rattle.realm_events_c.specs.contracts.token.Token.{the_row as token_row};
ghost use Rattle.realm_events_c.specs.declared.token.Token.{Token as TheToken};

use crate::token::Token;
use c_handles::BoxOrNull;
use std::alloc::Global;
use std::marker::Model;

/// A handle of C: empty, or a box of what it holds. A struct of zero bytes is empty.
///
/// It may go to another thread with each kind of value but `Closed`, as `token::may_cross` shows.
#[repr(C)]
#[derive(Drop)]
pub struct Held {
    at: *mut u8,
    alloc: Global,
    /// What it holds.
    pub ghost value: { Option TheToken },
}

impl Model for Held {
    ghost also_owns = { λ h. box_or_null_owns token_row h.alloc h.at h.value };
}

impl Held {
    fn of(pointer: BoxOrNull<Token>) -> Held
        ensures { result.value ≡ pointer.value }
    {
        let BoxOrNull { at, alloc } = pointer;
        Held {
            at: at as *mut u8,
            alloc,
        }
    }

    fn into_pointer(self) -> BoxOrNull<Token>
        ensures { result.value ≡ self.value }
    {
        let Held { at, alloc } = self;
        BoxOrNull {
            at: at as *mut Token,
            alloc,
        }
    }
}

/// A box for what a call makes. None comes where memory ran out.
pub(crate) fn room(alloc: Global) -> Option<Box<Token, Global>>
    ensures { IfSome result (λ b. b.value ≡ Token.Empty) }
{
    Box::new(alloc, Token::Empty).ok()
}

impl Held {
    /// Takes what the handle holds.
    pub(crate) fn take(&mut self, alloc: Global) -> Box<Token, Global>
        requires { (v : TheToken) × (self.old.value ≡ Some v) }
        ensures taken { self.old.value ≡ Some result.value }
        ensures empty { self.new.value ≡ None }
    {
        let held = std::mem::replace(self, Held::of(BoxOrNull::null(alloc)));
        held.into_pointer().into_box().unwrap()
    }

    /// Has the empty handle hold what was put into the room, where it was.
    pub(crate) fn fill(&mut self, room: Box<Token, Global>)
        requires { self.old.value ≡ None }
        ensures { self.new.value ≡ held_of room.value }
    {
        match &*room {
            Token::Empty => (),
            _ => self.put(room),
        }
    }

    /// Has the empty handle hold this.
    pub(crate) fn put(&mut self, token: Box<Token, Global>)
        requires { self.old.value ≡ None }
        ensures { self.new.value ≡ Some token.value }
    {
        *self = Held::of(BoxOrNull::of(token));
    }
}
