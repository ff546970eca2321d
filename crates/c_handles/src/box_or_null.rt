//! A pointer that a C program keeps: that of a box of the heap, or null.

ghost use Rattle.std.specs.Prelude.{◌≡◌, Option, Some, None};
ghost use Rattle.std.specs.Option.{MatchOption};
ghost use Rattle.c_handles.specs.Ownership.{box_or_null_owns};

use crate::parts::Parts;
use std::alloc::Global;
use std::marker::Model;

/// The pointer of a box with `value`, or null where there is none.
pub struct BoxOrNull<T> {
    pub at: *mut T,
    pub alloc: Global,
    pub ghost value: { Option T },
}

impl<T> Model for BoxOrNull<T> {
    ghost also_owns = { λ b. box_or_null_owns T.row b.alloc b.at b.value };
}

impl<T> BoxOrNull<T> {
    /// Null, with no box.
    pub fn null(alloc: Global) -> BoxOrNull<T>
        ensures { result.value ≡ None }
    {
        BoxOrNull {
            at: std::ptr::null_mut(),
            alloc,
        }
    }

    fn of_parts(parts: Parts<T, Global>) -> BoxOrNull<T>
        ensures { result.value ≡ Some parts.value }
    {
        let Parts { ptr, alloc } = parts;
        BoxOrNull { at: ptr, alloc }
    }

    fn into_parts(self) -> Option<Parts<T, Global>>
        ensures { MatchOption result (self.value ≡ None) (λ parts. self.value ≡ Some parts.value) }
    {
        let BoxOrNull { at, alloc } = self;
        if at.is_null() {
            None
        } else {
            Some(Parts { ptr: at, alloc })
        }
    }
}

impl<T> BoxOrNull<T> {
    /// The pointer of a box.
    pub fn of(b: Box<T, Global>) -> BoxOrNull<T>
    where
        T: Drop,
        ensures { result.value ≡ Some b.value }
    {
        BoxOrNull::of_parts(Parts::of(b))
    }

    /// The box again. None comes exactly where the pointer is null.
    pub fn into_box(self) -> Option<Box<T, Global>>
        ensures { MatchOption result (self.value ≡ None) (λ b. self.value ≡ Some b.value) }
    {
        match self.into_parts() {
            Some(parts) => Some(parts.into_box()),
            None => None,
        }
    }
}
