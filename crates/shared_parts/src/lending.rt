//! A box lent by shares. It is one pointer, of the lender and of each share.

ghost use Rattle.std.specs.Prelude.{◌≡◌, ℕ, ◌+◌, ◌-◌, ◌^◌, ◌<◌, ◌≤◌};
ghost use Rattle.shared_parts.specs.Lending.{share_owns, share_lent, lender_owns};

use std::alloc::Allocator;
use std::marker::Model;

/// The right to read a value that is lent, for as long as this is held. A value is lent by 2^63 shares, and this is
/// `count` of them. Where one is dropped, its lender never has all, and the box is never freed.
#[derive(Drop)]
pub struct ReadShare<T> {
    ptr: *const T,
    pub ghost value: { T },
    /// The number of the lending, the same for all of its shares.
    pub ghost lending: { ℕ },
    pub ghost count: { ℕ },
}

impl<T> Model for ReadShare<T> {
    ghost also_owns = { λ s. share_owns T.row s.ptr s.value s.lending s.count };

    ghost also_shares = { λ s _ κ. share_lent T.row s.ptr s.value s.lending κ };
}

/// The right to have a box back whose value is lent. Where it is dropped, the box is never freed.
#[derive(Drop)]
pub struct Lender<T, A: Allocator> {
    ptr: *mut T,
    alloc: A,
    pub ghost value: { T },
    pub ghost lending: { ℕ },
}

impl<T, A: Allocator> Model for Lender<T, A> {
    ghost also_owns = { λ d. lender_owns (A.dealloc_token d.alloc) T.row d.ptr d.value d.lending };
}

/// Lends a box's value: the right to have the box back, and all shares of the value.
pub fn lend<T: Drop, A: Allocator>(whole: Box<T, A>) -> (Lender<T, A>, ReadShare<T>)
    ensures value { (result.0.value ≡ whole.value) × (result.1.value ≡ whole.value) }
    ensures all { (result.1.lending ≡ result.0.lending) × (result.1.count ≡ 2 ^ 63) }
{
    let (ptr, alloc) = Box::into_raw_with_allocator(whole);
    (Lender { ptr, alloc }, ReadShare { ptr })
}

/// The box again, with the value that was lent, for all shares of it.
pub fn reclaim<T, A: Allocator>(lender: Lender<T, A>, all: ReadShare<T>) -> Box<T, A>
    requires all { (all.lending ≡ lender.lending) × (all.count ≡ 2 ^ 63) }
    ensures value { result.value ≡ lender.value }
{
    let Lender { ptr, alloc } = lender;
    let ReadShare { ptr: _ } = all;
    unsafe { Box::from_raw(alloc, ptr) }
}

impl<T> ReadShare<T> {
    /// The value that is lent.
    pub fn get(&self) -> &T
        ensures value { result.now ≡ self.now.value }
    {
        unsafe { &*self.ptr }
    }

    /// Takes one share off these.
    pub fn split_one(&mut self) -> ReadShare<T>
        requires several { (1 < self.old.count) × (self.old.count ≤ 2 ^ 63) }
        ensures left { self.new ≡ record self.old { count = self.old.count - 1 } }
        ensures one { result ≡ record self.old { count = 1 } }
    {
        ReadShare { ptr: self.ptr }
    }

    /// Puts other shares of the same lending to these.
    pub fn join(&mut self, other: ReadShare<T>)
        requires same { (other.lending ≡ self.old.lending) × (0 < self.old.count) × (self.old.count + other.count ≤ 2 ^ 63) }
        ensures joined { self.new ≡ record self.old { count = self.old.count + other.count } }
    {
        let ReadShare { ptr: _ } = other;
    }
}

unsafe impl<T: Sync> Send for ReadShare<T> {}

unsafe impl<T: Sync> Sync for ReadShare<T> {}

unsafe impl<T: Send, A: Allocator + Send> Send for Lender<T, A> {}

unsafe impl<T: Send, A: Allocator + Send> Sync for Lender<T, A> {}
