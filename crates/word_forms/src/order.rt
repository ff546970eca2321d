//! Intervals that do not ascend.

ghost use Rattle.std.specs.Prelude.{◌≡◌, ◌+◌, ◌++◌, nat_lt, OnOk};
ghost use Rattle.word_forms.specs.Order.{interval_text, reversed_text, touching_text, gap_text, near_text, fault_text, fault_from, first_fault, order_text, intervals_text};

use graph_words::intervals::intervals;
use index_spaces::NoMemory;
use line_forms::putting::{put, put_decimal};
use std::alloc::Global;

/// What is wrong with an interval behind others.
#[derive(Clone, Copy)]
pub enum OrderFault {
    /// It ends before it begins.
    Reversed((u32, u32)),
    /// It does not begin at least 2 above the end of the one before it.
    Near((u32, u32), (u32, u32)),
}

/// Puts what is wrong with the intervals that a word spells, where they do not ascend.
pub(crate) fn put_intervals(alloc: Global, out: &mut Vec<u8>, word: &[u8]) -> Result<(), NoMemory>
    ensures { OnOk result (out.new.items ≡ out.old.items ++ intervals_text word.now) }
{
    match intervals(alloc, word)? {
        Some(pairs) => put_order(out, pairs.as_slice()),
        None => Ok(()),
    }
}

/// Puts what is wrong with the first of some intervals that is not in order.
fn put_order(out: &mut Vec<u8>, pairs: &[(u32, u32)]) -> Result<(), NoMemory>
    ensures { OnOk result (out.new.items ≡ out.old.items ++ order_text pairs.now) }
{
    match first_fault(pairs) {
        Some(fault) => put_fault(out, fault),
        None => Ok(()),
    }
}

/// The first interval that is not in order.
fn first_fault(pairs: &[(u32, u32)]) -> Option<OrderFault>
    ensures { result ≡ first_fault pairs.now }
{
    let [first, rest @ ..] = pairs else {
        return None;
    };
    if is_reversed(*first) {
        return Some(OrderFault::Reversed(*first));
    }
    fault_from(*first, rest)
}

/// The first one that is not in order behind one that is.
fn fault_from(before: (u32, u32), pairs: &[(u32, u32)]) -> Option<OrderFault>
    ensures { result ≡ fault_from before pairs.now }
{
    let mut last = before;
    let mut rest = pairs;
    while let [pair, others @ ..] = rest {
        if is_reversed(*pair) {
            return Some(OrderFault::Reversed(*pair));
        }
        if is_near(last, *pair) {
            return Some(OrderFault::Near(last, *pair));
        }
        last = *pair;
        rest = others;
    }
    None
}

fn is_reversed(pair: (u32, u32)) -> bool
    ensures { result ≡ nat_lt pair.1 pair.0 }
{
    pair.1 < pair.0
}

fn is_near(one: (u32, u32), other: (u32, u32)) -> bool
    ensures { result ≡ nat_lt other.0 (one.1 + 2) }
{
    u64::from(other.0) < u64::from(one.1) + 2
}

/// Puts what is wrong with an interval.
fn put_fault(out: &mut Vec<u8>, fault: OrderFault) -> Result<(), NoMemory>
    ensures { OnOk result (out.new.items ≡ out.old.items ++ fault_text fault) }
{
    match fault {
        OrderFault::Reversed(pair) => put_reversed(out, pair),
        OrderFault::Near(one, other) => put_near(out, one, other),
    }
}

/// Puts that an interval ends before it begins.
fn put_reversed(out: &mut Vec<u8>, pair: (u32, u32)) -> Result<(), NoMemory>
    ensures { OnOk result (out.new.items ≡ out.old.items ++ reversed_text pair) }
{
    put_interval(out, pair.0, pair.1)?;
    put(out, b" ends before it begins\n")
}

/// Puts that an interval stands too near to the one before it.
fn put_near(out: &mut Vec<u8>, one: (u32, u32), other: (u32, u32)) -> Result<(), NoMemory>
    ensures { OnOk result (out.new.items ≡ out.old.items ++ near_text one other) }
{
    put_interval(out, one.0, one.1)?;
    put(out, b" and ")?;
    put_interval(out, other.0, other.1)?;
    put_gap(out, one, other)
}

/// Puts what is wrong between the two.
fn put_gap(out: &mut Vec<u8>, one: (u32, u32), other: (u32, u32)) -> Result<(), NoMemory>
    ensures { OnOk result (out.new.items ≡ out.old.items ++ gap_text one other) }
{
    if u64::from(one.1) + 1 == u64::from(other.0) {
        return put_touching(out, one.0, other.1);
    }
    put(
        out,
        b": an interval begins at least 2 above the end of the one before it\n",
    )
}

/// Puts that two touch, and what joins them.
fn put_touching(out: &mut Vec<u8>, low: u32, high: u32) -> Result<(), NoMemory>
    ensures { OnOk result (out.new.items ≡ out.old.items ++ touching_text low high) }
{
    put(out, b" touch: write ")?;
    put_interval(out, low, high)?;
    put(out, b"\n")
}

/// Puts an interval as it is written.
fn put_interval(out: &mut Vec<u8>, low: u32, high: u32) -> Result<(), NoMemory>
    ensures { OnOk result (out.new.items ≡ out.old.items ++ interval_text low high) }
{
    put_decimal(out, u64::from(low))?;
    put(out, b"..")?;
    put_decimal(out, u64::from(high))
}
