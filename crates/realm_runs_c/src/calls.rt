//! What a program is told of the call of an operation that was taken, so that it can run the body. An
//! operation that is cancelled is told as no call: its body is not to be run.

ghost use Rattle.std.specs.Prelude.{◌≡◌, ◌≢◌, option_map, slice_get};
ghost use Rattle.c_answers.specs.Buffers.{Holds, IsCut};
ghost use Rattle.run_handles.specs.Calls.{call_at, call_of};
ghost use Rattle.run_handles.specs.Runs.{IfRun, IfTaken, run_misuse, taken_misuse};
ghost use Rattle.realm_runs_c.specs.Calls.{Tells, TellsWord, access_numbers, accesses_of, interval_numbers, intervals_of, mode_number, values_of};

use c_answers::buffer::hand_out;
use c_numbers::status::{DONE, EMPTY, NONE};
use graph_terms::call::Call;
use graph_terms::verb::{Access, Mode};
use run_handles::calls::call_of;
use run_handles::held::Held;
use run_handles::inside::{run_misuse, taken_misuse};
use run_handles::token::{Taken, Token};
use std::alloc::Global;

/// How a call uses a column, by numbers.
#[repr(C)]
#[derive(Clone, Copy, Drop)]
pub struct AccessNumbers {
    /// 0 it reads, 1 it reads and writes, 2 sum, 3 min, 4 max.
    pub mode: u32,
    /// The column of data, from 0 in the order of the text.
    pub column: u32,
    /// The space, from 0 in the order of the text.
    pub space: u32,
}

/// An interval of a space.
#[repr(C)]
#[derive(Clone, Copy, Drop)]
pub struct Interval {
    /// Its first point.
    pub first: u32,
    /// Its last point, which is in it.
    pub last: u32,
}

/// Puts the word of a line's call into `out` with its length beside it: 0; 6 exactly where `out` is too
/// short for it, and it is cut; 4 where the graph has no such line, or it is no call.
#[unsafe(no_mangle)]
pub extern "C" fn realm_run_word(
    alloc: Global,
    run: &mut Held,
    line: u32,
    out: &mut [u8],
    written: &mut u64,
) -> u32
    ensures same { run.new.value ≡ run.old.value }
    ensures misuse { run_misuse run.old.value ≢ 0 → (result ≡ run_misuse run.old.value) × (out.new ≡ out.old) × (written.new ≡ 0) }
    ensures word { IfRun run.old.value (λ c. TellsWord (call_at c.graph line) result out.old out.new written.new) }
{
    *written = 0;
    let Some(token) = run.take(alloc) else {
        return EMPTY;
    };
    let status = word_in_run(&token, line, out, written);
    run.put(token);
    status
}

fn word_in_run(token: &Token, line: u32, out: &mut [u8], written: &mut u64) -> u32
    requires { written.old ≡ 0 }
    ensures misuse { run_misuse (Some token.now) ≢ 0 → (result ≡ run_misuse (Some token.now)) × (out.new ≡ out.old) × (written.new ≡ 0) }
    ensures word { IfRun (Some token.now) (λ c. TellsWord (call_at c.graph line) result out.old out.new written.new) }
{
    match token {
        Token::Run(run) => put_word(run.call_at(line), out, written),
        _ => run_misuse(token),
    }
}

/// The same of the call of work that was taken: 4 also where the operation is cancelled.
#[unsafe(no_mangle)]
pub extern "C" fn realm_work_word(
    alloc: Global,
    work: &mut Held,
    out: &mut [u8],
    written: &mut u64,
) -> u32
    ensures same { work.new.value ≡ work.old.value }
    ensures misuse { taken_misuse work.old.value ≢ 0 → (result ≡ taken_misuse work.old.value) × (out.new ≡ out.old) × (written.new ≡ 0) }
    ensures word { IfTaken work.old.value (λ t. TellsWord (call_of t) result out.old out.new written.new) }
{
    *written = 0;
    let Some(token) = work.take(alloc) else {
        return EMPTY;
    };
    let status = word_in(&token, out, written);
    work.put(token);
    status
}

fn word_in(token: &Token, out: &mut [u8], written: &mut u64) -> u32
    requires { written.old ≡ 0 }
    ensures misuse { taken_misuse (Some token.now) ≢ 0 → (result ≡ taken_misuse (Some token.now)) × (out.new ≡ out.old) × (written.new ≡ 0) }
    ensures word { IfTaken (Some token.now) (λ t. TellsWord (call_of t) result out.old out.new written.new) }
{
    match token {
        Token::Taken(taken) => put_word(call_of(taken), out, written),
        _ => taken_misuse(token),
    }
}

/// Puts the word of a call, where it is one.
fn put_word(call: Option<&Call>, out: &mut [u8], written: &mut u64) -> u32
    requires { written.old ≡ 0 }
    ensures { TellsWord (option_map (λ c. c.now) call.entry) result out.old out.new written.new }
{
    match call {
        Some(call) => hand_out(call.word().bytes(), out, written),
        None => NONE,
    }
}

/// Tells a value of the call by its number: 0; 4 where it has no such value.
#[unsafe(no_mangle)]
pub extern "C" fn realm_work_value(alloc: Global, work: &mut Held, k: u32, value: &mut u64) -> u32
    ensures same { work.new.value ≡ work.old.value }
    ensures misuse { taken_misuse work.old.value ≢ 0 → (result ≡ taken_misuse work.old.value) × (value.new ≡ value.old) }
    ensures value { IfTaken work.old.value (λ t. Tells (λ v. v) (slice_get (values_of t) k) result value.old value.new) }
{
    let Some(token) = work.take(alloc) else {
        return EMPTY;
    };
    let status = value_in(&token, k, value);
    work.put(token);
    status
}

fn value_in(token: &Token, k: u32, value: &mut u64) -> u32
    ensures misuse { taken_misuse (Some token.now) ≢ 0 → (result ≡ taken_misuse (Some token.now)) × (value.new ≡ value.old) }
    ensures value { IfTaken (Some token.now) (λ t. Tells (λ v. v) (slice_get (values_of t) k) result value.old value.new) }
{
    match token {
        Token::Taken(taken) => put_value(taken, k, value),
        _ => taken_misuse(token),
    }
}

fn put_value(taken: &Taken, k: u32, value: &mut u64) -> u32
    ensures { Tells (λ v. v) (slice_get (values_of taken.now) k) result value.old value.new }
{
    match value_at(taken, k) {
        Some(found) => {
            *value = found;
            DONE
        }
        None => NONE,
    }
}

fn value_at(taken: &Taken, k: u32) -> Option<u64>
    ensures { result ≡ slice_get (values_of taken.now) k }
{
    match call_of(taken)?.values().items.as_slice().get(k as usize) {
        Some(value) => Some(*value),
        None => None,
    }
}

/// Tells an access of the call by its number: 0; 4 where it has no such access.
#[unsafe(no_mangle)]
pub extern "C" fn realm_work_access(
    alloc: Global,
    work: &mut Held,
    k: u32,
    access: &mut AccessNumbers,
) -> u32
    ensures same { work.new.value ≡ work.old.value }
    ensures misuse { taken_misuse work.old.value ≢ 0 → (result ≡ taken_misuse work.old.value) × (access.new ≡ access.old) }
    ensures access { IfTaken work.old.value (λ t. Tells access_numbers (slice_get (accesses_of t) k) result access.old access.new) }
{
    let Some(token) = work.take(alloc) else {
        return EMPTY;
    };
    let status = access_in(&token, k, access);
    work.put(token);
    status
}

fn access_in(token: &Token, k: u32, access: &mut AccessNumbers) -> u32
    ensures misuse { taken_misuse (Some token.now) ≢ 0 → (result ≡ taken_misuse (Some token.now)) × (access.new ≡ access.old) }
    ensures access { IfTaken (Some token.now) (λ t. Tells access_numbers (slice_get (accesses_of t) k) result access.old access.new) }
{
    match token {
        Token::Taken(taken) => put_access(taken, k, access),
        _ => taken_misuse(token),
    }
}

fn put_access(taken: &Taken, k: u32, access: &mut AccessNumbers) -> u32
    ensures { Tells access_numbers (slice_get (accesses_of taken.now) k) result access.old access.new }
{
    match access_at(taken, k) {
        Some(found) => {
            *access = access_numbers(found);
            DONE
        }
        None => NONE,
    }
}

/// An access of the call of work by its number.
fn access_at(taken: &Taken, k: u32) -> Option<Access>
    ensures { result ≡ slice_get (accesses_of taken.now) k }
{
    match call_of(taken)?.accesses().items.as_slice().get(k as usize) {
        Some(access) => Some(*access),
        None => None,
    }
}

fn access_numbers(access: Access) -> AccessNumbers
    ensures { result ≡ access_numbers access }
{
    AccessNumbers {
        mode: mode_number(access.mode),
        column: access.column,
        space: access.space,
    }
}

fn mode_number(mode: Mode) -> u32
    ensures { result ≡ mode_number mode }
{
    match mode {
        Mode::Read => 0,
        Mode::Write => 1,
        Mode::Sum => 2,
        Mode::Least => 3,
        Mode::Most => 4,
    }
}

/// Tells an interval of the space of access `k` by its number: 0; 4 where there is no such interval.
#[unsafe(no_mangle)]
pub extern "C" fn realm_work_interval(
    alloc: Global,
    work: &mut Held,
    k: u32,
    n: u32,
    interval: &mut Interval,
) -> u32
    ensures same { work.new.value ≡ work.old.value }
    ensures misuse { taken_misuse work.old.value ≢ 0 → (result ≡ taken_misuse work.old.value) × (interval.new ≡ interval.old) }
    ensures interval { IfTaken work.old.value (λ t. Tells interval_numbers (slice_get (intervals_of t k) n) result interval.old interval.new) }
{
    let Some(token) = work.take(alloc) else {
        return EMPTY;
    };
    let status = interval_in(&token, k, n, interval);
    work.put(token);
    status
}

fn interval_in(token: &Token, k: u32, n: u32, interval: &mut Interval) -> u32
    ensures misuse { taken_misuse (Some token.now) ≢ 0 → (result ≡ taken_misuse (Some token.now)) × (interval.new ≡ interval.old) }
    ensures interval { IfTaken (Some token.now) (λ t. Tells interval_numbers (slice_get (intervals_of t k) n) result interval.old interval.new) }
{
    match token {
        Token::Taken(taken) => put_interval(taken, k, n, interval),
        _ => taken_misuse(token),
    }
}

fn put_interval(taken: &Taken, k: u32, n: u32, interval: &mut Interval) -> u32
    ensures { Tells interval_numbers (slice_get (intervals_of taken.now k) n) result interval.old interval.new }
{
    match interval_at(taken, k, n) {
        Some((first, last)) => {
            *interval = Interval { first, last };
            DONE
        }
        None => NONE,
    }
}

/// An interval of the space of an access by its number.
fn interval_at(taken: &Taken, k: u32, n: u32) -> Option<(u32, u32)>
    ensures { result ≡ slice_get (intervals_of taken.now k) n }
{
    let access = access_at(taken, k)?;
    let graph = taken.graph.graph();
    if access.space >= graph.spaces() {
        return None;
    }
    match graph.space(access.space).intervals().get(n as usize) {
        Some(interval) => Some(*interval),
        None => None,
    }
}
