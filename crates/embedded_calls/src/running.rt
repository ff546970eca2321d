//! Running the graph on the accounts, and reading what that leaves.

ghost use Rattle.std.specs.Prelude.{◌≡◌, ◌≤◌, IfOk, IfErr};
ghost use Rattle.embedded_calls.specs.CallGraph.{call_graph};
ghost use Rattle.embedded_calls.specs.Readings.{reading_from};

use crate::accounts::Accounts;
use crate::building::call_graph;
use crate::failure::Failure;
use call_bodies::run_calls;
use graph_terms::outcome::End;
use race_check::check;
use race_check::checked::{CheckRefusal, Checked};
use std::alloc::Global;

/// How many events may be pending at one time.
const SLOTS: u32 = 16;

/// What is read after a run: how each call ended, and the accounts.
#[derive(Clone, Copy)]
pub(crate) struct Reading {
    pub(crate) halve: End,
    pub(crate) carry: End,
    pub(crate) double: End,
    pub(crate) accounts: Accounts,
}

/// Runs the graph twice, from 40 and 0 on. The second time there is too little to move: that body faults, and
/// the call behind it is cancelled. No failure comes but want of memory.
pub(crate) fn run_twice(alloc: Global) -> Result<(Reading, Reading), Failure>
    ensures first { IfOk result (λ r. r.0 ≡ record { halve = End.Done; carry = End.Done; double = End.Done; accounts = record { x = 5; y = 30 } }) }
    ensures second { IfOk result (λ r. r.1 ≡ record { halve = End.Done; carry = End.Faulted; double = End.Cancelled; accounts = record { x = 2; y = 30 } }) }
    ensures refused { IfErr result (λ e. e ≡ Failure.NoMemory) }
{
    let checked = accepted(alloc)?;
    let first = run_once(alloc, &checked, Accounts { x: 40, y: 0 })?;
    let second = run_once(alloc, &checked, first.accounts)?;
    Ok((first, second))
}

/// The graph, checked.
fn accepted(alloc: Global) -> Result<Checked, Failure>
    ensures graph { IfOk result (λ c. c.graph ≡ call_graph) }
    ensures slots { IfOk result (λ c. c.need ≤ SLOTS) }
    ensures refused { IfErr result (λ e. e ≡ Failure.NoMemory) }
{
    match check(alloc, call_graph(alloc)?) {
        Ok(checked) => Ok(checked),
        Err(unfit) => Err(failure_of(unfit.why)),
    }
}

/// The failure that a refusal is.
fn failure_of(why: CheckRefusal) -> Failure
    ensures { why ≡ CheckRefusal.NoMemory → result ≡ Failure.NoMemory }
{
    match why {
        CheckRefusal::NoMemory => Failure::NoMemory,
        _ => Failure::Refused,
    }
}

/// Runs the graph once, from these accounts on.
fn run_once(alloc: Global, checked: &Checked, accounts: Accounts) -> Result<Reading, Failure>
    requires graph { checked.now.graph ≡ call_graph }
    requires slots { checked.now.need ≤ SLOTS }
    ensures reading { IfOk result (λ r. r ≡ reading_from accounts) }
    ensures refused { IfErr result (λ e. e ≡ Failure.NoMemory) }
{
    let mut accounts = accounts;
    let outcome = run_calls(alloc, checked, SLOTS, &mut accounts)?;
    Ok(Reading {
        halve: outcome.ends.at(0),
        carry: outcome.ends.at(1),
        double: outcome.ends.at(2),
        accounts,
    })
}
