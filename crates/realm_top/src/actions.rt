//! What actions read.

ghost use Rattle.std.specs.Prelude.{◌≡◌};
ghost use Rattle.realm_top.specs.Answer.{reads, audits, upgrades, runs_session};

use command_line::request::Action;

/// Whether an action reads an input.
pub(crate) fn reads(action: Action) -> bool
    ensures { result ≡ reads action }
{
    match action {
        Action::Make => false,
        _ => true,
    }
}

/// Whether an action reads a graph with a trace behind it.
pub(crate) fn audits(action: Action) -> bool
    ensures { result ≡ audits action }
{
    match action {
        Action::Audit => true,
        _ => false,
    }
}

/// Whether an action reads a graph and does not check it.
pub(crate) fn upgrades(action: Action) -> bool
    ensures { result ≡ upgrades action }
{
    match action {
        Action::Upgrade => true,
        _ => false,
    }
}

/// Whether an action runs the graphs of a session.
pub(crate) fn runs_session(action: Action) -> bool
    ensures { result ≡ runs_session action }
{
    match action {
        Action::Session => true,
        _ => false,
    }
}
