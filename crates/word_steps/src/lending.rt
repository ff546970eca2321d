//! What lies in the slots of columns, of their shares, and of the issue state.

ghost use Rattle.std.specs.Prelude.{◌≡◌, ℕ};
ghost use Rattle.index_spaces.specs.Shares.{ShareValue};
ghost use Rattle.index_spaces.specs.Column.{ColumnValue};
ghost use Rattle.word_steps.specs.Lending.{AreWhole, home_for, all_for};
ghost use Rattle.word_steps.specs.declared.content.Content.TheVariants.{Share, Issuer};
ghost use Rattle.word_steps.specs.declared.content.IssueState.{IssueState as TheIssueState};

use crate::content::{BoxedIssueState, Content};
use index_spaces::column::Column;
use index_spaces::shares::ColumnShare;

/// The share in a slot.
pub fn share_in(content: Content) -> ColumnShare
    requires { (x : ShareValue) × (content ≡ Share x) }
    ensures { content ≡ Share result }
{
    let Content::Share(share) = content else {
        unreachable!()
    };
    share
}

/// The column in the slot of a column, by all its shares where it has some.
pub fn column_of(content: Content, all: Option<ColumnShare>) -> Column
    requires { (x : ColumnValue) × AreWhole content all x }
    ensures { (x : ColumnValue) → AreWhole content all x → result ≡ x }
{
    match content {
        Content::Cells(column) => column,
        Content::Lent(lender) => match all {
            Some(all) => lender.reclaim(all),
            None => unreachable!(),
        },
        _ => unreachable!(),
    }
}

/// What goes into the slot of a column with so many shares, and all these where it has some.
pub fn content_of(column: Column, shares: u32) -> (Content, Option<ColumnShare>)
    ensures { (d : ℕ) × (result.0 ≡ home_for shares d column) × (result.1 ≡ all_for shares d column) }
{
    if shares == 0 {
        return (Content::Cells(column), None);
    }
    let (lender, all) = column.lend();
    (Content::Lent(lender), Some(all))
}

/// The issue state.
pub fn issue_state_of(content: Content) -> BoxedIssueState
    requires { (d : TheIssueState) × (content ≡ Issuer d) }
    ensures { content ≡ Issuer result }
{
    let Content::Issuer(issue_turn) = content else {
        unreachable!()
    };
    issue_turn
}
