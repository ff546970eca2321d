//! The rule of the table of a run, and the names of its steps, cuts and joins.

ghost use Rattle.word_steps.specs.Clashes.{with_claim, without_claim, impossible_view};
ghost use Rattle.word_steps.specs.Plays.{looked, claims, turns, returns_unused, puts_back, takes_share, gives_share, reads_back, missed, holds, shares, lets_go, frees, arrives, draws, stores, ends, closes, unclaims, takes_issue_turn, gives_issue_turn, begins_issue, issues, gives_up_issue, parent_of, child_of, joined, no_view};
ghost use Rattle.word_steps.specs.Rule.{Shown, opener};

use crate::base::Base;
use crate::content::Content;
use crate::view::View;
use atomic_table::{Join, Play, Split, TableRule};

/// The rule of the table of a run.
pub struct Law;

impl<'g> TableRule<Content, View, Base<'g>> for Law {
    ghost holds = { λ b. Shown b.checked.now.graph b.events };

    ghost first = { λ b. opener b.checked.now.graph b.events };
}

/// A load of a line's word.
pub struct Look;

impl Play<Content, View> for Look {
    ghost then = { λ st. looked st.word };
}

/// A line is claimed for its work.
pub struct Claim;

impl Play<Content, View> for Claim {
    ghost then = { λ st. claims st.word };
}

/// A column is taken.
pub struct Turn;

impl Play<Content, View> for Turn {
    ghost then = { λ st. turns st.word };
}

/// A share is taken.
pub struct TakeShare;

impl Play<Content, View> for TakeShare {
    ghost then = { λ st. takes_share st.word };
}

/// A share goes home.
pub struct GiveShare;

impl Play<Content, View> for GiveShare {
    ghost then = { λ _ m _ n. gives_share m n };
}

/// A share goes home, with the line put back on its column.
pub struct ReadBack;

impl Play<Content, View> for ReadBack {
    ghost then = { λ _ m _ n. reads_back m n };
}

/// A column goes home unused.
pub struct Return;

impl Play<Content, View> for Return {
    ghost then = { λ _ m _ n. returns_unused m n };
}

/// A line is put back on a column.
pub struct Put;

impl Play<Content, View> for Put {
    ghost then = { λ _ m _ n. puts_back m n };
}

/// A load of a reservation's word.
pub struct LookAtLock;

impl Play<Content, View> for LookAtLock {
    ghost then = { λ st. missed st.word };
}

/// A reservation is taken beside others that share it.
pub struct Share;

impl Play<Content, View> for Share {
    ghost then = { λ st. shares st.word st.first };
}

/// A reservation is taken by one line alone.
pub struct Hold;

impl Play<Content, View> for Hold {
    ghost then = { λ st. holds st.word };
}

/// A reservation is let go.
pub struct LetGo;

impl Play<Content, View> for LetGo {
    ghost then = { λ _ m _ n. lets_go m n };
}

/// A reservation is freed.
pub struct Free;

impl Play<Content, View> for Free {
    ghost then = { λ _ m _ n. frees m n };
}

/// An arrival is put in.
pub struct Arrive;

impl Play<Content, View> for Arrive {
    ghost then = { λ _ m _ n. arrives m n };
}

/// A time is drawn.
pub struct Draw;

impl Play<Content, View> for Draw {
    ghost then = { λ _. draws };
}

/// A time is stored.
pub struct Store;

impl Play<Content, View> for Store {
    ghost then = { λ _ m _ n. stores m n };
}

/// A line is ending.
pub struct Ending;

impl Play<Content, View> for Ending {
    ghost then = { λ st m _ n. ends st.first m n };
}

/// A line is ended.
pub struct Close;

impl Play<Content, View> for Close {
    ghost then = { λ st m _ n. closes st.word st.first m n };
}

/// A claim is given up.
pub struct Unclaim;

impl Play<Content, View> for Unclaim {
    ghost then = { λ _ m _ n. unclaims m n };
}

/// The issue turn is taken.
pub struct TakeIssueTurn;

impl Play<Content, View> for TakeIssueTurn {
    ghost then = { λ st. takes_issue_turn st.word };
}

/// The issue turn is given.
pub struct GiveIssueTurn;

impl Play<Content, View> for GiveIssueTurn {
    ghost then = { λ _ m _ n. gives_issue_turn m n };
}

/// A line is claimed to be issued.
pub struct BeginIssue;

impl Play<Content, View> for BeginIssue {
    ghost then = { λ st. begins_issue st.word };
}

/// A line is issued.
pub struct Issued;

impl Play<Content, View> for Issued {
    ghost then = { λ st m _ n. issues st.word m n };
}

/// Issuing a line is given up.
pub struct GiveUpIssue;

impl Play<Content, View> for GiveUpIssue {
    ghost then = { λ _ m _ n. gives_up_issue m n };
}

/// A seat is split.
pub struct Copies;

impl Split<View> for Copies {
    ghost left = { parent_of };

    ghost right = { child_of };
}

/// Two seats are joined.
pub struct Both;

impl Join<View> for Both {
    ghost both = { joined };

    ghost spent = { no_view };
}

/// The claim of a seat goes to one that is split off.
pub struct GiveClaim;

impl Split<View> for GiveClaim {
    ghost left = { without_claim };

    ghost right = { with_claim };
}

/// Two seats that are never there together are joined, which never happens.
pub struct ImpossibleJoin;

impl Join<View> for ImpossibleJoin {
    ghost both = { λ _ _. impossible_view };

    ghost spent = { no_view };
}

/// A step that no seat makes.
pub struct NoStep;

impl Play<Content, View> for NoStep {
    ghost then = { λ _ _ _ _. ⊥ };
}
