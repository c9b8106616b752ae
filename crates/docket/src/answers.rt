//! What the calls of a script are answered.

ghost use Rattle.std.specs.Prelude.{◌≡◌};
ghost use Rattle.docket.specs.Answers.{told};

use console::Told;
use market::Refusal;
use thiserror::Error;

/// Why a call was not made.
#[derive(Clone, Copy, Debug, Error)]
pub enum Hindrance {
    /// No day was opened yet.
    #[error("no day was opened")]
    NoDay,
    /// The day takes bids, and no proposal.
    #[error("the day is open, and is to be closed first")]
    DayOpen,
    /// The day takes no more bids.
    #[error("the day is closed")]
    DayClosed,
    /// The day is not cleared, so it has no settlement lines.
    #[error("the day is not cleared")]
    NotCleared,
    /// Proposals are not judged yet.
    #[error("this program does not judge proposals yet")]
    NotJudged,
}

/// Why a call did not succeed.
#[derive(Clone, Copy, Debug, Error)]
pub enum Denial {
    /// It was made and refused.
    #[error("refused {}", Told(*.0))]
    Refused(Refusal),
    /// It was not made.
    #[error("not allowed: {0}")]
    NotAllowed(Hindrance),
}

/// What a call is answered.
pub type Answer = Result<(), Denial>;

/// The answer to a call that a day was given.
pub fn answer_to(outcome: Option<Result<(), Refusal>>) -> Answer
    ensures { result ≡ told outcome }
{
    match outcome {
        Some(answer) => answer.map_err(Denial::Refused),
        None => Err(Denial::NotAllowed(Hindrance::DayClosed)),
    }
}
