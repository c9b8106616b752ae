//! The states of a day. What a state does not allow has no method.

ghost use Rattle.std.specs.Prelude.{◌≡◌};
ghost use Rattle.day.specs.States.{counts_of, limits_of};

use market::Limits;
use register::Counts;
use std::marker::PhantomData;

/// A day that takes and gives back bids.
#[derive(Drop)]
pub struct OpenDay<C> {
    pub(crate) limits: Limits,
    pub(crate) counts: Counts,
    pub(crate) curve: PhantomData<C>,
}

/// A day that takes no more bids.
// Its fields are those of an open day: a state is a type of its own, so that a closed day has no call that takes a bid.
#[derive(Drop)]
pub struct ClosedDay<C> {
    pub(crate) limits: Limits,
    pub(crate) counts: Counts,
    pub(crate) curve: PhantomData<C>,
}

/// A day in any state.
#[derive(Drop)]
pub enum Day<C> {
    Open(OpenDay<C>),
    Closed(ClosedDay<C>),
}

impl<C> Day<C> {
    /// The limits of the day.
    pub fn limits(&self) -> Limits
        ensures { result ≡ limits_of self.now }
    {
        match self {
            Day::Open(day) => day.limits,
            Day::Closed(day) => day.limits,
        }
    }

    /// How many bids stand in each register.
    pub fn counts(&self) -> Counts
        ensures { result ≡ counts_of self.now }
    {
        match self {
            Day::Open(day) => day.counts,
            Day::Closed(day) => day.counts,
        }
    }
}
