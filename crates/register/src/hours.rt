//! The hours of hourly bids.

ghost use Rattle.std.specs.Prelude.{◌≡◌, true};
ghost use Rattle.bids.specs.Registers.{hourly};
ghost use Rattle.register.specs.Order.{each, known};
ghost use Rattle.register.specs.Hours.{hour_taken, hours_kept};

use bids::HourlyBid;

/// The last hour of a day.
pub const LAST_HOUR: u8 = 23;

/// Whether each hour is one of the day, and no participant has two bids in one.
pub fn are_hours_kept<C>(bids: &[HourlyBid<C>]) -> bool
    requires { each (known hourly) bids.now ≡ true }
    ensures { result ≡ hours_kept bids.now }
{
    // The hours lie in an array of fixed size, 24 for each participant, since a library here has no heap.
    let mut taken = [false; 24_000];
    for bid in bids {
        if bid.hour > LAST_HOUR {
            return false;
        }
        let place = bid.participant as usize * 24 + bid.hour as usize;
        if taken[place] {
            return false;
        }
        taken[place] = true;
    }
    true
}

/// Whether a participant has a bid in an hour.
pub fn is_hour_taken<C>(bids: &[HourlyBid<C>], participant: u16, hour: u8) -> bool
    ensures { result ≡ hour_taken participant hour bids.now }
{
    bids.iter()
        .any(|bid| bid.participant == participant && bid.hour == hour)
}
