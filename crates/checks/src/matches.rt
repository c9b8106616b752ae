//! Worth, margins, gain and surplus of a buyer and a seller that clear at price 6.

use curve::{LotRange, ValuedCurve, gain, margin, offered_range, surplus};
use levels::{Level, Stepped};
use market::{Limits, Refusal, Side};
use std::test::Fail;

const LIMITS: Limits = Limits {
    lowest: 0,
    highest: 10,
};

fn buyer() -> Result<Stepped, Refusal> {
    Stepped::new(&[
        Level {
            price: 0,
            quantity: 10,
        },
        Level {
            price: 7,
            quantity: 4,
        },
    ])
}

fn seller() -> Result<Stepped, Refusal> {
    Stepped::new(&[
        Level {
            price: 0,
            quantity: 0,
        },
        Level {
            price: 5,
            quantity: -8,
        },
    ])
}

#[test]
fn lots_are_worth_the_best_price_within_the_limits(rt: HostRuntime) -> Result<(), Fail> {
    let buyer = buyer()?;
    assert_eq!(rt; buyer.worth(LIMITS, Side::Buying, 0), None);
    assert_eq!(rt; buyer.worth(LIMITS, Side::Buying, 4), Some(10));
    assert_eq!(rt; buyer.worth(LIMITS, Side::Buying, 5), Some(6));
    assert_eq!(rt; buyer.worth(LIMITS, Side::Buying, 11), None);
    let seller = seller()?;
    assert_eq!(rt; seller.worth(LIMITS, Side::Selling, 8), Some(5));
    assert_eq!(rt; seller.worth(LIMITS, Side::Selling, 9), None);
    let unlawful = Limits {
        lowest: 10,
        highest: 10,
    };
    assert_eq!(rt; seller.worth(unlawful, Side::Selling, 1), None);
    Ok(())
}

#[test]
fn margins_at_six_hold_the_matches_and_at_five_do_not(rt: HostRuntime) -> Result<(), Fail> {
    let buyer = buyer()?;
    assert_eq!(rt;
        offered_range(&buyer, LIMITS),
        LotRange { least: 0, most: 10 }
    );
    assert_eq!(rt; margin(&buyer, LIMITS, 6), LotRange { least: 4, most: 10 });
    assert_eq!(rt;
        margin(&seller()?, LIMITS, 6),
        LotRange {
            least: -8,
            most: -8,
        }
    );
    assert_eq!(rt;
        margin(&buyer, LIMITS, 5),
        LotRange {
            least: 10,
            most: 10,
        }
    );
    assert!(rt; !margin(&buyer, LIMITS, 5).contains(8));
    Ok(())
}

#[test]
fn gain_and_surplus_are_24(rt: HostRuntime) -> Result<(), Fail> {
    let buyer = buyer()?;
    let seller = seller()?;
    assert_eq!(rt; gain(&buyer, LIMITS, 8), 64);
    assert_eq!(rt; gain(&seller, LIMITS, -8), -40);
    assert_eq!(rt; surplus(&buyer, LIMITS, 6, 8), 16);
    assert_eq!(rt; surplus(&seller, LIMITS, 6, -8), 8);
    Ok(())
}
