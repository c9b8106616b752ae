//! The form of a block, and the starts of a flexible bid.

use bids::{BlockBid, FlexibleBid, Profile};
use market::Refusal;

/// A block with these quantities in its three hours.
fn block(first: i32, second: i32, third: i32) -> BlockBid {
    let mut quantities = [0; 24];
    quantities[0] = first;
    quantities[1] = second;
    quantities[2] = third;
    BlockBid {
        number: 1,
        participant: 1,
        price: 100,
        first: 0,
        hours: 3,
        parent: None,
        quantities,
    }
}

/// The number and place of a refusal, or nothing where the form is kept.
fn refused(form: Result<(), Refusal>) -> Option<(u8, u32)> {
    form.err()
        .map(|refusal| (refusal.rule.number(), refusal.place))
}

#[test]
fn an_hour_of_a_block_is_within_three_times_the_hour_before(rt: HostRuntime) {
    assert_eq!(rt; refused(block(300, 900, 300).check_form()), None);
    assert_eq!(rt; refused(block(300, 901, 901).check_form()), Some((3, 1)));
    assert_eq!(rt; refused(block(901, 300, 300).check_form()), Some((3, 1)));
}

#[test]
fn a_flexible_bid_starts_where_it_stays_within_its_window(rt: HostRuntime) {
    let bid = FlexibleBid {
        number: 1,
        participant: 1,
        price: 100,
        start: 8,
        length: 8,
        duration: 3,
        quantities: [5, 5, 5, 0],
    };
    assert!(rt; bid.allows(13));
    assert!(rt; !bid.allows(14));
    assert_eq!(rt; bid.starts(), 6);
}
