//! Quantities, makers and reaches.

use curve::PriceCurve;
use levels::{Flat, Level, Linear, Stepped};
use market::{Refusal, Rule};
use piles::{Cap, Sum};
use std::test::Fail;

fn level(price: u32, quantity: i32) -> Level {
    Level { price, quantity }
}

/// The number and place of a refusal, or nothing where something was made.
fn refused<T: Drop>(made: Result<T, Refusal>) -> Option<(u8, u32)> {
    made.err()
        .map(|refusal| (refusal.rule.number(), refusal.place))
}

#[test]
fn a_line_is_rounded_to_the_nearest_lot_halves_upward(rt: HostRuntime) -> Result<(), Fail> {
    let line = Linear::new(&[level(10_000, 0), level(20_000, -100)])?;
    assert_eq!(rt; line.quantity(15_000), -50);
    assert_eq!(rt; line.quantity(15_050), -50);
    assert_eq!(rt; line.quantity(15_051), -51);
    assert_eq!(rt; line.quantity(0), 0);
    assert_eq!(rt; line.quantity(4_294_967_295), -100);
    assert_eq!(rt; line.reach(), 100);
    Ok(())
}

#[test]
fn a_line_from_buying_to_selling_rounds_upward_on_both_sides(rt: HostRuntime) -> Result<(), Fail> {
    let line = Linear::new(&[level(0, 1), level(4, -1)])?;
    assert_eq!(rt; line.quantity(1), 1);
    assert_eq!(rt; line.quantity(2), 0);
    assert_eq!(rt; line.quantity(3), 0);
    assert_eq!(rt; line.quantity(4), -1);
    Ok(())
}

#[test]
fn the_five_level_sale(rt: HostRuntime) -> Result<(), Fail> {
    let sale = Linear::new(&[
        level(0, 0),
        level(150, -100),
        level(200, -160),
        level(300, -200),
        level(2000, -200),
    ])?;
    assert_eq!(rt; sale.quantity(75), -50);
    assert_eq!(rt; sale.quantity(175), -130);
    assert_eq!(rt; sale.quantity(250), -180);
    assert_eq!(rt; sale.quantity(5_000), -200);
    Ok(())
}

#[test]
fn steps_hold_up_to_the_next_level(rt: HostRuntime) -> Result<(), Fail> {
    let steps = Stepped::new(&[level(5, 10), level(7, 4)])?;
    assert_eq!(rt; steps.quantity(0), 10);
    assert_eq!(rt; steps.quantity(6), 10);
    assert_eq!(rt; steps.quantity(7), 4);
    assert_eq!(rt; steps.quantity(10_000_000), 4);
    Ok(())
}

#[test]
fn makers_refuse_at_the_first_bad_level(rt: HostRuntime) {
    assert_eq!(rt; refused(Linear::new(&[])), Some((3, 99)));
    assert_eq!(rt; refused(Linear::new(&[level(0, 0); 65])), Some((3, 99)));
    assert_eq!(rt;
        refused(Linear::new(&[level(5, 3), level(5, 2)])),
        Some((3, 1))
    );
    assert_eq!(rt;
        refused(Stepped::new(&[level(5, 3), level(6, 4), level(6, 1)])),
        Some((3, 1))
    );
    assert_eq!(rt;
        refused(Stepped::new(&[level(10_000_001, 0)])),
        Some((3, 0))
    );
    assert_eq!(rt;
        refused(Stepped::new(&[level(0, 100_000), level(1, -100_001)])),
        Some((3, 1))
    );
    assert_eq!(rt; refused(Flat::new(100_001)), Some((3, 0)));
    assert_eq!(rt; refused(Flat::new(-100_000)), None);
}

#[test]
fn caps_cut_both_sides_and_sums_add(rt: HostRuntime) -> Result<(), Fail> {
    let steps = Stepped::new(&[level(0, 10), level(7, -20)])?;
    let capped = Cap::new(steps, 4, 5);
    assert_eq!(rt; capped.quantity(0), 4);
    assert_eq!(rt; capped.quantity(7), -5);
    assert_eq!(rt; capped.reach(), 5);
    let both = Sum::new(capped, Flat::new(3)?)?;
    assert_eq!(rt; both.quantity(0), 7);
    assert_eq!(rt; both.quantity(7), -2);
    assert_eq!(rt; both.reach(), 8);
    Ok(())
}
