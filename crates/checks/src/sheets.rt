//! The curves of an hour that was read.

use console::sheet::Sheet;
use curve::PriceCurve;
use market::Limits;
use merit::{Draft, Part};
use std::test::Fail;

/// A flat curve, as it is written.
fn flat(quantity: i32) -> Draft {
    Draft {
        first: Part::Flat(quantity),
        second: Part::Flat(0),
        bought: 10,
        sold: 10,
    }
}

#[test]
fn the_curves_of_an_hour_are_those_of_the_bids_that_stand(rt: HostRuntime) -> Result<(), Fail> {
    let heap = rt.alloc();
    let mut sheet = Sheet::new(heap, Limits::new(0, 10)?);
    for quantity in [5, 200_000, -7] {
        let name = String::from_str(heap, "bid")?;
        sheet
            .add(name, &flat(quantity))
            .map_err(|_| Fail::new("not added"))?;
    }
    let curves = sheet.curves(heap)?;
    assert_eq!(rt; curves.len(), 2);
    assert_eq!(rt; curves.get(1).map(|curve| curve.quantity(0)), Some(-7));
    let lent = sheet.lent_curves(heap)?;
    assert_eq!(rt; lent.len(), 2);
    assert_eq!(rt; lent.get(1).map(|curve| curve.quantity(0)), Some(-7));
    Ok(())
}
