//! How long curves take to answer.

use crate::failure::Failure;
use curve::{PriceCurve, ValuedCurve, gain};
use levels::{Level, LevelCurve, Linear, Stepped};
use market::{Limits, Refusal};
use merit::BidCurve;
use piles::{Cap, Sum};
use std::time::Instant;

/// How many quantities are asked for.
const QUESTIONS: u32 = 300_000;

/// The price between two levels of the curves.
const STRIDE: u32 = 1000;

/// The lots between two levels of the curves.
const DROP: i32 = 1562;

/// Two stepped curves as one.
type Two = Sum<Stepped, Stepped>;

/// Four stepped curves as one.
type Four = Sum<Two, Two>;

/// Eight stepped curves as one.
type Eight = Sum<Four, Four>;

/// Measures every kind of question, and prints a line for each.
pub fn measure(rt: &HostRuntime) -> Result<(), Failure> {
    let levels = falling_levels();
    let linear = Linear::new(&levels)?;
    let stepped = Stepped::new(&levels)?;
    let two = Sum::new(stepped, stepped)?;
    let capped = Cap::new(two, 200_000, 200_000);
    let four = Sum::new(two, two)?;
    let eight = Sum::new(four, four)?;
    println!(rt;
        "{:<58}  {:>14}  {:>20}",
        "question", "nanoseconds", "checksum"
    )?;
    measure_quantity(rt, "quantity of 64 levels, linear", &linear)?;
    measure_quantity(rt, "quantity of 64 levels, stepped", &stepped)?;
    measure_quantity(
        rt,
        "quantity of a cap over 2 times 64 levels, stepped",
        &capped,
    )?;
    measure_gain(
        rt,
        "gain of 100,000 lots on 64 levels, linear",
        &linear,
        100_000,
        4,
    )?;
    measure_gain(
        rt,
        "gain of 100,000 lots on 64 levels, stepped",
        &stepped,
        100_000,
        400,
    )?;
    measure_gain(
        rt,
        "gain of 200,000 lots on a cap over 2 times 64 levels",
        &capped,
        200_000,
        200,
    )?;
    measure_gain(
        rt,
        "gain of 800,000 lots on the sum of 8 times 64 levels",
        &eight,
        800_000,
        50,
    )
}

/// The curve of a bid that has as many levels as one can have.
pub fn falling_curve() -> Result<BidCurve, Refusal> {
    let stepped = LevelCurve::Stepped(Stepped::new(&falling_levels())?);
    Ok(Cap::new(Sum::new(stepped, stepped)?, 200_000, 200_000))
}

/// Levels from 100,000 lots bought at 0 kuruş per MWh, 1,562 fewer at each next price.
fn falling_levels() -> [Level; 64] {
    let mut levels = [Level {
        price: 0,
        quantity: 0,
    }; 64];
    let mut price = 0;
    let mut quantity = 100_000;
    for level in levels.iter_mut() {
        *level = Level { price, quantity };
        price = STRIDE.wrapping_add(price);
        quantity = DROP.wrapping_neg().wrapping_add(quantity);
    }
    levels
}

/// Prints how long a curve takes to answer for a quantity, at prices all over its levels.
fn measure_quantity<C: PriceCurve>(
    rt: &HostRuntime,
    label: &str,
    curve: &C,
) -> Result<(), Failure> {
    measure_each(rt, label, QUESTIONS, |question| {
        curve.quantity(question.wrapping_mul(7919) % 65_000) as i64
    })
}

/// Prints how long a curve takes to answer for the gain of a match, under ever other limits.
fn measure_gain<C: ValuedCurve>(
    rt: &HostRuntime,
    label: &str,
    curve: &C,
    matched: i32,
    questions: u32,
) -> Result<(), Failure> {
    measure_each(rt, label, questions, |question| {
        let limits = Limits {
            lowest: 0,
            highest: question % 1000 + 100_000,
        };
        gain(curve, limits, matched)
    })
}

/// Prints how long each of so many questions takes to be answered.
fn measure_each<F: Fn(u32) -> i64>(
    rt: &HostRuntime,
    label: &str,
    questions: u32,
    answer: F,
) -> Result<(), Failure>
    requires { F.IsAlwaysCallable answer }
{
    let start = Instant::now(rt)?;
    let checksum = (0..questions).fold(0, |sum: i64, question| sum.wrapping_add(answer(question)));
    let spent = start.elapsed(rt)?.as_nanos();
    let each = spent / questions.max(1) as u128;
    println!(rt; "{label:<58}  {each:>14}  {checksum:>20}")?;
    Ok(())
}
