//! The report on an hour.

use crate::failure::Failure;
use crate::input::read_text;
use crate::reading::read;
use crate::sheet::{Entry, Sheet};
use crate::words::Told;
use curve::{LotRange, PriceCurve, ValuedCurve, margin, offered_range, surplus};
use market::{Limits, Refusal};
use merit::{BidCurve, Hour, traded};
use std::{fmt, iter};

/// The most prices that the table of totals shows.
const MOST_ROWS: usize = 40;

/// Prints the report on the hour in a file, or on standard input where none is named.
pub fn merit(rt: &HostRuntime, file: Option<String>) -> Result<(), Failure> {
    let text = read_text(rt, file)?;
    let sheet = read(rt.alloc(), text.as_str())?;
    print::<Told>(rt, &sheet)
}

/// Prints the whole report, with refusals in the words of `T`.
pub fn print<'a, T: From<Refusal> + fmt::Display + Drop>(
    rt: &'a HostRuntime,
    sheet: &'a Sheet,
) -> Result<(), Failure> {
    let Limits { lowest, highest } = sheet.limits;
    println!(rt; "Limits: {lowest} to {highest} kuruş per MWh")?;
    println!(rt; "")?;
    if sheet.entries.is_empty() {
        println!(rt; "There are no curves.")?;
        return Ok(());
    }
    let curves = sheet.lent_curves(rt.alloc())?;
    let report = Report {
        rt,
        entries: sheet.entries.as_slice(),
        hour: Hour {
            curves: curves.as_slice(),
            limits: sheet.limits,
        },
        width: name_width(sheet.entries.as_slice()),
    };
    report.print_bids::<T>()?;
    println!(rt; "")?;
    if curves.is_empty() {
        println!(rt; "No curve stands.")?;
        return Ok(());
    }
    report.print_totals()?;
    println!(rt; "")?;
    match report.hour.balancing_price() {
        Some(price) => report.print_matches(price),
        None => {
            println!(rt; "There is no price within the limits at which the hour balances.")?;
            Ok(())
        }
    }
}

/// How many characters the longest name has, and the heading of the names.
fn name_width(entries: &[Entry]) -> usize {
    let lengths = entries
        .iter()
        .map(|entry| entry.name.as_str().chars().count());
    lengths.fold(4, usize::max)
}

/// What is printed of an hour, and where: its bids, the curves of those that stand, and the width of the names.
#[derive(Drop)]
struct Report<'a, 'b> {
    rt: &'a HostRuntime,
    entries: &'a [Entry],
    hour: Hour<'b, &'a BidCurve>,
    width: usize,
}

impl Report<'_, '_> {
    /// Prints each bid with its reach and the matches that it offers, or with its refusal.
    fn print_bids<T: From<Refusal> + fmt::Display + Drop>(&self) -> Result<(), Failure> {
        let rt = self.rt;
        let width = self.width;
        println!(rt; "Bids, in lots of 0.1 MWh: above 0 bought, below 0 sold")?;
        println!(rt;
            "{:<width$}  {:>9}  {:>9}    {:>9}",
            "name", "reach", "least", "most"
        )?;
        for Entry { name, curve } in self.entries {
            match curve {
                Ok(curve) => {
                    let reach = curve.reach();
                    let LotRange { least, most } = offered_range(&**curve, self.hour.limits);
                    println!(rt; "{name:<width$}  {reach:>9}  {least:>9} .. {most:>9}")?;
                }
                Err(refusal) => println!(rt; "{name:<width$}  refused {}", T::from(*refusal))?,
            }
        }
        Ok(())
    }

    /// Prints the totals at each price from which others hold, up to so many prices.
    fn print_totals(&self) -> Result<(), Failure> {
        let rt = self.rt;
        let Limits { lowest, highest } = self.hour.limits;
        println!(rt; "Totals, in lots of 0.1 MWh, from each price on, in kuruş per MWh")?;
        println!(rt; "{:>10}  {:>12}  {:>12}", "price", "bought", "sold")?;
        let mut prices = iter::successors(Some(lowest), |price| self.hour.next_change(*price));
        for price in prices.by_ref().take(MOST_ROWS) {
            let here = self.hour.totals_at(price);
            println!(rt; "{price:>10}  {:>12}  {:>12}", here.bought, here.sold)?;
        }
        if prices.next().is_some() {
            let there = self.hour.totals_at(highest);
            println!(rt;
                "There are more such prices up to {highest}, at which {} are bought and {} sold.",
                there.bought, there.sold
            )?;
        }
        Ok(())
    }

    /// Prints the balancing price, and for each bid that stands its margin, its match and its surplus there.
    fn print_matches(&self, price: u32) -> Result<(), Failure> {
        let rt = self.rt;
        let width = self.width;
        let limits = self.hour.limits;
        let matched = self.hour.matches(rt.alloc(), price)?;
        println!(rt; "The hour balances at {price} kuruş per MWh, and at no lower price.")?;
        println!(rt;
            "Margins and matches there in lots of 0.1 MWh, the surplus in tenths of a kuruş"
        )?;
        println!(rt;
            "{:<width$}  {:>9}    {:>9}  {:>9}  {:>16}",
            "name", "least", "most", "match", "surplus"
        )?;
        // Three lists side by side, since an hour is asked of its curves as one slice, and answers with its matches as one.
        let standing = self.entries.iter().filter(|entry| entry.curve.is_ok());
        for ((entry, curve), lots) in standing.zip(self.hour.curves).zip(matched.iter()) {
            let name = entry.name.as_str();
            let LotRange { least, most } = margin(*curve, limits, price);
            let left = surplus(*curve, limits, price, *lots);
            println!(rt; "{name:<width$}  {least:>9} .. {most:>9}  {lots:>9}  {left:>16}")?;
        }
        let gained = self.hour.total_gain(matched.as_slice());
        let lots = traded(matched.as_slice());
        println!(rt;
            "Gain of the hour: {gained} tenths of a kuruş; bought {} lots, sold {} lots.",
            lots.bought, lots.sold
        )?;
        Ok(())
    }
}
