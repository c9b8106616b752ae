//! The hour that was read: its limits, and its bids.

ghost use Rattle.std.specs.Prelude.{◌≡◌, ◌≤◌, true, [], vec_len, IfOk, map, option_map};
ghost use Rattle.std.specs.List.{filter_map};
ghost use Rattle.console.specs.Sheets.{curve_of};
ghost use Rattle.market.specs.Prices.{lawful};

use crate::failure::Reason;
use market::{Limits, Refusal};
use merit::{BidCurve, Draft};
use std::alloc::{AllocError, Global};

/// The most curves that are read.
pub const MOST_CURVES: usize = 4096;

/// A bid, with its name. It stands with its curve, or that is refused.
// A curve has a place of its own, so that a bid that is refused takes no room for one.
#[derive(Drop)]
pub struct Entry {
    pub name: String,
    pub curve: Result<Box<BidCurve>, Refusal>,
}

impl Entry {
    /// The curve, where the bid stands.
    pub fn standing(&self) -> Option<&BidCurve>
        ensures { option_map (λ c. c.now) result ≡ curve_of self.now }
    {
        match &self.curve {
            Ok(curve) => Some(&**curve),
            Err(_) => None,
        }
    }
}

/// The limits of an hour, and its bids by rising line.
#[derive(Drop)]
pub struct Sheet {
    pub limits: Limits,
    pub entries: Vec<Entry>,
    ghost few: { vec_len entries ≤ 4096 },
    ghost are_lawful: { lawful limits ≡ true },
}

impl Sheet {
    /// An hour without bids.
    pub fn new(heap: Global, limits: Limits) -> Sheet
        requires { lawful limits ≡ true }
        ensures limits { result.limits ≡ limits }
        ensures entries { result.entries.items ≡ [] }
    {
        Sheet {
            limits,
            entries: Vec::new(heap),
        }
    }

    /// Adds the bid of a line: it stands if its curve is made, and is refused otherwise.
    pub fn add(&mut self, name: String, draft: &Draft) -> Result<(), Reason>
        ensures { self.new.limits ≡ self.old.limits }
    {
        if self.entries.len() >= MOST_CURVES {
            return Err(Reason::TooManyCurves);
        }
        let heap = *self.entries.allocator();
        let curve = match draft.make() {
            Ok(curve) => Ok(Box::new(heap, curve)?),
            Err(refusal) => Err(refusal),
        };
        self.entries.push(Entry { name, curve })?;
        Ok(())
    }

    /// The curves of the bids that stand, in their order.
    pub fn curves(&self, heap: Global) -> Result<Vec<BidCurve>, AllocError>
        ensures standing { IfOk result (λ curves. curves.items ≡ filter_map curve_of self.now.entries.items) }
        ensures few { IfOk result (λ curves. vec_len curves ≤ 4096) }
    {
        self.entries
            .iter()
            .filter_map(|entry| entry.standing().copied())
            .collect(heap)
    }

    /// The same curves, lent as they lie: a copy of each would take their room once more.
    pub fn lent_curves(&self, heap: Global) -> Result<Vec<&BidCurve>, AllocError>
        ensures standing { IfOk result (λ curves. map (λ c. c.now) curves.items ≡ filter_map curve_of self.now.entries.items) }
        ensures few { IfOk result (λ curves. vec_len curves ≤ 4096) }
    {
        self.entries
            .iter()
            .filter_map(|entry| entry.standing())
            .collect(heap)
    }
}
