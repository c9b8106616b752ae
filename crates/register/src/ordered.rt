//! One ordered register for every kind of bid.

ghost use Rattle.std.specs.Prelude.{◌≡◌, ◌+◌, ◌-◌, ◌<◌, ◌≤◌, true, ◌++◌, length, take, drop, is_some, IfSome};
ghost use Rattle.std.specs.List.{insert, remove};
ghost use Rattle.register.specs.Order.{known, tally, ordered, rising, Placed};

use bids::Bid;

/// The highest number of a bid.
pub const HIGHEST_NUMBER: u16 = 60_000;

/// The highest number of a participant.
pub const HIGHEST_PARTICIPANT: u16 = 999;

/// Bids of one kind whose numbers rise, as they are lent.
#[derive(Drop)]
pub struct Register<'a, B: Bid> {
    pub bids: &'a [B],
    ghost rises: { rising B.Bid.kind 0 bids.now ≡ true },
}

impl<'a, B: Bid> Register<'a, B> {
    /// The bids as a register, if they stand in order.
    pub fn of(bids: &'a [B]) -> Option<Register<'a, B>>
        ensures when { is_some result ≡ ordered B.Bid.kind bids.now }
        ensures bids { IfSome result (λ r. r.bids.now ≡ bids.now) }
    {
        if is_ordered(bids) {
            Some(Register { bids })
        } else {
            None
        }
    }

    /// The place of a number: where it stands, or else where it would.
    pub fn find(&self, number: u16) -> Result<usize, usize>
        ensures { Placed B.Bid.kind number self.now.bids.now result }
    {
        // The library's search (`binary_search_by_key`) goes on to the end where this one has found the number.
        let mut low = 0;
        let mut high = self.bids.len();
        while low < high {
            let middle = low + (high - low) / 2;
            let here = self.bids[middle].number();
            if here == number {
                return Ok(middle);
            }
            if here < number {
                low = middle + 1;
            } else {
                high = middle;
            }
        }
        Err(low)
    }
}

/// Whether the number and the participant of a bid are such as a register may hold.
pub fn is_known<B: Bid>(bid: &B) -> bool
    ensures { result ≡ known B.Bid.kind bid.now }
{
    let number = bid.number();
    let participant = bid.participant();
    0 < number && number <= HIGHEST_NUMBER && 0 < participant && participant <= HIGHEST_PARTICIPANT
}

/// Whether bids stand in order: their numbers rise, each is known, and no participant has more than it may have.
pub fn is_ordered<B: Bid>(bids: &[B]) -> bool
    ensures { result ≡ ordered B.Bid.kind bids.now }
{
    // The counts lie in an array of fixed size, one for each participant, since a library here has no heap.
    let mut counts = [0usize; 1_000];
    let mut last = 0;
    for bid in bids {
        let number = bid.number();
        if number <= last || !is_known(bid) {
            return false;
        }
        let participant = bid.participant() as usize;
        let count = counts[participant];
        if count >= B::MOST_STANDING {
            return false;
        }
        counts[participant] = count + 1;
        last = number;
    }
    true
}

/// How many bids of a participant stand.
pub fn standing<B: Bid>(bids: &[B], participant: u16) -> usize
    ensures { result ≡ tally B.Bid.kind participant bids.now }
{
    bids.iter()
        .map(|bid| usize::from(bid.participant() == participant))
        .sum()
}

/// Puts a bid at a place among the first bids of a table; those from there on move up by one.
pub fn insert<B: Copy>(table: &mut [B], count: usize, place: usize, bid: B)
    requires place { place ≤ count }
    requires room { count < length table.old }
    ensures { table.new ≡ insert (take count table.old) place bid ++ drop (count + 1) table.old }
{
    table.copy_within(place..count, place + 1);
    table[place] = bid;
}

/// Takes the bid at a place out of the first bids of a table; those after it move down by one.
pub fn remove<B: Copy>(table: &mut [B], count: usize, place: usize)
    requires stands { place < count }
    requires within { count ≤ length table.old }
    ensures front { take (count - 1) table.new ≡ remove (take count table.old) place }
    ensures rest { drop count table.new ≡ drop count table.old }
{
    table.copy_within(place + 1..count, place);
}
