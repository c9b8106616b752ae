//! The families of blocks: a block without parent and everything below it.

ghost use Rattle.std.specs.Prelude.{◌≡◌, ◌+◌, true};
ghost use Rattle.register.specs.Ancestors.{NoOwnAncestor};
ghost use Rattle.register.specs.Families.{rank as rank_in, is_rank, parent_kept, families_kept, may_join, level_count as on_level_of, child_stands as has_child_in};

use crate::ordered::Register;
use bids::BlockBid;
use bids::quantities::are_one_side;

/// The most blocks on a lower level of a family.
pub const MOST_ON_LEVEL: u8 = 3;

/// The most blocks of a family below its head.
pub const MOST_BELOW: u8 = 5;

/// The lowest level of a family.
pub const LOWEST_LEVEL: u8 = 2;

/// Where a block stands in its family: its level, 0 for the head, and the number of the head.
#[derive(Clone, Copy)]
pub struct Rank {
    pub level: u8,
    pub head: u16,
}

impl<'a> Register<'a, BlockBid> {
    /// Where a block stands in its family, if it is on one of three levels.
    pub fn rank_of(&self, block: &BlockBid) -> Option<Rank>
        ensures { result ≡ rank_in self.now.bids.now block.now }
    {
        let mut at = *block;
        for level in 0..LOWEST_LEVEL {
            let Some(parent) = at.parent else {
                return Some(Rank {
                    level,
                    head: at.number,
                });
            };
            match self.find(parent) {
                Ok(place) => at = self.bids[place],
                Err(_) => return None,
            }
        }
        // A block that names a parent here too is on no level, whether that stands or not.
        match at.parent {
            Some(_) => None,
            None => Some(Rank {
                level: LOWEST_LEVEL,
                head: at.number,
            }),
        }
    }

    /// Whether the parent of a block, where it names one, stands and may be its parent.
    pub fn is_parent_kept(&self, block: &BlockBid) -> bool
        ensures { result ≡ parent_kept self.now.bids.now block.now }
    {
        let Some(number) = block.parent else {
            return true;
        };
        match self.find(number) {
            Ok(place) => {
                let parent = self.bids[place];
                parent.participant == block.participant
                    && are_one_side(parent.quantities[0], block.quantities[0])
            }
            Err(_) => false,
        }
    }

    /// Whether each parent stands and may be one, and each block is in a family that keeps its limits.
    pub fn are_families_kept(&self) -> bool
        ensures value { result ≡ families_kept self.now.bids.now }
        ensures ancestors { result ≡ true → NoOwnAncestor self.now.bids.now }
    {
        // A register without blocks is not to pay for the counts.
        if self.bids.is_empty() {
            return true;
        }
        // The counts lie in an array of fixed size, two for each number of a head, since a library here has no heap.
        let mut counts = [0u8; 131_072];
        for block in self.bids {
            if !self.is_parent_kept(block) {
                return false;
            }
            let Some(rank) = self.rank_of(block) else {
                return false;
            };
            if rank.level > 0 {
                let first = 2 * rank.head as usize;
                let place = first + rank.level as usize - 1;
                if counts[place] >= MOST_ON_LEVEL
                    || counts[first] + counts[first + 1] >= MOST_BELOW
                {
                    return false;
                }
                counts[place] += 1;
            }
        }
        true
    }

    /// How many blocks are on a level below a head.
    pub fn on_level(&self, level: u8, head: u16) -> usize
        ensures { result ≡ on_level_of self.now.bids.now level head self.now.bids.now }
    {
        self.bids
            .iter()
            .filter(|block| self.is_at(block, level, head))
            .count()
    }

    /// Whether a block is on a level below a head.
    fn is_at(&self, block: &BlockBid, level: u8, head: u16) -> bool
        ensures { result ≡ is_rank level head (rank_in self.now.bids.now block.now) }
    {
        self.rank_of(block)
            .is_some_and(|rank| rank.level == level && rank.head == head)
    }

    /// Whether a block may join the family of its parent.
    pub fn is_joining(&self, block: &BlockBid) -> bool
        ensures { result ≡ may_join self.now.bids.now block.now }
    {
        let Some(rank) = self.rank_of(block) else {
            return false;
        };
        if rank.level == 0 {
            return true;
        }
        let children = self.on_level(1, rank.head);
        let grandchildren = self.on_level(2, rank.head);
        let here = if rank.level == 1 {
            children
        } else {
            grandchildren
        };
        here < MOST_ON_LEVEL as usize
            && children.saturating_add(grandchildren) < MOST_BELOW as usize
    }
}

/// Whether a child of a block stands.
pub fn has_child(blocks: &[BlockBid], number: u16) -> bool
    ensures { result ≡ has_child_in number blocks.now }
{
    blocks.iter().any(|block| block.parent == Some(number))
}
