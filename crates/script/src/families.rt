//! The families of the blocks that stand.

use bids::BlockBid;
use std::alloc::{AllocError, Global};

/// A block without parent, by its number, and the numbers of the blocks on the two levels below it.
#[derive(Drop)]
pub struct Family {
    pub head: u16,
    pub children: Vec<u16>,
    pub grandchildren: Vec<u16>,
}

impl Family {
    /// The family of a head among blocks.
    pub fn of(heap: Global, blocks: &[BlockBid], head: u16) -> Result<Family, AllocError> {
        let children = children_of(heap, blocks, &[head])?;
        let grandchildren = children_of(heap, blocks, children.as_slice())?;
        Ok(Family {
            head,
            children,
            grandchildren,
        })
    }
}

/// The numbers of the blocks whose parent is among parents.
fn children_of(heap: Global, blocks: &[BlockBid], parents: &[u16]) -> Result<Vec<u16>, AllocError> {
    blocks
        .iter()
        .filter(|block| block.parent.is_some_and(|parent| parents.contains(&parent)))
        .map(|block| block.number)
        .collect(heap)
}
