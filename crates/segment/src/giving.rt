ghost use Rattle.segment.specs.Ends.{GivesUp};
ghost use Rattle.segment.specs.Found.{GivingFinds};

use crate::owner::{Lock, OwnerSide, Phase};
use block_pool::Block;

/// What is left of a segment that its owner gives up.
#[derive(Drop)]
pub enum GiveUp {
    /// The block, with the bytes that its owner left.
    Whole(Block),
    /// The segment was purged, so that there is no block.
    Gone(OwnerSide),
}

impl OwnerSide {
    /// Gives the segment up. From Held its block comes back, with no step. From Idle one lock step
    /// is made: the block comes back, or the side is gone exactly where that step found it purged.
    /// From Gone no step is made.
    pub fn give_up(mut self) -> GiveUp
        ensures after { GivesUp self.phase self result }
        ensures found { GivingFinds self.phase self result }
    {
        match self.phase() {
            Phase::Held => GiveUp::Whole(self.into_block()),
            Phase::Gone => GiveUp::Gone(self),
            Phase::Idle => match self.lock() {
                Lock::Held => GiveUp::Whole(self.into_block()),
                Lock::Gone => GiveUp::Gone(self),
            },
        }
    }
}
