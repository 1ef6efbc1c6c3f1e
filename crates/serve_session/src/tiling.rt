ghost use Rattle.std.specs.Prelude.{◌≡◌, ◌≤◌, IfOk};
ghost use Rattle.tile_source.specs.Pgm.{head};
ghost use Rattle.serve_texts.specs.Config.{IsSide};
ghost use Rattle.serve_session.specs.declared.tiling.TheConstants.{MOST_REPLY};
ghost use Rattle.serve_session.specs.Tiling.{Makes, HoldReplies};

use std::alloc::Global;
use std::marker::Model;
use tile_source::{Image, ImageMaker, pgm_head};
use units::NoMemory;

/// How many bytes a reply has at most: a head of 15, and a tile of 256 by 256.
pub const MOST_REPLY: u32 = 65_551;

/// What the replies of a run are made of: an image, the side of its tiles, and the head that stands
/// before each tile. Contracts see the image and the side.
#[derive(Drop)]
pub struct Tiling<'a> {
    image: &'a Image,
    side: u32,
    head_bytes: Vec<u8>,
}

impl<'a> Model for Tiling<'a> {
    ghost use Rattle.std.specs.Prelude.{◌≡◌, ◌≤◌};
    ghost use Rattle.tile_source.specs.Pgm.{head};
    ghost use Rattle.tile_source.specs.declared.limits.TheConstants.{MOST_MAXVAL};
    ghost use Rattle.serve_texts.specs.Config.{IsSide};
    ghost use Rattle.serve_session.specs.Tiling.{TilingValue};

    ghost Value = { TilingValue };

    ghost view = { λ t. record { image = t.image.now; side = t.side } };

    ghost invariant = { λ t. IsSide t.side × (t.image.now.maxval ≤ MOST_MAXVAL)
        × (t.head_bytes.items ≡ head t.side t.side t.image.now.maxval) };
}

impl<'a> Tiling<'a> {
    /// The tiles of an image with a side of 64, 128 or 256 pixels. The one error is being out of
    /// memory.
    pub fn new(alloc: Global, image: &'a Image, side: u32) -> Result<Tiling<'a>, NoMemory>
        requires { IsSide side }
        ensures { IfOk result (λ tiling. tiling ≡ record { image = image.now; side = side }) }
    {
        let head_bytes = pgm_head(alloc, side, image.maxval())?;
        Ok(Tiling {
            image,
            side,
            head_bytes,
        })
    }

    /// The head that stands before each tile.
    pub fn head(&self) -> &[u8]
        ensures { result.now ≡ head self.now.side self.now.side self.now.image.maxval }
    {
        &self.head_bytes
    }

    /// A maker of its tiles, for one client.
    pub fn maker(&self) -> ImageMaker<'a>
        ensures { Makes self.now result }
    {
        ImageMaker::new(self.image, self.side)
    }

    /// How many bytes each reply has: at least 1, and at most 65,551.
    pub fn reply_len(&self) -> usize
        ensures every { HoldReplies self.now result }
        ensures some { 1 ≤ result }
        ensures short { result ≤ MOST_REPLY }
    {
        self.head().len() + self.side as usize * self.side as usize
    }
}
