ghost use Rattle.std.specs.Prelude.{◌≡◌, ◌≤◌, ℕ, List, [], ◌∷◌, IfOk};
ghost use Rattle.serve_texts.specs.Config.{IsSide};
ghost use Rattle.tile_source.specs.Tile.{IsTile, reply};
ghost use Rattle.top_call.specs.TileRun.{drives, TileEnds};

use crate::image_file::read_image;
use discard_io::{Files, Sink, Status, write_all};
use std::alloc::Global;
use tile_source::{Image, ImageMaker, Tile, TileMaker, pgm_head};
use units::NoMemory;

/// Writes one tile of the image in a file, with a head of its own.
pub(crate) fn write_tile<O: Sink, F: Files>(
    alloc: Global,
    file: &str,
    tile: Tile,
    side: u32,
    out: &mut O,
    files: &mut F,
) -> Status
    requires tile { IsTile tile }
    requires side { IsSide side }
    ensures ends { TileEnds side tile result
        (drives (F.bytes files.old file.now) (F.faults files.old)
        (O.written out.old) (O.faults out.old))
        (drives (F.bytes files.new file.now) (F.faults files.new)
        (O.written out.new) (O.faults out.new)) }
    ensures files { (name : List ℕ) → F.bytes files.new name ≡ F.bytes files.old name }
    ensures reads { F.faults files.old ≤ F.faults files.new }
    ensures writes { O.faults out.old ≤ O.faults out.new }
{
    let image = match read_image(alloc, file, files) {
        Ok(image) => image,
        Err(status) => return status,
    };
    let text = match text_of(alloc, &image, tile, side) {
        Ok(text) => text,
        Err(NoMemory) => return Status::NoMemory,
    };
    match write_all(out, &text) {
        Ok(()) => Status::Done,
        Err(_) => Status::WriteFault,
    }
}

/// A tile of an image, with its head.
fn text_of(alloc: Global, image: &Image, tile: Tile, side: u32) -> Result<Vec<u8>, NoMemory>
    requires tile { IsTile tile }
    requires side { IsSide side }
    ensures { IfOk result (λ text. text.items ≡ reply image.now side (tile ∷ [])) }
{
    let mut text = pgm_head(alloc, side, image.maxval())?;
    let head = text.len();
    let mut maker = ImageMaker::new(image, side);
    text.resize(head + maker.length() as usize, 0)?;
    maker.make(tile, &mut text[head..]);
    Ok(text)
}
