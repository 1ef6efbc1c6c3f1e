#![tactic(auto)]
//! Grey images of the form P5, and their tiles: square pieces of one size, at seven zooms.
//!
//! Promises: `read_pgm` is a function of the bytes, `ImageMaker` one of the image, the side and the
//! tile. A file is read as the image that the grammar of P5 files spells, or refused for its first
//! fault. A pixel of a tile is the mean of a square of samples, a half rounded up.
//!
//! Callers see an `Image` as its sides, maxval and samples; it keeps bytes and the place of the first
//! sample among them, so an image can stand in the bytes of its file. The reading is defined step by
//! step (`specs/Pgm.antt`), and a law holds it to the plain grammar of a file
//! (`specs/Grammar.antt`). At zoom 0 each row of a tile is one copy of a part of a row, and zeros. At
//! the other zooms a row of pixels is made in strips of at most 256 columns: the lines of the strip
//! within the image are added to sums of 16 bits, one a column, in one straight pass each. Nothing
//! outside of the image is read.

pub mod causes;
mod columns;
mod fault;
mod image;
mod laws;
mod limits;
mod maker;
mod pgm;
mod tile;
mod tiles;

pub use fault::PgmFault;
pub use image::{Image, Sample};
pub use laws::{law_image_is_spelled, law_written_is_read};
pub use limits::{LAST_TILE, MOST_FILE_BYTES, MOST_MAXVAL, MOST_SIDE, MOST_WIDE_MAXVAL, MOST_ZOOM};
pub use maker::ImageMaker;
pub use pgm::{read_pgm, read_pgm_in_place};
pub use tile::{Tile, TileMaker, pgm_head};

#[cfg(test)]
mod tests;
