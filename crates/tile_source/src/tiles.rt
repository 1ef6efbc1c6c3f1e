//! The fast way to a tile. Only the samples that the tile covers are read, line by line and in straight passes, and
//! what lies outside of the image is filled with zeros.

ghost use Rattle.std.specs.Prelude.{◌≡◌, ℕ, ◌+◌, ◌*◌, ◌^◌, ◌<◌, ◌≤◌, length, slice_index};
ghost use Rattle.tile_source.specs.Image.{sample, tile};
ghost use Rattle.tile_source.specs.declared.limits.TheConstants.{MOST_ZOOM, LAST_TILE, MOST_TILE_SIDE};

use crate::columns::{STRIP, average_row, covered};
use crate::image::Image;

// One row of a tile at zoom 0, where a pixel is a sample.
fn copy_row(image: &Image, x: usize, y: usize, row: &mut [u8])
    requires x_fits { x < 2 ^ 31 }
    requires narrow { length row.old ≤ MOST_TILE_SIDE }
    ensures { (k : ℕ) → k < length row.old → slice_index row.new k ≡ sample image.now (x + k) y }
{
    let columns = if y < image.height() as usize {
        covered(x, row.len(), image.width() as usize)
    } else {
        0
    };
    row[columns..].fill(0);
    if columns > 0 {
        row[..columns].copy_from_slice(image.line(x, y, columns));
    }
}

// A tile at a zoom above 0.
fn average_tile<const N: usize>(
    image: &Image,
    z: u32,
    x: usize,
    y: usize,
    side: usize,
    out: &mut [u8],
)
    requires zoom { z ≤ MOST_ZOOM }
    requires scale { N ≡ 2 ^ z }
    requires few { N ≤ 64 }
    requires some { 0 < N }
    requires x_fits { x ≤ LAST_TILE }
    requires y_fits { y ≤ LAST_TILE }
    requires side_fits { side ≤ MOST_TILE_SIDE }
    requires sized { length out.old ≡ side * side }
    ensures { out.new ≡ tile image.now z x y side }
{
    let mut sums = [0u16; STRIP];
    for v in 0..side {
        let row = &mut out[v * side..(v + 1) * side];
        average_row::<N>(image, z, x * side, y * side + v, &mut sums, row);
    }
}

// A tile at zoom 0.
fn copy_tile(image: &Image, x: usize, y: usize, side: usize, out: &mut [u8])
    requires x_fits { x ≤ LAST_TILE }
    requires y_fits { y ≤ LAST_TILE }
    requires side_fits { side ≤ MOST_TILE_SIDE }
    requires sized { length out.old ≡ side * side }
    ensures { out.new ≡ tile image.now 0 x y side }
{
    for v in 0..side {
        copy_row(
            image,
            x * side,
            y * side + v,
            &mut out[v * side..(v + 1) * side],
        );
    }
}

/// Fills `out` with the tile at column `x` and row `y` of the tiles of zoom `z`.
#[inline(never)]
pub(crate) fn fill_tile(image: &Image, z: u32, x: usize, y: usize, side: usize, out: &mut [u8])
    requires zoom { z ≤ MOST_ZOOM }
    requires x_fits { x ≤ LAST_TILE }
    requires y_fits { y ≤ LAST_TILE }
    requires side_fits { side ≤ MOST_TILE_SIDE }
    requires sized { length out.old ≡ side * side }
    ensures { out.new ≡ tile image.now z x y side }
{
    match z {
        0 => copy_tile(image, x, y, side, out),
        1 => average_tile::<2>(image, z, x, y, side, out),
        2 => average_tile::<4>(image, z, x, y, side, out),
        3 => average_tile::<8>(image, z, x, y, side, out),
        4 => average_tile::<16>(image, z, x, y, side, out),
        5 => average_tile::<32>(image, z, x, y, side, out),
        _ => average_tile::<64>(image, z, x, y, side, out),
    }
}
