//! Rows of a tile at a zoom above 0. A row is made in strips: the samples of a strip are summed by columns, line by line
//! in straight passes, and then the columns of each pixel.

ghost use Rattle.std.specs.Prelude.{◌≡◌, ℕ, ◌+◌, ◌*◌, ◌-◌, ◌^◌, ◌<◌, ◌≤◌, min, length, sum, take, drop, slice_index};
ghost use Rattle.tile_source.specs.Image.{sample, sum_below, mean, pixel};
ghost use Rattle.tile_source.specs.declared.limits.TheConstants.{MOST_MAXVAL, MOST_ZOOM, MOST_TILE_SIDE};

use crate::image::{Image, Sample};

/// How many columns of samples a strip has at most.
pub(crate) const STRIP: usize = 256;

// How many of `count` places, from `from` on, lie below `end`.
pub(crate) fn covered(from: usize, count: usize, end: usize) -> usize
    ensures { result ≡ min (end - from) count }
{
    end.saturating_sub(from).min(count)
}

// Adds each sample of a line to the sum of its column.
fn add_samples(sums: &mut [u16], line: &[Sample])
    requires fits { length line.now ≤ length sums.old }
    requires room { (i : ℕ) → i < length sums.old → slice_index sums.old i < 2 ^ 15 }
    ensures value { (i : ℕ) → i < length line.now
        → slice_index sums.new i ≡ slice_index sums.old i + slice_index line.now i }
    ensures rest { (i : ℕ) → length line.now ≤ i → slice_index sums.new i ≡ slice_index sums.old i }
    ensures bound { (i : ℕ) → slice_index sums.new i ≤ slice_index sums.old i + MOST_MAXVAL }
{
    for (i, value) in line.iter().enumerate() {
        sums[i] += u16::from(*value);
    }
}

// Sums the columns of a strip over its lines within the image. Where the strip is wider than its columns within the
// image, it reaches the right edge, and what lies beyond adds nothing.
fn sum_columns(image: &Image, x: usize, y: usize, columns: usize, lines: usize, sums: &mut [u16])
    requires flat { lines ≤ 64 }
    requires fits { columns ≤ length sums.old }
    requires inside { x + columns ≤ image.now.width }
    requires edge { columns < length sums.old → image.now.width ≤ x + columns }
    requires y_fits { y < 2 ^ 48 }
    requires low { y + lines ≤ image.now.height }
    ensures value { (i : ℕ) → i < length sums.old
        → slice_index sums.new i ≡ sum_below (λ j. sample image.now (x + i) (y + j)) lines }
    ensures bound { (i : ℕ) → i < length sums.old → slice_index sums.new i ≤ MOST_MAXVAL * lines }
{
    sums.fill(0);
    for line in 0..lines {
        add_samples(sums, image.line(x, y + line, columns));
    }
}

// The sum of the sums of a pixel's columns.
fn total<const N: usize>(part: &[u16]) -> u32
    requires few { N ≤ 64 }
    requires sized { length part.now ≡ N }
    requires low { (i : ℕ) → i < length part.now → slice_index part.now i ≤ MOST_MAXVAL * N }
    ensures value { result ≡ sum part.now }
    ensures bound { result ≤ MOST_MAXVAL * N * N }
{
    let mut all = 0u32;
    for value in part {
        all += u32::from(*value);
    }
    all
}

// The mean of the samples of a square whose sum is given, a half rounded up.
#[tactic(auto, using(crate::proofs::Powers::square_of_side, crate::proofs::Powers::four_to))]
fn rounded(sum: u32, z: u32) -> u8
    requires zoom { z ≤ MOST_ZOOM }
    requires bounded { sum ≤ MOST_MAXVAL * 4 ^ z }
    ensures { result ≡ mean z sum }
{
    ((sum + (1u32 << (2 * z)) / 2) >> (2 * z)) as u8
}

// Writes the mean of each pixel's columns.
fn write_means<const N: usize>(sums: &[u16], z: u32, row: &mut [u8])
    requires zoom { z ≤ MOST_ZOOM }
    requires scale { N ≡ 2 ^ z }
    requires few { N ≤ 64 }
    requires sized { length sums.now ≡ length row.old * N }
    requires narrow { length row.old ≤ MOST_TILE_SIDE }
    requires low { (i : ℕ) → i < length sums.now → slice_index sums.now i ≤ MOST_MAXVAL * N }
    ensures { (k : ℕ) → k < length row.old
        → slice_index row.new k ≡ mean z (sum (take N (drop (k * N) sums.now))) }
{
    for (k, place) in row.iter_mut().enumerate() {
        *place = rounded(total::<N>(&sums[k * N..(k + 1) * N]), z);
    }
}

// A strip of a row, of at most `STRIP` columns.
fn average_strip<const N: usize>(
    image: &Image,
    z: u32,
    x: usize,
    y: usize,
    sums: &mut [u16],
    strip: &mut [u8],
)
    requires zoom { z ≤ MOST_ZOOM }
    requires scale { N ≡ 2 ^ z }
    requires few { N ≤ 64 }
    requires some { 0 < N }
    requires room { length sums.old ≡ STRIP }
    requires x_fits { x < 2 ^ 32 }
    requires y_fits { y < 2 ^ 31 }
    requires narrow { length strip.old ≤ MOST_TILE_SIDE }
    requires fits { length strip.old * N ≤ STRIP }
    ensures { (k : ℕ) → k < length strip.old
        → slice_index strip.new k ≡ pixel image.now z (x + k) y }
{
    let wide = strip.len() * N;
    let columns = covered(x * N, wide, image.width() as usize);
    let lines = covered(y * N, N, image.height() as usize);
    if columns == 0 || lines == 0 {
        strip.fill(0);
        return;
    }
    let sums = &mut sums[..wide];
    sum_columns(image, x * N, y * N, columns, lines, sums);
    write_means::<N>(sums, z, strip);
}

// One row of a tile, strip by strip.
pub(crate) fn average_row<const N: usize>(
    image: &Image,
    z: u32,
    x: usize,
    y: usize,
    sums: &mut [u16],
    row: &mut [u8],
)
    requires zoom { z ≤ MOST_ZOOM }
    requires scale { N ≡ 2 ^ z }
    requires few { N ≤ 64 }
    requires some { 0 < N }
    requires room { length sums.old ≡ STRIP }
    requires x_fits { x < 2 ^ 31 }
    requires y_fits { y < 2 ^ 31 }
    requires narrow { length row.old ≤ MOST_TILE_SIDE }
    ensures { (k : ℕ) → k < length row.old → slice_index row.new k ≡ pixel image.now z (x + k) y }
{
    let mut begin = 0;
    while begin < row.len() {
        let end = (begin + STRIP / N).min(row.len());
        average_strip::<N>(image, z, x + begin, y, sums, &mut row[begin..end]);
        begin = end;
    }
}
