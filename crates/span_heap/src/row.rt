//! A segment in the table of pages.
ghost use Rattle.std.specs.Prelude.{◌≡◌, ◌+◌, ◌-◌, ◌*◌, [], ◌∷◌, ◌++◌, ◌^◌, ◌<◌, ◌≤◌, vec_len, vec_capacity, length, filter, slice_index_or, IsTrue, IfOk, OnOk};
ghost use Rattle.std.specs.List.{list_any};
ghost use Rattle.span_heap.specs.Table.{has_pages, is_row, AreDropped, RowStands, IsRowOf, Widens, row_places};

use std::alloc::{AllocError, Global};
use std::marker::Model;
use units::row_search::{self, NumberedRow};

/// A segment, with the place of each of its pages. One without a page is a segment that was dropped.
#[derive(Drop)]
pub(crate) struct PageRow {
    id: u64,
    places: Vec<u32>,
    /// How many of its pages are used.
    used: u32,
}

impl Model for PageRow {
    ghost use Rattle.span_heap.specs.Table.{Row};

    ghost Value = { Row };

    ghost view = { λ r. record { id = r.id; places = r.places.items; used = r.used } };
}

impl NumberedRow for PageRow {
    ghost use Rattle.span_heap.specs.Table.{is_row};

    ghost is_of = { is_row };

    fn number(&self) -> u64 {
        self.id
    }

    /// Whether it has this number and was not dropped.
    fn is_of(&self, number: u64) -> bool {
        self.id == number && self.has_pages()
    }
}

impl PageRow {
    /// A segment whose pages have these places. None of them is used.
    pub(crate) fn new(id: u64, places: Vec<u32>) -> PageRow
        ensures { result ≡ record { id = id; places = places.items; used = 0 } }
    {
        PageRow {
            id,
            places,
            used: 0,
        }
    }

    /// Whether it has a page.
    pub(crate) fn has_pages(&self) -> bool
        ensures { result ≡ has_pages self.now }
    {
        !self.places.is_empty()
    }

    /// How many pages it has.
    pub(crate) fn len(&self) -> usize
        ensures { result ≡ length self.now.places }
    {
        self.places.len()
    }

    /// The place of a page.
    pub(crate) fn place(&self, page: u32) -> u32
        requires { page < length self.now.places }
        ensures { result ≡ slice_index_or self.now.places page 0 }
    {
        self.places[page as usize]
    }

    /// How many of its pages are used.
    pub(crate) fn used(&self) -> u32
        ensures { result ≡ self.now.used }
    {
        self.used
    }

    /// Counts so many more of its pages as used.
    pub(crate) fn more_used(&mut self, pages: u32)
        requires { self.old.used + pages < 2 ^ 32 }
        ensures { self.new ≡ record self.old { used = self.old.used + pages } }
    {
        self.used += pages;
    }

    /// Counts so many fewer of its pages as used.
    pub(crate) fn less_used(&mut self, pages: u32)
        requires { pages ≤ self.old.used }
        ensures { self.new ≡ record self.old { used = self.old.used - pages } }
    {
        self.used -= pages;
    }

    /// Gives the places of its pages to those that no page has, and has none from then on.
    pub(crate) fn give_places(&mut self, spare: &mut Vec<u32>)
        requires { vec_len spare.old + length self.old.places ≤ vec_capacity spare.old }
        ensures items { spare.new.items ≡ spare.old.items ++ self.old.places }
        ensures capacity { vec_capacity spare.new ≡ vec_capacity spare.old }
        ensures left { self.new ≡ record self.old { places = [] } }
    {
        for place in self.places.as_slice() {
            spare.push_reserved(*place);
        }
        self.places.clear();
        self.places.shrink_to_fit();
    }
}

/// Where the row of this number stands, if one is there that was not dropped. It is looked for from
/// `near` on.
pub(crate) fn find_row(rows: &[PageRow], id: u64, near: usize) -> Option<usize>
    ensures { IsRowOf rows.now id result }
{
    row_search::find_row(rows, id, near)
}

/// Where the row of this number stands.
pub(crate) fn row_of(rows: &[PageRow], id: u64, near: usize) -> usize
    requires { IsTrue (list_any (is_row id) rows.now) }
    ensures { RowStands rows.now id result }
{
    match find_row(rows, id, near) {
        Some(at) => at,
        None => 0,
    }
}

/// Adds a row as the last one. Then those of dropped segments are taken out, where they are more than
/// half of all. `dropped` is how many they are.
pub(crate) fn push_row(rows: &mut Vec<PageRow>, dropped: &mut usize, row: PageRow)
    requires room { vec_len rows.old < vec_capacity rows.old }
    requires live { 1 ≤ length row.places }
    requires counted { AreDropped rows.old.items dropped.old }
    ensures counted { AreDropped rows.new.items dropped.new }
    ensures living { filter has_pages rows.new.items
        ≡ filter has_pages (rows.old.items ++ row ∷ []) }
    ensures few { 2 * dropped.new ≤ length rows.new.items }
{
    rows.push_reserved(row);
    take_out_dropped(rows, dropped);
}

/// Takes out the rows of dropped segments, where they are more than half of all. That costs one pass
/// over the rows, and at least half of them were dropped since the last one.
fn take_out_dropped(rows: &mut Vec<PageRow>, dropped: &mut usize)
    requires { AreDropped rows.old.items dropped.old }
    ensures counted { AreDropped rows.new.items dropped.new }
    ensures living { filter has_pages rows.new.items ≡ filter has_pages rows.old.items }
    ensures few { 2 * dropped.new ≤ length rows.new.items }
{
    if *dropped > rows.len() / 2 {
        rows.retain(|row| row.has_pages());
        *dropped = 0;
    }
}

/// The places of a new segment: the spare ones from `keep` on, and `fresh` new ones from `size` on.
pub(crate) fn new_places(
    alloc: Global,
    spare: &[u32],
    keep: usize,
    size: u32,
    fresh: u32,
) -> Result<Vec<u32>, AllocError>
    requires within { keep ≤ length spare.now }
    requires small { size + fresh < 2 ^ 32 }
    ensures { IfOk result (λ places. places.items ≡ row_places spare.now keep size fresh) }
{
    let mut places = Vec::from_slice(alloc, &spare[keep..])?;
    for place in size..size + fresh {
        places.push(place)?;
    }
    Ok(places)
}

/// Makes marks for `total` places, where there are fewer. New marks are 0.
fn widen(marks: &mut Vec<u32>, total: usize) -> Result<(), AllocError>
    ensures widens { Widens marks.old.items marks.new.items }
    ensures reach { OnOk result (total ≤ length marks.new.items) }
{
    let reach = total.max(marks.len());
    marks.resize(reach, 0)
}

/// Makes three sets of marks for `total` places.
pub(crate) fn widen_all(
    one: &mut Vec<u32>,
    two: &mut Vec<u32>,
    three: &mut Vec<u32>,
    total: usize,
) -> Result<(), AllocError>
    ensures one { Widens one.old.items one.new.items }
    ensures two { Widens two.old.items two.new.items }
    ensures three { Widens three.old.items three.new.items }
    ensures reach { OnOk result (total ≤ length one.new.items) }
    ensures reach_two { OnOk result (total ≤ length two.new.items) }
    ensures reach_three { OnOk result (total ≤ length three.new.items) }
{
    widen(one, total)?;
    widen(two, total)?;
    widen(three, total)
}
