//! Which free run a search takes, where the runs stand in lists by class.
ghost use Rattle.std.specs.Prelude.{◌-◌, ◌≤◌};
ghost use Rattle.free_lists.specs.Lists.{list_of};
ghost use Rattle.span_heap.specs.Placed.{AreWithin, FindsLong, FindsPick, FindsShort, IsDistinct};

use crate::run::Run;
use free_lists::Lists;

/// The latest place of the least class below 256 that fits.
pub(crate) fn pick_short(lists: &Lists, pages: u32, most: u32) -> Option<u32>
    requires { 1 ≤ pages }
    ensures { FindsShort lists.now pages most result }
{
    for class in pages..most.min(255) + 1 {
        if let Some(place) = lists.tail(class) {
            return Some(place);
        }
    }
    None
}

/// The latest place of class 256 whose run fits.
pub(crate) fn pick_long(lists: &Lists, runs: &[Run], pages: u32, most: u32) -> Option<u32>
    requires order { pages ≤ most }
    requires within { AreWithin runs.now (list_of lists.now 256) }
    requires distinct { IsDistinct (list_of lists.now 256) }
    ensures { FindsLong lists.now runs.now pages (most - pages) result }
{
    let mut at = lists.tail(256);
    while let Some(place) = at {
        if runs[place as usize].fits(pages, most) {
            return Some(place);
        }
        at = lists.before(place);
    }
    None
}

/// The place of the run that a search for `pages` to `most` pages takes.
pub(crate) fn pick_place(lists: &Lists, runs: &[Run], pages: u32, most: u32) -> Option<u32>
    requires sized { 1 ≤ pages }
    requires order { pages ≤ most }
    requires within { AreWithin runs.now (list_of lists.now 256) }
    requires distinct { IsDistinct (list_of lists.now 256) }
    ensures { FindsPick lists.now runs.now pages (most - pages) result }
{
    match pick_short(lists, pages, most) {
        Some(place) => Some(place),
        None => pick_long(lists, runs, pages, most),
    }
}
