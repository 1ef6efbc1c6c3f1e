ghost use Rattle.std.specs.Prelude.{◌≡◌};
ghost use Rattle.client.specs.Sizes.{wanted};

use units::{MOST_PAGES, pages_for};

/// How many pages so many bytes take, at least one. None exactly where they are more than the 65,536
/// pages of the longest segment.
pub fn wanted(bytes: u64) -> Option<u32>
    ensures { result ≡ wanted bytes }
{
    let pages = pages_for(bytes);
    if pages > u64::from(MOST_PAGES) {
        return None;
    }
    Some(pages as u32)
}
