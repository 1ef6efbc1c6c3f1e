//! Flags of the pages of a segment, one for each page: whether it is held.
ghost use Rattle.std.specs.Prelude.{◌≡◌, ℕ, ◌+◌, ◌<◌, ◌≤◌, Bool, true, false, not, ◌&&◌, if◌then◌else◌, length, slice_index_or, count_by};
ghost use Rattle.units.specs.Range.{is_within};

/// Whether each page from `first` to before `end` is as `held` says.
pub fn all_are(pages: &[bool], first: usize, end: usize, held: bool) -> bool
    requires { end ≤ length pages.now }
    ensures all { result ≡ true → (page : ℕ) → first ≤ page → page < end
        → slice_index_or pages.now page false ≡ held }
    ensures some { result ≡ false → (page : ℕ) × (first ≤ page) × (page < end)
        × (slice_index_or pages.now page false ≡ not held) }
{
    for page in first..end {
        if pages[page] != held {
            return false;
        }
    }
    true
}

/// Makes each page of a range as `held` says, where none of them is so yet. The count of held pages changes by `count`.
pub fn set_all(pages: &mut [bool], first: usize, count: usize, held: bool)
    requires inside { first + count ≤ length pages.old }
    requires other { (page : ℕ) → first ≤ page → page < first + count
        → slice_index_or pages.old page false ≡ not held }
    ensures after { (page : ℕ) → slice_index_or pages.new page false
        ≡ (if is_within first count page then held else slice_index_or pages.old page false) }
    ensures counted { count_by (λ b. b) pages.new + (if held then 0 else count)
        ≡ count_by (λ b. b) pages.old + (if held then count else 0) }
{
    for page in first..first + count {
        pages[page] = held;
    }
}
