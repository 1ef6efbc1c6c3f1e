//! The search for a row by its number. It goes the faster the more the order of the rows tells of
//! their numbers, and finds the row in each order.
ghost use Rattle.std.specs.Prelude.{◌≡◌, ℕ, Bool};
ghost use Rattle.units.specs.RowSearch.{FindsRow};

/// A row of a list, which is looked for by its number.
pub trait NumberedRow {
    // whether it is the row of this number
    ghost is_of: { ℕ → Self → Bool };

    /// Its number. The search goes by it, and any answer is sound.
    fn number(&self) -> u64;

    /// Whether it is the row of this number.
    fn is_of(&self, number: u64) -> bool
        ensures { result ≡ is_of number self.now };
}

/// Where the row of this number stands, if there is one. It is found at once where it stands at
/// `near`, from there in steps that double and then by halves where the numbers rise, and else by a
/// walk.
pub fn find_row<T: NumberedRow>(rows: &[T], number: u64, near: usize) -> Option<usize>
    ensures { FindsRow (T.is_of number) rows.now result }
{
    if near < rows.len() && rows[near].is_of(number) {
        return Some(near);
    }
    let place = place_from(rows, number, near.min(rows.len()));
    if place < rows.len() && rows[place].is_of(number) {
        return Some(place);
    }
    first_row(rows, number)
}

/// A guess at where the row of this number stands: where it stands if the numbers rise evenly.
pub fn guess_place<T: NumberedRow>(rows: &[T], number: u64) -> usize {
    let Some(first) = rows.first() else {
        return 0;
    };
    let Some(last) = rows.last() else {
        return 0;
    };
    let offset = number.saturating_sub(first.number());
    let reach = last.number().saturating_sub(first.number());
    let steps = rows.len().saturating_sub(1) as u64;
    if reach <= steps {
        return offset as usize;
    }
    (offset.saturating_mul(steps) / reach) as usize
}

/// Where the first row of this number stands, by a walk.
fn first_row<T: NumberedRow>(rows: &[T], number: u64) -> Option<usize>
    ensures { FindsRow (T.is_of number) rows.now result }
{
    for place in 0..rows.len() {
        if rows[place].is_of(number) {
            return Some(place);
        }
    }
    None
}

/// Whether there is a row at this place, and its number is below this one.
fn is_below<T: NumberedRow>(rows: &[T], place: usize, number: u64) -> bool {
    place < rows.len() && rows[place].number() < number
}

/// Where the row of this number stands if the numbers rise. It is looked for from a guess on.
fn place_from<T: NumberedRow>(rows: &[T], number: u64, guess: usize) -> usize {
    if is_below(rows, guess, number) {
        return place_between(rows, number, guess, end_from(rows, number, guess));
    }
    place_between(rows, number, start_from(rows, number, guess), guess)
}

/// An upper bound for the place of this number, from a guess on in steps that double.
fn end_from<T: NumberedRow>(rows: &[T], number: u64, guess: usize) -> usize {
    let mut step: usize = 1;
    for _ in 0..usize::BITS {
        let place = guess.saturating_add(step);
        if !is_below(rows, place, number) {
            return place.min(rows.len());
        }
        step = step.saturating_mul(2);
    }
    rows.len()
}

/// A lower bound for the place of this number, from a guess on in steps that double.
fn start_from<T: NumberedRow>(rows: &[T], number: u64, guess: usize) -> usize {
    let mut step: usize = 1;
    for _ in 0..usize::BITS {
        let place = guess.saturating_sub(step);
        if place == 0 || is_below(rows, place, number) {
            return place;
        }
        step = step.saturating_mul(2);
    }
    0
}

/// Where the row of this number stands between two places if the numbers rise, by halves.
fn place_between<T: NumberedRow>(rows: &[T], number: u64, start: usize, end: usize) -> usize {
    let mut low = start;
    let mut high = end;
    while low < high {
        let middle = low + (high - low) / 2;
        if is_below(rows, middle, number) {
            low = middle + 1;
        } else {
            high = middle;
        }
    }
    low
}
