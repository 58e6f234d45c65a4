//! Tables of numbers that have an answer at each place.
ghost use Rattle.std.specs.Prelude.{◌≡◌, slice_index};

/// The number at a place, and 0 past the end.
pub(crate) fn number_at(numbers: &[usize], place: usize) -> usize
    ensures { result ≡ slice_index numbers.now place }
{
    match numbers.get(place) {
        Some(number) => *number,
        None => 0,
    }
}

/// Writes a number at a place, and nothing past the end.
pub(crate) fn set_number(numbers: &mut Vec<usize>, place: usize, number: usize) {
    if place < numbers.len() {
        numbers[place] = number;
    }
}
