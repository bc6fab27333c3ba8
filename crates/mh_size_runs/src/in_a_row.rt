//! The most that so many numbers in a row come to.
ghost use Rattle.std.specs.Prelude.{◌≡◌, ◌+◌, ◌≤◌, get_or, length};
ghost use Rattle.mh_size_laws.specs.Room.{most_in_a_row};

/// The number that stands so many places after another, and 0 past the end.
fn number_after(numbers: &[u64], place: usize, count: usize) -> u64
    requires { place ≤ length numbers.now }
    ensures { result ≡ get_or numbers.now (place + count) 0 }
{
    if count < numbers.len() - place {
        numbers[place + count]
    } else {
        0
    }
}

/// The most that so many of these numbers in a row come to, or fewer at the end.
pub(crate) fn most_in_a_row(count: usize, numbers: &[u64]) -> u128
    ensures { result ≡ most_in_a_row count numbers.now }
{
    let mut sum: u128 = 0;
    let mut most: u128 = 0;
    for start in (0..numbers.len()).rev() {
        let first = u128::from(numbers[start]);
        let after = u128::from(number_after(numbers, start, count));
        sum = sum + first - after;
        most = most.max(sum);
    }
    most
}
