// Lists with a value for each basin.
ghost use Rattle.std.specs.Prelude.{◌≡◌, ◌≤◌, length};
ghost use Rattle.zones.specs.Numbers.{of_number};

// The value of a number of the zone: the datum's stands in no list.
pub(crate) fn of_number<T: Copy>(values: &[T], number: usize, datum: T) -> T
    requires { number ≤ length values.now }
    ensures { result ≡ of_number datum values.now number }
{
    match number {
        0 => datum,
        _ => values[number - 1],
    }
}
