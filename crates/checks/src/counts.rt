// Whether a list has so many numbers for each of so many things, as beams, points or charts.
ghost use Rattle.std.specs.Prelude.{◌≡◌, ◌*◌, eqb};

// By dividing, as a product could wrap.
pub fn so_many_each(numbers: usize, size: usize, count: usize) -> bool
    ensures { result ≡ eqb numbers (size * count) }
{
    if size == 0 {
        return numbers == 0;
    }
    if numbers % size == 0 {
        return numbers / size == count;
    }
    false
}
