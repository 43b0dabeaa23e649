// Small arrays, read and written totally: whatever the place, past the end nothing is there and nothing is written.
ghost use Rattle.std.specs.Prelude.{◌≡◌, get_or, set};

// The item at a place, or another past the end.
pub fn at_or<T: Copy, const N: usize>(items: [T; N], at: usize, other: T) -> T
    ensures { result ≡ get_or items at other }
{
    if at < N { items[at] } else { other }
}

// The items with x at a place; as they are where there is no such place.
pub fn with_at<T: Copy, const N: usize>(mut items: [T; N], at: usize, x: T) -> [T; N]
    ensures { result ≡ set items at x }
{
    if at < N {
        items[at] = x;
    }
    items
}
