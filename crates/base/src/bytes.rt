// Bytes and numbers of a lent slice, read totally: 0 past the end.
ghost use Rattle.std.specs.Prelude.{◌≡◌, ℕ, ◌+◌, ◌*◌, ◌≤◌, ◌<◌, min, ◌&&◌, ◌||◌, [], ◌∷◌, length, get_or};
ghost use Rattle.base.specs.Bytes.{cut, le32, put32};

pub fn byte_at(s: &[u8], at: usize) -> u8
    ensures { result ≡ get_or s.now at 0 }
{
    s.get(at).copied().unwrap_or(0)
}

// The byte k places on.
pub fn field(s: &[u8], at: usize, k: u8) -> u8
    ensures { result ≡ get_or s.now (at + k) 0 }
{
    if s.len() <= at {
        return 0;
    }
    byte_at(s, at + usize::from(k))
}

// The file ends inside the record at `at`, whose body has this length.
pub fn cut(s: &[u8], at: usize, body: usize) -> bool
    ensures { result ≡ cut s.now at body }
{
    if s.len() <= at {
        return true;
    }
    s.len() - at <= body
}

// Both tests, as a function: both are made.
pub fn both(a: bool, b: bool) -> bool
    ensures { result ≡ (a && b) }
{
    a && b
}

// One of them at least.
pub fn either(a: bool, b: bool) -> bool
    ensures { result ≡ (a || b) }
{
    a || b
}

// Four bytes as a number, least significant first, and the same of a slice.
fn of_bytes(a: u8, b: u8, c: u8, d: u8) -> usize
    ensures { result ≡ a + 256 * b + 65536 * c + 16777216 * d }
{
    usize::from(a) + 256 * usize::from(b) + 65536 * usize::from(c) + 16777216 * usize::from(d)
}

pub fn number_at(s: &[u8], at: usize) -> usize
    ensures { result ≡ le32 s.now at }
{
    // one test for the four, and not one for each byte
    if !cut(s, at, 3) {
        return of_bytes(s[at], s[at + 1], s[at + 2], s[at + 3]);
    }
    if s.len() <= at {
        return 0;
    }
    of_bytes(
        byte_at(s, at),
        byte_at(s, at + 1),
        byte_at(s, at + 2),
        byte_at(s, at + 3),
    )
}

// A number as four bytes, least significant first; nothing is written where they do not fit.
pub fn store_number(s: &mut [u8], at: usize, x: usize)
    ensures { s.new ≡ put32 s.old at x }
{
    if s.len() < 4 {
        return;
    }
    if s.len() - 4 < at {
        return;
    }
    s[at] = (x % 256) as u8;
    s[at + 1] = (x / 256 % 256) as u8;
    s[at + 2] = (x / 65536 % 256) as u8;
    s[at + 3] = (x / 16777216 % 256) as u8;
}

// Four bytes of the record at a place, from the k-th of its body on.
pub fn four_at(s: &[u8], at: usize, k: u8) -> [u8; 4]
    ensures { result ≡ get_or s.now (at + k) 0 ∷ get_or s.now (at + (k + 1)) 0 ∷ get_or s.now (at + (k + 2)) 0 ∷ get_or s.now (at + (k + 3)) 0 ∷ [] }
{
    if s.len() <= at {
        return [0; 4];
    }
    let first = at + usize::from(k);
    [
        byte_at(s, first),
        byte_at(s, first + 1),
        byte_at(s, first + 2),
        byte_at(s, first + 3),
    ]
}
