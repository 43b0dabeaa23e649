// The lower part of the work area, 16,384 bytes:
//
//     1,024 q + k    item k, of all that were put into the buffer q = 4 p + v of process p and variable v: a value, or 255 for a mark
//
// A step puts at most one item into a buffer, so 1,024 bytes hold what 1,024 steps put there.
ghost use Rattle.std.specs.Prelude.{◌≡◌};
ghost use Rattle.pso_layout.specs.Layout.{item_place, item_at, put_item};

use base::bytes::byte_at;

fn item_place(q: u8, k: u16) -> usize
    ensures { result ≡ item_place q k }
{
    1024 * usize::from(q) + usize::from(k)
}

// Item k of buffer q.
#[tactic(auto, unfolding(crate::specs::Layout::item_at))]
pub(crate) fn item_at(lower: &[u8], q: u8, k: u16) -> u8
    ensures { result ≡ item_at lower.now q k }
{
    byte_at(lower, item_place(q, k))
}

pub fn put_item(lower: &mut [u8], q: u8, k: u16, x: u8)
    ensures { lower.new ≡ put_item lower.old q k x }
{
    let at = item_place(q, k);
    if at < lower.len() {
        lower[at] = x;
    }
}
