// The messages of an entry against those of a cube, by their tags.
ghost use Rattle.std.specs.Prelude.{◌≡◌, ℕ, ◌+◌, ◌*◌, ◌&&◌, eqb};
ghost use Rattle.list_theory.specs.Matching.{message_matches};
ghost use Rattle.list_key.specs.Relation.{relation};
ghost use Rattle.list_key.specs.Tags.{label_number};
ghost use Rattle.list_key.specs.Match.{Suits, channel_matches};

use crate::tags::lowest;
use crate::values::values_related;
use file_contents::entry::Cube;
use file_records::program::Shape;
use machine_pws::Message;

// Two messages with their tags: labels are bytes, so equal tags have equal labels and equal roles.
fn message_matches(exact: bool, a: Message, left: u64, b: Message, right: u64) -> bool
    ensures { (m n : ℕ) → left ≡ 65536 * m + label_number a → right ≡ 65536 * n + label_number b → result ≡ (eqb m n && message_matches (relation exact) a b) }
{
    left == right && values_related(exact, a.snapshot, b.snapshot)
}

// The messages of an entry against those of a cube, each with its tags, newest first.
#[tactic(auto, using(crate::proofs::ChannelLaws::low_positive))]
pub fn channel_matches(
    exact: bool,
    shape: Shape,
    a: Cube,
    left: &[u64; 20],
    b: Cube,
    right: &[u64; 20],
) -> bool
    ensures { Suits shape a left.now b right.now → result ≡ channel_matches shape exact a b }
{
    let first = usize::from(lowest(shape, a.pointers));
    let last = usize::from(lowest(shape, b.pointers));
    let mut i = a.count.min(20);
    let mut j = b.count.min(20);
    loop {
        if i < first {
            return true;
        }
        if j < last {
            return false;
        }
        let x = a.messages[i - 1];
        let y = b.messages[j - 1];
        if message_matches(exact, x, left[i - 1], y, right[j - 1]) {
            i -= 1;
        }
        j -= 1;
    }
}
