// Tags of messages: what a message is to each process, and its label, in one number.
ghost use Rattle.std.specs.Prelude.{◌≡◌, ◌+◌, ◌*◌, ◌^◌, ◌<◌};
ghost use Rattle.list_key.specs.Roles.{label_place};
ghost use Rattle.list_key.specs.Tags.{label_number, tags_of, lowest_pointer};

use file_contents::entry::Cube;
use file_records::program::Shape;
use machine_pws::Message;

fn label_number(message: Message) -> u64
    ensures { (result ≡ label_number message) × (result < 65536) }
{
    256 * u64::from(message.process) + u64::from(message.variable)
}

// The place of the LastWrite of a message's label. A label that does not exist has one past all that are read, 20: it is written to like the others.
fn label_place(message: Message) -> usize
    ensures { (result ≡ label_place message) × (result < 21) }
{
    let p = usize::from(message.process);
    let v = usize::from(message.variable);
    if p < 4 && v < 4 { 5 * p + 1 + v } else { 20 }
}

// The bit of the role at q.
fn role_bit(q: usize) -> u64
    requires { q < 20 }
    ensures { result ≡ 65536 * 2 ^ q }
{
    65536 << q
}

// The tags of a cube's messages, oldest first, and 0 past them. Of process p, the message that it points at is kept at 5 p, and its
// LastWrite of v at 5 p + 1 + v.
pub fn tags_of(shape: Shape, cube: Cube) -> [u64; 20]
    ensures { result ≡ tags_of shape cube }
{
    let n = cube.count.min(20);
    let processes = shape.processes.min(4);
    let variables = shape.variables.min(4);
    let [a, b, c, d] = cube.pointers;
    let mut roles = [
        a, a, a, a, a, b, b, b, b, b, c, c, c, c, c, d, d, d, d, d, 0,
    ];
    let mut tags = [0; 20];
    for i in 0..n {
        let message = cube.messages[i];
        tags[i] = label_number(message);
        let q = label_place(message);
        roles[q] = roles[q].max((i + 1) as u8);
    }
    for p in 0..processes {
        // the message that it points at, and its LastWrites
        for k in 0..variables + 1 {
            let q = 5 * p + k;
            let i = usize::from(roles[q]);
            if 0 < i && i <= n {
                tags[i - 1] += role_bit(q);
            }
        }
    }
    tags
}

// The number of the first message from the lowest pointer on.
#[tactic(auto, using(crate::proofs::PackLaws::lowest_next), unfolding(crate::specs::Tags::lowest_pointer))]
pub fn lowest(shape: Shape, pointers: [u8; 4]) -> u8
    ensures { result ≡ lowest_pointer shape pointers }
{
    let mut low = 255;
    for p in 0..shape.processes.min(4) {
        low = low.min(pointers[p]);
    }
    low.max(1)
}
