// Where an entry that may meet a cube has a value and the cube has none: there the cube is best split. This changes
// only the speed, so no contract says which place is found.
ghost use Rattle.std.specs.Prelude.{◌<◌};

use crate::place::Place;
use file_contents::entry::{Cube, Queue};
use file_records::program::Shape;
use list_key::{lowest, related, values_related, waiting};
use machine_pws::Message;

// One of them, and how many there are.
#[derive(Clone, Copy)]
pub(crate) struct Gaps {
    pub place: Option<Place>,
    pub count: u8,
}

// With this one more, if the entry has a value there and the cube has none.
fn note(gaps: Gaps, entry: u8, cube: u8, place: Place) -> Gaps {
    if gaps.count == 255 || entry == 255 || cube != 255 {
        return gaps;
    }
    Gaps {
        place: Some(place),
        count: gaps.count + 1,
    }
}

fn message_gaps(gaps: Gaps, entry: Message, cube: Message, message: usize) -> Gaps {
    let mut all = gaps;
    for variable in 0..4 {
        let place = Place::Sent { message, variable };
        all = note(
            all,
            entry.snapshot[variable],
            cube.snapshot[variable],
            place,
        );
    }
    all
}

fn tags_match(a: Message, left: u64, b: Message, right: u64) -> bool {
    left == right && values_related(false, a.snapshot, b.snapshot)
}

// The messages as they are matched, newest first.
fn channel_gaps(
    gaps: Gaps,
    shape: Shape,
    a: Cube,
    left: &[u64; 20],
    b: Cube,
    right: &[u64; 20],
) -> Gaps {
    let first = usize::from(lowest(shape, a.pointers));
    let last = usize::from(lowest(shape, b.pointers));
    let mut all = gaps;
    let mut i = a.count.min(20);
    let mut j = b.count.min(20);
    while 0 < i && first <= i && 0 < j && last <= j {
        let x = a.messages[i - 1];
        let y = b.messages[j - 1];
        if tags_match(x, left[i - 1], y, right[j - 1]) {
            all = message_gaps(all, x, y, j - 1);
            i -= 1;
        }
        j -= 1;
    }
    all
}

// The waiting values as they are matched, oldest first.
fn queue_gaps(gaps: Gaps, a: Queue, b: Queue, process: usize, variable: usize) -> Gaps {
    let n = waiting(a);
    let mut all = gaps;
    let mut i = 0;
    for number in 0..waiting(b) {
        if n <= i {
            break;
        }
        if related(false, a.values[i], b.values[number]) {
            let place = Place::Waiting {
                process,
                variable,
                number,
            };
            all = note(all, a.values[i], b.values[number], place);
            i += 1;
        }
    }
    all
}

fn row_gaps(gaps: Gaps, variables: usize, a: [Queue; 16], b: [Queue; 16], process: usize) -> Gaps
    requires { process < 4 }
{
    let mut all = gaps;
    for v in 0..variables.min(4) {
        let q = 4 * process + v;
        all = queue_gaps(all, a[q], b[q], process, v);
    }
    all
}

// All gaps between an entry and a cube.
pub(crate) fn gaps_between(
    shape: Shape,
    a: Cube,
    left: &[u64; 20],
    b: Cube,
    right: &[u64; 20],
) -> Gaps {
    let mut all = Gaps {
        place: None,
        count: 0,
    };
    for p in 0..shape.processes.min(4) {
        all = row_gaps(all, shape.variables, a.queues, b.queues, p);
    }
    channel_gaps(all, shape, a, left, b, right)
}
