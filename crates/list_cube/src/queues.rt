// Waiting values of a cube.
ghost use Rattle.std.specs.Prelude.{◌≡◌, ◌∷◌, ◌+◌, ◌*◌, ◌≤◌, ◌<◌, get_or, set};
ghost use Rattle.machine_pws.specs.Machine.{is_empty, newest_waiting, newest_or, none_waiting, all_below};
ghost use Rattle.list_theory.specs.Cubes.{without_last, with_last};
ghost use Rattle.list_theory.specs.Predecessors.{ends_alike};
ghost use Rattle.file_records.specs.ProgramPart.{shape_of};
ghost use Rattle.file_contents.specs.Cube.{no_queue, waiting_of, queue_of, configuration_of};
ghost use Rattle.list_cube.specs.Editing.{Waits};

use base::below::all_below;
use file_contents::entry::{Cube, Queue};
use file_records::program::Shape;
use list_key::{related, waiting};

pub fn is_empty(queue: Queue) -> bool
    ensures { result ≡ is_empty (waiting_of queue) }
{
    queue.count == 0
}

// The newest waiting value, or another where none waits.
pub fn newest_or(queue: Queue, other: u8) -> u8
    ensures { result ≡ newest_or (newest_waiting (waiting_of queue)) other }
{
    let n = waiting(queue);
    if n == 0 { other } else { queue.values[n - 1] }
}

pub fn ends_alike(queue: Queue, x: u8) -> bool
    ensures { result ≡ ends_alike (newest_waiting (waiting_of queue)) x }
{
    !is_empty(queue) && related(false, newest_or(queue, 0), x)
}

pub fn without_last(queue: Queue) -> Queue
    ensures { queue.count ≤ 9 → Waits result (without_last (waiting_of queue)) }
{
    Queue {
        count: queue.count.saturating_sub(1),
        ..queue
    }
}

pub fn with_last(mut queue: Queue, x: u8) -> Queue
    ensures { queue.count ≤ 9 → Waits result (with_last (waiting_of queue) x) }
{
    let n = usize::from(queue.count);
    if 1 <= n && n <= 9 {
        queue.values[n - 1] = x;
    }
    queue
}

// With one waiting value more, the oldest.
pub fn with_first(queue: Queue, x: u8) -> Queue
    ensures { queue.count ≤ 8 → Waits result (x ∷ waiting_of queue) }
{
    let n = queue.count;
    if 9 <= n {
        return queue;
    }
    let [a, b, c, d, e, f, g, h, _] = queue.values;
    Queue {
        values: [x, a, b, c, d, e, f, g, h],
        count: n + 1,
    }
}

// The queue of p and v; an empty one where there is no such queue.
pub fn queue_at(queues: [Queue; 16], p: usize, v: usize) -> Queue
    ensures { (waiting_of result ≡ queue_of queues p v) × (p < 4 → v < 4 → result ≡ get_or queues (4 * p + v) no_queue) }
{
    if p < 4 && v < 4 {
        return queues[4 * p + v];
    }
    Queue {
        values: [0; 9],
        count: 0,
    }
}

// The queues with this one for p and v.
pub fn put_queue(mut queues: [Queue; 16], p: usize, v: usize, queue: Queue) -> [Queue; 16]
    ensures { p < 4 → v < 4 → result ≡ set queues (4 * p + v) queue }
{
    if p < 4 && v < 4 {
        queues[4 * p + v] = queue;
    }
    queues
}

// Nothing waits in the queue of p and v, which is looked at where it stands: no queue is copied.
fn empty_at(queues: &[Queue; 16], p: usize, v: usize) -> bool
    ensures { result ≡ is_empty (queue_of queues.now p v) }
{
    4 <= p || 4 <= v || is_empty(queues[4 * p + v])
}

// Nothing waits in the first n queues of p, of which there are four.
pub fn row_empty(n: usize, queues: &[Queue; 16], p: usize) -> bool
    ensures { result ≡ all_below n (λ v. is_empty (queue_of queues.now p v)) }
{
    all_below(n.min(4), |v| empty_at(queues, p, v))
}

pub fn queue_empty(cube: Cube, p: usize, v: usize) -> bool
    ensures { result ≡ is_empty ((configuration_of cube).queue p v) }
{
    empty_at(&cube.queues, p, v)
}

// No value of p waits.
pub fn none_waiting(shape: Shape, cube: Cube, p: usize) -> bool
    ensures { result ≡ none_waiting (shape_of shape) (configuration_of cube) p }
{
    row_empty(shape.variables, &cube.queues, p)
}
