// Families of configurations (theory, section 5): the family of an entry has its local states, waiting values above
// its own and newest values that fit, and any other messages and pointers; or messages by which a process can come to
// see a value. At number 11 a cube in a full family is held, and no update leads in; nothing is searched for.
ghost use Rattle.std.specs.Prelude.{◌≡◌, true, List, ℕ, ◌+◌, ◌≤◌, ◌<◌, length, IfSome};
ghost use Rattle.machine_pws.specs.Program as pws;
ghost use Rattle.machine_pws.specs.Machine.{Memory, Configuration, labelled};
ghost use Rattle.machine_pws.specs.Entries.{entry};
ghost use Rattle.file_records.specs.ProgramPart.{shape_of};
ghost use Rattle.file_again.specs.Again.{offset_at};
ghost use Rattle.list_bytes.specs.Same.{Within};
ghost use Rattle.file_contents.specs.Cube.{configuration_of};
ghost use Rattle.list_theory.specs.Seen.{Sees};
ghost use Rattle.list_theory.specs.Family.{newest, Clued, FamilyHeld};
ghost use Rattle.list_known.specs.FamilyTable.{clue_of, asked, Families, Recorded};
ghost use Rattle.list_cube.specs.Editing.{newest_values};

use file_again::offset_at;
use file_contents::entry::{Cube, Queue, load_entry};
use file_records::program::Shape;
use list_bytes::within_at;
use list_cube::messages::carries;
use list_cube::newest::newest_values;
use list_key::{queues_match, states_match, states_number, values_related, waiting};
use list_summary::{Listing, put_word, word_at};

// ---- membership

// The entry whose 10 stands at a place, which is built, has the local states of this cube, waiting values below the
// cube's, and newest values for which these may stand.
fn built_within(file: &[u8], at: usize, shape: Shape, cube: &Cube, values: [u8; 4]) -> bool
    ensures { result ≡ true → Within file.now at shape cube.now.states cube.now.queues values }
{
    let entry = load_entry(file, at);
    if entry.count == 0 || 20 < entry.count {
        return false;
    }
    if !states_match(shape.processes, entry.states, cube.states)
        || !queues_match(true, shape, entry.queues, cube.queues)
    {
        return false;
    }
    let newest = newest_values(entry);
    values_related(true, newest, values)
}

// And so has entry k: the cube, which has these newest values, is in its family.
fn in_family(listing: &Listing, k: usize, cube: &Cube, values: [u8; 4]) -> bool
    ensures { result ≡ true → Within listing.now.file.now (offset_at listing.now.offsets.now k) listing.now.shape cube.now.states cube.now.queues values }
{
    let at = offset_at(listing.offsets, k);
    // most entries are told by their bytes
    let told = within_at(
        listing.file,
        at,
        listing.shape,
        cube.states,
        cube.queues,
        values,
    );
    if let Some(within) = told {
        return within;
    }
    built_within(listing.file, at, listing.shape, cube, values)
}

// ---- clues

// Which family of an entry: that by its newest values, or that by a value that a process can come to see.
#[derive(Clone, Copy)]
pub(crate) enum Clue {
    Newest,
    Sees {
        process: usize,
        variable: usize,
        value: u8,
    },
}

// A clue as a number of a table, if it has one.
fn stored(clue: Clue) -> Option<usize>
    ensures { IfSome result (λ x. (x ≤ 64) × (clue_of x ≡ asked clue)) }
{
    match clue {
        Clue::Newest => Some(0),
        Clue::Sees {
            process,
            variable,
            value,
        } => {
            if 4 <= process || 4 <= variable || 4 <= value {
                return None;
            }
            Some(1 + usize::from(value) + 4 * (variable + 4 * process))
        }
    }
}

fn clue_at(number: usize) -> Clue
    ensures { asked result ≡ clue_of number }
{
    if number == 0 {
        return Clue::Newest;
    }
    Clue::Sees {
        process: (number - 1) / 16 % 4,
        variable: (number - 1) / 4 % 4,
        value: ((number - 1) % 4) as u8,
    }
}

// The process p can come to see x in v. The newest message is looked at first, and the LastWrite of p and v last.
fn sees_value(cube: Cube, p: usize, v: usize, x: u8) -> bool
    requires count_bound { cube.count ≤ 20 }
    requires p_bound { p < 4 }
    requires v_bound { v < 4 }
    ensures { result ≡ true → (S : pws.Shape) → p < S.processes → v < S.variables → x < 4 → Sees S p v x (configuration_of cube).memory }
{
    let pointer = usize::from(cube.pointers[p]);
    if cube.count < pointer {
        return false;
    }
    for older in (0..cube.count).rev() {
        let message = cube.messages[older];
        if message.snapshot[v] == x {
            return true;
        }
        if older < pointer {
            return false;
        }
        if carries(message, p, v) {
            return false;
        }
    }
    false
}

// What a clue asks of a memory is met by that of a cube, whose newest values were looked at.
fn clue_met(shape: Shape, cube: Cube, clue: Clue) -> bool
    requires { cube.count ≤ 20 }
    ensures { result ≡ true → (e : Memory) → Clued (shape_of shape) newest e (configuration_of cube).memory → Clued (shape_of shape) (asked clue) e (configuration_of cube).memory }
{
    match clue {
        Clue::Newest => true,
        Clue::Sees {
            process,
            variable,
            value,
        } => {
            if shape.processes.min(4) <= process
                || shape.variables.min(4) <= variable
                || 4 <= value
            {
                return false;
            }
            sees_value(cube, process, variable, value)
        }
    }
}

// ---- the table: words 0 to 1,023 are entries of which a family is full, eight in a row for local states and empty
// queues that fall together; words 1,024 to 2,047 count entries; words 2,048 to 3,071 say which of their families are
// full. Where something stands changes only the speed. A word has its entry's number, counted from 1, in its lower 20
// bits. In the upper 12 it has a digest of that entry, which changes only the speed too: most cubes that are not in
// its family are told without looking into the file.

// The next two of eight bits.
fn next_pair(unit: usize) -> usize {
    (unit << 2 | unit >> 6) % 256
}

// The bit of a value that is not free, of the pair that `unit` begins.
fn value_bit(unit: usize, x: u8) -> usize {
    if x == 255 {
        return 0;
    }
    unit << x % 2
}

// The bits of the newest values: a pair for each variable.
fn newest_bits(variables: usize, values: [u8; 4]) -> usize {
    let mut unit = 1;
    let mut bits = 0;
    for x in &values[..variables.min(4)] {
        bits |= value_bit(unit, *x);
        unit = next_pair(unit);
    }
    bits
}

// The bit of the newest value that waits in a queue.
fn last_bit(unit: usize, queue: Queue) -> usize {
    let n = waiting(queue);
    if n == 0 {
        return 0;
    }
    value_bit(unit, queue.values[n - 1])
}

// A bit for each queue: does something wait there? And the bits of the newest waiting values, a pair for each queue,
// behind those of the variables.
#[derive(Clone, Copy)]
struct Waiting {
    busy: u64,
    bits: usize,
}

fn waiting_bits(shape: Shape, queues: [Queue; 16]) -> Waiting {
    let n = shape.processes.min(4);
    let m = shape.variables.min(4);
    let mut unit = 1 << (m << 1) % 8;
    let mut busy = 0;
    let mut bits = 0;
    for p in 0..n {
        for v in 0..m {
            let queue = queues[4 * p + v];
            if waiting(queue) == 0 {
                busy = busy << 1;
            } else {
                busy = busy << 1 ^ 1;
                bits |= last_bit(unit, queue);
            }
            unit = next_pair(unit);
        }
    }
    Waiting { busy, bits }
}

// What a cube is looked for by: the row in which full families with its local states and empty queues stand; bits of
// the number of its local states that the row has not; and the bits of its values. A cube in the family of an entry
// has the entry's mark and all of the entry's bits.
#[derive(Clone, Copy)]
struct Look {
    row: usize,
    mark: usize,
    bits: usize,
}

fn look_of(shape: Shape, cube: &Cube, values: [u8; 4]) -> Look
    ensures { result.row ≤ 1016 }
{
    let seen = waiting_bits(shape, cube.queues);
    let h = states_number(shape, cube.states);
    Look {
        row: (((h ^ seen.busy) % 128) as usize) << 3,
        mark: ((h / 128 % 16) as usize) << 8,
        bits: newest_bits(shape.variables, values) | seen.bits,
    }
}

// The family of a word may have the cube in it.
fn may_have(word: usize, mark: usize, bits: usize) -> bool {
    (word / 1048576 ^ mark) | bits == bits
}

// The cube is in a family that stands in the table.
pub fn in_full_family(table: &[u8], listing: &Listing, cube: Cube) -> bool
    ensures { result ≡ true → Recorded table.now listing.now.file.now listing.now.offsets.now listing.now.count listing.now.shape cube }
{
    if cube.count == 0 || 20 < cube.count {
        return false;
    }
    let values = newest_values(cube);
    let look = look_of(listing.shape, &cube, values);
    for at in look.row..look.row + 8 {
        let word = word_at(table, at);
        let x = word % 1048576;
        if x == 0 {
            return false;
        }
        if listing.count < x {
            return false;
        }
        if may_have(word, look.mark, look.bits)
            && in_family(listing, x - 1, &cube, values)
            && clue_met(listing.shape, cube, clue_at(word_at(table, 2048 + at)))
        {
            return true;
        }
    }
    false
}

// A word of the row at which nothing stands.
fn free_word(table: &[u8], row: usize) -> Option<usize>
    requires { row ≤ 1016 }
    ensures { IfSome result (λ at. at < 1024) }
{
    (row..row + 8).find(|at| word_at(table, *at) == 0)
}

// The family of entry k, which the cube is, and of this clue stands in the table from now on, if there is room in its
// row.
pub(crate) fn put_family(table: &mut [u8], shape: Shape, cube: Cube, k: usize, clue: Clue)
    ensures { (length table.new ≡ length table.old) × ((S : pws.Shape) (es : List Configuration) → FamilyHeld S es (asked clue) (entry es k) → Families S es table.old → Families S es table.new) }
{
    // no list has so many entries
    if 524288 <= k {
        return;
    }
    let Some(number) = stored(clue) else {
        return;
    };
    if table.len() < 12288 {
        return;
    }
    let look = look_of(shape, &cube, newest_values(cube));
    let digest = (look.mark | look.bits) % 4096;
    let Some(at) = free_word(table, look.row) else {
        return;
    };
    put_word(table, 2048 + at, number);
    put_word(table, at, k + 1 + (digest << 20));
}

// ---- how many entries of a family were met

// h with one byte more.
fn stirred(h: u64, x: u8) -> u64 {
    let a = h << 7 ^ h >> 13;
    a ^ h ^ u64::from(x)
}

fn with_queue(h: u64, queue: Queue) -> u64 {
    let mut all = stirred(h, queue.count);
    for x in &queue.values[..waiting(queue)] {
        all = stirred(all, *x);
    }
    all
}

// The word that counts the entries with the local states, waiting values and newest values of this one.
fn counter_of(shape: Shape, cube: Cube) -> usize
    ensures { (1024 ≤ result) × (result < 2048) }
{
    let mut h = states_number(shape, cube.states);
    for queue in &cube.queues[..4 * shape.processes.min(4)] {
        h = with_queue(h, *queue);
    }
    for x in newest_values(cube) {
        h = stirred(h, x);
    }
    let folded = h ^ h >> 32;
    let mixed = folded ^ folded >> 11;
    1024 + (mixed % 1024) as usize
}

// One entry more of its family: how many there are now.
pub(crate) fn count_member(table: &mut [u8], shape: Shape, cube: Cube) -> usize
    ensures { (length table.new ≡ length table.old) × ((S : pws.Shape) (es : List Configuration) → Families S es table.old → Families S es table.new) }
{
    let at = counter_of(shape, cube);
    let old = word_at(table, at);
    if 1048576 <= old {
        return old;
    }
    put_word(table, at, old + 1);
    old + 1
}
