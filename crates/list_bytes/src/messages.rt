// The 11s of an entry against the messages of a cube.
ghost use Rattle.std.specs.Prelude.{◌≡◌, true, false, [], ◌∷◌, ℕ, ◌+◌, ◌*◌, ◌/◌, ◌%◌, ◌≤◌, ◌<◌, min, length, replicate, IfSome};
ghost use Rattle.base.specs.Bytes.{byte};
ghost use Rattle.file_records.specs.Records.{message_at};
ghost use Rattle.machine_pws.specs.declared.Message.{Message as Messages};
ghost use Rattle.file_contents.specs.declared.entry.Cube.{Cube as Cubes};
ghost use Rattle.file_contents.specs.Cube.{loads_waiting};
ghost use Rattle.list_theory.specs.Matching.{message_matches};
ghost use Rattle.list_key.specs.Relation.{relation};
ghost use Rattle.list_key.specs.Match.{channel_matches};
ghost use Rattle.list_key.specs.Cue.{Cue};
ghost use Rattle.list_bytes.specs.Same.{Leads, Kinds, Stands, PointsWithin, Pointing};
ghost use Rattle.list_bytes.specs.Against.{Against};

use base::below::all_below;
use base::bytes::cut;
use file_contents::entry::Cube;
use file_records::program::Shape;
use list_key::{values_related, word};

// A 12 of the entry stands there.
#[tactic(auto, using(crate::proofs::SameLaws::not_cut))]
fn waits_on(file: &[u8], k: usize) -> bool
    ensures { result ≡ true → (loads_waiting file.now k ≡ true) × (k + 4 ≤ length file.now) }
{
    if cut(file, k, 3) {
        return false;
    }
    file[k] == 18 && (file[k + 1] < 4 && file[k + 2] < 4)
}

// Seven bytes before the first 11 of the entry whose 10 stands at a place: behind its 12s, if these stand first.
pub(crate) fn before_messages(file: &[u8], at: usize) -> usize
    requires { at + 9 ≤ length file.now }
    ensures { (result + 7 ≤ length file.now) × Leads file.now at (result + 7) }
{
    let mut back = at + 2;
    while waits_on(file, back + 7) {
        back += 4;
    }
    back
}

// How many 11s stand there, up to n.
pub(crate) fn messages_at(file: &[u8], back: usize, n: usize) -> usize
    requires { back + 14 + 7 * n ≤ length file.now }
    ensures { (result ≤ n) × Kinds file.now back result }
{
    let mut m = 0;
    let mut k = back + 7;
    while m < n && file[k] == 17 {
        m += 1;
        k += 7;
    }
    m
}

fn pointers_at(file: &[u8], at: usize) -> [u8; 4]
    requires { at + 9 ≤ length file.now }
    ensures { result ≡ byte file.now (at + 5) ∷ byte file.now (at + 6) ∷ byte file.now (at + 7) ∷ byte file.now (at + 8) ∷ [] }
{
    [file[at + 5], file[at + 6], file[at + 7], file[at + 8]]
}

// Each pointer is at one of m messages.
fn points_within(processes: usize, pointers: [u8; 4], m: usize) -> bool
    ensures { result ≡ true → PointsWithin processes pointers m }
{
    all_below(processes.min(4), |p| {
        0 < pointers[p] && usize::from(pointers[p]) <= m
    })
}

// Who points at each message: 1 for the first process, 2 for the next, then 4 and 8, added up. A pointer past 20 counts at 21. The table is filled where it
// stands, since a copy of it would have to wait for its bytes.
fn pointing(processes: usize, pointers: [u8; 4], who: &mut [u8])
    requires { who.old ≡ replicate 22 0 }
    ensures { Pointing (min processes 4) pointers who.new }
{
    let mut one = 1;
    for p in 0..processes.min(4) {
        let z = usize::from(pointers[p]).min(21);
        who[z] += one;
        one += one;
    }
}

// The four bytes that a number has.
fn bytes_of(x: usize) -> [u8; 4]
    ensures { result ≡ x % 256 ∷ x / 256 % 256 ∷ x / 65536 % 256 ∷ x / 16777216 % 256 ∷ [] }
{
    [
        (x % 256) as u8,
        (x / 256 % 256) as u8,
        (x / 65536 % 256) as u8,
        (x / 16777216 % 256) as u8,
    ]
}

// The 11 at a place has the label of the message that a cue tells, and values that are related to its own.
fn meets(exact: bool, file: &[u8], k: usize, cue: usize) -> bool
    requires { k + 7 ≤ length file.now }
    ensures { (m : Messages) → (tag : ℕ) → Cue cue m tag → result ≡ message_matches (relation exact) (message_at file.now k) m }
{
    let label = word(file[k + 1], file[k + 2], 0, 0);
    let rest = word(file[k + 3], file[k + 4], file[k + 5], file[k + 6]);
    let other = cue / 2;
    // most often they are the same, and one comparison says so
    if label + 65536 * rest == other {
        return true;
    }
    if label != other % 65536 {
        return false;
    }
    let values = [file[k + 3], file[k + 4], file[k + 5], file[k + 6]];
    values_related(exact, values, bytes_of(other / 65536))
}

// The i-th 11 of the entry can stand for the message that a cue tells, if the same processes point at both.
fn stands_for(exact: bool, file: &[u8], back: usize, i: usize, cue: usize, pointed: bool) -> bool
    requires i_in_bounds { back + 7 + 7 * i ≤ length file.now }
    requires i_bound { i ≤ 20 }
    ensures le_i { result ≡ true → 1 ≤ i }
    ensures by_index { (m : Messages) → (tag : ℕ) → Cue cue m tag → result ≡ true → message_matches (relation exact) (message_at file.now (back + 7 * i)) m ≡ true }
    ensures pointed_value { result ≡ true → pointed ≡ true }
    ensures by_index_2 { (m : Messages) → (tag : ℕ) → Cue cue m tag → result ≡ false → 1 ≤ i → message_matches (relation exact) (message_at file.now (back + 7 * i)) m ≡ true → pointed ≡ false }
{
    if i == 0 {
        return false;
    }
    meets(exact, file, back + 7 * i, cue) && pointed
}

// The m 11s behind a place, of the entry whose 10 stands at another, newest first: each stands for the newest message of the cube that is left and that it can stand for. If one
// is left over, the entry does not match. If none is, every message with a role has one that stands for it and the pointers are at these 11s, it does.
pub(crate) fn channel_at(
    exact: bool,
    file: &[u8],
    at: usize,
    back: usize,
    m: usize,
    shape: Shape,
    cube: Cube,
    cues: &[usize; 20],
) -> Option<bool>
    requires at_in_bounds { at + 9 ≤ length file.now }
    requires m_in_bounds { back + 7 + 7 * m ≤ length file.now }
    requires m_bound { m ≤ 20 }
    ensures { IfSome result (λ related. (e : Cubes) → Stands file.now at back m e → Against shape cube cues.now → (related ≡ true → e.count ≡ m → channel_matches shape exact e cube ≡ true) × (related ≡ false → channel_matches shape exact e cube ≡ false)) }
{
    let pointers = pointers_at(file, at);
    let mut theirs = [0u8; 22];
    pointing(shape.processes, pointers, &mut theirs);
    let mut ours = [0u8; 22];
    pointing(shape.processes, cube.pointers, &mut ours);
    // every message counts if a process is at the first
    if theirs[1] == 0 {
        return None;
    }
    let mut all = true;
    let mut i = m;
    let mut j = cube.count.min(20);
    loop {
        if j < i {
            return Some(false);
        }
        if j == 0 {
            break;
        }
        let cue = cues[j - 1];
        if stands_for(exact, file, back, i, cue, theirs[i] == ours[j]) {
            i -= 1;
        } else {
            all &= cue % 2 == 0;
        }
        j -= 1;
    }
    if !all || !points_within(shape.processes, pointers, m) {
        return None;
    }
    Some(true)
}
