// Entries join a summary one after another.
ghost use Rattle.std.specs.Prelude.{◌≡◌, ◌++◌, ℕ, ◌≤◌, ◌<◌, length, take, drop};
ghost use Rattle.list_summary.specs.Slots.{hung, put_field, home_of, mark_in};
ghost use Rattle.list_summary.specs.Groups.{states_at, joined_at, added, summarised, Joins};

use crate::listing::Listing;
use crate::slots::{count_at, hang, home_of, mark_of, put_field, signature_in};
use base::bytes::four_at;
use file_again::offset_at;
use file_records::program::Shape;
use list_key::{number_of, states_number, tags_of};

// The local states of entry k.
pub fn states_at(file: &[u8], list: &[u8], shape: Shape, k: usize) -> [u8; 4]
    ensures { result ≡ states_at file.now list.now shape k }
{
    four_at(file, offset_at(list, k), 1)
}

// Entry k is the first of its group.
fn join_first(sum: &mut [u8], number: u64, n: usize, k: usize)
    requires { (k < n) × (n ≤ 524288) }
    ensures { sum.new ≡ put_field (hung sum.old (home_of number n) k (mark_in number)) k 1 }
{
    hang(sum, home_of(number, n), k, mark_of(number));
    put_field(sum, k, 1);
}

// Entry k joins the group that entry j leads.
fn join_group(sum: &mut [u8], j: usize, number: u64, n: usize, k: usize)
    requires { (k < n) × (n ≤ 524288) × (j < 1048575) }
    ensures { sum.new ≡ joined_at sum.old j number n k }
{
    let old = count_at(sum, j);
    put_field(sum, j, old + 1);
    hang(sum, home_of(number, n), k, mark_of(number));
    put_field(sum, k, 786432 + signature_in(number));
}

// Where an entry joins: the first entry of its group, unless it is the first itself; and the number of its chain.
#[derive(Clone, Copy)]
struct Joining {
    leader: Option<usize>,
    number: u64,
}

// Where entry k joins those before it.
fn place_of(listing: &Listing, k: usize) -> Joining
    ensures { Joins listing.now.file.now listing.now.offsets.now listing.now.shape listing.now.summary.now listing.now.count k result.leader result.number }
{
    let shape = listing.shape;
    let cube = listing.entry(k);
    let leader = listing.leader_of(cube.states);
    if leader.is_none() {
        return Joining {
            leader,
            number: states_number(shape, cube.states),
        };
    }
    let tags = tags_of(shape, cube);
    // an entry's cues are not looked at
    let mut cues = [0usize; 20];
    Joining {
        leader,
        number: number_of(shape, cube, &tags, &mut cues),
    }
}

// Entry k joins the summary of those before it. The offsets stand below `at`, the summary from there on.
fn add_entry(file: &[u8], upper: &mut [u8], at: usize, n: usize, shape: Shape, k: usize)
    requires { (at ≤ length upper.old) × (k < n) × (n ≤ 524288) }
    ensures { upper.new ≡ take at upper.old ++ added file.now (take at upper.old) shape (drop at upper.old) n k }
{
    let (offsets, summary) = upper.split_at(at);
    let before = Listing {
        file,
        offsets,
        summary,
        count: n,
        shape,
    };
    let place = place_of(&before, k);
    match place.leader {
        None => join_first(&mut upper[at..], place.number, n, k),
        Some(j) => join_group(&mut upper[at..], j, place.number, n, k),
    }
}

// The summary of n entries, in bytes that were 0.
pub fn summarise(file: &[u8], upper: &mut [u8], at: usize, n: usize, shape: Shape)
    ensures { upper.new ≡ summarised file.now shape at n upper.old }
{
    if upper.len() < at || (upper.len() - at) / 8 < n || 524288 < n {
        return;
    }
    for k in 0..n {
        add_entry(file, upper, at, n, shape, k);
    }
}
