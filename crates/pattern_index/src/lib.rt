// Patterns found by their local states, in eight bytes for each pattern. Whatever bytes the table holds, a walk over it ends, and what it leads to is held
// against the file: a table that came back changed can't make a wrong cover.
#![tactic(auto)]

ghost use Rattle.std.specs.Prelude.{◌≡◌, ◌+◌, ◌*◌, ◌≤◌, ◌<◌, min, length, get_or, take, drop, IfSome};
ghost use Rattle.machine_pws.specs.Machine.{all_below};
ghost use Rattle.list_key.specs.Number.{states_mixed};
ghost use Rattle.list_summary.specs.Slots.{word, put_word};
ghost use Rattle.list_summary.specs.Groups.{states_at};
ghost use Rattle.pattern_index.specs.Index.{falling, chain_of, link_of, first_of, next_of, value_holds, values_at, head_holds, hung_on, hung_in, indexed_in};

use base::below::all_below;
use base::bytes::four_at;
use base::places::slot_word;
use file_again::offset_at;
use file_records::program::Shape;
use list_key::{states_match, states_number};
use list_summary::{put_word, states_at, word_at};

// A link counts from 1, as in the table; 0 is none.
fn falling(below: usize, link: usize) -> usize
    ensures value { result ≡ falling below link }
    ensures upper_bound { result ≤ below }
{
    if link <= below { link } else { 0 }
}

fn chain_of(number: u64, n: usize) -> usize
    ensures { result ≡ chain_of number n }
{
    if n == 0 {
        return 0;
    }
    (number % (n as u64)) as usize
}

// ---- the two words of a slot: the first pattern of its chain, and the one after its pattern

const HEAD: usize = 0;

const LINK: usize = 1;

fn slot_at(sum: &[u8], k: usize, part: usize) -> usize
    requires { part ≤ 1 }
    ensures { result ≡ word sum.now (2 * k + part) }
{
    if sum.len() / 8 < k {
        return 0;
    }
    word_at(sum, slot_word(k) + part)
}

fn put_slot(sum: &mut [u8], k: usize, part: usize, x: usize)
    requires { part ≤ 1 }
    ensures { sum.new ≡ put_word sum.old (2 * k + part) x }
{
    if sum.len() / 8 < k {
        return;
    }
    put_word(sum, slot_word(k) + part, x);
}

// ---- walking

// The first of n patterns on the chain of a number.
pub fn first_of(sum: &[u8], n: usize, number: u64) -> Option<usize>
    ensures value { link_of result ≡ first_of sum.now n number }
    ensures upper_bound { IfSome result (λ k. k < n) }
{
    falling(n, slot_at(sum, chain_of(number, n), HEAD)).checked_sub(1)
}

// The pattern after pattern k. It is below pattern k.
pub fn next_of(sum: &[u8], k: usize) -> Option<usize>
    ensures value { link_of result ≡ next_of sum.now k }
    ensures upper_bound { IfSome result (λ j. j < k) }
{
    falling(k, slot_at(sum, k, LINK)).checked_sub(1)
}

// ---- what a 13 says of its pattern, before the rest of it is looked at

fn value_holds(x: u8, y: u8) -> bool
    ensures { result ≡ value_holds x y }
{
    y == 255 || x == y
}

// The first n of four values.
fn values_hold(n: usize, newest: [u8; 4], values: [u8; 4]) -> bool
    ensures { result ≡ all_below (min n 4) (λ v. value_holds (get_or newest v 0) (get_or values v 0)) }
{
    all_below(n.min(4), |v| value_holds(newest[v], values[v]))
}

fn values_at(file: &[u8], list: &[u8], k: usize) -> [u8; 4]
    ensures { result ≡ values_at file.now list.now k }
{
    four_at(file, offset_at(list, k), 5)
}

// Pattern k has these local states, and asks the newest message for none but these values, FF for none. Most patterns are told apart by these eight bytes.
pub fn head_holds(
    file: &[u8],
    list: &[u8],
    shape: Shape,
    states: [u8; 4],
    newest: [u8; 4],
    k: usize,
) -> bool
    ensures { result ≡ head_holds shape file.now list.now states newest k }
{
    states_match(shape.processes, states, states_at(file, list, shape, k))
        && values_hold(shape.variables, newest, values_at(file, list, k))
}

// ---- adding

// Pattern k becomes the first of chain h.
fn hang(sum: &mut [u8], h: usize, k: usize)
    requires { k < 524288 }
    ensures { sum.new ≡ hung_on sum.old h k }
{
    let old = falling(k, slot_at(sum, h, HEAD));
    put_slot(sum, h, HEAD, k + 1);
    put_slot(sum, k, LINK, old);
}

// The chain of pattern k, whose offset stands below `at`.
fn chain_at(file: &[u8], upper: &[u8], at: usize, n: usize, shape: Shape, k: usize) -> usize
    requires { at ≤ length upper.now }
    ensures { result ≡ chain_of (states_mixed shape (states_at file.now (take at upper.now) shape k)) n }
{
    let states = states_at(file, &upper[..at], shape, k);
    chain_of(states_number(shape, states), n)
}

fn add_pattern(file: &[u8], upper: &mut [u8], at: usize, n: usize, shape: Shape, k: usize)
    requires { (at ≤ length upper.old) × (k < 524288) }
    ensures { upper.new ≡ hung_in file.now shape at n upper.old k }
{
    let h = chain_at(file, upper, at, n, shape, k);
    hang(&mut upper[at..], h, k);
}

// The table of n patterns. The offsets stand below `at`, the table from there on.
pub fn index_patterns(file: &[u8], upper: &mut [u8], at: usize, n: usize, shape: Shape)
    ensures { upper.new ≡ indexed_in file.now shape at n upper.old }
{
    if upper.len() < at {
        return;
    }
    if (upper.len() - at) / 8 < n {
        return;
    }
    if 524288 < n {
        return;
    }
    for k in 0..n {
        add_pattern(file, upper, at, n, shape, k);
    }
}
