// A year of verdicts in exact fractions (document 02, N11). What the figures mean stands in specs/Results.antt, what each function answers in
// specs/Collections.antt.
//
// Nothing overflows 64 bits. A plausible collection has at most 4,096 = 2^12 results, of at most 524,288 = 2^19 entries each: the sum is at
// most 2^31, the squares add up to at most 2^50, and both products of the variance are at most 2^62. Every other collection is refused before
// it is used, and its own test goes from the counts up, so that each product is made of numbers that are already known to be small.
#![tactic(auto)]

ghost use Rattle.std.specs.Prelude.{◌≡◌, ◌<◌};
ghost use Rattle.figures.specs.Collections.{plausible, has_room, add_safe, add_other, join, gcd, reduced, refusal_of, mean_of, variance_of, share_of};

const MOST_RESULTS: u64 = 4096;

const MOST_ENTRIES: u64 = 524288;

// Counts of results: all, the safe ones, their entries, the squares of their entries. All 0 is the empty collection.
#[repr(C)]
#[derive(Clone, Copy)]
pub struct Collection {
    pub results: u64,
    pub safe: u64,
    pub sum: u64,
    pub squares: u64,
}

// number 0, and the collection after an addition; or 25, and the collection as it was.
#[repr(C)]
#[derive(Clone, Copy)]
pub struct Collected {
    pub number: u64,
    pub collection: Collection,
}

// number 0, and a fraction in lowest terms; or 24 or 25, then 0 and 0.
#[repr(C)]
#[derive(Clone, Copy)]
pub struct Fraction {
    pub number: u64,
    pub numerator: u64,
    pub denominator: u64,
}

// ---- collections

// What holds of every collection that additions made.
fn is_plausible(c: Collection) -> bool
    ensures { result ≡ plausible c }
{
    c.results <= MOST_RESULTS
        && c.safe <= c.results
        && c.sum <= c.safe * MOST_ENTRIES
        && c.squares <= c.sum * MOST_ENTRIES
        && c.sum * c.sum <= c.safe * c.squares
}

// One more result is allowed.
fn has_room(c: Collection) -> bool
    ensures { result ≡ has_room c }
{
    is_plausible(c) && c.results < MOST_RESULTS
}

fn unchanged(c: Collection) -> Collected
    ensures { result ≡ record { number = 25; collection = c } }
{
    Collected {
        number: 25,
        collection: c,
    }
}

pub fn add_safe(c: Collection, entries: u64) -> Collected
    ensures { result ≡ add_safe c entries }
{
    let is_long = MOST_ENTRIES < entries;
    if is_long || !has_room(c) {
        return unchanged(c);
    }
    let next = Collection {
        results: c.results + 1,
        safe: c.safe + 1,
        sum: c.sum + entries,
        squares: c.squares + entries * entries,
    };
    Collected {
        number: 0,
        collection: next,
    }
}

pub fn add_other(c: Collection) -> Collected
    ensures { result ≡ add_other c }
{
    if !has_room(c) {
        return unchanged(c);
    }
    let next = Collection {
        results: c.results + 1,
        ..c
    };
    Collected {
        number: 0,
        collection: next,
    }
}

// Refused, the first one is handed back.
pub fn join(a: Collection, b: Collection) -> Collected
    ensures { result ≡ join a b }
{
    if !is_plausible(a) || !is_plausible(b) {
        return unchanged(a);
    }
    let are_many = MOST_RESULTS < a.results + b.results;
    if are_many {
        return unchanged(a);
    }
    let next = Collection {
        results: a.results + b.results,
        safe: a.safe + b.safe,
        sum: a.sum + b.sum,
        squares: a.squares + b.squares,
    };
    Collected {
        number: 0,
        collection: next,
    }
}

// ---- fractions

// Euclid's algorithm.
fn gcd(a: u64, b: u64) -> u64
    ensures { result ≡ gcd a b }
{
    let (mut x, mut y) = (a, b);
    while y != 0 {
        (x, y) = (y, x % y);
    }
    x
}

fn refused(number: u64) -> Fraction
    ensures { result ≡ record { number = number; numerator = 0; denominator = 0 } }
{
    Fraction {
        number,
        numerator: 0,
        denominator: 0,
    }
}

// 25 of a collection that is not plausible; 24 if there is nothing to divide by.
fn refusal(c: Collection, count: u64) -> Option<u64>
    ensures { result ≡ refusal_of (plausible c) count }
{
    if !is_plausible(c) {
        return Some(25);
    }
    if count == 0 { Some(24) } else { None }
}

fn reduced(x: u64, y: u64) -> Fraction
    requires { 0 < y }
    ensures { result ≡ reduced x y }
{
    let divisor = gcd(x, y);
    Fraction {
        number: 0,
        numerator: x / divisor,
        denominator: y / divisor,
    }
}

pub fn mean(c: Collection) -> Fraction
    ensures { result ≡ mean_of c }
{
    match refusal(c, c.safe) {
        Some(number) => refused(number),
        None => reduced(c.sum, c.safe),
    }
}

// The difference is not negative: that is part of being plausible.
pub fn variance(c: Collection) -> Fraction
    ensures { result ≡ variance_of c }
{
    match refusal(c, c.safe) {
        Some(number) => refused(number),
        None => reduced(c.safe * c.squares - c.sum * c.sum, c.safe * c.safe),
    }
}

pub fn share(c: Collection) -> Fraction
    ensures { result ≡ share_of c }
{
    match refusal(c, c.results) {
        Some(number) => refused(number),
        None => reduced(c.safe, c.results),
    }
}
