// Slots of a summary, two words of four bytes each: the first link of a chain, the link after an entry, and the
// number in a group or a signature. Places, links and digits are made by adding and shifting: no product stands in
// this crate (request N4).
ghost use Rattle.std.specs.Prelude.{◌≡◌, ℕ, suc, ◌+◌, ◌*◌, ◌/◌, ◌%◌, ◌^◌, ◌≤◌, ◌<◌, length, eqb};
ghost use Rattle.std.specs.Int.Bits.{bit_or};
ghost use Rattle.base.specs.Bytes.{le32};
ghost use Rattle.list_key.specs.Number.{signature_in};
ghost use Rattle.list_summary.specs.Slots.{word, put_word, linked, entry_in, marked, link_to, head_link, next_link, field_at, count_at, signature_at, with_link, with_digit, hung, put_field, home_of, mark_in};

use base::bytes::store_number;
use base::places::{slot_word, word_place};

// ---- words

// Four bytes as a number, least significant first.
fn four_bytes(sum: &[u8], at: usize) -> usize
    requires { at + 4 ≤ length sum.now }
    ensures value { result ≡ le32 sum.now at }
    ensures upper_bound { result < 4294967296 }
{
    usize::from(sum[at])
        + (usize::from(sum[at + 1]) << 8)
        + (usize::from(sum[at + 2]) << 16)
        + (usize::from(sum[at + 3]) << 24)
}

pub fn word_at(sum: &[u8], i: usize) -> usize
    ensures value { result ≡ word sum.now i }
    ensures upper_bound { result < 4294967296 }
{
    if sum.len() / 4 <= i {
        return 0;
    }
    four_bytes(sum, word_place(i))
}

pub fn put_word(sum: &mut [u8], i: usize, x: usize)
    ensures { sum.new ≡ put_word sum.old i x }
{
    if sum.len() / 4 <= i {
        return;
    }
    store_number(sum, word_place(i), x);
}

// ---- the two words of slot k: the low one, 0, and the high one, 1

fn half_at(sum: &[u8], k: usize, half: usize) -> usize
    requires { half < 2 }
    ensures value { result ≡ word sum.now (2 * k + half) }
    ensures upper_bound { result < 4294967296 }
{
    if sum.len() / 8 < k {
        return 0;
    }
    word_at(sum, slot_word(k) + half)
}

fn put_half(sum: &mut [u8], k: usize, half: usize, x: usize)
    requires { half < 2 }
    ensures { sum.new ≡ put_word sum.old (2 * k + half) x }
{
    if sum.len() / 8 < k {
        return;
    }
    put_word(sum, slot_word(k) + half, x);
}

// ---- links

// The entry that a link leads to: links count entries from 1.
pub(crate) fn entry_in(link: usize) -> Option<usize>
    ensures { result ≡ entry_in (linked link) }
{
    (link % 1048576).checked_sub(1)
}

pub(crate) fn marked(link: usize) -> usize
    ensures { result ≡ marked link }
{
    link / 1048576
}

// A link to entry k with a mark.
fn link_to(k: usize, mark: usize) -> usize
    requires { (k < 1048575) × (mark < 4) }
    ensures { (result ≡ link_to k mark) × (result < 4194304) }
{
    k + 1 + (mark << 20)
}

// A word with another link, and with another digit of a field.
fn with_link(w: usize, link: usize) -> usize
    requires { link < 4194304 }
    ensures { result ≡ with_link w link }
{
    (w / 4194304 % 1024 << 22) + link
}

fn with_digit(w: usize, digit: usize) -> usize
    requires { digit < 1024 }
    ensures { result ≡ with_digit w digit }
{
    w % 4194304 + (digit << 22)
}

// ---- slots

pub(crate) fn head_link(sum: &[u8], k: usize) -> usize
    ensures value { result ≡ head_link sum.now k }
    ensures upper_bound { result < 4194304 }
{
    half_at(sum, k, 0) % 4194304
}

// The link after entry k.
pub(crate) fn next_link(sum: &[u8], k: usize) -> usize
    ensures { result ≡ next_link sum.now k }
{
    half_at(sum, k, 1) % 4194304
}

// The field of slot k: a number, or a signature.
fn field_at(sum: &[u8], k: usize) -> usize
    ensures value { result ≡ field_at sum.now k }
    ensures upper_bound { result < 1048576 }
{
    half_at(sum, k, 0) / 4194304 % 1024 + (half_at(sum, k, 1) / 4194304 % 1024 << 10)
}

// The number in the group that entry k leads; 0 if it leads none.
pub fn count_at(sum: &[u8], k: usize) -> usize
    ensures value { result ≡ count_at sum.now k }
    ensures upper_bound { result < 1048576 }
{
    let x = field_at(sum, k);
    if x < 786432 { x } else { 0 }
}

// The signature of entry k has no bit that is not one of these.
pub(crate) fn fits_at(sum: &[u8], k: usize, bits: usize) -> bool
    ensures { result ≡ eqb (bit_or (signature_at sum.now k) bits) bits }
{
    field_at(sum, k) % 262144 | bits == bits
}

// Entry k becomes the first of a chain.
pub(crate) fn hang(sum: &mut [u8], home: usize, k: usize, mark: usize)
    requires { (k < 1048575) × (mark < 4) }
    ensures { sum.new ≡ hung sum.old home k mark }
{
    let old = head_link(sum, home);
    let first = half_at(sum, home, 0);
    put_half(sum, home, 0, with_link(first, link_to(k, mark)));
    let own = half_at(sum, k, 1);
    put_half(sum, k, 1, with_link(own, old));
}

pub(crate) fn put_field(sum: &mut [u8], k: usize, x: usize)
    ensures { sum.new ≡ put_field sum.old k x }
{
    let low = half_at(sum, k, 0);
    put_half(sum, k, 0, with_digit(low, x % 1024));
    let high = half_at(sum, k, 1);
    put_half(sum, k, 1, with_digit(high, x / 1024 % 1024));
}

// ---- chains

// Where a number belongs in a table of n chains.
pub(crate) fn home_of(number: u64, n: usize) -> usize
    ensures { result ≡ home_of number n }
{
    if n < 2 {
        return 0;
    }
    let shift = ((n - 1) as u64).leading_zeros();
    let y = (number >> shift) as usize;
    if y < n {
        return y;
    }
    if y - n < n {
        return y - n;
    }
    0
}

pub(crate) fn mark_of(number: u64) -> usize
    ensures value { result ≡ mark_in number }
    ensures upper_bound { result < 4 }
{
    (number % 4) as usize
}

// The signature in a number.
pub(crate) fn signature_in(number: u64) -> usize
    ensures value { result ≡ signature_in number }
    ensures upper_bound { result < 262144 }
{
    (number / 4 % 262144) as usize
}

// The first link of the chain of a number.
pub(crate) fn first_link(sum: &[u8], n: usize, number: u64) -> usize
    ensures { result ≡ head_link sum.now (home_of number n) }
{
    head_link(sum, home_of(number, n))
}
