// The signature of a cube: bits for where it has values and messages without a role. An entry that covers a cube has no bit that the cube has
// not, so most entries with a cube's key are told from it by one number.
ghost use Rattle.std.specs.Prelude.{◌≡◌, cond, ◌+◌, ◌≤◌, ◌<◌, min, eqb, ltb, leb};
ghost use Rattle.std.specs.Int.Bits.{bit_or};
ghost use Rattle.file_contents.specs.Cube.{waiting_of};
ghost use Rattle.list_key.specs.Signature.{FreeWord, bit_at, value_bit, value_bits, message_bits, wait_bits};

use crate::values::{waiting, word};
use file_contents::entry::Queue;
use machine_pws::Message;

fn bit_at(k: usize) -> usize
    ensures { result ≡ bit_at k }
{
    1 << k % 16
}

// A value that is not free.
#[tactic(auto, unfolding(crate::specs::Signature::value_bit))]
fn value_bit(base: usize, x: u8) -> usize
    requires { base ≤ 100 }
    ensures { result ≡ value_bit base x }
{
    if x == 255 {
        return 0;
    }
    bit_at(base + usize::from(x))
}

// Four values as a number, where all of the first n are free and the others 0.
fn free_word(n: usize) -> usize
    requires { n ≤ 4 }
    ensures { FreeWord n result }
{
    match n {
        1 => 255,
        2 => 65535,
        3 => 16777215,
        4 => 4294967295,
        // no four bytes are so much
        _ => 4294967296,
    }
}

fn value_bits(variables: usize, base: usize, values: [u8; 4]) -> usize
    requires { base ≤ 60 }
    ensures { result ≡ value_bits (min variables 4) base values }
{
    let n = variables.min(4);
    // most messages of a cube are free
    if word(values[0], values[1], values[2], values[3]) == free_word(n) {
        return 0;
    }
    let mut bits = 0;
    for v in 0..n {
        bits |= value_bit(base + 5 * v, values[v]);
    }
    bits
}

// A message, past r newer ones with a role.
fn message_bits(variables: usize, r: usize, role: bool, message: Message) -> usize
    requires { r ≤ 20 }
    ensures { result ≡ message_bits (min variables 4) r role message }
{
    if role {
        return value_bits(variables, r, message.snapshot);
    }
    let label = 4 * usize::from(message.process) + usize::from(message.variable);
    value_bits(variables, r + 9, message.snapshot) | bit_at(3 * r + label + 2)
}

fn last_bit(x: u8) -> usize
    ensures { result ≡ cond (eqb x 255) 0 65536 }
{
    if x == 255 { 0 } else { 65536 }
}

fn long_bit(n: usize) -> usize
    ensures { result ≡ cond (ltb n 2) 0 131072 }
{
    if n < 2 { 0 } else { 131072 }
}

// A newest value that is not free, and whether two values wait.
pub(crate) fn wait_bits(queue: Queue) -> usize
    ensures { result ≡ wait_bits (waiting_of queue) }
{
    let n = waiting(queue);
    if n == 0 {
        return 0;
    }
    last_bit(queue.values[n - 1]) | long_bit(n)
}

// With the bits of message i + 1, past r newer ones with a role, if it is not before the lowest pointer.
pub(crate) fn with_message(
    variables: usize,
    low: usize,
    i: usize,
    r: usize,
    role: bool,
    message: Message,
    bits: usize,
) -> usize
    requires { (r ≤ 20) × (i < 20) }
    ensures { result ≡ cond (leb low (i + 1)) (bit_or bits (message_bits (min variables 4) r role message)) bits }
{
    if i + 1 < low {
        return bits;
    }
    bits | message_bits(variables, r, role, message)
}
