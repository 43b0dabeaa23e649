// A step's letters: `t0`, `s01`, `u1`.
ghost use Rattle.std.specs.Prelude.{◌≡◌, ◌+◌, ◌≤◌, ◌<◌, length, Ok};
ghost use Rattle.drawing.specs.Reading.{is_digit_byte, is_small, value_at, third_digit, second_digit, number_at, variable_at, pair_at, process_at, label_at};

use crate::word::{Outside, has};
use base::bytes::byte_at;
use machine_pws::Step;

// An edge's step, and the place after what was read of it.
#[derive(Clone, Copy)]
pub struct Edge {
    pub step: Step,
    pub next: usize,
}

fn is_digit(text: &[u8], at: usize) -> bool
    ensures { result ≡ is_digit_byte text.now at }
{
    matches!(byte_at(text, at), b'0'..=b'9')
}

fn is_small(text: &[u8], at: usize) -> bool
    ensures { result ≡ is_small text.now at }
{
    matches!(byte_at(text, at), b'0'..=b'3')
}

fn value_at(text: &[u8], at: usize) -> usize
    ensures { (result ≡ value_at text.now at) × (result < 256) }
{
    usize::from(byte_at(text, at).saturating_sub(b'0'))
}

fn third_digit(text: &[u8], at: usize, b: usize) -> Edge
    requires { (at ≤ length text.now + 3) × (b < 5000) }
    ensures { Ok result ≡ third_digit text.now at b }
{
    let c = 10 * b + value_at(text, at);
    if is_digit(text, at) && c <= 255 {
        Edge {
            step: Step::Take { transition: c },
            next: at + 1,
        }
    } else {
        Edge {
            step: Step::Take { transition: b },
            next: at,
        }
    }
}

fn second_digit(text: &[u8], at: usize, a: usize) -> Edge
    requires { (at ≤ length text.now + 2) × (a < 256) }
    ensures { Ok result ≡ second_digit text.now at a }
{
    if a != 0 && is_digit(text, at) {
        return third_digit(text, at + 1, 10 * a + value_at(text, at));
    }
    Edge {
        step: Step::Take { transition: a },
        next: at,
    }
}

fn number_at(text: &[u8], at: usize) -> Result<Edge, Outside>
    requires { at ≤ length text.now + 1 }
    ensures { result ≡ number_at text.now at }
{
    if is_digit(text, at) {
        return Ok(second_digit(text, at + 1, value_at(text, at)));
    }
    Err(Outside { place: at })
}

fn variable_at(text: &[u8], at: usize, p: usize) -> Result<Edge, Outside>
    requires { at ≤ length text.now + 2 }
    ensures { result ≡ variable_at text.now at p }
{
    if is_small(text, at) {
        return Ok(Edge {
            step: Step::Serialise {
                process: p,
                variable: value_at(text, at),
            },
            next: at + 1,
        });
    }
    Err(Outside { place: at })
}

fn pair_at(text: &[u8], at: usize) -> Result<Edge, Outside>
    requires { at ≤ length text.now + 1 }
    ensures { result ≡ pair_at text.now at }
{
    if is_small(text, at) {
        return variable_at(text, at + 1, value_at(text, at));
    }
    Err(Outside { place: at })
}

fn process_at(text: &[u8], at: usize) -> Result<Edge, Outside>
    requires { at ≤ length text.now + 1 }
    ensures { result ≡ process_at text.now at }
{
    if is_small(text, at) {
        return Ok(Edge {
            step: Step::Update {
                process: value_at(text, at),
            },
            next: at + 1,
        });
    }
    Err(Outside { place: at })
}

pub(crate) fn label_at(text: &[u8], at: usize) -> Result<Edge, Outside>
    requires { at ≤ length text.now }
    ensures { result ≡ label_at text.now at }
{
    if has(text, at, b't') {
        return number_at(text, at + 1);
    }
    if has(text, at, b's') {
        return pair_at(text, at + 1);
    }
    if has(text, at, b'u') {
        return process_at(text, at + 1);
    }
    Err(Outside { place: at })
}
