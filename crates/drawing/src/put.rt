// The parts of a drawing's text, put into a lent slice.
ghost use Rattle.std.specs.Prelude.{◌≡◌, ◌++◌, ◌+◌, ◌≤◌, ◌<◌, length, drop};
ghost use Rattle.drawing.specs.Text.{decimal, letters, node_line};
ghost use Rattle.drawing.specs.Runs.{StepInRange, step_in_range};
ghost use Rattle.drawing.specs.Writing.{shown};
ghost use Rattle.drawing.specs.Parts.{Put, edge_head};

use machine_pws::Step;

// A drawing's first line.
pub(crate) const OPENING: &[u8] = b"digraph run {\n";

// The word goes to a place in the slice, and the place after it is handed back.
pub fn put(out: &mut [u8], at: usize, word: &[u8]) -> usize
    requires { at + length word.now ≤ length out.old }
    ensures { Put out.old out.new at result word.now }
{
    let next = at + word.len();
    out[at..next].copy_from_slice(word);
    next
}

fn digit(d: usize) -> u8
    requires { d < 10 }
    ensures { result ≡ 48 + d }
{
    b'0' + d as u8
}

// A number in decimal.
fn put_number(out: &mut [u8], at: usize, n: usize) -> usize
    requires { (n < 10000) × (at + length (decimal n) ≤ length out.old) }
    ensures { Put out.old out.new at result (decimal n) }
{
    if n < 10 {
        return put(out, at, &[digit(n)]);
    }
    let m = n / 10;
    if n < 100 {
        return put(out, at, &[digit(m), digit(n % 10)]);
    }
    let l = m / 10;
    if n < 1000 {
        return put(out, at, &[digit(l), digit(m % 10), digit(n % 10)]);
    }
    put(
        out,
        at,
        &[digit(l / 10), digit(l % 10), digit(m % 10), digit(n % 10)],
    )
}

// How many digits it has.
pub(crate) fn number_length(n: usize) -> usize
    requires { n < 10000 }
    ensures { result ≡ length (decimal n) }
{
    match n {
        0..=9 => 1,
        10..=99 => 2,
        100..=999 => 3,
        _ => 4,
    }
}

// The letters of a step: `t0`, `s01`, `u1`.
pub(crate) fn put_letters(out: &mut [u8], at: usize, step: Step) -> usize
    requires { StepInRange step × (at + length (letters step) ≤ length out.old) }
    ensures { Put out.old out.new at result (letters step) }
{
    match step {
        Step::Take { transition } => {
            let next = put(out, at, b"t");
            put_number(out, next, transition)
        }
        Step::Serialise { process, variable } => {
            put(out, at, &[b's', digit(process), digit(variable)])
        }
        Step::Update { process } => put(out, at, &[b'u', digit(process)]),
    }
}

pub(crate) fn letters_length(step: Step) -> usize
    requires { StepInRange step }
    ensures { result ≡ length (letters step) }
{
    match step {
        Step::Take { transition } => 1 + number_length(transition),
        Step::Serialise { .. } => 3,
        Step::Update { .. } => 2,
    }
}

fn in_range(step: Step) -> bool
    ensures { result ≡ step_in_range step }
{
    match step {
        Step::Take { transition } => transition < 256,
        Step::Serialise { process, variable } => process < 4 && variable < 4,
        Step::Update { process } => process < 4,
    }
}

// The letters of one step at the start of a slice, and their number; nothing, and 0, where the step is out of range or they don't fit.
pub fn step_letters(step: Step, out: &mut [u8]) -> usize
    ensures value { result ≡ length (shown (length out.old) step) }
    ensures out_after { out.new ≡ shown (length out.old) step ++ drop (length (shown (length out.old) step)) out.old }
{
    if in_range(step) && letters_length(step) <= out.len() {
        return put_letters(out, 0, step);
    }
    0
}

// `c0;` and the line's end.
pub(crate) fn put_node(out: &mut [u8], at: usize, k: usize) -> usize
    requires { (k < 10000) × (at + length (node_line k) ≤ length out.old) }
    ensures { Put out.old out.new at result (node_line k) }
{
    let a = put(out, at, b"c");
    let b = put_number(out, a, k);
    put(out, b, b";\n")
}

// `c0 -> c1 [label=`
pub(crate) fn put_head(out: &mut [u8], at: usize, k: usize) -> usize
    requires { (k < 9999) × (at + length (edge_head k) ≤ length out.old) }
    ensures { Put out.old out.new at result (edge_head k) }
{
    let a = put(out, at, b"c");
    let b = put_number(out, a, k);
    let c = put(out, b, b" -> c");
    let d = put_number(out, c, k + 1);
    put(out, d, b" [label=")
}
