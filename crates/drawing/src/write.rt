// Step records to a drawing.
ghost use Rattle.std.specs.Prelude.{◌≡◌, ◌++◌, ℕ, suc, ◌+◌, ◌≤◌, ◌<◌, length};
ghost use Rattle.file_contents.specs.EvidencePart.{steps_of};
ghost use Rattle.drawing.specs.Text.{node_lines, edge_line, edge_lines, text};
ghost use Rattle.drawing.specs.Runs.{full_shape, StepInRange};
ghost use Rattle.drawing.specs.Writing.{drawing_of, told, answered, left_in};
ghost use Rattle.drawing.specs.Parts.{placed, Put, AllFine};

use crate::Written;
use crate::put::{OPENING, letters_length, number_length, put, put_head, put_letters, put_node};
use file_contents::steps::{step_at, step_body, steps_from};
use file_records::program::{Refusal, Shape};
use machine_pws::Step;

// Four processes, four variables; with 256 transitions every step that a record can name is one of such a program's.
fn full_shape() -> Shape
    ensures { result ≡ full_shape }
{
    Shape {
        processes: 4,
        variables: 4,
        values: [4; 4],
    }
}

// ---- the length

fn edge_length(k: usize, step: Step) -> usize
    requires { (k < 9999) × StepInRange step }
    ensures { result ≡ length (edge_line k step) }
{
    17 + number_length(k) + number_length(k + 1) + letters_length(step)
}

fn text_length(steps: &[u8], n: usize) -> usize
    requires { AllFine steps.now n }
    ensures { result ≡ length (text (steps_of steps.now 0 n)) }
{
    let mut total = 20;
    let mut at = 0;
    for i in 0..n {
        let node = 3 + number_length(i + 1);
        let edge = edge_length(i, step_at(steps, at));
        total += node + edge;
        at += 1 + step_body(steps, at);
    }
    total
}

// ---- the bytes

fn put_nodes(out: &mut [u8], start: usize, n: usize) -> usize
    requires { (n ≤ 1024) × (start + length (node_lines 0 (suc n)) ≤ length out.old) }
    ensures { Put out.old out.new start result (node_lines 0 (suc n)) }
{
    let mut at = start;
    for k in 0..n + 1 {
        at = put_node(out, at, k);
    }
    at
}

fn put_edge(out: &mut [u8], at: usize, k: usize, step: Step) -> usize
    requires { (k < 9999) × StepInRange step × (at + length (edge_line k step) ≤ length out.old) }
    ensures { Put out.old out.new at result (edge_line k step) }
{
    let a = put_head(out, at, k);
    let b = put_letters(out, a, step);
    put(out, b, b"];\n")
}

fn put_edges(out: &mut [u8], start: usize, steps: &[u8], n: usize) -> usize
    requires { AllFine steps.now n × (start + length (edge_lines 0 (steps_of steps.now 0 n)) ≤ length out.old) }
    ensures { Put out.old out.new start result (edge_lines 0 (steps_of steps.now 0 n)) }
{
    let mut at = start;
    let mut record = 0;
    for k in 0..n {
        at = put_edge(out, at, k, step_at(steps, record));
        record += 1 + step_body(steps, record);
    }
    at
}

fn put_text(out: &mut [u8], steps: &[u8], n: usize)
    requires { AllFine steps.now n × (length (text (steps_of steps.now 0 n)) ≤ length out.old) }
    ensures { out.new ≡ placed out.old 0 (text (steps_of steps.now 0 n)) }
{
    let a = put(out, 0, OPENING);
    let b = put_nodes(out, a, n);
    let c = put_edges(out, b, steps, n);
    put(out, c, b"}\n");
}

// The number of bytes written, or the refusal: bad records as the judge refuses them, 26 last.
fn write_into(steps: &[u8], out: &mut [u8]) -> Result<usize, Refusal>
    ensures value { told result ≡ answered (length out.old) (drawing_of steps.now) }
    ensures out_after { out.new ≡ left_in out.old (drawing_of steps.now) }
{
    let n = steps_from(steps, 0, full_shape(), 256)?;
    let needed = text_length(steps, n);
    if out.len() < needed {
        return Err(Refusal {
            number: 26,
            place: needed,
        });
    }
    put_text(out, steps, n);
    Ok(needed)
}

// The drawing of step records. Bad ones are refused as the judge refuses them; 26 is tested last.
pub fn dot_write(steps: &[u8], out: &mut [u8]) -> Written
    ensures value { result ≡ answered (length out.old) (drawing_of steps.now) }
    ensures out_after { out.new ≡ left_in out.old (drawing_of steps.now) }
{
    Written::from(write_into(steps, out))
}
