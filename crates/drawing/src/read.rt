// A drawing back to step records.
ghost use Rattle.std.specs.Prelude.{◌≡◌, ◌++◌, ℕ, suc, ◌+◌, ◌*◌, ◌≤◌, ◌<◌, length};
ghost use Rattle.drawing.specs.Text.{line, opening, node_line};
ghost use Rattle.drawing.specs.Runs.{StepInRange, record_of, records_of};
ghost use Rattle.drawing.specs.Writing.{told, answered, left_in};
ghost use Rattle.drawing.specs.Parts.{placed, Put, edge_head};
ghost use Rattle.drawing.specs.Reading.{expect_at, edge_at, edges_at, nodes_at, more_at, nodes_read, records_in, size_after, edge_end, end_size, steps_in, Readable};

use crate::Written;
use crate::label::{Edge, label_at};
use crate::put::{OPENING, put, put_head, put_node};
use crate::word::{Outside, expect, has};
use file_records::program::Refusal;
use machine_pws::Step;

// How many edges there are to be, and where they begin.
#[derive(Clone, Copy)]
pub struct Nodes {
    pub edges: usize,
    pub at: usize,
}

// ---- the lines

fn expect_node(text: &[u8], at: usize, k: usize) -> Result<usize, Outside>
    requires { k < 10000 }
    ensures { result ≡ expect_at text.now at (node_line k) }
{
    let mut line = [0u8; 32];
    let n = put_node(&mut line, 0, k);
    expect(text, at, &line[..n])
}

fn expect_head(text: &[u8], at: usize, k: usize) -> Result<usize, Outside>
    requires { k < 9999 }
    ensures { result ≡ expect_at text.now at (edge_head k) }
{
    let mut line = [0u8; 32];
    let n = put_head(&mut line, 0, k);
    expect(text, at, &line[..n])
}

// The rest of an edge's line, after its step was read.
fn edge_end(text: &[u8], at: usize, step: Step) -> Result<Edge, Outside>
    ensures { result ≡ edge_end text.now at step }
{
    let next = expect(text, at, b"];\n")?;
    Ok(Edge { step, next })
}

fn edge_at(text: &[u8], at: usize, k: usize) -> Result<Edge, Outside>
    requires { k < 9999 }
    ensures { result ≡ edge_at text.now at k }
{
    let start = expect_head(text, at, k)?;
    let label = label_at(text, start)?;
    edge_end(text, label.next, label.step)
}

// ---- the edges

fn record_size(step: Step) -> usize
    ensures { result ≡ length (record_of step) }
{
    match step {
        Step::Take { .. } | Step::Update { .. } => 2,
        Step::Serialise { .. } => 3,
    }
}

// `}` and nothing more.
fn end_size(text: &[u8], at: usize, total: usize) -> Result<usize, Outside>
    ensures { result ≡ end_size text.now at total }
{
    let end = expect(text, at, b"}\n")?;
    if end < text.len() {
        return Err(Outside { place: end });
    }
    Ok(total)
}

// How many bytes the records of n edges take.
fn edges_size(text: &[u8], start: usize, n: usize) -> Result<usize, Outside>
    requires { n ≤ 1024 }
    ensures { result ≡ size_after 0 (edges_at n text.now start 0) }
{
    let mut at = start;
    let mut total = 0;
    for k in 0..n {
        let edge = edge_at(text, at, k)?;
        total += record_size(edge.step);
        at = edge.next;
    }
    end_size(text, at, total)
}

fn put_record(out: &mut [u8], at: usize, step: Step) -> usize
    requires { StepInRange step × (at + length (record_of step) ≤ length out.old) }
    ensures { Put out.old out.new at result (record_of step) }
{
    match step {
        Step::Take { transition } => put(out, at, &[32, transition as u8]),
        Step::Serialise { process, variable } => {
            put(out, at, &[33, process as u8, variable as u8])
        }
        Step::Update { process } => put(out, at, &[34, process as u8]),
    }
}

// The records of n edges that were read before.
fn put_records(out: &mut [u8], text: &[u8], start: usize, n: usize)
    requires { Readable text.now start n (length out.old) }
    ensures { out.new ≡ placed out.old 0 (records_of (steps_in (edges_at n text.now start 0))) }
{
    let mut at = start;
    let mut place = 0;
    for k in 0..n {
        let edge = edge_at(text, at, k).unwrap();
        place = put_record(out, place, edge.step);
        at = edge.next;
    }
}

// ---- the nodes

// After node 1.
fn nodes_at(text: &[u8], start: usize) -> Result<Nodes, Outside>
    ensures { result ≡ nodes_at 1023 text.now start 1 }
{
    let mut at = start;
    for n in 1..1024 {
        if !has(text, at, b'c') {
            return Err(Outside { place: at });
        }
        if has(text, at + 1, b'0') {
            return Ok(Nodes { edges: n, at });
        }
        at = expect_node(text, at, n + 1)?;
    }
    Ok(Nodes { edges: 1024, at })
}

// After node 0.
fn more_at(text: &[u8], at: usize) -> Result<Nodes, Outside>
    ensures { result ≡ more_at text.now at }
{
    if has(text, at, b'}') {
        return Ok(Nodes { edges: 0, at });
    }
    let next = expect_node(text, at, 1)?;
    nodes_at(text, next)
}

fn nodes_read(text: &[u8]) -> Result<Nodes, Outside>
    ensures { result ≡ nodes_read text.now }
{
    let first = expect(text, 0, OPENING)?;
    let second = expect_node(text, first, 0)?;
    more_at(text, second)
}

// The number of bytes written, or the refusal: 27 of a text outside the layout, 26 last.
fn read_into(text: &[u8], out: &mut [u8]) -> Result<usize, Refusal>
    ensures value { told result ≡ answered (length out.old) (records_in text.now) }
    ensures out_after { out.new ≡ left_in out.old (records_in text.now) }
{
    let nodes = nodes_read(text)?;
    let needed = edges_size(text, nodes.at, nodes.edges)?;
    if out.len() < needed {
        return Err(Refusal {
            number: 26,
            place: needed,
        });
    }
    put_records(out, text, nodes.at, nodes.edges);
    Ok(needed)
}

// The step records of a drawing. A text outside the layout is refused with 27; 26 is tested last.
pub fn dot_read(text: &[u8], out: &mut [u8]) -> Written
    ensures value { result ≡ answered (length out.old) (records_in text.now) }
    ensures out_after { out.new ≡ left_in out.old (records_in text.now) }
{
    Written::from(read_into(text, out))
}
