// Reads a file from standard input to its end, judges it, and prints one line (document 01).
#![tactic(auto)]

ghost use Rattle.std.specs.Prelude.{◌≡◌, ◌++◌, ◌∷◌, ◌+◌, ◌≤◌, length, take, IfOk};
ghost use Rattle.io.specs.Counts.{IsPrefixLen};
ghost use Rattle.verdict.specs.Judge.{Verdict as Judge-as-Verdict};
ghost use Rattle.verdict.specs.Answers.{in_c, with_record};
ghost use Rattle.drawing.specs.Text.{letters};
ghost use Rattle.drawing.specs.Runs.{StepInRange};
ghost use Rattle.hrafnolt.specs.Line.{Numbered, LineOf, word_of, step_in, StepKnown, said};

use drawing::put::put;
use drawing::step_letters;
use judge::judge;
use machine_pws::Step;
use std::env::FillError;
use std::io::{Read, Result};
use std::rt::Env;
use verdict::answer::Verdict;

// Room for the longest input that is judged, and one byte more.
fn input_buffer() -> [u8; 65537]
    ensures { 65537 ≡ length result }
{
    [0; 65537]
}

// It holds the offsets of 4,096 entries, and 65,536 bytes hold no more.
fn work_area() -> [u8; 65536]
    ensures { 65536 ≡ length result }
{
    [0; 65536]
}

// ---- the line

// A space, and n in decimal.
fn put_number(line: &mut [u8], at: usize, n: u64) -> usize
    requires { at + 21 ≤ length line.old }
    ensures upper_bound { result ≤ at + 21 }
    ensures numbered { Numbered (take at line.old) n (take result line.new) }
{
    let digits_at = put(line, at, b" ");
    let mut text = [0u8; 20];
    let k = io::decimal(n, &mut text);
    put(line, digits_at, &text[..k])
}

// (a) the kinds are numbers of C's struct.
fn put_word(line: &mut [u8], kind: u64) -> usize
    requires { 64 ≤ length line.old }
    ensures upper_bound { result ≤ 9 }
    ensures line_after { take result line.new ≡ word_of kind }
{
    match kind {
        0 => put(line, 0, b"safe"),
        1 => put(line, 0, b"reachable"),
        3 => put(line, 0, b"pso"),
        _ => put(line, 0, b"refused"),
    }
}

fn step_of(verdict: Verdict) -> Step
    ensures { result ≡ step_in verdict }
{
    match verdict.step_kind {
        0x20 => Step::Take {
            transition: verdict.step_first as usize,
        },
        0x21 => Step::Serialise {
            process: verdict.step_first as usize,
            variable: verdict.step_second as usize,
        },
        _ => Step::Update {
            process: verdict.step_first as usize,
        },
    }
}

// A space, and a step in its letters.
fn put_step(line: &mut [u8], at: usize, step: Step) -> usize
    requires { at + 6 ≤ length line.old }
    ensures upper_bound { result ≤ at + 6 }
    ensures line_after { StepInRange step → take result line.new ≡ take at line.old ++ (32 ∷ letters step) }
{
    let letters_at = put(line, at, b" ");
    let mut text = [0u8; 5];
    let k = step_letters(step, &mut text);
    put(line, letters_at, &text[..k])
}

// The line of a verdict stands at the start, and its length is handed back.
fn put_line(line: &mut [u8], verdict: Verdict) -> usize
    requires { 64 ≤ length line.old }
    ensures prefix_len { IsPrefixLen result line.new }
    ensures line_of { (v : Judge-as-Verdict) → with_record verdict 0 0 0 ≡ in_c v → StepKnown v → LineOf v (take result line.new) }
{
    let word = put_word(line, verdict.kind);
    let first = put_number(line, word, verdict.first);
    if verdict.kind == 0 {
        return put(line, first, b"\n");
    }
    let second = put_number(line, first, verdict.second);
    if verdict.step_kind == 0 {
        return put(line, second, b"\n");
    }
    let third = put_step(line, second, step_of(verdict));
    put(line, third, b"\n")
}

// The line for an input, of which there may be any number of bytes.
fn line_for(input: &[u8], line: &mut [u8]) -> usize
    requires { 64 ≤ length line.old }
    ensures prefix_len { IsPrefixLen result line.new }
    ensures line_of { LineOf (said input.now) (take result line.new) }
{
    if input.len() > 65536 {
        return put_line(
            line,
            Verdict {
                kind: 2,
                first: 14,
                second: 65536,
                step_kind: 0,
                step_first: 0,
                step_second: 0,
                record_file: 0,
                record_at: 0,
                record_length: 0,
            },
        );
    }
    let mut work = work_area();
    let verdict = judge(input, &mut work);
    put_line(line, verdict)
}

// ---- the program

// Is there an argument beside the program's name, be it empty, long or no text?
fn has_argument(rt: &impl Env) -> bool {
    let mut name = [0u8; 1];
    !matches!(rt.arg(1, &mut name), Err(FillError::NotPresent))
}

// Reads until the buffer is full or the input ends. A read that fails is not the input's end.
// (d) std's read_exact would say less: how much was read is lost where the input ends early.
fn read_full<R: Read>(reader: &mut R, buf: &mut [u8]) -> Result<usize>
    ensures { IfOk result (λ n. IsPrefixLen n buf.new) }
{
    let mut done = 0;
    while done < buf.len() {
        let n = reader.read(&mut buf[done..])?;
        if n == 0 {
            break;
        }
        done += n;
    }
    Ok(done)
}

fn main(rt: HostRuntime) {
    // whoever names a file would wait for a verdict on it
    if has_argument(&rt) {
        let _ = rt.eprintln("usage: hrafnolt <FILE (it takes no argument; hrafnolt-files does)");
        return;
    }
    let mut stdin = rt.stdin();
    let mut input = input_buffer();
    let n = match read_full(&mut stdin, &mut input) {
        Ok(n) => n,
        // a read that failed is not the input's end, and what was read until then is not judged
        Err(_) => return,
    };
    // the input's end is where a read gives no byte, twice
    let mut more = [0u8; 1];
    if n <= 65536 {
        match stdin.read(&mut more) {
            Ok(0) => {}
            _ => return,
        }
    }
    let mut line = [0u8; 64];
    let k = line_for(&input[..n], &mut line);
    let _ = rt.write_all(&line[..k]);
}
