// The records of the program without registers, put into a lent slice.
ghost use Rattle.std.specs.Prelude.{◌≡◌, Bool, ℕ, ◌+◌, ◌-◌, ◌*◌, ◌<◌, ◌≤◌, length, get_or};
ghost use Rattle.file_records.specs.ProgramPart.{table_from, targets_of};
ghost use Rattle.drawing.specs.Parts.{Put};
ghost use Rattle.register_machine.specs.Written.{joined, plain_transition, becomes, written, written_targets};
ghost use Rattle.register_program.specs.Form.{shape_record, states_record, transition_record, target_record, program_bytes};
ghost use Rattle.register_program.specs.Reading.{register_transition_at, register_program_of};
ghost use Rattle.register_program.specs.Parts.{Found, registers_in, chosen, Named, reads, TargetRead, RegistersLow};

use crate::has::{pair, times};
use base::arrays::{at_or, with_at};
use base::bytes::{field, four_at};
use drawing::put::put;
use file_records::program::Program;

// 01
fn put_shape(out: &mut [u8], file: &[u8], program: Program) -> usize
    requires { Found file.now program × (7 ≤ length out.old) }
    ensures { Put out.old out.new 0 result (shape_record (written (register_program_of file.now program)).shape) }
{
    put(
        out,
        0,
        &[
            1,
            field(file, 0, 1),
            field(file, 0, 2),
            field(file, 0, 3),
            field(file, 0, 4),
            field(file, 0, 5),
            field(file, 0, 6),
        ],
    )
}

// The 02s.
fn put_states(out: &mut [u8], start: usize, file: &[u8], program: Program, has: [bool; 4]) -> usize
    requires { Found file.now program × (has ≡ registers_in file.now program) × (start + length (joined (states_record (written (register_program_of file.now program))) (table_from (λ p. p) 0 program.shape.processes)) ≤ length out.old) }
    ensures { Put out.old out.new start result (joined (states_record (written (register_program_of file.now program))) (table_from (λ p. p) 0 program.shape.processes)) }
{
    let mut at = start;
    for p in 0..program.shape.processes {
        let has_register = at_or(has, p, false);
        let states = times(has_register, usize::from(at_or(program.states, p, 0)));
        let initial = pair(has_register, at_or(program.initial, p, 0), 0);
        at = put(out, at, &[2, states as u8, initial]);
    }
    at
}

// ---- the 03s

// From the register value r, where the value read is x.
fn put_one(out: &mut [u8], at: usize, file: &[u8], k: usize, has: bool, r: u8, x: u8) -> usize
    requires { Named file.now k × (r < 4) × (x < 4) × (at + 8 ≤ length out.old) }
    ensures { Put out.old out.new at result (transition_record (plain_transition has (register_transition_at file.now k) r x)) }
{
    let process = field(file, k, 1);
    let from = pair(has, field(file, k, 2), r);
    let operation = field(file, k, 3);
    let variable = field(file, k, 4);
    let state = field(file, k, 7);
    // (a) the operations are numbers of the file
    match operation {
        6 => put(
            out,
            at,
            &[3, process, from, 1, variable, x, 0, pair(has, state, x)],
        ),
        7 => put(
            out,
            at,
            &[3, process, from, 2, variable, r, 0, pair(has, state, r)],
        ),
        8 => put(
            out,
            at,
            &[3, process, from, 0, 0, 0, 0, pair(has, state, r)],
        ),
        _ => put(
            out,
            at,
            &[
                3,
                process,
                from,
                operation,
                variable,
                field(file, k, 5),
                field(file, k, 6),
                pair(has, state, r),
            ],
        ),
    }
}

// From one register value: one for each value that it can read.
fn put_reads(out: &mut [u8], at: usize, file: &[u8], k: usize, has: bool, r: u8) -> usize
    requires { Named file.now k × (r < 4) × (at + length (joined transition_record (reads has (register_transition_at file.now k) r)) ≤ length out.old) }
    ensures { Put out.old out.new at result (joined transition_record (reads has (register_transition_at file.now k) r)) }
{
    let a = put_one(out, at, file, k, has, r, 0);
    if field(file, k, 3) == 6 {
        let b = put_one(out, a, file, k, has, r, 1);
        let c = put_one(out, b, file, k, has, r, 2);
        return put_one(out, c, file, k, has, r, 3);
    }
    a
}

// Those that one becomes.
fn put_becomes(out: &mut [u8], at: usize, file: &[u8], k: usize, has: bool) -> usize
    requires { Named file.now k × (at + length (joined transition_record (becomes has (register_transition_at file.now k))) ≤ length out.old) }
    ensures { Put out.old out.new at result (joined transition_record (becomes has (register_transition_at file.now k))) }
{
    if has {
        if field(file, k, 3) == 8 {
            return put_reads(out, at, file, k, true, field(file, k, 5));
        }
        let a = put_reads(out, at, file, k, true, 0);
        let b = put_reads(out, a, file, k, true, 1);
        let c = put_reads(out, b, file, k, true, 2);
        return put_reads(out, c, file, k, true, 3);
    }
    put_reads(out, at, file, k, false, 0)
}

fn put_transitions(
    out: &mut [u8],
    start: usize,
    file: &[u8],
    program: Program,
    has: [bool; 4],
) -> usize
    requires { Found file.now program × (has ≡ registers_in file.now program) × (start + length (joined transition_record (written (register_program_of file.now program)).transitions) ≤ length out.old) }
    ensures { Put out.old out.new start result (joined transition_record (written (register_program_of file.now program)).transitions) }
{
    let mut at = start;
    for i in 0..program.transitions.count {
        let k = program.transitions.at + 8 * i;
        let has_register = at_or(has, usize::from(field(file, k, 1)), false);
        at = put_becomes(out, at, file, k, has_register);
    }
    at
}

// ---- the 04s

fn put_target(
    out: &mut [u8],
    at: usize,
    target: [u8; 4],
    has: [bool; 4],
    registers: [u8; 4],
) -> usize
    requires { TargetRead target × RegistersLow registers × (at + 5 ≤ length out.old) }
    ensures { Put out.old out.new at result (chosen has target 0 0 (λ q. get_or registers q 0)) }
{
    let a = pair(has[0], target[0], registers[0]);
    let b = pair(has[1], target[1], registers[1]);
    let c = pair(has[2], target[2], registers[2]);
    let d = pair(has[3], target[3], registers[3]);
    put(out, at, &[4, a, b, c, d])
}

// The registers of the processes below p are chosen; process p's goes through its values, more slowly than those behind it.
fn put_choices(
    out: &mut [u8],
    at: usize,
    target: [u8; 4],
    has: [bool; 4],
    p: usize,
    registers: [u8; 4],
) -> usize
    requires { TargetRead target × RegistersLow registers × (p ≤ 4) × (at + length (chosen has target (4 - p) p (λ q. get_or registers q 0)) ≤ length out.old) }
    ensures { Put out.old out.new at result (chosen has target (4 - p) p (λ q. get_or registers q 0)) }
{
    if 4 <= p {
        return put_target(out, at, target, has, registers);
    }
    let a = put_choices(out, at, target, has, p + 1, with_at(registers, p, 0));
    if at_or(has, p, false) {
        let b = put_choices(out, a, target, has, p + 1, with_at(registers, p, 1));
        let c = put_choices(out, b, target, has, p + 1, with_at(registers, p, 2));
        return put_choices(out, c, target, has, p + 1, with_at(registers, p, 3));
    }
    a
}

fn put_targets(out: &mut [u8], start: usize, file: &[u8], program: Program, has: [bool; 4]) -> usize
    requires { Found file.now program × (has ≡ registers_in file.now program) × (start + length (joined target_record (written_targets (register_program_of file.now program) (targets_of file.now program))) ≤ length out.old) }
    ensures { Put out.old out.new start result (joined target_record (written_targets (register_program_of file.now program) (targets_of file.now program))) }
{
    let mut at = start;
    for i in 0..program.targets.count {
        let target = four_at(file, program.targets.at + 5 * i, 1);
        at = put_choices(out, at, target, has, 0, [0; 4]);
    }
    at
}

// ---- the whole

pub(crate) fn put_program(out: &mut [u8], file: &[u8], program: Program, has: [bool; 4]) -> usize
    requires { Found file.now program × (has ≡ registers_in file.now program) × (length (program_bytes (written (register_program_of file.now program)) (written_targets (register_program_of file.now program) (targets_of file.now program))) ≤ length out.old) }
    ensures { Put out.old out.new 0 result (program_bytes (written (register_program_of file.now program)) (written_targets (register_program_of file.now program) (targets_of file.now program))) }
{
    let a = put_shape(out, file, program);
    let b = put_states(out, a, file, program, has);
    let c = put_transitions(out, b, file, program, has);
    put_targets(out, c, file, program, has)
}
