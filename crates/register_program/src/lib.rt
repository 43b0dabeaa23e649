// Programs with registers (document 02, N8): a file of 01, 02s, 05s and 04s is read, and the program without registers is written as 01 to 04.
// What is written is defined in specs/, over the machine of the crate register_machine.

#![tactic(auto)]

mod count;
mod has;
mod put;

ghost use Rattle.std.specs.Prelude.{◌≡◌, length};
ghost use Rattle.drawing.specs.Writing.{told, answered_or, left_in};
ghost use Rattle.register_program.specs.Registers.{made_of, registers_of};
ghost use Rattle.register_program.specs.Reading.{register_program_of};
ghost use Rattle.register_program.specs.Parts.{Found};
ghost use Rattle.file_records.specs.ProgramPart.{targets_of};

use crate::count::{choices_of, lowest_over, transitions_of};
use crate::has::registers_of;
use crate::put::put_program;
use drawing::Written;
use file_program::program::read_with;
use file_records::program::{Format, Program, Refusal};

// A program that was found fine: its numbers first, then its bytes. The number of bytes written, or the refusal.
fn write(program: Program, file: &[u8], out: &mut [u8]) -> Result<usize, Refusal>
    requires { Found file.now program }
    ensures value { told result ≡ answered_or 29 (length out.old) (made_of (register_program_of file.now program) (targets_of file.now program)) }
    ensures out_after { out.new ≡ left_in out.old (made_of (register_program_of file.now program) (targets_of file.now program)) }
{
    let has = registers_of(file, program);
    let processes = program.shape.processes;
    let over = lowest_over(file, program, has);
    if over < processes {
        return Err(Refusal {
            number: 19,
            place: over,
        });
    }
    let transitions = transitions_of(file, program, has)?;
    let targets = program.targets.count * choices_of(has);
    let needed = 7 + 3 * processes + 8 * transitions + 5 * targets;
    if out.len() < needed {
        return Err(Refusal {
            number: 29,
            place: needed,
        });
    }
    put_program(out, file, program, has);
    Ok(needed)
}

fn read_and_write(file: &[u8], out: &mut [u8]) -> Result<usize, Refusal>
    ensures value { told result ≡ answered_or 29 (length out.old) (registers_of file.now) }
    ensures out_after { out.new ≡ left_in out.old (registers_of file.now) }
{
    let program = read_with(Format::Registers, true, file, 0)?;
    write(program, file, out)
}

// The program without registers, in `out`; or a refusal, and nothing is written.
pub fn registers(file: &[u8], out: &mut [u8]) -> Written
    ensures value { result ≡ answered_or 29 (length out.old) (registers_of file.now) }
    ensures out_after { out.new ≡ left_in out.old (registers_of file.now) }
{
    Written::from(read_and_write(file, out))
}
