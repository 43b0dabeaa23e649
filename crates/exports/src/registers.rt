// Programs with registers, for C (request N8). The two slices don't overlap.
ghost use Rattle.std.specs.Prelude.{◌≡◌, length};
ghost use Rattle.drawing.specs.Writing.{answered_or, left_in};
ghost use Rattle.register_program.specs.Registers.{registers_of};

use drawing::Written;
use register_program::registers;

// A program with registers to the program without, as 01 to 04.
#[unsafe(no_mangle)]
pub extern "C" fn hrafnolt_registers(program: &[u8], out: &mut [u8]) -> Written
    ensures value { result ≡ answered_or 29 (length out.old) (registers_of program.now) }
    ensures out_after { out.new ≡ left_in out.old (registers_of program.now) }
{
    registers(program, out)
}
