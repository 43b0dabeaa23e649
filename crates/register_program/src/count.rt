// The numbers of what is written.
ghost use Rattle.std.specs.Prelude.{◌≡◌, ◌&&◌, not, eqb};
ghost use Rattle.register_machine.specs.Written.{states_of, written};
ghost use Rattle.register_program.specs.Registers.{lowest_over};
ghost use Rattle.register_program.specs.Reading.{register_program_of};
ghost use Rattle.register_program.specs.Parts.{Found, registers_in, counted_of, product};

use crate::has::times;
use base::arrays::at_or;
use base::bytes::field;
use file_records::program::{Program, Refusal};

// The lowest process that would need over 32 states, or the number of processes.
pub(crate) fn lowest_over(file: &[u8], program: Program, has: [bool; 4]) -> usize
    requires { Found file.now program × (has ≡ registers_in file.now program) }
    ensures { result ≡ lowest_over (written (register_program_of file.now program)).states 0 program.shape.processes }
{
    for p in 0..program.shape.processes {
        let states = usize::from(at_or(program.states, p, 0));
        let needed = times(at_or(has, p, false), states);
        if 32 < needed {
            return p;
        }
    }
    program.shape.processes
}

// How many transitions one becomes: one for each value it can start from, and of these one for each value it can read.
fn expansions(has: bool, operation: u8) -> usize
    ensures { result ≡ states_of (has && not (eqb operation 8)) (states_of (eqb operation 6) 1) }
{
    times(has && operation != 8, times(operation == 6, 1))
}

// The number of transitions, or 28 with the number of the 05 that a 257th comes from.
pub(crate) fn transitions_of(
    file: &[u8],
    program: Program,
    has: [bool; 4],
) -> Result<usize, Refusal>
    requires { Found file.now program × (has ≡ registers_in file.now program) }
    ensures { result ≡ counted_of (register_program_of file.now program) }
{
    let mut total = 0;
    for i in 0..program.transitions.count {
        let k = program.transitions.at + 8 * i;
        let has_register = at_or(has, usize::from(field(file, k, 1)), false);
        total += expansions(has_register, field(file, k, 3));
        if 256 < total {
            return Err(Refusal {
                number: 28,
                place: i,
            });
        }
    }
    Ok(total)
}

// How many targets one becomes: a choice for each register value.
pub(crate) fn choices_of(has: [bool; 4]) -> usize
    ensures { result ≡ product has }
{
    times(has[0], times(has[1], times(has[2], times(has[3], 1))))
}
