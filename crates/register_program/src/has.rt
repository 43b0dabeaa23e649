// Which processes have a register: those of which a transition uses 6, 7 or 8.
ghost use Rattle.std.specs.Prelude.{◌≡◌, ◌&&◌, ◌*◌, ◌<◌, leb};
ghost use Rattle.register_machine.specs.Program.{has_register};
ghost use Rattle.register_machine.specs.Written.{pair_of, states_of};
ghost use Rattle.register_program.specs.Reading.{register_program_of};
ghost use Rattle.register_program.specs.Parts.{Found, registers_in};

use base::bytes::field;
use file_records::program::Program;

fn uses(operation: u8) -> bool
    ensures { result ≡ (leb 6 operation && leb operation 8) }
{
    matches!(operation, 6..=8)
}

fn has_register(file: &[u8], program: Program, p: usize) -> bool
    requires { Found file.now program }
    ensures { result ≡ has_register (register_program_of file.now program) p }
{
    for i in 0..program.transitions.count {
        let k = program.transitions.at + 8 * i;
        if usize::from(field(file, k, 1)) == p && uses(field(file, k, 3)) {
            return true;
        }
    }
    false
}

pub(crate) fn registers_of(file: &[u8], program: Program) -> [bool; 4]
    requires { Found file.now program }
    ensures { result ≡ registers_in file.now program }
{
    [0, 1, 2, 3].map(|p| has_register(file, program, p))
}

// The number of a local state with this register value.
pub(crate) fn pair(has: bool, state: u8, register: u8) -> u8
    requires { (state < 63) × (register < 4) }
    ensures { result ≡ pair_of has state register }
{
    if has { 4 * state + register } else { state }
}

// Four for each, where there is a register.
pub(crate) fn times(has: bool, n: usize) -> usize
    requires { n < 4096 }
    ensures { result ≡ states_of has n }
{
    if has { 4 * n } else { n }
}
