// A step with its transition.
ghost use Rattle.std.specs.Prelude.{◌≡◌};
ghost use Rattle.pso_layout.specs.Layout.{pso_move_of};

use file_records::program::Row;
use machine_pws::{Step, Transition};
use run_layout::moves::transition_in;

// A step with its transition.
#[derive(Clone, Copy)]
pub enum PsoMove {
    Operate(Transition),
    UpdateVariable { process: usize, variable: usize },
    RemoveMark { process: usize },
}

// The steps of a file's kinds 20, 21 and 22. A transition that does not exist has no move.
pub fn pso_move(file: &[u8], transitions: Row, step: Step) -> Option<PsoMove>
    ensures { result ≡ pso_move_of file.now transitions step }
{
    match step {
        Step::Take { transition } => {
            if transition < transitions.count {
                Some(PsoMove::Operate(transition_in(file, transitions, transition)))
            } else {
                None
            }
        }
        Step::Serialise { process, variable } => Some(PsoMove::UpdateVariable {
            process,
            variable,
        }),
        Step::Update { process } => Some(PsoMove::RemoveMark { process }),
    }
}
