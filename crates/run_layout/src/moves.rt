// A step with its transition.
ghost use Rattle.std.specs.Prelude.{◌≡◌};
ghost use Rattle.run_layout.specs.Layout.{move_of, transition_in};

use file_records::program::Row;
use file_records::record::transition_at;
use machine_pws::{Operation, Step, Transition};

// A step with its transition.
#[derive(Clone, Copy)]
pub enum Move {
    Take(Transition),
    Serialise { process: usize, variable: usize },
    Update { process: usize },
}

// The transition of number n, in a row of 03s.
pub fn transition_in(file: &[u8], row: Row, n: usize) -> Transition
    ensures { result ≡ transition_in file.now row n }
{
    let none = Transition {
        process: 0,
        from: 0,
        operation: Operation::Nop,
        to: 0,
    };
    if file.len() <= row.at {
        return none;
    }
    if (file.len() - row.at) / 8 < n {
        return none;
    }
    transition_at(file, row.at + 8 * n)
}

// A transition that does not exist has no move.
pub fn move_of(file: &[u8], transitions: Row, step: Step) -> Option<Move>
    ensures { result ≡ move_of file.now transitions step }
{
    match step {
        Step::Take { transition } => {
            if transition < transitions.count {
                Some(Move::Take(transition_in(file, transitions, transition)))
            } else {
                None
            }
        }
        Step::Serialise { process, variable } => Some(Move::Serialise { process, variable }),
        Step::Update { process } => Some(Move::Update { process }),
    }
}
