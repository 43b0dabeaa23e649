// Why the machine refuses a step (document 01, "The machine"; document 02, N1), and the first of several causes.
#![tactic(auto)]

ghost use Rattle.std.specs.Prelude.{◌≡◌};
ghost use Rattle.run_causes.specs.Causes.{cause_number, first_cause};

// Why the machine refuses a step, in the order in which it is tested: the process is in another local state; a queue is not empty; the
// pointer is not at the newest message; another value is there; there is nothing to serialise, or no newer message.
#[derive(Clone, Copy, PartialEq, Eq)]
pub enum Cause {
    State,
    Queue,
    Pointer,
    Value,
    Nothing,
}

// The refusal table's number of each (document 02, N1).
impl From<Cause> for u8 {
    ghost from_gives = { λ cause result. result ≡ cause_number cause };

    fn from(cause: Cause) -> u8 {
        match cause {
            Cause::State => 12,
            Cause::Queue => 16,
            Cause::Pointer => 17,
            Cause::Value => 15,
            Cause::Nothing => 18,
        }
    }
}

// The first cause that applies: each argument says that one of them does not.
#[tactic(auto, unfolding(crate::specs::Causes::first_cause))]
pub fn first_cause(
    state: bool,
    queue: bool,
    pointer: bool,
    value: bool,
    some: bool,
) -> Result<(), Cause>
    ensures { result ≡ first_cause state queue pointer value some }
{
    if !state {
        return Err(Cause::State);
    }
    if !queue {
        return Err(Cause::Queue);
    }
    if !pointer {
        return Err(Cause::Pointer);
    }
    if !value {
        return Err(Cause::Value);
    }
    if !some {
        return Err(Cause::Nothing);
    }
    Ok(())
}
