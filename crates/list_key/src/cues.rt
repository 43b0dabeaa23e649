// Cues: a message of a cube and whether it has a role, in one number, so that it is compared at once.
ghost use Rattle.list_key.specs.Cue.{Cue};

use crate::values::word;
use machine_pws::Message;

pub(crate) fn cue_of(message: Message, tag: u64) -> usize
    ensures { Cue result message tag }
{
    let label = word(message.process, message.variable, 0, 0);
    let [a, b, c, d] = message.snapshot;
    let twice = 2 * (label + 65536 * word(a, b, c, d));
    if tag < 65536 { twice } else { twice + 1 }
}
