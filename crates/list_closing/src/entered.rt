// An entry, whose predecessors are asked for.
ghost use Rattle.std.specs.Prelude.{◌≡◌, min};
ghost use Rattle.list_theory.specs.Cubes.{memory_of};
ghost use Rattle.file_contents.specs.Cube.{channel_of};
ghost use Rattle.list_cube.specs.Editing.{LastWrites, by_number};

use file_contents::entry::Cube;
use list_cube::messages::last_writes;

// The entry with the LastWrite of every process and variable, which is found once.
#[derive(Clone, Copy)]
pub(crate) struct Entered {
    pub(crate) cube: Cube,
    pub(crate) writes: [u8; 16],
    pub(crate) ghost last: { LastWrites writes (memory_of (channel_of cube.messages (min cube.count 20)) (by_number cube.pointers)) },
}

impl Entered {
    pub(crate) fn of(cube: Cube) -> Entered
        ensures { result.cube ≡ cube }
    {
        Entered {
            cube,
            writes: last_writes(cube),
        }
    }
}
