// Runs as drawings, for C (request N12). The two slices don't overlap.
ghost use Rattle.std.specs.Prelude.{◌≡◌, length};
ghost use Rattle.drawing.specs.Writing.{answered, left_in, drawing_of};
ghost use Rattle.drawing.specs.Reading.{records_in};

use drawing::{Written, dot_read, dot_write};

// Step records to a drawing.
#[unsafe(no_mangle)]
pub extern "C" fn hrafnolt_dot_write(steps: &[u8], out: &mut [u8]) -> Written
    ensures value { result ≡ answered (length out.old) (drawing_of steps.now) }
    ensures out_after { out.new ≡ left_in out.old (drawing_of steps.now) }
{
    dot_write(steps, out)
}

// A drawing to step records.
#[unsafe(no_mangle)]
pub extern "C" fn hrafnolt_dot_read(text: &[u8], out: &mut [u8]) -> Written
    ensures value { result ≡ answered (length out.old) (records_in text.now) }
    ensures out_after { out.new ≡ left_in out.old (records_in text.now) }
{
    dot_read(text, out)
}
