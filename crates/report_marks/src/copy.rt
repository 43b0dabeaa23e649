// The program part of a report with one of its fences a nop.
ghost use Rattle.std.specs.Prelude.{◌≡◌};
ghost use Rattle.report_marks.specs.Copy.{copied_with};

// The first 22,547 bytes, with 0 at `at`; a shorter slice is followed by zeros. No program part is longer.
pub fn copied_with(program: &[u8], at: usize) -> [u8; 22547]
    ensures { result ≡ copied_with program.now at }
{
    let mut copy = [0u8; 22547];
    let n = program.len().min(22547);
    copy[..n].copy_from_slice(&program[..n]);
    if at < 22547 {
        copy[at] = 0;
    }
    copy
}
