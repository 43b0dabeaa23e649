// Refusal 22: the lowest place of a mark that repeats an earlier one or is no fence.
ghost use Rattle.std.specs.Prelude.{◌≡◌, ℕ, Bool, ◌<◌, get_or};
ghost use Rattle.report_theory.specs.Nops.{is_fence};
ghost use Rattle.report_marks.specs.Marks.{lowest, earlier_as, fence_in, is_wrong, wrong_mark, mark_bytes};

use base::arrays::at_or;
use base::bytes::field;
use file_again::transition_of;
use file_records::program::Program;
use machine_pws::Operation;

// The numbers of up to eight marks, which stand from `at` on.
pub fn mark_bytes(file: &[u8], at: usize) -> [u8; 8]
    ensures { result ≡ mark_bytes file.now at }
{
    [1, 3, 5, 7, 9, 11, 13, 15].map(|k| field(file, at, k))
}

// The mark of place i.
pub fn mark_at(marks: [u8; 8], i: usize) -> u8
    ensures { result ≡ get_or marks i 0 }
{
    at_or(marks, i, 0)
}

fn is_fence(operation: Operation) -> bool
    ensures { result ≡ is_fence operation }
{
    matches!(operation, Operation::Mfence | Operation::Sfence)
}

// Transition n stands in the records, and is a fence.
fn fence_in(file: &[u8], program: Program, n: usize) -> bool
    ensures { result ≡ fence_in file.now program n }
{
    n < program.transitions.count && is_fence(transition_of(file, program, n).operation)
}

// The lowest number below n that passes the test; n if none does.
fn lowest<F: Fn(usize) -> bool>(n: usize, test: F) -> usize
    requires { (i : ℕ) → i < n → F.pre test i }
    ensures { (f : ℕ → Bool) → ((i : ℕ) (r : Bool) → i < n → F.post test i r → r ≡ f i) → result ≡ lowest f n }
{
    for i in 0..n {
        if test(i) {
            return i;
        }
    }
    n
}

// The lowest place of a mark that is the same as that of place i, below i; i if there is none.
fn earlier(marks: [u8; 8], i: usize) -> usize
    ensures { result ≡ lowest (earlier_as marks i) i }
{
    lowest(i, |j| mark_at(marks, j) == mark_at(marks, i))
}

fn is_wrong(file: &[u8], program: Program, marks: [u8; 8], i: usize) -> bool
    ensures { result ≡ is_wrong file.now program marks i }
{
    earlier(marks, i) < i || !fence_in(file, program, usize::from(mark_at(marks, i)))
}

// The lowest place among the first n marks of one that is wrong; n if none is.
pub fn wrong_mark(file: &[u8], program: Program, marks: [u8; 8], n: usize) -> usize
    ensures { result ≡ wrong_mark file.now program marks n }
{
    lowest(n, |i| is_wrong(file, program, marks, i))
}
