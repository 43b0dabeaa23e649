// The judge. The slices that are read may overlap each other, and none of them the work area.
ghost use Rattle.std.specs.Prelude.{◌≡◌, length};
ghost use Rattle.file_contents.specs.Reading.{combined, pair};
ghost use Rattle.verdict.specs.Judge.{area_after};
ghost use Rattle.verdict.specs.Answers.{said_in_c, Answered};
ghost use Rattle.demands.specs.Demands.{SaysSafe, SaysReachable, SaysPso};

use judge::{judge, judge_pair};
use verdict::answer::Verdict;

// A combined file.
#[unsafe(no_mangle)]
pub extern "C" fn hrafnolt_judge(file: &[u8], work: &mut [u8]) -> Verdict
    ensures judged { Answered (combined file.now) (length work.old) result }
    ensures safe { result.kind ≡ 0 → SaysSafe (combined file.now) }
    ensures reachable { result.kind ≡ 1 → SaysReachable (combined file.now) result.first result.second }
    ensures pso { result.kind ≡ 3 → SaysPso (combined file.now) result.first result.second }
    ensures computed { result ≡ said_in_c (combined file.now) (length work.old) }
    ensures area { work.new ≡ area_after work.old }
{
    judge(file, work)
}

// An evidence file, for the program of a program file (document 02, N6).
#[unsafe(no_mangle)]
pub extern "C" fn hrafnolt_judge_pair<'a>(
    program: &'a [u8],
    evidence: &'a [u8],
    work: &mut [u8],
) -> Verdict
    ensures judged { Answered (pair program.now evidence.now) (length work.old) result }
    ensures safe { result.kind ≡ 0 → SaysSafe (pair program.now evidence.now) }
    ensures reachable { result.kind ≡ 1 → SaysReachable (pair program.now evidence.now) result.first result.second }
    ensures pso { result.kind ≡ 3 → SaysPso (pair program.now evidence.now) result.first result.second }
    ensures computed { result ≡ said_in_c (pair program.now evidence.now) (length work.old) }
    ensures area { work.new ≡ area_after work.old }
{
    judge_pair(program, evidence, work)
}
