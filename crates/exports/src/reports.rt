// Fence reports, for C (request N10). The work area overlaps nothing.
ghost use Rattle.std.specs.Prelude.{◌≡◌, length};
ghost use Rattle.verdict.specs.Judge.{area_after};
ghost use Rattle.report_verdict.specs.Answers.{ReportAnswered, report_said_in_c};
ghost use Rattle.demands.specs.ReportDemands.{SaysNeeded};

use report_judge::report;
use verdict::answer::Verdict;

// A report.
#[unsafe(no_mangle)]
pub extern "C" fn hrafnolt_report(file: &[u8], work: &mut [u8]) -> Verdict
    ensures judged { ReportAnswered file.now (length work.old) result }
    ensures needed { result.kind ≡ 4 → SaysNeeded file.now (length work.old) result.first }
    ensures computed { result ≡ report_said_in_c file.now (length work.old) }
    ensures area { work.new ≡ area_after work.old }
{
    report(file, work)
}
