// A list judged to its end: each target against the list, each entry against the starts, each entry's predecessors (document 01, numbers 9, 10
// and 11).
#![tactic(auto)]

ghost use Rattle.std.specs.Prelude.{◌≡◌, true, List, ℕ, ◌<◌, length};
ghost use Rattle.list_known.specs.FullStates.{Full};
ghost use Rattle.list_closing.specs.Closing.{program_in, entries_in};
ghost use Rattle.list_closing.specs.Walk.{LowestFailing};
ghost use Rattle.verdict.specs.Answers.{verdict_in};
ghost use Rattle.list_judge.specs.Ready.{Ready, ReadyIn, TargetsHeldIn, HoldsIn, ShutsIn, with_targets, held_in, start_in, closed_in, entered_in, list_said};

use crate::judged::Judged;
use file_again::target_of;
use file_records::program::Program;
use list_closing::{Closing, is_surrounded, lowest_failing, open_step};
use list_known::full::{has_states, put_full};
use list_known::policy::{put_like, put_others};
use list_starts::entry_started;
use list_summary::Listing;
use list_targets::target_held;
use verdict::answer::Answer;

mod judged;

// Target k is held. The table keeps the local states of those that are, so that equal targets are walked once.
fn is_held(judged: &Judged, k: usize, held: &mut [u8]) -> bool
    ensures held_len_unchanged { length held.new ≡ length held.old }
    ensures holds { ReadyIn judged.now.listing judged.now.code.now judged.now.program → HoldsIn judged.now.listing judged.now.code.now judged.now.program held.old → HoldsIn judged.now.listing judged.now.code.now judged.now.program held.new × (k < judged.now.program.targets.count → result ≡ held_in judged.now.listing judged.now.code.now judged.now.program k) }
{
    let states = target_of(judged.code, judged.program, k);
    if has_states(held, states) {
        return true;
    }
    if !target_held(&judged.listing, states) {
        return false;
    }
    put_full(held, states);
    true
}

// The lowest target that is not held.
fn lowest_unheld(judged: &Judged) -> Option<usize>
    requires { ReadyIn judged.now.listing judged.now.code.now judged.now.program }
    ensures { LowestFailing (held_in judged.now.listing judged.now.code.now judged.now.program) judged.now.program.targets.count result }
{
    // local states that no process has
    let mut held = [255u8; 4096];
    for k in 0..judged.program.targets.count {
        if !is_held(judged, k, &mut held) {
            return Some(k);
        }
    }
    None
}

// The lowest entry that a start is above.
fn lowest_started(judged: &Judged) -> Option<usize>
    requires { ReadyIn judged.now.listing judged.now.code.now judged.now.program }
    ensures { LowestFailing (start_in judged.now.listing judged.now.code.now judged.now.program) judged.now.listing.count result }
{
    lowest_failing(judged.listing.count, |k| {
        !entry_started(
            judged.listing.file,
            judged.listing.offsets,
            judged.program.shape,
            judged.program.initial,
            k,
        )
    })
}

// The targets are full: number 9 was tested.
fn put_targets(judged: &Judged, table: &mut [u8])
    ensures { table.new ≡ with_targets judged.now.code.now judged.now.program table.old judged.now.program.targets.count }
{
    for k in 0..judged.program.targets.count {
        put_full(table, target_of(judged.code, judged.program, k));
    }
}

// The local states of entry k are full, and so are those from which a transition leads there: nothing leads in to it, and it is not read. The table keeps such
// states, so that transitions are looked at once for each.
fn is_shut(closing: &Closing, k: usize, shut: &mut [u8]) -> bool
    ensures shut_len_unchanged { length shut.new ≡ length shut.old }
    ensures by_index { ReadyIn closing.now.listing closing.now.code.now closing.now.program → Full (program_in closing.now) (entries_in closing.now) closing.now.full.now → ShutsIn closing.now.listing closing.now.code.now closing.now.program shut.old → ShutsIn closing.now.listing closing.now.code.now closing.now.program shut.new × (result ≡ true → k < closing.now.listing.count → closed_in closing.now.listing closing.now.code.now closing.now.program k ≡ true) }
{
    let states = closing.listing.states(k);
    if has_states(shut, states) {
        return true;
    }
    if !is_surrounded(closing.full, closing.code, closing.program, states) {
        return false;
    }
    put_full(shut, states);
    true
}

// The lowest entry with a way in from outside the list, and the lowest step of it; safe if there is none.
fn lowest_entered(judged: &Judged) -> Answer
    requires { ReadyIn judged.now.listing judged.now.code.now judged.now.program × TargetsHeldIn judged.now.listing judged.now.code.now judged.now.program }
    ensures { verdict_in result ≡ entered_in judged.now.listing judged.now.code.now judged.now.program }
{
    // local states that no process has
    let mut table = [255u8; 4096];
    put_targets(judged, &mut table);
    let mut shut = [255u8; 4096];
    let mut families = [0u8; 12288];
    let n = judged.listing.count;
    for k in 0..n {
        put_others(&judged.listing, k, &mut table);
        put_like(&table, &judged.listing, k, &mut families);
        let closing = Closing {
            listing: judged.listing,
            code: judged.code,
            program: judged.program,
            full: &table,
            families: &families,
        };
        if is_shut(&closing, k, &mut shut) {
            continue;
        }
        if let Some(step) = open_step(&closing, k) {
            return Answer::Entered { entry: k, step };
        }
    }
    Answer::Safe { entries: n }
}

// The numbers are tested in this order.
pub fn list_answer(
    code: &[u8],
    file: &[u8],
    list: &[u8],
    sum: &[u8],
    n: usize,
    program: Program,
) -> Answer
    requires { Ready code.now file.now list.now sum.now n program }
    ensures { verdict_in result ≡ list_said code.now file.now list.now n program }
{
    let listing = Listing {
        file,
        offsets: list,
        summary: sum,
        count: n,
        shape: program.shape,
    };
    let judged = Judged {
        listing,
        code,
        program,
    };
    if let Some(target) = lowest_unheld(&judged) {
        return Answer::Unheld { target };
    }
    if let Some(entry) = lowest_started(&judged) {
        return Answer::Started { entry };
    }
    lowest_entered(&judged)
}
