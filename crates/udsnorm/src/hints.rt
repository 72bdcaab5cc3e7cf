//! Hints: a line behind the text of a run, for the person at the terminal.

ghost use Rattle.std.specs.Prelude.{◌≡◌, ◌<◌, IfOk, OnOk, IfErr, List, true, false, map, option_map, string_bytes};
ghost use Rattle.clap.specs.Words.{Text};
ghost use Rattle.trace_io.specs.Counted.{IsLowCount};
ghost use Rattle.command_line.specs.Commands.{command_in, words_or_normalise};
ghost use Rattle.udsnorm.specs.Hints.{GaveHint, IsHint, ToldAwaited, awaited_line, hint_line, hint_of_plan};
ghost use Rattle.command_line.specs.Under.{under_in};
ghost use Rattle.command_line.specs.Words.{IsPlanned};
ghost use Rattle.command_line.specs.declared.seen_profile.SeenProfile.{SeenProfile};

use crate::ended::{Known, Matter, Run, name_of};
use crate::hint_lines::HintLine;
use crate::tell::tell_text;
use command_line::{Plan, WordsFault, advice_for, found, under_of};
use line_text::line_in;
use std::alloc::{AllocError, Global};
use std::rt::Files;
use trace_io::Target;

/// Tells the hint of a run, where there is one and hints are wanted. Where the text of the run could not be told, or memory
/// is refused, it is left out.
pub fn give_hint<R: AllocGlobal + Files, E: Target>(
    rt: &R,
    words: &[String],
    run: &Run,
    is_wanted: bool,
    err: &mut E,
) -> Result<(), AllocError>
    ensures hint { OnOk result (is_wanted ≡ true → E.failures err.old ≡ 0 → GaveHint E.Target run.now.asked (map string_bytes words.now) run.now.end.known err.old err.new) }
    ensures failed { 0 < E.failures err.old → err.new ≡ err.old }
    ensures unwanted { is_wanted ≡ false → err.new ≡ err.old }
    ensures memory { IfErr result (λ _. err.new ≡ err.old) }
{
    if !is_wanted || err.failures() > 0 {
        return Ok(());
    }
    let line = hint_of(rt, words, run)?;
    tell_text(line.as_slice(), err);
    Ok(())
}

/// Tells that standard input is awaited, where a job over it is asked for and this is to be told. Where the error output had
/// failed before, it is left out.
#[tactic(auto, using(crate::proofs::Awaited::low_after))]
pub fn tell_awaited<E: Target>(asked: &Result<Plan, WordsFault>, is_wanted: bool, err: &mut E)
    ensures told { is_wanted ≡ true → E.failures err.old ≡ 0 → (given : List Text) (seen : SeenProfile) → IsPlanned (words_or_normalise given) seen asked.now
        → ToldAwaited E.Target given seen err.old err.new }
    ensures failed { 0 < E.failures err.old → err.new ≡ err.old }
    ensures unwanted { is_wanted ≡ false → err.new ≡ err.old }
    ensures low { IsLowCount (E.failures err.old) → IsLowCount (E.failures err.new) }
{
    if is_wanted && err.failures() == 0 {
        tell_text(awaited_line(asked).as_bytes(), err);
    }
}

/// What is told before this is done.
fn awaited_line(asked: &Result<Plan, WordsFault>) -> &'static str
    ensures { result.now ≡ awaited_line asked.now }
{
    match asked {
        Ok(Plan::One { log: None, .. }) => "hint: standard input is read; Ctrl-D ends it\n",
        _ => "",
    }
}

/// The line of the hint of a run, which is empty where there is none.
fn hint_of<R: AllocGlobal + Files>(
    rt: &R,
    words: &[String],
    run: &Run,
) -> Result<Vec<u8>, AllocError>
    ensures { IfOk result (λ line. IsHint run.now.asked (map string_bytes words.now) run.now.end.known line.items) }
{
    match &run.asked {
        Ok(plan) => hint_of_plan(rt.alloc(), words, plan, run.end.known),
        Err(fault) => advice_for(rt, words, fault),
    }
}

/// The line of what is known of a plan of these words that was carried out.
fn hint_of_plan(
    alloc: Global,
    words: &[String],
    plan: &Plan,
    known: Option<Known>,
) -> Result<Vec<u8>, AllocError>
    ensures { IfOk result (λ line. line.items ≡ hint_of_plan (under_in (command_in (words_or_normalise (map string_bytes words.now)))) plan.now known) }
{
    match known {
        Some(known) => hint_of_log(alloc, words, known.matter, name_of(plan, known.which)),
        None => Ok(Vec::new(alloc)),
    }
}

/// The line of what is known of a log. The parser took these words: that it does not now is that memory is refused.
fn hint_of_log(
    alloc: Global,
    words: &[String],
    matter: Matter,
    name: Option<&str>,
) -> Result<Vec<u8>, AllocError>
    ensures { IfOk result (λ line. line.items
        ≡ hint_line (under_in (command_in (words_or_normalise (map string_bytes words.now)))) matter (option_map (λ t. t.now) name.entry)) }
{
    match found(alloc, words) {
        Ok(matches) => {
            let under = under_of(&matches);
            line_in(
                alloc,
                HintLine {
                    under,
                    matter,
                    name,
                },
            )
        }
        Err(_) => Err(AllocError),
    }
}
