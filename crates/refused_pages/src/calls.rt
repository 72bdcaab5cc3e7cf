//! The calls, each over every session.

use can_log::Id;
use std::alloc::Global;
use std::test::Fail;
use trace_canon::Comparison;
use trace_io::{Reading, Writing};
use trace_log::{CompareFault, Config, Fault, Summary};
use trace_pair::{Aligned, Title, align_two, write_pair_page};
use tried_sessions::{Page, SESSIONS, Session, sides};
use uds_rules::Rules;

/// How often a call is made until it answers: again, where it is refused memory.
const TRIES: [bool; 2] = [false, true];

const REFUSED_AGAIN: &str = "refused again";

/// Ends a test with the session over which its call was refused memory.
fn tell(is_again: bool, session: Session) -> Result<(), Fail> {
    if is_again {
        Err(session.name)?
    }
    Ok(())
}

#[test]
fn report(rt: HostRuntime) -> Result<(), Fail> {
    for session in SESSIONS {
        tell(reported(rt.alloc(), session)?, session)?;
    }
    Ok(())
}

/// Writes the page of a session. Where that was refused memory, a front of the page was written.
fn reported(alloc: Global, session: Session) -> Result<bool, Fail> {
    let mut begun = Page::new();
    for is_again in TRIES {
        let (answer, page) = page_of(alloc, session.log)?;
        if answer != Err(Fault::Memory) {
            answer?;
            page.assert_begins_with(begun.bytes())?;
            page.assert_tells(b"The recording is clean")?;
            return Ok(is_again);
        }
        begun = page;
    }
    Err(REFUSED_AGAIN)?
}

/// What is answered to a log, and its page. Like the next ones it promises nothing, so that no proof of a caller weighs what the call
/// in it promises.
fn page_of(alloc: Global, log: &[u8]) -> Result<(Result<Summary, Fault>, Page), Fail> {
    let (mut reader, mut writer) = (Reading::new(log), Writing::new(Page::new()));
    let answer = trace_report::report(alloc, &sides()?, "", b"log", &mut reader, &mut writer);
    Ok((answer, writer.into_inner()))
}

#[test]
fn two_are_aligned(rt: HostRuntime) -> Result<(), Fail> {
    for session in SESSIONS {
        tell(held(rt.alloc(), session)?, session)?;
    }
    Ok(())
}

/// Holds the log of a session and its canonical log, and writes the page of both. Where they were refused memory, there is none.
fn held(alloc: Global, session: Session) -> Result<bool, Fail> {
    let config = sides()?;
    for is_again in TRIES {
        let answer = aligned(alloc, &config, session.log, session.canonical);
        let page = page_of_two(&answer)?;
        match answer {
            Err(CompareFault::Left(Fault::Memory) | CompareFault::Right(Fault::Memory)) => {
                if !page.bytes().is_empty() {
                    Err("a page of nothing")?
                }
            }
            Ok(aligned) if aligned.comparison() == Comparison::Same => {
                page.assert_tells(b"The two sessions are the same")?;
                return Ok(is_again);
            }
            _ => Err("not the same")?,
        }
    }
    Err(REFUSED_AGAIN)?
}

/// Two logs side by side.
fn aligned<'a>(
    alloc: Global,
    config: &'a Config,
    left: &[u8],
    right: &[u8],
) -> Result<Aligned<'a>, CompareFault> {
    let (mut left, mut right) = (Reading::new(left), Reading::new(right));
    align_two(alloc, config, &mut left, &mut right)
}

/// The page of what is answered of these.
fn page_of_two(answer: &Result<Aligned<'_>, CompareFault>) -> Result<Page, Fail> {
    let rules = Rules::none();
    let title = Title {
        style: "",
        left: b"log",
        right: b"canonical",
        tester: Id::Std(0x7E0),
        functional: None,
        unit: Id::Std(0x7E8),
        rules: &rules,
    };
    let mut writer = Writing::new(Page::new());
    write_pair_page(&title, answer, None, &mut writer)?;
    Ok(writer.into_inner())
}
