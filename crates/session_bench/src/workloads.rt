//! The jobs that a user waits for, on logs of real shape.

use crate::calls::{Job, run_compare, run_in_memory, run_one, run_pair_page};
use crate::dice::Dice;
use crate::digest::Digest;
use crate::recorder::{CANDUMP, Form, Recorder};
use crate::session::{Speaker, Talk};
use std::alloc::{AllocError, Global};
use trace_log::Config;

/// What a workload is done over.
#[derive(Clone, Copy)]
pub(crate) struct Task<'a> {
    pub alloc: Global,
    pub config: &'a Config,
    pub seed: u64,
    /// How often each log is taken, changed each time.
    pub rounds: u32,
    /// By which number the logs are shorter than they are.
    pub parts: u64,
}

/// Half of the lines, or nine tenths, are of other identifiers.
const HALF: Form = Form {
    foreign: 50,
    ..CANDUMP
};

const NINE_TENTHS: Form = Form {
    foreign: 90,
    ..CANDUMP
};

/// FD frames of up to 64 bytes.
const FD: Form = Form {
    interface: b"vcan12",
    frame_size: 64,
    ..CANDUMP
};

/// What python-can and asc2log write: marks, relative stamps, ends of two bytes, or frames that are all filled up.
const MARKED: Form = Form {
    has_marks: true,
    is_lower: true,
    ..HALF
};

const RELATIVE: Form = Form {
    is_absolute: false,
    has_marks: true,
    ..HALF
};

const RETURNED: Form = Form {
    has_returns: true,
    filled: 0,
    ..HALF
};

const RELATIVE_FD: Form = Form {
    is_absolute: false,
    has_returns: true,
    foreign: 30,
    filled: 64,
    ..FD
};

/// The same session as another recorder writes it.
const OTHER: Form = Form {
    interface: b"vcan1",
    frame_size: 16,
    padding: 0x55,
    ..CANDUMP
};

/// One of fifty frames behind a first one is lost.
const LOSING: Form = Form { lost: 2, ..CANDUMP };

/// Long recordings of a bench, and of units that are flashed.
pub(crate) fn long(task: Task<'_>) -> Result<Digest, AllocError> {
    const JOBS: [Job; 3] = [Job::Normalise, Job::List, Job::Explain];
    let mut digest = Digest::new();
    over_log(task, 11, HALF, Talk::Reading, 1_200, &JOBS, &mut digest)?;
    over_log(
        task,
        12,
        NINE_TENTHS,
        Talk::Reading,
        300,
        &JOBS,
        &mut digest,
    )?;
    over_log(
        task,
        13,
        CANDUMP,
        Talk::Flashing(4_095),
        40,
        &JOBS,
        &mut digest,
    )?;
    over_log(task, 14, FD, Talk::Flashing(65_535), 10, &JOBS, &mut digest)?;
    Ok(digest)
}

/// Logs that other tools wrote.
pub(crate) fn tools(task: Task<'_>) -> Result<Digest, AllocError> {
    const JOBS: [Job; 3] = [Job::Normalise, Job::List, Job::Find];
    let mut digest = Digest::new();
    over_log(task, 21, MARKED, Talk::Reading, 800, &JOBS, &mut digest)?;
    over_log(task, 22, RELATIVE, Talk::Reading, 800, &JOBS, &mut digest)?;
    over_log(task, 23, RETURNED, Talk::Reading, 800, &JOBS, &mut digest)?;
    over_log(
        task,
        24,
        RELATIVE_FD,
        Talk::Reading,
        800,
        &JOBS,
        &mut digest,
    )?;
    Ok(digest)
}

/// Two recordings of one test run, most often equal. Where they differ the page of both is made.
pub(crate) fn pairs(task: Task<'_>) -> Result<Digest, AllocError> {
    let mut digest = Digest::new();
    over_pair(task, 31, HALF, Talk::Reading, 400, &mut digest)?;
    over_pair(task, 32, CANDUMP, Talk::Short, 1_500, &mut digest)?;
    over_pair(task, 33, CANDUMP, Talk::Flashing(1_000), 40, &mut digest)?;
    Ok(digest)
}

/// Thousands of short recordings against kept ones, through the library.
pub(crate) fn short(task: Task<'_>) -> Result<Digest, AllocError> {
    let mut digest = Digest::new();
    for i in 0..300 / task.parts.max(1) {
        over_kept(task, i.wrapping_add(1_000), Talk::Reading, 1, &mut digest)?;
    }
    for i in 0..60 / task.parts.max(1) {
        over_kept(task, i.wrapping_add(2_000), Talk::Reading, 20, &mut digest)?;
    }
    for i in 0..6 / task.parts.max(1) {
        over_kept(task, i.wrapping_add(3_000), Talk::Short, 1_000, &mut digest)?;
    }
    Ok(digest)
}

/// One session for a reader: as a page, and each message with its place.
pub(crate) fn page(task: Task<'_>) -> Result<Digest, AllocError> {
    const JOBS: [Job; 4] = [
        Job::Report,
        Job::Messages,
        Job::MessageObjects,
        Job::ListObjects,
    ];
    let mut digest = Digest::new();
    over_log(task, 51, HALF, Talk::Reading, 1_000, &JOBS, &mut digest)?;
    over_log(task, 52, CANDUMP, Talk::Short, 5_000, &JOBS, &mut digest)?;
    over_log(task, 53, FD, Talk::Reading, 1_500, &JOBS, &mut digest)?;
    Ok(digest)
}

/// What nobody records gladly.
pub(crate) fn awkward(task: Task<'_>) -> Result<Digest, AllocError> {
    const DROPPED: [Job; 3] = [Job::Normalise, Job::Explain, Job::Report];
    const LOST: [Job; 3] = [Job::Normalise, Job::Explain, Job::List];
    const TOLD: [Job; 3] = [Job::Normalise, Job::List, Job::Watch];
    const FOUND: [Job; 2] = [Job::Find, Job::Normalise];
    let mut digest = Digest::new();
    over_log(
        task,
        61,
        CANDUMP,
        Talk::Faults,
        10_000,
        &DROPPED,
        &mut digest,
    )?;
    over_log(
        task,
        62,
        LOSING,
        Talk::Flashing(400),
        300,
        &LOST,
        &mut digest,
    )?;
    over_log(task, 63, CANDUMP, Talk::Strays, 8_000, &TOLD, &mut digest)?;
    over_log(
        task,
        64,
        CANDUMP,
        Talk::Unanswered,
        8_000,
        &TOLD,
        &mut digest,
    )?;
    over_log(
        task,
        65,
        CANDUMP,
        Talk::Strangers,
        6_000,
        &FOUND,
        &mut digest,
    )?;
    Ok(digest)
}

/// Does jobs over a log, each over another one of its kind.
fn over_log(
    task: Task<'_>,
    purpose: u64,
    form: Form,
    talk: Talk,
    exchanges: u64,
    jobs: &[Job],
    digest: &mut Digest,
) -> Result<(), AllocError> {
    let mut log = recorded(task, purpose, form, talk, exchanges)?;
    let mut changes = Dice::new(task.seed, purpose.wrapping_add(500));
    let mut serial = 0u32;
    for _ in 0..task.rounds {
        for job in jobs {
            serial = serial.wrapping_add(1);
            log.change(serial, &mut changes);
            run_one(task.alloc, task.config, *job, log.text(), digest);
        }
    }
    Ok(())
}

/// Compares two recordings of a session, three times of four the same one.
fn over_pair(
    task: Task<'_>,
    purpose: u64,
    form: Form,
    talk: Talk,
    exchanges: u64,
    digest: &mut Digest,
) -> Result<(), AllocError> {
    let mut left = recorded(task, purpose, form, talk, exchanges)?;
    let mut right = recorded(task, purpose, OTHER, talk, exchanges)?;
    let mut changes = Dice::new(task.seed, purpose.wrapping_add(500));
    for serial in 0..task.rounds {
        change_both(serial, &mut left, &mut right, &mut changes);
        let differ = serial % 4 == 3;
        if differ {
            right.spoil(&mut changes, 3)?;
        }
        run_compare(task.alloc, task.config, left.text(), right.text(), digest);
        if differ {
            run_pair_page(task.alloc, task.config, left.text(), right.text(), digest);
            right.mend();
        }
    }
    Ok(())
}

/// Asks the library of a recording and the one that was kept.
fn over_kept(
    task: Task<'_>,
    purpose: u64,
    talk: Talk,
    exchanges: u64,
    digest: &mut Digest,
) -> Result<(), AllocError> {
    let mut kept = recorded(task, purpose, CANDUMP, talk, exchanges)?;
    let mut recording = recorded(task, purpose, OTHER, talk, exchanges)?;
    let mut changes = Dice::new(task.seed, purpose.wrapping_add(500));
    for serial in 0..task.rounds {
        change_both(serial, &mut kept, &mut recording, &mut changes);
        run_in_memory(
            task.alloc,
            task.config,
            kept.text(),
            recording.text(),
            digest,
        );
    }
    Ok(())
}

/// Makes another session of both recordings, the same one.
fn change_both(serial: u32, left: &mut Recorder, right: &mut Recorder, changes: &mut Dice) {
    let mut same = *changes;
    left.change(serial, &mut same);
    right.change(serial, changes);
}

/// A recording. Those of one purpose have the same messages, in whatever form.
fn recorded(
    task: Task<'_>,
    purpose: u64,
    form: Form,
    talk: Talk,
    exchanges: u64,
) -> Result<Recorder, AllocError> {
    let mut log = Recorder::new(
        task.alloc,
        form,
        Dice::new(task.seed, purpose.wrapping_add(5_000)),
    );
    let mut speaker = Speaker::new(task.alloc, Dice::new(task.seed, purpose));
    speaker.record(talk, exchanges.div_ceil(task.parts.max(1)), &mut log)?;
    Ok(log)
}
