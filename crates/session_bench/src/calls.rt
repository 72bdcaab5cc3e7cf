//! The calls that are timed: each over a log in memory, in pieces as the program reads it, with a digest for a target.

use crate::digest::Digest;
use std::alloc::Global;
use trace_canon::{
    compare, explain, find, in_memory, list, messages, normalise, watch, write_comparison,
};
use trace_io::{Bytes, Writing};
use trace_log::Config;
use trace_pair::{Title, align_two, pair_style, write_pair_page};
use trace_report::{report, report_style};
use trace_text::{ComparisonStyle, CreditStyle, ItemStyle, Notation, Numbering};

/// Lines with their numbers.
const NUMBERED: ItemStyle = ItemStyle {
    numbering: Numbering::Shown,
    notation: Notation::Text,
};

/// The same as objects.
const OBJECTS: ItemStyle = ItemStyle {
    numbering: Numbering::Shown,
    notation: Notation::Json,
};

/// A comparison that shows the items that differ.
const SHOWN: ComparisonStyle = ComparisonStyle {
    shows_items: true,
    notation: Notation::Text,
};

/// A job over one log.
#[derive(Clone, Copy)]
pub(crate) enum Job {
    Normalise,
    List,
    ListObjects,
    Messages,
    MessageObjects,
    Watch,
    Explain,
    Find,
    Report,
}

/// Does a job over a log.
pub(crate) fn run_one(alloc: Global, config: &Config, job: Job, log: &[u8], digest: &mut Digest) {
    let mut reader = Bytes::new(log);
    let mut writer = Writing::new(Digest::new());
    let answer = match job {
        Job::Normalise => normalise(alloc, config, &mut reader, &mut writer),
        Job::List => list(alloc, config, NUMBERED, &mut reader, &mut writer),
        Job::ListObjects => list(alloc, config, OBJECTS, &mut reader, &mut writer),
        Job::Messages => messages(alloc, config, Notation::Text, &mut reader, &mut writer),
        Job::MessageObjects => messages(alloc, config, Notation::Json, &mut reader, &mut writer),
        Job::Watch => watch(alloc, config, NUMBERED, &mut reader, &mut writer),
        Job::Explain => explain(alloc, config, Notation::Text, &mut reader, &mut writer),
        Job::Find => {
            let style = CreditStyle::Lines(Notation::Text);
            find(alloc, config, style, &mut reader, &mut writer)
        }
        Job::Report => report(
            alloc,
            config,
            report_style(),
            b"session.log",
            &mut reader,
            &mut writer,
        ),
    };
    digest.count(answer.as_ref().ok());
    digest.add(&writer.into_inner());
}

/// Compares two logs.
pub(crate) fn run_compare(
    alloc: Global,
    config: &Config,
    left: &[u8],
    right: &[u8],
    digest: &mut Digest,
) {
    let mut writer = Writing::new(Digest::new());
    match compare(alloc, config, &mut Bytes::new(left), &mut Bytes::new(right)) {
        Ok(compared) => {
            let _ = write_comparison(&compared, SHOWN, config.rules(), &mut writer);
            digest.count(Some(&compared.left.summary));
            digest.count(Some(&compared.right.summary));
        }
        Err(_fault) => digest.count(None),
    }
    digest.add(&writer.into_inner());
}

/// Makes the page of two logs.
pub(crate) fn run_pair_page(
    alloc: Global,
    config: &Config,
    left: &[u8],
    right: &[u8],
    digest: &mut Digest,
) {
    let mut writer = Writing::new(Digest::new());
    let title = Title {
        style: pair_style(),
        left: b"yesterday.log",
        right: b"today.log",
        tester: config.tester(),
        functional: config.functional(),
        unit: config.unit(),
        rules: config.rules(),
    };
    let answer = align_two(alloc, config, &mut Bytes::new(left), &mut Bytes::new(right));
    let _ = write_pair_page(&title, &answer, None, &mut writer);
    match &answer {
        Ok(aligned) => {
            digest.count(Some(&aligned.two().left().summary()));
            digest.count(Some(&aligned.two().right().summary()));
        }
        Err(_fault) => digest.count(None),
    }
    digest.add(&writer.into_inner());
}

/// Asks the library: whether two recordings are the same session, and for texts of the second one.
pub(crate) fn run_in_memory(
    alloc: Global,
    config: &Config,
    kept: &[u8],
    recording: &[u8],
    digest: &mut Digest,
) {
    match in_memory::comparison(alloc, config, kept, recording) {
        Ok(counted) => digest.note(if counted.comparison == trace_canon::Comparison::Same {
            1
        } else {
            2
        }),
        Err(_fault) => digest.note(3),
    }
    match in_memory::canonical_log(alloc, config, recording) {
        Ok(counted) => digest.take(&counted.text),
        Err(_fault) => digest.note(4),
    }
    match in_memory::item_list(alloc, config, NUMBERED, recording) {
        Ok(counted) => {
            digest.count(Some(&counted.summary));
            digest.take(&counted.text);
        }
        Err(_fault) => digest.count(None),
    }
}
