//! A session that is kept as a whole.

ghost use Rattle.std.specs.Prelude.{◌≡◌};
ghost use Rattle.trace_report.specs.proving.Lending.{first_of_times, last_of_times};

use crate::kept_rows::KeptRows;
use crate::times::{Times, first_of, last_of};
use std::marker::Model;
use trace_log::Summary;
use trace_run::RuleCounts;
use uds_rules::Rules;

/// What a log says, kept. Contracts see its rows, its counts, the times of its first frame and its last one, the rules
/// that it is under, and of how many of its messages each spoke.
#[derive(Debug, Drop)]
pub struct KeptSession<'a> {
    rows: KeptRows,
    summary: Summary,
    times: Option<Times>,
    rules: &'a Rules,
    spoken: RuleCounts,
}

impl<'a> Model for KeptSession<'a> {
    ghost use Rattle.trace_report.specs.Session.{SessionValue};
    ghost use Rattle.trace_report.specs.proving.Lending.{first_of_times, last_of_times};

    ghost Value = { SessionValue };

    ghost view = { λ s. record {
      rows = s.rows;
      summary = s.summary;
      first = first_of_times s.times;
      last = last_of_times s.times;
      rules = s.rules.now;
      spoken = s.spoken.items;
    } };
}

impl<'a> KeptSession<'a> {
    /// What is kept of a log under these rules: its rows, its counts, the times of its first frame and its last one, if
    /// it has frames, and of how many messages each rule spoke.
    pub(crate) fn of(
        rules: &'a Rules,
        rows: KeptRows,
        summary: Summary,
        times: Option<Times>,
        spoken: RuleCounts,
    ) -> KeptSession<'a>
        ensures rows { result.rows ≡ rows }
        ensures summary { result.summary ≡ summary }
        ensures first { result.first ≡ first_of_times times }
        ensures last { result.last ≡ last_of_times times }
        ensures rules { result.rules ≡ rules.now }
        ensures spoken { result.spoken ≡ spoken.items }
    {
        KeptSession {
            rows,
            summary,
            times,
            rules,
            spoken,
        }
    }

    /// The rows of the session.
    pub fn rows(&self) -> &KeptRows
        ensures { result.now ≡ self.now.rows }
    {
        &self.rows
    }

    /// The counts of the session.
    pub fn summary(&self) -> Summary
        ensures { result ≡ self.now.summary }
    {
        self.summary
    }

    /// The time of its first frame; 0 where it has none.
    pub fn first_time(&self) -> u64
        ensures { result ≡ self.now.first }
    {
        first_of(self.times)
    }

    /// The time of its last frame; 0 where it has none.
    pub fn last_time(&self) -> u64
        ensures { result ≡ self.now.last }
    {
        last_of(self.times)
    }

    /// The rules that it is under.
    pub fn rules(&self) -> &Rules
        ensures { result.now ≡ self.now.rules }
    {
        self.rules
    }

    /// Of how many of its messages each rule spoke, in the order of the rules.
    pub fn spoken(&self) -> &[u64]
        ensures { result.now ≡ self.now.spoken }
    {
        self.spoken.as_slice()
    }
}
