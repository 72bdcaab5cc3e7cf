//! What the program does with one log: the engine of each job.

ghost use Rattle.std.specs.Prelude.{◌≡◌};
ghost use Rattle.isotp_receive.specs.declared.TheConstants.{MESSAGE_LIMIT};
ghost use Rattle.trace_io.specs.Counted.{IsLowCount};
ghost use Rattle.trace_log.specs.Devices.{HasLowCounts};
ghost use Rattle.trace_run.specs.Script.{glimpse_of};
ghost use Rattle.udsnorm.specs.Engines.{RanAny, RanBy, engine_of};

use command_line::Job;
use std::alloc::Global;
use trace_canon::{explain, find, list, messages, normalise, watch};
use trace_io::{Source, Target};
use trace_log::{Config, Fault, Summary};
use trace_report::{report, report_style};

/// What the engine answers that does the job, over a log that has this name on a page.
#[tactic(auto, using(crate::proofs::Engines::ran_any))]
pub(crate) fn do_job<R: Source, W: Target>(
    alloc: Global,
    job: Job,
    name: &str,
    config: &Config,
    input: &mut R,
    out: &mut W,
) -> Result<Summary, Fault>
    requires input { HasLowCounts R.Source input.old }
    requires out { IsLowCount (W.failures out.old) }
    ensures ran { RanAny R.Source W.Target (engine_of job name.now (glimpse_of R.Source input.new)) MESSAGE_LIMIT config.now input.old out.old result input.new out.new }
{
    call_engine(alloc, job, name, config, input, out)
}

/// The call that does the job.
fn call_engine<R: Source, W: Target>(
    alloc: Global,
    job: Job,
    name: &str,
    config: &Config,
    input: &mut R,
    out: &mut W,
) -> Result<Summary, Fault>
    requires input { HasLowCounts R.Source input.old }
    requires out { IsLowCount (W.failures out.old) }
    ensures ran { RanBy R.Source W.Target (engine_of job name.now (glimpse_of R.Source input.new)) config.now input.old out.old result input.new out.new }
{
    match job {
        Job::Normalise => normalise(alloc, config, input, out),
        Job::List(style) => list(alloc, config, style, input, out),
        Job::Watch(style) => watch(alloc, config, style, input, out),
        Job::Explain(notation) => explain(alloc, config, notation, input, out),
        Job::Messages(notation) => messages(alloc, config, notation, input, out),
        Job::Report => report(alloc, config, report_style(), name.as_bytes(), input, out),
        Job::Find(style) => find(alloc, config, style, input, out),
    }
}
