//! When a session begins and ends.

ghost use Rattle.std.specs.Prelude.{◌≡◌, List, [], ◌∷◌, ◌++◌, Some};
ghost use Rattle.isotp_receive.specs.Trace.{Entry};
ghost use Rattle.trace_report.specs.proving.Following.{times_of};
ghost use Rattle.trace_report.specs.proving.Lending.{first_of_times, last_of_times};

/// The times of the first frame of a trace, and of its last one.
#[derive(Clone, Copy, Debug)]
pub(crate) struct Times {
    pub first: u64,
    pub last: u64,
}

/// The times of the first frame and the last one, with one more frame.
pub(crate) fn times_with(times: Option<Times>, micros: u64) -> Times
    ensures { (T : List Entry) (e : Entry) → times ≡ times_of T → e.micros ≡ micros → Some result ≡ times_of (T ++ e ∷ []) }
{
    match times {
        Some(times) => Times {
            first: times.first,
            last: micros,
        },
        None => Times {
            first: micros,
            last: micros,
        },
    }
}

/// The time of the first frame; 0 where there is none.
pub(crate) fn first_of(times: Option<Times>) -> u64
    ensures { result ≡ first_of_times times }
{
    match times {
        Some(times) => times.first,
        None => 0,
    }
}

/// The time of the last frame; 0 where there is none.
pub(crate) fn last_of(times: Option<Times>) -> u64
    ensures { result ≡ last_of_times times }
{
    match times {
        Some(times) => times.last,
        None => 0,
    }
}
