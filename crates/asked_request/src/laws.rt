//! What holds of what is kept of a request, whatever messages and rules there are. Each law is its contract; a call does nothing.

ghost use Rattle.asked_request.specs.Laws.{KeptIsEnough, NothingIsToldOfMore};

/// What is kept of a request tells whether an answer is other than was asked, as the whole request does.
pub fn kept_is_enough()
    ensures enough { KeptIsEnough }

    // of a request that asks for more nothing is told
    ensures more { NothingIsToldOfMore }
{}
