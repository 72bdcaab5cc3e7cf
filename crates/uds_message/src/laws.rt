//! What holds of messages and of the tables, whoever reads them. Each law is its contract; a call does nothing.

ghost use Rattle.uds_message.specs.Laws.{KeepAliveAsksNothing, FinalIsNotPending, EachServiceIsFound, EachCodeIsFound};

/// The keep-alive asks for no answer: it is no request, and it suppresses the positive response.
pub fn keep_alive_asks_nothing()
    ensures { KeepAliveAsksNothing }
{}

/// No message is final and pending for one service.
pub fn final_is_not_pending()
    ensures { FinalIsNotPending }
{}

/// Each service of the table is found by its identifier, and that is no response's.
pub fn each_service_is_found()
    ensures { EachServiceIsFound }
{}

/// Each response code of the table is found.
pub fn each_code_is_found()
    ensures { EachCodeIsFound }
{}
