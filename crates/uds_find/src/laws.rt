//! What holds of what frames say and of credits, whatever counts them. Each law is its contract; a call does nothing.

ghost use Rattle.uds_find.specs.Laws.{AskingIsKept, CreditHasAsking, CreditIsAsked, FirstCreditIsCredit, FunctionalIsIdentifier};
ghost use Rattle.uds_find.specs.Laws.{KeepAliveSaysNothing, NeedHasAsking, NeedHasKept, PendingReplySaysNothing, SecondAnswerHasNoCredit, TesterIsAnother};

/// A keep-alive asks for nothing.
pub fn keep_alive_says_nothing()
    ensures { KeepAliveSaysNothing }
{}

/// A reply that puts its answer off answers nothing.
pub fn pending_reply_says_nothing()
    ensures { PendingReplySaysNothing }
{}

/// The first credit of a pair is a credit.
pub fn first_credit_is_credit()
    ensures { FirstCreditIsCredit }
{}

/// A credited frame answers a service: its unit sent it, and its tester, which is another, was the last to ask, and has
/// no answer of this unit yet.
pub fn credit_is_asked()
    ensures { CreditIsAsked }
{}

/// A credit is given once for one asking.
pub fn second_answer_has_no_credit()
    ensures { SecondAnswerHasNoCredit }
{}

/// Where an answer is credited, some frame asks.
pub fn credit_has_asking()
    ensures { CreditHasAsking }
{}

/// What is kept grows only where the identifier of some frame is kept.
pub fn need_has_kept()
    ensures { NeedHasKept }
{}

/// With a frame that is not functional, what is kept grows only where some frame asks.
pub fn need_has_asking()
    ensures { NeedHasAsking }
{}

/// Where a frame asks, its identifier is kept.
pub fn asking_is_kept()
    ensures { AskingIsKept }
{}

/// Whatever is functional is an identifier for functional requests.
pub fn functional_is_identifier()
    ensures { FunctionalIsIdentifier }
{}

/// No unit is its own tester.
pub fn tester_is_another()
    ensures { TesterIsAnother }
{}
