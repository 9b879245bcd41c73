//! What holds of every list of events of a shared table, and of every history of a shared source.
ghost use Rattle.std.specs.Prelude.{List};
ghost use Rattle.scan_sharing.specs.declared.holder.SharedAnswer.{SharedAnswer as AnswerOf};
ghost use Rattle.scan_sharing.specs.declared.holder.SharedKind.{SharedKind as KindOf};
ghost use Rattle.scan_sharing.specs.declared.holder.SharedEvent.{SharedEvent as EventOf};
ghost use Rattle.scan_sharing.specs.Past.{AreHeld, AreAnswered, AreJoined};

/// In the table that events leave, each entry was held without a gap since the request that made it, and each
/// holder since its own. An answer is the one that arrived while that request was live.
pub fn one_request_for_all()
    ensures held { (events : List (EventOf AnswerOf)) → AreHeld events }
    ensures answered { (events : List (EventOf AnswerOf)) → AreAnswered events }
    ensures joined { (events : List (EventOf AnswerOf)) → AreJoined events }
{}

/// The same of a history, whose events keep the kinds of the answers.
pub fn one_request_in_history()
    ensures held { (events : List (EventOf KindOf)) → AreHeld events }
    ensures answered { (events : List (EventOf KindOf)) → AreAnswered events }
    ensures joined { (events : List (EventOf KindOf)) → AreJoined events }
{}
