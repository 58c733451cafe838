// What every C function except those of a session promises, tied to its contract: a contract that promises less, or that asks something
// of its caller, breaks the claim. The functions do nothing: their contracts are the claims, so that the check's report names them.
#![tactic(auto)]

ghost use Rattle.c_functions.specs.Pools.{PoolsAnswered};
ghost use Rattle.c_functions.specs.Objects.{ObjectsRead};
ghost use Rattle.c_functions.specs.Exchange.{MessagesExchanged};
ghost use Rattle.c_functions.specs.Logs.{LogsKept};

// Reading, checking, texts, labels, judged commands, and one text examined.
pub fn pools_are_answered()
    ensures { PoolsAnswered }
{}

// The fields of a record, and the release.
pub fn objects_are_read()
    ensures { ObjectsRead }
{}

// Messages and the displayed value.
pub fn messages_are_exchanged()
    ensures { MessagesExchanged }
{}

// Log records and logs.
pub fn logs_are_kept()
    ensures { LogsKept }
{}
