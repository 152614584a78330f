//! Laws of these definitions, in terms of whole records. They show what reading from left to right
//! means, and that each record has one spelling. Each function is empty, and its contract is the
//! law.

ghost use Rattle.record_grammar.specs.record_laws.Statements.{OneSpelling, OneRecord, Decoding};
ghost use Rattle.record_grammar.specs.record_laws.Statements.{EarlyEnd};
ghost use Rattle.record_grammar.specs.record_laws.Statements.{ItemsGrow, FaultStays, InOrder};
ghost use Rattle.record_grammar.specs.record_laws.Statements.{SpelledIsRead};

/// In one place no item's spelling begins another's, and no two items have the same spelling. So no
/// two pairs of a profile and frames have the same spelling either. The law is about places whose
/// events can be numbered in two bytes; a header names at most 256.
pub fn one_spelling()
    ensures item { OneSpelling }
    ensures whole { OneRecord }
{}

/// The items and the fault of any bytes, in terms of whole records. The bytes are below 256: of
/// other numbers an item could have two readings.
pub fn decoding()
    ensures all { Decoding }
    ensures early { EarlyEnd }
{}

/// More bytes add items after those that are there. A fault whose byte is there stays, whatever
/// comes after it.
pub fn more_bytes()
    ensures items { ItemsGrow }
    ensures fault { FaultStays }
{}

/// Items in their places are the frames of a run, or its first frames.
pub fn in_order()
    ensures { InOrder }
{}

/// The items of a spelling are the items that were spelled. Its only possible fault is an early
/// end.
pub fn spelled_is_read()
    ensures { SpelledIsRead }
{}
