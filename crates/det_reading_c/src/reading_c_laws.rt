//! The law of what was written: it is read as what it was written from.
ghost use Rattle.det_reading_c.specs.Statements.{SpelledHeaderIsRead, SpelledFrameIsRead};

/// A call that gets the spelling of a header or of a frame that may come in its place answers with
/// a whole one, and its struct is of it.
pub fn spelled_is_read()
    ensures header { SpelledHeaderIsRead }
    ensures frame { SpelledFrameIsRead }
{}
