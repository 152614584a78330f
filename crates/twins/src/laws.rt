//! A law of the verdict, as the contract of an empty function.
ghost use Rattle.twins.specs.Laws.{Agreeing};

/// The verdict on copies with the same number of rows is that they agree exactly where all of them
/// have the frames of copy 0.
pub fn agreement()
    ensures { Agreeing }
{}
