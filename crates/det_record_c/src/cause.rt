//! The reason why a call writes nothing, and its number for C.
ghost use Rattle.std.specs.Prelude.{◌≡◌};
ghost use Rattle.det_record_c.specs.Answers.{answer_of};

/// The place is checked first, then the values, and then the room.
#[derive(Clone, Copy, Debug, PartialEq, Eq, Drop)]
pub enum Cause {
    /// This may not come now.
    Misplaced,
    /// A value isn't in its range.
    OutOfRange,
    /// The bytes don't fit into the room that C gave.
    NoRoom,
}

/// The number that C receives: 0 for what is written, or that of the cause.
pub(crate) fn answer(done: Result<(), Cause>) -> u8
    ensures { result ≡ answer_of done }
{
    match done {
        Ok(()) => 0,
        Err(Cause::Misplaced) => 1,
        Err(Cause::OutOfRange) => 2,
        Err(Cause::NoRoom) => 3,
    }
}
