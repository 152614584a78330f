//! `Difference`: the place of a difference, as `compare` prints it.

/// The first place in which two rows differ. Its variants are in the order in which the places of a
/// frame are compared.
///
/// Frames count from 0: Register, Discover and Init are frames 0 to 2, and cycle c is frame `c +
/// 2`. Cycles count from 1, and Init counts as cycle 0.
#[derive(Clone, Copy, Debug, PartialEq, Eq, Drop)]
pub enum Difference {
    /// The two headers differ.
    Header,
    /// The frames of this number are of different kinds, or only one of them exists.
    Kind(u32),
    /// The two times of this cycle.
    Time(u32),
    /// The two lists of samples of this cycle.
    Samples(u32),
    /// The result of this cycle: one was refused and the other finished, or both were refused, at
    /// different places or with different codes.
    Result(u32),
    /// An element, counted from 0: its bytes differ, or its draws, or one list of elements ends
    /// before it.
    Element { cycle: u32, element: u32 },
    /// The two outputs of this cycle.
    Output(u32),
}
