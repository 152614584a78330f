//! Joins parts made of values that come from at least one element.

ghost use Rattle.std.specs.Prelude.{◌≡◌};
ghost use Rattle.job.specs.Laws.{CoverTogether};
ghost use Rattle.job_shared.specs.Parts.{joined_by, covers_by};

/// A value that comes from at least one element, as the best of them. An `Option` of it is a part,
/// where None is that of no element.
pub trait Joinable: Copy + Drop {
    ghost use Rattle.std.specs.Prelude.{◌≡◌, ℕ};
    ghost use Rattle.job.specs.Laws.{CoverTogether};

    ghost both: { Self → Self → Self };

    ghost IsOf: { Self → ℕ → Type 0 };

    /// The value that comes from the elements of both. Those of `self` are before the others.
    fn join(self, right: Self) -> Self
        requires { CoverTogether IsOf self right }
        ensures { result ≡ both self right };
}

/// The part that comes from the elements of both.
#[inline(always)]
pub fn join_parts<P: Joinable>(left: Option<P>, right: Option<P>) -> Option<P>
    requires { CoverTogether (covers_by P.IsOf) left right }
    ensures { result ≡ joined_by P.both left right }
{
    match left {
        None => right,
        Some(first) => match right {
            None => Some(first),
            Some(second) => Some(first.join(second)),
        },
    }
}
