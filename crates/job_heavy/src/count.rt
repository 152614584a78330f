//! The heavy job's parts: the number of elements that ran, and the output made of it.

ghost use Rattle.std.specs.Prelude.{◌≡◌, ◌+◌, IfOk};
ghost use Rattle.job.specs.Laws.{CoverTogether, CoversBoth};
ghost use Rattle.job_heavy.specs.Meaning.{output};
ghost use Rattle.job_heavy.specs.Ranges.{IsCountOf};

use det_values::Bytes;
use job_shared::empty_output;
use std::alloc::{AllocError, Global};

/// The sum of two counts.
pub(crate) fn add_counts(left: u64, right: u64) -> u64
    requires { CoverTogether IsCountOf left right }
    ensures sum { result ≡ left + right }
    ensures covers { CoversBoth IsCountOf left right result }
{
    left + right
}

/// The count, in 8 bytes.
pub(crate) fn output(
    count: u64,
    alloc: Global,
    spare: &mut Option<Bytes>,
) -> Result<Bytes, AllocError>
    ensures { IfOk result (λ bytes. bytes ≡ output count) }
{
    let mut bytes = empty_output(alloc, spare, 8)?;
    bytes.extend_from_slice(&count.to_be_bytes())?;
    Ok(bytes)
}
