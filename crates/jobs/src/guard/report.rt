//! The output of the guard's cycles.

ghost use Rattle.std.specs.Prelude.{◌≡◌, ◌+◌, ◌*◌, ◌≤◌, ◌++◌, length, IfOk, OnOk};
ghost use Rattle.std.specs.List.{flat_map};
ghost use Rattle.job_shared.specs.Bytes.{u32_bytes};
ghost use Rattle.jobs.specs.guard.Meaning.{next_bytes, output};

use crate::guard::Corrections;
use det_values::Bytes;
use job_shared::empty_output;
use std::alloc::{AllocError, Global};

/// Appends the bytes of these numbers.
fn append_channel_numbers(bytes: &mut Bytes, numbers: &[u32]) -> Result<(), AllocError>
    requires { length bytes.old + 4 * length numbers.now ≤ 1048576 }
    ensures items { OnOk result (bytes.new ≡ bytes.old ++ flat_map u32_bytes numbers.now) }
    ensures long { OnOk result (length bytes.new ≡ length bytes.old + 4 * length numbers.now) }
{
    for number in numbers {
        bytes.extend_from_slice(&number.to_be_bytes())?;
    }
    Ok(())
}

/// Appends a 1 and the next activation time, or a 0 if it isn't available.
fn append_next_time(bytes: &mut Bytes, next: Option<u64>) -> Result<(), AllocError>
    requires { length bytes.old + 9 ≤ 1048576 }
    ensures { OnOk result (bytes.new ≡ bytes.old ++ next_bytes next) }
{
    match next {
        None => bytes.push(0),
        Some(time) => {
            bytes.push(1)?;
            bytes.extend_from_slice(&time.to_be_bytes())
        }
    }
}

/// The total of corrections, the count and the numbers of this cycle's corrected channels, and the
/// next activation time.
pub(crate) fn output(
    total: u64,
    corrections: &Corrections,
    next: Option<u64>,
    alloc: Global,
    spare: &mut Option<Bytes>,
) -> Result<Bytes, AllocError>
    ensures { IfOk result (λ bytes. bytes ≡ output total corrections.now next) }
{
    let mut bytes = empty_output(alloc, spare, 21 + 4 * corrections.len())?;
    bytes.extend_from_slice(&total.to_be_bytes())?;
    bytes.extend_from_slice(&(corrections.len() as u32).to_be_bytes())?;
    append_channel_numbers(&mut bytes, corrections.as_slice())?;
    append_next_time(&mut bytes, next)?;
    Ok(bytes)
}
