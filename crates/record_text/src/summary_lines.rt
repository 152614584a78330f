//! The lines that are printed in place of a record.
ghost use Rattle.std.specs.Prelude.{◌≡◌, ◌++◌, OnOk, codes};
ghost use Rattle.record_text.specs.Words.{number_line};
ghost use Rattle.record_text.specs.Summaries.{digest_line, summary_lines};

use crate::put_text::{put_hex, put_number_line, put_str};
use std::alloc::AllocError;

/// The summary of a simulated run: its number, its cycles, and how many of them were refused. Of
/// its record, the length in bytes and the SHA-256 digest.
#[derive(Clone, Copy, Debug, PartialEq, Eq, Drop)]
pub struct Summary {
    pub number: u64,
    pub cycles: u32,
    pub refused: u32,
    pub bytes: u64,
    pub digest: [u8; 32],
}

fn put_digest_line(out: &mut Vec<u8>, digest: &[u8]) -> Result<(), AllocError>
    ensures { OnOk result (out.new.items ≡ out.old.items ++ digest_line digest.now) }
{
    put_str(out, "sha256 ")?;
    put_hex(out, digest)?;
    put_str(out, "\n")?;
    Ok(())
}

/// Appends the lines of a summary. After `AllocError` a part of the lines may be there.
pub fn put_summary_lines(out: &mut Vec<u8>, summary: &Summary) -> Result<(), AllocError>
    ensures { OnOk result (out.new.items ≡ out.old.items ++ summary_lines summary.now) }
{
    put_number_line(out, "sim", summary.number)?;
    put_number_line(out, "cycles", summary.cycles as u64)?;
    put_number_line(out, "refused", summary.refused as u64)?;
    put_number_line(out, "bytes", summary.bytes)?;
    put_digest_line(out, &summary.digest)?;
    Ok(())
}

/// Appends the line of a salvaged record with `cycles` cycles. After `AllocError` a part of it may
/// be there.
pub fn put_salvaged_line(out: &mut Vec<u8>, cycles: u32) -> Result<(), AllocError>
    ensures { OnOk result (out.new.items ≡ out.old.items ++ number_line (codes "salvaged") cycles) }
{
    put_number_line(out, "salvaged", cycles as u64)?;
    Ok(())
}
