//! The text of `vote --dissent`.
ghost use Rattle.std.specs.Prelude.{◌≡◌, ◌++◌, OnOk, IfOk};
ghost use Rattle.std.specs.List.{flat_map};
ghost use Rattle.cmd_records.specs.vote_command.Vote.{dissenter_line, dissent_text};

use crate::voter::{Dissenter, Vote};
use record_text::{put_number, put_number_line, put_str};
use std::alloc::{AllocError, Global};

/// Appends the line of a dissenter. After an error a part of it may be appended.
fn put_dissenter(out: &mut Vec<u8>, dissenter: Dissenter) -> Result<(), AllocError>
    ensures { OnOk result (out.new.items ≡ out.old.items ++ dissenter_line dissenter) }
{
    put_str(out, "copy ")?;
    put_number(out, dissenter.copy as u64)?;
    put_str(out, " row ")?;
    put_number(out, dissenter.row as u64)?;
    put_str(out, "\n")
}

/// Appends a line for each of these dissenters.
fn put_dissenters(out: &mut Vec<u8>, dissenters: &[Dissenter]) -> Result<(), AllocError>
    ensures { OnOk result (out.new.items
        ≡ out.old.items ++ flat_map dissenter_line dissenters.now) }
{
    'dissenters: for dissenter in dissenters {
        put_dissenter(out, *dissenter)?;
    }
    Ok(())
}

/// The line with the number of the majority's cycles, and a line for each dissenter.
pub(crate) fn dissent_text(alloc: Global, vote: &Vote) -> Result<Vec<u8>, AllocError>
    ensures { IfOk result (λ text. text.items ≡ dissent_text vote.now.cycles vote.now.dissent) }
{
    let mut text = Vec::new(alloc);
    put_number_line(&mut text, "agree", vote.cycles as u64)?;
    put_dissenters(&mut text, vote.dissent.as_slice())?;
    Ok(text)
}
