//! Appends verdicts and places to a text.
ghost use Rattle.std.specs.Prelude.{◌≡◌, ◌++◌, IfOk, OnOk, codes, decimal};
ghost use Rattle.copies.specs.verdict_text.Verdicts.{place_text, verdict_line};

use crate::{Difference, Verdict};
use record_text::{put_number, put_number_line, put_str};
use std::alloc::{AllocError, Global};

/// Appends a keyword and a number.
fn put_numbered(out: &mut Vec<u8>, word: &str, number: u32) -> Result<(), AllocError>
    ensures { OnOk result (out.new.items ≡ out.old.items ++ (word.now ++ decimal number)) }
{
    put_str(out, word)?;
    put_number(out, number as u64)
}

fn put_element(out: &mut Vec<u8>, cycle: u32, element: u32) -> Result<(), AllocError>
    ensures { OnOk result (out.new.items
        ≡ out.old.items ++ place_text (Difference.Element cycle element)) }
{
    put_numbered(out, "element ", cycle)?;
    put_numbered(out, " ", element)
}

/// Appends a place. At `AllocError` a part of it may have been appended.
pub fn put_difference_place(out: &mut Vec<u8>, place: Difference) -> Result<(), AllocError>
    ensures { OnOk result (out.new.items ≡ out.old.items ++ place_text place) }
{
    match place {
        Difference::Header => put_str(out, "header")?,
        Difference::Kind(frame) => put_numbered(out, "kind ", frame)?,
        Difference::Time(cycle) => put_numbered(out, "time ", cycle)?,
        Difference::Samples(cycle) => put_numbered(out, "samples ", cycle)?,
        Difference::Result(cycle) => put_numbered(out, "result ", cycle)?,
        Difference::Element { cycle, element } => put_element(out, cycle, element)?,
        Difference::Output(cycle) => put_numbered(out, "output ", cycle)?,
    }
    Ok(())
}

/// Appends a space, a place and the end of the line.
fn put_last_place(out: &mut Vec<u8>, place: Difference) -> Result<(), AllocError>
    ensures { OnOk result (out.new.items
        ≡ out.old.items ++ (codes " " ++ (place_text place ++ codes "\n"))) }
{
    put_str(out, " ")?;
    put_difference_place(out, place)?;
    put_str(out, "\n")?;
    Ok(())
}

fn put_differ_line(out: &mut Vec<u8>, copy: u32, at: Difference) -> Result<(), AllocError>
    ensures { OnOk result (out.new.items
        ≡ out.old.items ++ verdict_line (Verdict.Differ copy at)) }
{
    put_numbered(out, "differ copy ", copy)?;
    put_last_place(out, at)
}

fn put_verdict_line(out: &mut Vec<u8>, verdict: &Verdict) -> Result<(), AllocError>
    ensures { OnOk result (out.new.items ≡ out.old.items ++ verdict_line verdict.now) }
{
    match verdict {
        Verdict::Agree { cycles } => {
            put_number_line(out, "agree", *cycles as u64)?;
            Ok(())
        }
        Verdict::Differ { copy, at } => put_differ_line(out, *copy, *at),
    }
}

/// The line of a verdict, in memory of its own.
pub fn verdict_line(alloc: Global, verdict: &Verdict) -> Result<Vec<u8>, AllocError>
    ensures { IfOk result (λ line. line.items ≡ verdict_line verdict.now) }
{
    let mut line = Vec::new(alloc);
    put_verdict_line(&mut line, verdict)?;
    Ok(line)
}
