//! Numbers and elements, appended to a record.
ghost use Rattle.std.specs.Prelude.{◌≡◌, ◌++◌, ◌∷◌, [], OnOk, FitsSigned};
ghost use Rattle.std.specs.Int.{w64};
ghost use Rattle.record_grammar.specs.Spelling.{spelled_u64, spelled_signed, spelled_element};
ghost use Rattle.record_grammar.specs.Spelling.{IsElement};
ghost use Rattle.det_values.specs.Spelling.{Grows};

use det_values::Bytes64;
use det_values::put::{put_slice, put_u16};
use std::alloc::AllocError;

#[tactic(auto, unfolding(record_grammar::specs::Spelling::spelled_u64))]
pub fn put_u64(out: &mut Vec<u8>, n: u64) -> Result<(), AllocError>
    ensures ok { OnOk result (out.new.items ≡ out.old.items ++ spelled_u64 n) }
    ensures grows { Grows out.old.items out.new.items }
{
    out.extend_from_slice(&n.to_be_bytes())
}

#[tactic(auto, unfolding(record_grammar::specs::Spelling::spelled_u64))]
pub fn put_i64(out: &mut Vec<u8>, n: &i64) -> Result<(), AllocError>
    ensures ok { OnOk result (out.new.items ≡ out.old.items ++ spelled_signed n.now) }
    ensures grows { Grows out.old.items out.new.items }
    ensures fields { FitsSigned w64 n.now }
{
    let n = *n;
    out.extend_from_slice(&n.to_be_bytes())
}

/// A byte.
pub fn put_u8(out: &mut Vec<u8>, n: u8) -> Result<(), AllocError>
    ensures ok { OnOk result (out.new.items ≡ out.old.items ++ n ∷ []) }
    ensures grows { Grows out.old.items out.new.items }
{
    out.push(n)?;
    Ok(())
}

/// An element: its length in two bytes, and then its bytes.
#[tactic(auto, using(crate::proofs::Appending::grows_then))]
pub fn put_element(out: &mut Vec<u8>, element: &Bytes64) -> Result<(), AllocError>
    ensures ok { OnOk result (out.new.items ≡ out.old.items ++ spelled_element element.now) }
    ensures grows { Grows out.old.items out.new.items }
    ensures fields { IsElement element.now }
{
    let bytes = element.as_slice();
    put_u16(out, bytes.len() as u16)?;
    put_slice(out, bytes)?;
    Ok(())
}
