//! Appends numbers, bytes and elements in the layout of a record: big-endian, with lengths first.
ghost use Rattle.std.specs.Prelude.{◌≡◌, ◌≤◌, ◌+◌, ◌++◌, ◌∷◌, [], length, take, drop, OnOk, OnErr};
ghost use Rattle.std.specs.Vec.{vec_capacity};
ghost use Rattle.det_values.specs.Spelling.{spelled_u16, spelled_u32, AreBytes, an_element};
ghost use Rattle.det_values.specs.Spelling.{spelled_drawn, IsDrawn, Grows};

use std::alloc::AllocError;

/// Appends a number of two bytes, the high one first.
#[tactic(auto, unfolding(crate::specs::Spelling::spelled_u16))]
pub fn put_u16(out: &mut Vec<u8>, n: u16) -> Result<(), AllocError>
    ensures ok { OnOk result (out.new.items ≡ out.old.items ++ spelled_u16 n) }
    ensures grows { Grows out.old.items out.new.items }
{
    out.extend_from_slice(&n.to_be_bytes())
}

/// Appends a number of four bytes, the highest first.
#[tactic(auto, unfolding(crate::specs::Spelling::spelled_u32))]
pub fn put_u32(out: &mut Vec<u8>, n: u32) -> Result<(), AllocError>
    ensures ok { OnOk result (out.new.items ≡ out.old.items ++ spelled_u32 n) }
    ensures grows { Grows out.old.items out.new.items }
{
    out.extend_from_slice(&n.to_be_bytes())
}

/// Appends bytes without their length.
pub fn put_slice(out: &mut Vec<u8>, bytes: &[u8]) -> Result<(), AllocError>
    ensures ok { OnOk result (out.new.items ≡ out.old.items ++ bytes.now) }
    ensures grows { Grows out.old.items out.new.items }
    ensures fields { AreBytes bytes.now }
{
    out.extend_from_slice(bytes)
}

#[tactic(auto, unfolding(crate::specs::Spelling::spelled_drawn))]
fn put_element_parts(out: &mut Vec<u8>, bytes: &[u8], draws: u32) -> Result<(), AllocError>
    requires { length bytes.now ≤ 64 }
    ensures ok { OnOk result (out.new.items ≡ out.old.items
        ++ spelled_drawn (an_element bytes.now draws)) }
    ensures grows { Grows out.old.items out.new.items }
    ensures fields { AreBytes bytes.now }
{
    put_u16(out, bytes.len() as u16)?;
    put_slice(out, bytes)?;
    put_u32(out, draws)?;
    Ok(())
}

/// Appends an element with its draws. A call that fails leaves `out` as it was.
pub fn put_drawn(out: &mut Vec<u8>, bytes: &[u8], draws: u32) -> Result<(), AllocError>
    requires { length bytes.now ≤ 64 }
    ensures ok { OnOk result (out.new.items ≡ out.old.items
        ++ spelled_drawn (an_element bytes.now draws)) }
    ensures err { OnErr result (out.new.items ≡ out.old.items) }
    ensures fields { IsDrawn (an_element bytes.now draws) }
{
    let len = out.len();
    match put_element_parts(out, bytes, draws) {
        Ok(()) => Ok(()),
        Err(refused) => {
            out.truncate(len);
            Err(refused)
        }
    }
}

/// Overwrites the two bytes at index `at` with a number, the high byte first.
pub fn fill_u16(out: &mut Vec<u8>, at: usize, n: u16)
    requires { at + 2 ≤ length out.old.items }
    ensures items { out.new.items ≡ take at out.old.items
        ++ (spelled_u16 n ++ drop (at + 2) out.old.items) }
    ensures room { vec_capacity out.new ≡ vec_capacity out.old }
{
    let bytes = n.to_be_bytes();
    out[at] = bytes[0];
    out[at + 1] = bytes[1];
}
