//! Bytes and numbers, put into the room that C gave. What doesn't fit isn't put, but counted: so a
//! part that is put into no room gives its length.
ghost use Rattle.std.specs.Prelude.{◌≤◌, ◌<◌, ◌↔◌, [], ◌∷◌, length, IsTrue, FitsSigned};
ghost use Rattle.std.specs.Int.{w64};
ghost use Rattle.record_grammar.specs.Spelling.{spelled_u64, spelled_signed};
ghost use Rattle.det_values.specs.Spelling.{spelled_u16, spelled_u32, AreBytes};
ghost use Rattle.det_record_c.specs.Puts.{Puts};

/// Puts bytes at `at`, and returns the place after them.
pub(crate) fn put(out: &mut [u8], at: usize, bytes: &[u8]) -> usize
    ensures puts { Puts at bytes.now out.old result out.new }
    ensures bytes { AreBytes bytes.now }
{
    let end = at.saturating_add(bytes.len());
    if out.len() < bytes.len() || out.len() - bytes.len() < at {
        return end;
    }
    out[at..end].copy_from_slice(bytes);
    end
}

/// Whether this many bytes fit.
pub(crate) fn fits(count: usize, out: &[u8]) -> bool
    ensures fits { IsTrue result ↔ (count ≤ length out.now) }
    ensures small { length out.now < 18446744073709551615 }
{
    count <= out.len()
}

pub(crate) fn put_u8(out: &mut [u8], at: usize, n: u8) -> usize
    ensures { Puts at (n ∷ []) out.old result out.new }
{
    put(out, at, &[n])
}

#[tactic(auto, unfolding(det_values::specs::Spelling::spelled_u16))]
pub(crate) fn put_u16(out: &mut [u8], at: usize, n: u16) -> usize
    ensures { Puts at (spelled_u16 n) out.old result out.new }
{
    put(out, at, &n.to_be_bytes())
}

#[tactic(auto, unfolding(det_values::specs::Spelling::spelled_u32))]
pub(crate) fn put_u32(out: &mut [u8], at: usize, n: u32) -> usize
    ensures { Puts at (spelled_u32 n) out.old result out.new }
{
    put(out, at, &n.to_be_bytes())
}

#[tactic(auto, unfolding(record_grammar::specs::Spelling::spelled_u64))]
pub(crate) fn put_u64(out: &mut [u8], at: usize, n: u64) -> usize
    ensures { Puts at (spelled_u64 n) out.old result out.new }
{
    put(out, at, &n.to_be_bytes())
}

#[tactic(auto, unfolding(record_grammar::specs::Spelling::spelled_u64))]
pub(crate) fn put_i64(out: &mut [u8], at: usize, n: &i64) -> usize
    ensures puts { Puts at (spelled_signed n.now) out.old result out.new }
    ensures fields { FitsSigned w64 n.now }
{
    let n = *n;
    put(out, at, &n.to_be_bytes())
}
