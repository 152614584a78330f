//! Appends an element in the layout of a record's Init.
ghost use Rattle.std.specs.Prelude.{◌≡◌, ◌++◌, OnOk};
ghost use Rattle.cycle_engine.specs.Elements.{with_length};

use det_values::put::fill_u16;
use job::Job;
use std::alloc::AllocError;

/// Appends an element's bytes, after their number in two bytes, which is filled in at the end. A
/// call that fails may leave some bytes.
#[inline(always)]
pub(crate) fn put_element<J: Job>(
    job: &J,
    element: &J::Element,
    out: &mut Vec<u8>,
) -> Result<(), AllocError>
    requires { J.Own job.now element.now }
    ensures { OnOk result (out.new.items ≡ out.old.items
        ++ with_length (J.meaning.shown job.now element.now)) }
{
    let at = out.len();
    out.extend_from_slice(&[0, 0])?;
    job.put_element(element, out)?;
    let length = out.len() - at - 2;
    fill_u16(out, at, length as u16);
    Ok(())
}
