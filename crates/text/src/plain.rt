// Bytes as they are.
ghost use Rattle.std.specs.Prelude.{OnOk};
ghost use Rattle.text.specs.Growth.{Added};

use std::alloc::AllocError;

// Puts bytes behind what is there. A String would be a narrower type, here and at the three that print numbers.
pub fn push_text(out: &mut Vec<u8>, text: &[u8]) -> Result<(), AllocError>
    ensures { OnOk result (Added out.old.items out.new.items text.now) }
{
    out.extend_from_slice(text)?;
    Ok(())
}
