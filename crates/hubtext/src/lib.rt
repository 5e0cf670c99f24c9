// The hub's text, written; specs/ and proofs/ have how it is read back.
#![tactic(auto)]

mod lay;

ghost use Rattle.std.specs.Prelude.{◌≡◌, length};
ghost use Rattle.operation.specs.Limits.{limits};
ghost use Rattle.hubtext.specs.Saving.{write_told, write_of, written_into};

use basics::Refusal;
use hub::Hub;

// Writes the text of a hub at the start of `buf`, where it has room for all of it; answers how long the text is.
#[tactic(auto, unfolding(crate::specs::Saving::write_of, crate::specs::Saving::written_into))]
pub fn write(h: &Hub, buf: &mut [u8]) -> Result<usize, Refusal>
    ensures value { write_told result ≡ write_of limits h.now (length buf.old) }
    ensures buf_after { buf.new ≡ written_into limits h.now buf.old }
{
    let h = h.in_shape()?;
    // The length of a text is where it ends, also where there is no room for it.
    let len = lay::text(&h, &mut [0u8; 1]);
    if buf.len() < len {
        return Err(Refusal::BufferTooShort);
    }
    Ok(lay::text(&h, buf))
}
