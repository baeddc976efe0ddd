ghost use Rattle.std.specs.Prelude.{◌≡◌, ◌++◌, false, IfOk, OnOk};
ghost use Rattle.pw_text.specs.Literals.{kept, is_first_quote, unquoted};

use pw_base::bytes::Bytes;
use pw_base::memory::Memory;
use std::alloc::Global;

/// Puts a byte of a text behind its characters, unless it is the second of two quotes. It gives
/// whether the next byte is the second of two.
fn push_char(chars: &mut Bytes, second: bool, byte: u8) -> Result<bool, Memory>
    ensures chars { OnOk result (chars.new ≡ chars.old ++ kept second byte) }
    ensures next { IfOk result (λ next. next ≡ is_first_quote second byte) }
{
    if second {
        return Ok(false);
    }
    chars.push(byte)?;
    Ok(byte == b'"')
}

/// The characters of a text, by its bytes between the quotes: of two quotes one stands.
pub fn unquoted(alloc: Global, bytes: &[u8]) -> Result<Bytes, Memory>
    ensures { IfOk result (λ chars. chars ≡ unquoted false bytes.now) }
{
    let mut chars = Bytes::new(alloc);
    let mut second = false;
    let mut rest = bytes;
    while let Some((byte, behind)) = rest.split_first() {
        second = push_char(&mut chars, second, *byte)?;
        rest = behind;
    }
    Ok(chars)
}
