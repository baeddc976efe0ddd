ghost use Rattle.std.specs.Prelude.{◌≡◌, ◌+◌, ◌≤◌, length, IfOk};
ghost use Rattle.pw_code.specs.Screen.{IsWhole};
ghost use Rattle.pw_terminal.specs.Screen.{blank_cells, with_message};
ghost use Rattle.pw_terminal.specs.Shown.{written};

use pw_base::bytes::Bytes;
use pw_base::memory::Memory;
use pw_code::screen::{CELLS, COLUMNS, ScreenImage};
use pw_picture::text::move_text;
use std::alloc::Global;

/// Where row 24 begins, the row of messages.
const MESSAGE_ROW: usize = CELLS - COLUMNS;

/// A screen of spaces.
pub fn blank(alloc: Global) -> Result<ScreenImage, Memory>
    ensures { IfOk result (λ image. image ≡ blank_cells) }
{
    let cells = Bytes::from_vec(vec![in alloc; b' '; CELLS]?);
    Ok(ScreenImage { cells })
}

/// Writes a text over the cells from a place on. The others stay. It takes no memory.
pub(crate) fn put(text: &[u8], place: usize, image: &mut ScreenImage)
    requires { place + length text.now ≤ 1920 }
    ensures cells { image.new ≡ written place text.now image.old }
    ensures whole { IsWhole image.old }
{
    image.cells.overwrite(place, text);
}

/// Puts a text on row 24, cut or padded with spaces to 80. The other rows stay. It takes no memory.
pub fn message(text: &[u8], image: &mut ScreenImage)
    ensures { image.new ≡ with_message text.now image.old }
{
    let mut row = [b' '; COLUMNS];
    move_text(text, &mut row);
    put(&row, MESSAGE_ROW, image);
}
