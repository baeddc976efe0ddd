ghost use Rattle.std.specs.Prelude.{◌≡◌, IfOk};
ghost use Rattle.pw_terminal.specs.Screen.{refresh_lines};

use crate::printing::refresh_text;
use pw_base::bytes::Bytes;
use pw_base::memory::Memory;
use pw_code::screen::ScreenImage;
use std::alloc::Global;
use std::marker::Model;
use std::snapshot::Snapshot;

/// What a terminal's screen showed (docs/reference/LANGUAGE.md), kept as the lines that are printed of it: some bytes for each row that is not
/// blank. Contracts see the cells.
#[derive(Drop)]
pub struct ShownScreen {
    lines: Bytes,
    image: Snapshot<ScreenImage>,
}

impl Model for ShownScreen {
    ghost use Rattle.std.specs.Prelude.{◌≡◌, List, ℕ};
    ghost use Rattle.pw_terminal.specs.Screen.{refresh_lines};

    ghost Value = { List ℕ };

    ghost view = { λ shown. shown.image.value };

    ghost invariant = { λ shown. shown.lines ≡ refresh_lines shown.image.value };
}

impl ShownScreen {
    /// What a screen shows.
    pub fn of(alloc: Global, image: &ScreenImage) -> Result<ShownScreen, Memory>
        ensures { IfOk result (λ shown. shown ≡ image.now) }
    {
        let lines = refresh_text(alloc, image)?;
        Ok(ShownScreen {
            lines,
            image: Snapshot::of(image),
        })
    }

    /// The lines of its rows that are not blank.
    pub fn lines(&self) -> &[u8]
        ensures { result.now ≡ refresh_lines self.now }
    {
        self.lines.as_slice()
    }
}
