ghost use Rattle.std.specs.Prelude.{◌≡◌, IfOk};
ghost use Rattle.pw_code.specs.Screen.{IsWhole};

use pw_base::bytes::Bytes;
use pw_base::memory::Memory;
use std::alloc::Global;
use std::marker::Model;

/// The rows of a screen.
pub const ROWS: usize = 24;

/// The cells of a row.
pub const COLUMNS: usize = 80;

/// The cells of a screen.
pub const CELLS: usize = ROWS * COLUMNS;

/// What a terminal's screen shows: 24 rows of 80 cells, row after row. Contracts see the cells.
#[derive(Debug, Drop)]
pub struct ScreenImage {
    pub cells: Bytes,
}

impl Model for ScreenImage {
    ghost use Rattle.std.specs.Prelude.{List, ℕ};
    ghost use Rattle.pw_code.specs.Screen.{IsWhole};

    ghost Value = { List ℕ };

    ghost view = { λ image. image.cells };

    ghost invariant = { λ image. IsWhole image.cells };
}

impl ScreenImage {
    /// The cells, row after row.
    pub fn cells(&self) -> &[u8]
        ensures cells { result.now ≡ self.now }
        ensures whole { IsWhole self.now }
    {
        self.cells.as_slice()
    }

    /// An equal value.
    pub fn copy(&self, alloc: Global) -> Result<ScreenImage, Memory>
        ensures { IfOk result (λ image. image ≡ self.now) }
    {
        let cells = self.cells.copy(alloc)?;
        Ok(ScreenImage { cells })
    }
}
