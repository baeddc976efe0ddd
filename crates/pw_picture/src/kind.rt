ghost use Rattle.std.specs.Prelude.{◌≡◌, ◌≤◌, Some, None, Err, length, IfOk};
ghost use Rattle.pw_picture.specs.Symbols.{longest};
ghost use Rattle.pw_picture.specs.Grammar.{picture_of_symbols, IsPicture};
ghost use Rattle.pw_picture.specs.Runs.{spread};

use crate::edited::is_edited;
use crate::fault::PictureFault;
use crate::number::{are_run_of, number_of};
use crate::picture::Picture;
use crate::run::SymbolRun;
use crate::runs::{length_of, written_out};
use std::alloc::Global;

/// The picture of these symbols. It takes memory for an edited one alone. It is `Bad` exactly where
/// they are none.
pub fn kind_of(alloc: Global, runs: &[SymbolRun]) -> Result<Picture, PictureFault>
    requires { length (spread runs.now) ≤ longest }
    ensures kind { IfOk result (λ picture. picture_of_symbols (spread runs.now) ≡ Some picture) }
    ensures valid { IfOk result (λ picture. IsPicture picture) }
    ensures bad { result ≡ Err PictureFault.Bad → picture_of_symbols (spread runs.now) ≡ None }
{
    if are_run_of(b'X', runs) {
        return Ok(Picture::Text {
            size: length_of(runs) as u16,
        });
    }
    if is_edited(runs) {
        let symbols = written_out(alloc, runs)?;
        return Ok(Picture::Edited { symbols });
    }
    number_of(runs).ok_or(PictureFault::Bad)
}
