ghost use Rattle.std.specs.Prelude.{◌≡◌, Some, None, Err, IfOk};
ghost use Rattle.pw_picture.specs.Grammar.{picture_of, IsPicture};

use crate::fault::PictureFault;
use crate::kind::kind_of;
use crate::picture::Picture;
use crate::runs::runs_of;
use std::alloc::Global;

/// The picture that a text is. It is `Bad` exactly where the text is none. The text is read as runs of
/// symbols, so a count costs no more than its digits; only an edited picture has its symbols written out.
pub fn picture(alloc: Global, text: &[u8]) -> Result<Picture, PictureFault>
    ensures picture { IfOk result (λ picture. picture_of text.now ≡ Some picture) }
    ensures valid { IfOk result (λ picture. IsPicture picture) }
    ensures bad { result ≡ Err PictureFault.Bad → picture_of text.now ≡ None }
{
    let runs = runs_of(alloc, text)?;
    kind_of(alloc, runs.as_slice())
}
