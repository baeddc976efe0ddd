ghost use Rattle.std.specs.Prelude.{◌≡◌, ◌≤◌, length};
ghost use Rattle.pw_blocks.specs.Cuts.{IsCut, Rises};
ghost use Rattle.pw_blocks.specs.Packing.{IsBlock, IsFinger, from_key, packed_all, unpacked};

use crate::packing::{first_record, from_key};
use pw_files::sorted_file::compared;

/// The bytes of the records below a key, the content of the record at it, and the bytes of the
/// records above it.
#[derive(Clone, Copy)]
pub struct Cut<'a> {
    pub before: &'a [u8],
    pub here: Option<&'a [u8]>,
    pub behind: &'a [u8],
}

/// The bytes of the records from the first one on whose key is not below this one, sought behind the finger where the
/// key of the record there is below it.
fn sought<'a>(bytes: &'a [u8], finger: usize, key_length: usize, key: &[u8]) -> &'a [u8]
    requires block { IsBlock bytes.now }
    requires finger { IsFinger bytes.now finger }
    requires rises { Rises key_length (unpacked bytes.now) }
    ensures records { result.now ≡ packed_all (from_key key_length (unpacked bytes.now) key.now) }
    ensures shorter { length result.now ≤ length bytes.now }
{
    if let Some((content, behind)) = first_record(&bytes[finger..]) {
        if compared(content, key_length, key).is_lt() {
            return from_key(behind, key_length, key);
        }
    }
    from_key(bytes, key_length, key)
}

/// What lies round a key in the bytes of a block with this finger.
pub fn cut_at<'a>(bytes: &'a [u8], finger: usize, key_length: usize, key: &[u8]) -> Cut<'a>
    requires block { IsBlock bytes.now }
    requires finger { IsFinger bytes.now finger }
    requires rises { Rises key_length (unpacked bytes.now) }
    ensures { IsCut key_length (unpacked bytes.now) key.now result }
{
    let rest = sought(bytes, finger, key_length, key);
    let before = &bytes[..bytes.len() - rest.len()];
    if let Some((content, behind)) = first_record(rest) {
        if compared(content, key_length, key).is_eq() {
            return Cut {
                before,
                here: Some(content),
                behind,
            };
        }
    }
    Cut {
        before,
        here: None,
        behind: rest,
    }
}
