ghost use Rattle.std.specs.Prelude.{◌≡◌, ◌<◌, ◌≤◌, ℕ, List, length, IfSome};
ghost use Rattle.pw_blocks.specs.Packing.{IsFirst, from_key, packed_all};

use pw_files::sorted_file::compared;

/// The content of the first record of some bytes, and the bytes behind it.
pub fn first_record(bytes: &[u8]) -> Option<(&[u8], &[u8])>
    ensures first { (contents : List (List ℕ)) → bytes.now ≡ packed_all contents
        → IsFirst result contents }
    ensures shorter { IfSome result (λ parts. length parts.1.now < length bytes.now) }
{
    match bytes {
        [high, low, rest @ ..] => {
            let size = usize::from(*high) * 256 + usize::from(*low);
            if rest.len() < size {
                return None;
            }
            Some(rest.split_at(size))
        }
        _ => None,
    }
}

/// The bytes of the records from the first one on whose key is not below this one.
pub fn from_key<'a>(bytes: &'a [u8], key_length: usize, key: &[u8]) -> &'a [u8]
    ensures records { (contents : List (List ℕ)) → bytes.now ≡ packed_all contents
        → result.now ≡ packed_all (from_key key_length contents key.now) }
    ensures shorter { length result.now ≤ length bytes.now }
{
    let mut rest = bytes;
    while let Some((content, behind)) = first_record(rest) {
        if compared(content, key_length, key).is_ge() {
            break;
        }
        rest = behind;
    }
    rest
}
