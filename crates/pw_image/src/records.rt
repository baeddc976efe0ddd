ghost use Rattle.std.specs.Prelude.{◌≡◌, ◌+◌, ◌<◌, ◌≤◌, ◌*◌, ◌^◌, ◌&&◌, ◌==◌, nat_lt, length, take, drop, bytes_eq};
ghost use Rattle.pw_image.specs.Records.{record_at, record_count, records_between};

/// The bytes of a record of an image; the last record may be shorter.
pub const RECORD: usize = 64;

/// How many records an image has.
pub fn record_count(image: &[u8]) -> usize
    ensures { result ≡ record_count (length image.now) }
{
    image.len().div_ceil(RECORD)
}

/// A record of an image; it is empty past the last one.
pub fn record_at(image: &[u8], number: usize) -> &[u8]
    requires { 64 * number < length image.now }
    ensures { result.now ≡ record_at image.now number }
{
    let (_, rest) = image.split_at(RECORD * number);
    if rest.len() < RECORD {
        rest
    } else {
        &rest[..RECORD]
    }
}

/// The bytes of so many records of an image from a number on.
pub fn records_between(image: &[u8], from: u32, count: u32) -> &[u8]
    requires { 64 * from ≤ length image.now }
    ensures { result.now ≡ records_between image.now from count }
{
    let (_, rest) = image.split_at(RECORD * from as usize);
    let len = RECORD * count as usize;
    if rest.len() < len { rest } else { &rest[..len] }
}
