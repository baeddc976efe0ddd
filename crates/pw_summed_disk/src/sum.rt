ghost use Rattle.std.specs.Prelude.{◌≡◌};
ghost use Rattle.pw_summed_disk.specs.Sums.{after_byte, sum_of};

/// The sum of bytes. A change of one byte changes it.
pub fn sum_of(bytes: &[u8]) -> u64
    ensures { result ≡ sum_of bytes.now }
{
    let mut sum = 14_695_981_039_346_656_037;
    for &byte in bytes {
        sum = after_byte(sum, byte);
    }
    sum
}

/// The sum behind one byte more.
fn after_byte(sum: u64, byte: u8) -> u64
    ensures { result ≡ after_byte sum byte }
{
    sum.wrapping_mul(1_099_511_628_211)
        .wrapping_add(u64::from(byte))
}
