// The number in the payload of a varint.
ghost use Rattle.std.specs.Prelude.{◌≡◌, ◌%◌, ◌^◌};
ghost use Rattle.pb_schema.specs.Varint.{seven_bits};

/// The number that the low seven bits of each byte spell, modulo 2^64.
pub(crate) fn spelled(payload: &[u8]) -> u64
    ensures { result ≡ seven_bits payload.now % 2 ^ 64 }
{
    let mut value = 0u64;
    let mut left = payload.len();
    while left > 0 {
        left -= 1;
        value = value
            .wrapping_mul(128)
            .wrapping_add(u64::from(payload[left] % 128));
    }
    value
}
