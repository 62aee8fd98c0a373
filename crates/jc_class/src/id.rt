//! The id of a class file.
ghost use Rattle.std.specs.Prelude.{◌≡◌, ◌^◌, ◌==◌, ◌&&◌, map, fold, nat_le, length, slice_index};
ghost use Rattle.std.specs.List.{range_with_len};
ghost use Rattle.jc_class.specs.ClassId.{after_bit, after_bits, after_byte, class_id};

/// The polynomial, without its highest coefficient, from the low bit up.
const POLYNOMIAL: u64 = 0xd800_0000_0000_0000;

/// The remainder after one more bit.
#[tactic(auto, unfolding(crate::specs::ClassId::after_bit, crate::specs::ClassId::polynomial))]
fn after_bit(remainder: u64) -> u64
    ensures { result ≡ after_bit remainder }
{
    if remainder % 2 == 1 {
        (remainder >> 1) ^ POLYNOMIAL
    } else {
        remainder >> 1
    }
}

/// The remainder after the eight bits of a byte.
fn after_bits(start: u64) -> u64
    ensures { result ≡ after_bits 8 start }
{
    let mut remainder = start;
    for _bit in 0..8u32 {
        remainder = after_bit(remainder);
    }
    remainder
}

/// What the eight bits of each byte leave.
fn remainders() -> [u64; 256]
    ensures { result ≡ map (after_bits 8) (range_with_len 0 256) }
{
    let mut table = [0; 256];
    for byte in 0..256 {
        table[byte] = after_bits(byte as u64);
    }
    table
}

/// The remainder after these bytes.
fn after_bytes(table: &[u64; 256], start: u64, bytes: &[u8]) -> u64
    requires { table.now ≡ map (after_bits 8) (range_with_len 0 256) }
    ensures { result ≡ fold after_byte start bytes.now }
{
    let mut remainder = start;
    for byte in bytes {
        let index = (remainder ^ u64::from(*byte)) & 0xff;
        remainder = table[index as usize] ^ (remainder >> 8);
    }
    remainder
}

/// Whether these are the bytes of a class file of version 53.
fn is_of_version_53(bytes: &[u8]) -> bool
    ensures { result ≡ (nat_le 8 (length bytes.now) && (slice_index bytes.now 6 == 0 && slice_index bytes.now 7 == 0x35)) }
{
    bytes.len() >= 8 && bytes[6] == 0 && bytes[7] == 0x35
}

/// The id of a class file, by its bytes as they stood before instrumentation.
///
/// The id is a CRC-64 with the reflected polynomial d800000000000000. It begins as 0, and has no
/// change at its end. Where there are at least eight bytes, and bytes 6 and 7 are 00 35, byte 7
/// counts as 34. Takes no memory. This is the id of JaCoCo's execution data.
pub fn class_id(bytes: &[u8]) -> u64
    ensures { result ≡ class_id bytes.now }
{
    let table = remainders();
    if !is_of_version_53(bytes) {
        return after_bytes(&table, 0, bytes);
    }
    let front = after_bytes(&table, 0, &bytes[..7]);
    let version = after_bytes(&table, front, &[0x34]);
    after_bytes(&table, version, &bytes[8..])
}
