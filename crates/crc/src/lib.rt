// CRC-32 of bytes, a byte at a time by the table.

#![tactic(auto)]

ghost use Rattle.std.specs.Prelude.{◌≡◌};
ghost use Rattle.crc.specs.Crc.{byte_step, crc_of, crc_table};

mod table;

// What the register starts from, and what inverts it at the end.
const ALL_ONES: u32 = 0xFFFFFFFF;

// The register after one byte more: the low byte by the table, the other bytes shifted.
fn step(entries: &[u32; 256], c: u32, byte: u8) -> u32
    requires { entries.now ≡ crc_table }
    ensures { result ≡ byte_step c byte }
{
    let low = ((c ^ byte as u32) % 256) as usize;
    entries[low] ^ (c >> 8)
}

// The CRC-32 of bytes.
pub fn crc(s: &[u8]) -> u32
    ensures { result ≡ crc_of s.now }
{
    let entries = table::entries();
    let mut c = ALL_ONES;
    for byte in s {
        c = step(entries, c, *byte);
    }
    c ^ ALL_ONES
}
