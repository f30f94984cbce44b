// The register of CRC_32, a byte at a time.
ghost use Rattle.std.specs.Prelude.{◌≡◌};
ghost use Rattle.transport.specs.Register.{byte_step, register_of};

use crate::table::entry;

// The register after one more byte.
fn step(reg: u32, byte: u8) -> u32
    ensures { result ≡ byte_step reg byte }
{
    (reg << 8) ^ entry(256 + ((reg >> 24) ^ u32::from(byte)))
}

// What the bytes leave in the register.
pub(crate) fn register(bytes: &[u8]) -> u32
    ensures { result ≡ register_of bytes.now }
{
    let mut reg: u32 = 0xffff_ffff;
    for &byte in bytes {
        reg = step(reg, byte);
    }
    reg
}
