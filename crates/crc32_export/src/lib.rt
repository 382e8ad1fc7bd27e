// The checksum alone, for tests and measurement; it is not in the library that the rig links.
#![tactic(auto)]

ghost use Rattle.std.specs.Prelude.{◌≡◌};
ghost use Rattle.crc32.specs.Checksum.{checksum_of};

#[unsafe(no_mangle)]
pub extern "C" fn crc32_export_checksum(bytes: &[u8]) -> u32
    ensures { result ≡ checksum_of bytes.now }
{
    crc32::checksum(bytes)
}
