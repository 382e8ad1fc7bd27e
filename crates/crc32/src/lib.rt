// The checksum of a checkpoint block, eight bytes at a time by a table. What it means is in specs/Checksum.antt, bit by bit.
#![tactic(auto)]

ghost use Rattle.std.specs.Prelude.{◌≡◌, ◌+◌, ◌*◌, ◌/◌, ◌%◌, ◌<◌, ◌≤◌, length, take, drop};
ghost use Rattle.crc32.specs.Checksum.{crc_bits, crc_byte, crc_from, checksum_of};
ghost use Rattle.crc32.specs.Table.{IsTable};

mod table;

// The table that the steps go by.
#[derive(Clone, Copy)]
struct Steps<'a> {
    table: &'a [u32; 2048],
    ghost rule: { IsTable table.now },
}

impl<'a> Steps<'a> {
    // 8 (row + 1) steps of the low byte.
    fn entry(&self, row: usize, value: u64) -> u32
        requires { row < 8 }
        ensures { result ≡ crc_bits (8 * (row + 1)) (value % 256) }
    {
        self.table[256 * row + (value % 256) as usize]
    }

    // Sixty-four steps of a word: each of its bytes has an entry of its own. The low bytes come last, since only they wait for
    // the step before.
    fn word(&self, word: u64) -> u32
        ensures { result ≡ crc_bits 64 word }
    {
        let mut sum = 0;
        for row in 0..8usize {
            sum ^= self.entry(row, word >> (56 - 8 * row));
        }
        sum
    }

    fn byte(&self, c: u32, byte: u8) -> u32
        ensures { result ≡ crc_byte c byte }
    {
        let v = c ^ (byte as u32);
        self.entry(0, v as u64) ^ (v >> 8)
    }

    // The whole groups of eight bytes, then the rest.
    fn bytes(&self, from: u32, bytes: &[u8]) -> u32
        ensures { result ≡ crc_from from bytes.now }
    {
        let (words, rest) = bytes.as_chunks::<8>();
        let mut c = from;
        for word in words {
            c = self.word((c as u64) ^ u64::from_le_bytes(*word));
        }
        for byte in rest {
            c = self.byte(c, *byte);
        }
        c
    }
}

pub fn checksum(bytes: &[u8]) -> u32
    ensures { result ≡ checksum_of bytes.now }
{
    let steps = Steps {
        table: &table::TABLE,
    };
    steps.bytes(0xF2F52010, bytes)
}
