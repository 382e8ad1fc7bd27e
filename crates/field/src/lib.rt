// Numbers, bits, byte strings and blocks in lent bytes: the leaves that every other layer reads through.
// What each means is in specs/: Number, Map, Bytes, Card.
#![tactic(auto)]

ghost use Rattle.std.specs.Prelude.{◌≡◌, ◌+◌, ◌-◌, ◌*◌, ◌/◌, ◌%◌, ◌≤◌, ◌<◌, length, take, drop};
ghost use Rattle.field.specs.Number.{le16, le32, le64, put32_at};
ghost use Rattle.field.specs.Map.{top_bit, low_bit, low_zeros};
ghost use Rattle.field.specs.Bytes.{same_at};
ghost use Rattle.field.specs.Card.{card_of};

// N bytes from an offset on.
fn bytes_at<const N: usize>(bytes: &[u8], at: usize) -> [u8; N]
    requires { at + N ≤ length bytes.now }
    ensures { result ≡ take N (drop at bytes.now) }
{
    let mut taken = [0; N];
    taken.copy_from_slice(&bytes[at..at + N]);
    taken
}

pub fn get16(bytes: &[u8], at: usize) -> u16
    requires { at + 2 ≤ length bytes.now }
    ensures { result ≡ le16 bytes.now at }
{
    u16::from_le_bytes(bytes_at(bytes, at))
}

pub fn get32(bytes: &[u8], at: usize) -> u32
    requires { at + 4 ≤ length bytes.now }
    ensures { result ≡ le32 bytes.now at }
{
    u32::from_le_bytes(bytes_at(bytes, at))
}

pub fn get64(bytes: &[u8], at: usize) -> u64
    requires { at + 8 ≤ length bytes.now }
    ensures { result ≡ le64 bytes.now at }
{
    u64::from_le_bytes(bytes_at(bytes, at))
}

// x in four bytes, the lowest first.
pub fn put32(bytes: &mut [u8], at: usize, x: u32)
    requires { at + 4 ≤ length bytes.old }
    ensures { bytes.new ≡ put32_at bytes.old at x }
{
    bytes[at..at + 4].copy_from_slice(&x.to_le_bytes());
}

// Bit b of a NAT or SIT map.
#[tactic(auto, unfolding(crate::specs::Map::top_bit))]
pub fn top_bit(map: &[u8], b: usize) -> u8
    requires { b < 8 * length map.now }
    ensures { result ≡ top_bit map.now b }
{
    (map[b / 8] >> (7 - b % 8)) % 2
}

// Bit b of a directory map.
#[tactic(auto, unfolding(crate::specs::Map::low_bit))]
pub fn low_bit(map: &[u8], b: usize) -> u8
    requires { b < 8 * length map.now }
    ensures { result ≡ low_bit map.now b }
{
    (map[b / 8] >> (b % 8)) % 2
}

// How many bits of a directory map from bit b on are 0, up to the first that is set, counted in one word: the eight bytes from
// bit b's own on, of which the bits before b are left out. A single zero is told by a test: where the processor foresees it, what
// comes next needn't wait for the count.
fn word_zeros(map: &[u8], b: usize) -> usize
    requires { b / 8 + 8 ≤ length map.now }
    ensures { result ≡ low_zeros map.now (64 - b % 8) b }
{
    let word = get64(map, b / 8) >> (b % 8);
    if word % 4 == 2 {
        1
    } else {
        let zeros = word.trailing_zeros() as usize;
        zeros.min(64 - b % 8)
    }
}

// The same up to bit `end` at most, word by word. What a word has from that bit on isn't counted. Each word has at least 57 bits
// to count, so that fewer zeros end at a set bit.
pub fn low_zeros(map: &[u8], b: usize, end: usize) -> usize
    requires { (b ≤ end) × (end / 8 + 8 ≤ length map.now) }
    ensures { result ≡ low_zeros map.now (end - b) b }
{
    let most = end - b;
    let mut run = 0;
    loop {
        let zeros = word_zeros(map, b + run);
        if most - run <= zeros {
            return most;
        }
        if zeros < 57 {
            return run + zeros;
        }
        run += zeros;
    }
}

// Whether the bytes from an offset on begin with the string.
pub fn same_at(bytes: &[u8], at: usize, string: &[u8]) -> bool
    requires { at + length string.now ≤ length bytes.now }
    ensures { result ≡ same_at bytes.now at string.now }
{
    &bytes[at..at + string.len()] == string
}

// How many blocks an image has. Its length may pass 32 bits.
pub fn image_blocks(image: &[u8]) -> u64
    ensures { result ≡ (card_of image.now).blocks }
{
    image.len() as u64 / 4096
}

// Block b of an image, as a part of it. Its offset may pass 32 bits.
pub fn block_at(image: &[u8], b: u32) -> &[u8]
    requires { b < (card_of image.now).blocks }
    ensures { result.now ≡ (card_of image.now).block b }
{
    let start = b as usize * 4096;
    &image[start..start + 4096]
}
