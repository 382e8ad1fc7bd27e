// The block buffer that a pull fills, and bytes laid into lent ones. What is laid is in specs/: Laid.
#![tactic(auto)]

ghost use Rattle.std.specs.Prelude.{◌≡◌, [], ◌∷◌, ◌++◌, ◌+◌, ◌-◌, ◌≤◌, length, take, drop, replicate};
ghost use Rattle.list.specs.Lists.{bytes_of};
ghost use Rattle.buffer.specs.Laid.{laid_at};

pub fn clear(bytes: &mut [u8])
    ensures { bytes.new ≡ replicate (length bytes.old) 0 }
{
    bytes.fill(0);
}

// Bytes laid over the first ones of others.
pub fn copy(from: &[u8], into: &mut [u8])
    requires { length from.now ≤ length into.old }
    ensures { into.new ≡ from.now ++ drop (length from.now) into.old }
{
    into[..from.len()].copy_from_slice(from);
}

// `count` bytes of a block, from `start` on, then zeros.
pub fn put_block(block: &[u8], start: usize, count: usize, buffer: &mut [u8])
    requires { (length block.now ≡ 4096) × (start + count ≤ 4096) × (length buffer.old ≡ 4096) }
    ensures { buffer.new ≡ take count (drop start block.now) ++ replicate (4096 - count) 0 }
{
    copy(&block[start..start + count], buffer);
    clear(&mut buffer[count..]);
}

#[tactic(auto, unfolding(crate::specs::Laid::laid_at))]
pub fn put_bytes(room: &mut [u8], at: usize, bytes: &[u8])
    requires { at + length bytes.now ≤ length room.old }
    ensures { room.new ≡ laid_at at bytes.now room.old }
{
    room[at..at + bytes.len()].copy_from_slice(bytes);
}

#[tactic(auto, using(crate::proofs::Laying::laid_number))]
pub fn put_number(room: &mut [u8], at: usize, x: u32)
    requires { at + 4 ≤ length room.old }
    ensures { room.new ≡ laid_at at (bytes_of (x ∷ [])) room.old }
{
    field::put32(room, at, x);
}
