// A name: which byte strings are one, and the hash that a directory files it under.
// What each means is in specs/: Name, Hash, Answer.
#![tactic(auto)]

ghost use Rattle.std.specs.Prelude.{◌≡◌, ◌≤◌};
ghost use Rattle.name_hash.specs.Name.{name_bytes, is_name};
ghost use Rattle.name_hash.specs.Hash.{half_round, round, tea, key_word, key_of, is_dots, hash_of};
ghost use Rattle.name_hash.specs.Answer.{hashed};

// The hash's two words.
#[derive(Clone, Copy)]
pub struct State {
    pub first: u32,
    pub second: u32,
}

// What up to sixteen bytes of a name add to the hash.
#[derive(Clone, Copy)]
pub struct Key {
    pub a: u32,
    pub b: u32,
    pub c: u32,
    pub d: u32,
}

impl Key {
    // The key of what is left of a name.
    #[tactic(auto, unfolding(crate::specs::Hash::key_of))]
    fn of(rest: &[u8]) -> Key
        ensures { result ≡ key_of rest.now }
    {
        let pad = (rest.len() % 256) as u32 * 0x1010101;
        Key {
            a: key_word(rest, 0, pad),
            b: key_word(rest, 4, pad),
            c: key_word(rest, 8, pad),
            d: key_word(rest, 12, pad),
        }
    }
}

// The word of the up to four bytes at a place, over a pad.
fn key_word(rest: &[u8], at: usize, pad: u32) -> u32
    ensures { result ≡ key_word pad rest.now at }
{
    rest.iter()
        .skip(at)
        .take(4)
        .fold(pad, |w, x| (w << 8).wrapping_add(*x as u32))
}

#[tactic(auto, unfolding(crate::specs::Hash::half_round))]
fn half_round(x: u32, sum: u32, k: u32, l: u32) -> u32
    ensures { result ≡ half_round x sum k l }
{
    (x << 4).wrapping_add(k) ^ x.wrapping_add(sum) ^ (x >> 5).wrapping_add(l)
}

impl State {
    #[tactic(auto, unfolding(crate::specs::Hash::round))]
    fn round(self, k: Key, sum: u32) -> State
        ensures { result ≡ round k sum self }
    {
        let first = self
            .first
            .wrapping_add(half_round(self.second, sum, k.a, k.b));
        let second = self.second.wrapping_add(half_round(first, sum, k.c, k.d));
        State { first, second }
    }

    // Sixteen rounds, and both results added to the state.
    fn tea(self, k: Key) -> State
        ensures { result ≡ tea k self }
    {
        let mut sum: u32 = 0;
        let mut t = self;
        for _ in 0..16usize {
            sum = sum.wrapping_add(0x9E3779B9);
            t = t.round(k, sum);
        }
        State {
            first: self.first.wrapping_add(t.first),
            second: self.second.wrapping_add(t.second),
        }
    }
}

// Whether a name is "." or "..".
fn is_dots(name: &[u8]) -> bool
    ensures { result ≡ is_dots name.now }
{
    matches!(name, [b'.'] | [b'.', b'.'])
}

// The hash of any byte string, a name or not.
pub fn hash(name: &[u8]) -> u32
    ensures { result ≡ hash_of name.now }
{
    if is_dots(name) {
        return 0;
    }
    let mut state = State {
        first: 0x67452301,
        second: 0xEFCDAB89,
    };
    let mut rest = name;
    while rest.len() > 16 {
        state = state.tea(Key::of(rest));
        rest = &rest[16..];
    }
    state.tea(Key::of(rest)).first
}

fn name_bytes(name: &[u8]) -> bool
    ensures { result ≡ name_bytes name.now }
{
    name.iter().all(|x| *x != 0 && *x != b'/')
}

// Whether a byte string is a name. A string of another length is not read.
pub fn is_name(name: &[u8]) -> bool
    ensures { result ≡ is_name name.now }
{
    (1..=255).contains(&name.len()) && name_bytes(name)
}

// The answer of the name hash call: none for what is no name.
pub fn hash_answer(name: &[u8]) -> Option<u32>
    ensures { result ≡ hashed name.now }
{
    if is_name(name) {
        Some(hash(name))
    } else {
        None
    }
}
