// Bytes that passed the tests of a keep file.
ghost use Rattle.std.specs.Prelude.{◌≡◌, true};
ghost use Rattle.keep_file.specs.Reading.{measured, readable};

// Bytes whose offsets and length are what their first three numbers give.
#[derive(Clone, Copy)]
pub struct Measured<'a> {
    pub bytes: &'a [u8],
    ghost measured: { measured bytes.now ≡ true },
}

// A keep file.
#[derive(Clone, Copy)]
pub struct KeepFile<'a> {
    pub parts: Measured<'a>,
    ghost readable: { readable parts.bytes.now ≡ true },
}
