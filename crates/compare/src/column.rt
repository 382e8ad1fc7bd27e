// Numbers that stand a width apart.
ghost use Rattle.std.specs.Prelude.{◌+◌, ◌*◌, ◌≤◌, length};

// `count` numbers `width` bytes apart, the first at `start`: in a list by itself 4, in a keep file more.
#[derive(Clone, Copy)]
pub struct Column<'a> {
    pub bytes: &'a [u8],
    pub start: usize,
    pub width: usize,
    pub count: usize,
    ghost held: { (4 ≤ width) × (start + width * count ≤ length bytes.now) },
}
