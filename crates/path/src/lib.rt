// A path and its parts, each a part of the path's own bytes. What they mean is in specs/: Path.
#![tactic(auto)]

ghost use Rattle.std.specs.Prelude.{◌≡◌, ◌+◌, ◌≤◌, length, drop};
ghost use Rattle.path.specs.Path.{first_part, name_count};

// The most names that a path has.
const NAMES_MOST: usize = 8;

// Where the part that starts at a place ends: at the next slash, or else at the path's end.
pub fn part_end(path: &[u8], start: usize) -> usize
    requires { start ≤ length path.now }
    ensures { result ≡ start + length (first_part (drop start path.now)) }
{
    let part = path[start..].iter().take_while(|b| **b != b'/');
    start + part.count()
}

// How many names a path has, and 0 of what is no path. What is longer than the longest path isn't read: any bytes may come for one, and
// a part of them may have any length.
pub fn name_count(path: &[u8]) -> usize
    ensures { result ≡ name_count path.now }
{
    if path.len() >= 256 * NAMES_MOST {
        return 0;
    }
    let mut count = 0;
    for part in path.split(|b| *b == b'/') {
        if count == NAMES_MOST || !name_hash::is_name(part) {
            return 0;
        }
        count += 1;
    }
    count
}
