// The framing of the input: map file, scheme and dart list, each after a two-byte count, and nothing after them.
ghost use Rattle.bench.specs.Input.{FramingOf};

use numbers::Cursor;
use program::opening::LONGEST_FILE;

// The greatest length of a scheme.
const LONGEST_SCHEME: usize = 552;

// The greatest number of darts in the list.
const MOST_DARTS: usize = 1024;

// How many bytes the map file and the scheme have, and how many darts are listed.
#[derive(Clone, Copy)]
pub struct Layout {
    pub map: usize,
    pub scheme: usize,
    pub darts: usize,
}

pub fn frame(input: &[u8]) -> Option<Layout>
    ensures { FramingOf input.now result }
{
    let left = input.len().checked_sub(6)?;
    let first = Cursor { at: 0 };
    let (map, _) = first.number::<2>(input);
    let map = map as usize;
    let left = left.checked_sub(map)?;
    let second = Cursor { at: 2 + map };
    let (scheme, _) = second.number::<2>(input);
    let scheme = scheme as usize;
    let left = left.checked_sub(scheme)?;
    let third = Cursor {
        at: 4 + map + scheme,
    };
    let (darts, _) = third.number::<2>(input);
    let darts = darts as usize;
    if left != 2 * darts || LONGEST_FILE < map || LONGEST_SCHEME < scheme || MOST_DARTS < darts {
        return None;
    }
    Some(Layout { map, scheme, darts })
}
