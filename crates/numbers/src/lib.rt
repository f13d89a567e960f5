// A place in bytes, passed and returned by value, and the numbers that are read and put there. Callers know that these lie within the bytes. The
// reader of a scheme does not know it, so it has a cursor of its own (`frame::cursor`), which finds where the bytes end.
#![tactic(auto)]

ghost use Rattle.std.specs.Prelude.{◌+◌, ◌≤◌, length};
ghost use Rattle.base.specs.Digits.{bytes_of};
ghost use Rattle.numbers.specs.Places.{NumberRead, Put};

#[derive(Clone, Copy)]
pub struct Cursor {
    pub at: usize,
}

impl Cursor {
    // Reads the number in W bytes, and returns it with the place after them.
    pub fn number<const W: usize>(self, b: &[u8]) -> (u32, Cursor)
        requires width { W ≤ 4 }
        requires in_bounds { self.at + W ≤ length b.now }
        ensures { NumberRead W b.now self.at result }
    {
        let mut value = 0;
        for i in (0..W).rev() {
            value = 256 * value + u32::from(b[self.at + i]);
        }
        (value, Cursor { at: self.at + W })
    }

    // Puts the lowest W bytes of v.
    pub fn put<const W: usize>(self, out: &mut [u8], v: u32) -> Cursor
        requires width { W ≤ 4 }
        requires in_bounds { self.at + W ≤ length out.old }
        ensures { Put out.old self.at (bytes_of W v) out.new result.at }
    {
        let mut left = v;
        for i in 0..W {
            out[self.at + i] = (left % 256) as u8;
            left /= 256;
        }
        Cursor { at: self.at + W }
    }
}
