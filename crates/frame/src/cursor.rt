// A place in the bytes of a scheme, passed and returned by value. Its methods read every byte of a scheme. The cursor of `numbers` would not do,
// since here a step or a count may find that the bytes end.
ghost use Rattle.std.specs.Prelude.{◌≡◌, ◌+◌, ◌≤◌, ◌<◌, length};
ghost use Rattle.frame.specs.Place.{TakenAt, ArcAt, step_at, section_at};

#[derive(Clone, Copy)]
pub struct Cursor {
    pub at: usize,
}

// An arc: its dimension, its smaller and its larger node.
#[derive(Clone, Copy)]
pub struct Arc {
    pub dim: u8,
    pub near: u8,
    pub far: u8,
}

// Each method gives what it reads and the place after it.
impl Cursor {
    // Reads the byte at the cursor. The caller knows that the bytes do not end there.
    pub fn take(self, bytes: &[u8]) -> (u8, Cursor)
        requires { self.at < length bytes.now }
        ensures { TakenAt bytes.now self.at result }
    {
        (bytes[self.at], Cursor { at: self.at + 1 })
    }

    // Reads the three bytes of an arc.
    pub fn arc(self, bytes: &[u8]) -> (Arc, Cursor)
        requires { self.at + 3 ≤ length bytes.now }
        ensures { ArcAt bytes.now self.at result }
    {
        let (dim, second) = self.take(bytes);
        let (near, third) = second.take(bytes);
        let (far, next) = third.take(bytes);
        (Arc { dim, near, far }, next)
    }

    // Reads the byte at the cursor, unless the bytes end there.
    #[tactic(auto, using(crate::proofs::PlaceLaws::step_end), unfolding(crate::specs::Place::step_at))]
    pub fn byte(self, bytes: &[u8]) -> Option<(u8, Cursor)>
        ensures { result ≡ step_at bytes.now self.at }
    {
        let value = bytes.get(self.at)?;
        Some((*value, Cursor { at: self.at + 1 }))
    }

    // Reads a count, from `least` to `most`, and steps over that many items of `size` bytes each, which must lie within the bytes.
    pub fn count(self, bytes: &[u8], least: u8, most: u8, size: u8) -> Option<(u8, Cursor)>
        ensures { result ≡ section_at bytes.now self.at least most size }
    {
        let (count, items) = self.byte(bytes)?;
        if count < least || most < count {
            return None;
        }
        let room = usize::from(count) * usize::from(size);
        if bytes.len() - items.at < room {
            return None;
        }
        Some((
            count,
            Cursor {
                at: items.at + room,
            },
        ))
    }
}
