// A side of a scheme.
ghost use Rattle.std.specs.Prelude.{◌≡◌};
ghost use Rattle.scheme.specs.Words.{side_of, barred};

#[derive(Clone, Copy)]
pub(crate) enum Side {
    Left,
    Right,
}

impl Side {
    // The kind of node that may not occur on the side: 3 (added) on the left, 1 (deleted) on the right.
    pub(crate) fn barred(self) -> u8
        ensures { result ≡ barred (side_of self) }
    {
        match self {
            Side::Left => 3,
            Side::Right => 1,
        }
    }
}
