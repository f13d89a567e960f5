// What a line shows of an edit's answer beside its number.
ghost use Rattle.std.specs.Prelude.{◌≡◌};
ghost use Rattle.bench.specs.Bench.{shown as shown_of};

use model::{Answer, Reply};

// The values of an edit that is done; all are 0 on refusal.
#[derive(Clone, Copy)]
pub struct Values {
    pub orbit: u32,
    pub added: u32,
    pub deleted: u32,
}

pub fn shown(a: Answer) -> Values
    ensures { (result.orbit ≡ shown_of a 0) × (result.added ≡ shown_of a 1) × (result.deleted ≡ shown_of a 2) }
{
    match a {
        Ok(
            Reply::Edited {
                orbit,
                added,
                deleted,
            },
        ) => Values {
            orbit,
            added,
            deleted,
        },
        Ok(Reply::Written(size)) => Values {
            orbit: size,
            added: 0,
            deleted: 0,
        },
        Ok(Reply::Done) | Err(_) => Values {
            orbit: 0,
            added: 0,
            deleted: 0,
        },
    }
}
