// An answer as one word, for callers in C: include/gmap.h takes it apart.
#![tactic(auto)]

ghost use Rattle.std.specs.Prelude.{◌≡◌, ◌<◌};
ghost use Rattle.word.specs.Word.{refused as refusal, packed, Small};

use model::{Answer, Refusal, Reply};

// A refusal in numbers: its own, and those of the node and of the pair of dimensions that it names, 0 where it names none.
#[derive(Clone, Copy)]
pub struct Named {
    pub number: u32,
    pub node: u32,
    pub i: u32,
    pub j: u32,
}

fn bare(number: u32) -> Named
    ensures { (result.number ≡ number) × (result.node ≡ 0) × (result.i ≡ 0) × (result.j ≡ 0) }
{
    Named {
        number,
        node: 0,
        i: 0,
        j: 0,
    }
}

fn at(number: u32, node: u32) -> Named
    ensures { (result.number ≡ number) × (result.node ≡ node) × (result.i ≡ 0) × (result.j ≡ 0) }
{
    Named {
        number,
        node,
        i: 0,
        j: 0,
    }
}

impl From<Refusal> for Named {
    ghost use Rattle.word.specs.Word.{NamedBy};

    ghost from_gives = { NamedBy };

    fn from(f: Refusal) -> Named {
        match f {
            Refusal::BadCall => bare(1),
            Refusal::BadForm => bare(2),
            Refusal::BadHook(node) => at(3, node),
            Refusal::BadIncidence(node) => at(4, node),
            Refusal::BadCycle { node, i, j } => Named {
                number: 5,
                node,
                i,
                j,
            },
            Refusal::OtherDimension => bare(6),
            Refusal::BadTable => bare(7),
            Refusal::NoDart => bare(8),
            Refusal::NoMatch => bare(9),
            Refusal::NoRoom => bare(10),
            Refusal::BadFile => bare(11),
            Refusal::ShortOutput => bare(12),
        }
    }
}

fn refused(number: u32, node: u32, i: u32, j: u32) -> u64
    requires { (number < 256) × (node < 256) × (i < 256) × (j < 256) }
    ensures { result ≡ refusal number node i j }
{
    9223372036854775808
        + u64::from(number)
        + u64::from(node) * 256
        + u64::from(i) * 65536
        + u64::from(j) * 16777216
}

// The word of an answer. It is a function, since the word is C's, and a number has no From for it.
pub fn pack(a: Answer) -> u64
    requires { Small a }
    ensures { result ≡ packed a }
{
    match a {
        Ok(Reply::Done) => 0,
        Ok(
            Reply::Edited {
                orbit,
                added,
                deleted,
            },
        ) => u64::from(orbit) + u64::from(added) * 2097152 + u64::from(deleted) * 4398046511104,
        Ok(Reply::Written(size)) => u64::from(size),
        Err(f) => {
            let n = Named::from(f);
            refused(n.number, n.node, n.i, n.j)
        }
    }
}
