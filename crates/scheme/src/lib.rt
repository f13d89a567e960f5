// Reading a scheme's bytes into one value of fixed size.
#![tactic(auto)]

mod arcs;
mod donors;
mod nodes;
mod second;
mod side;

ghost use Rattle.std.specs.Prelude.{◌≡◌};
ghost use Rattle.scheme.specs.Reading.{reading};

use arcs::read_arcs;
use donors::read_donors;
use frame::frame;
use model::Scheme;
use nodes::{read_nodes, read_orbit};
use second::read_second;
use side::Side;

// What reading a scheme's bytes gives: the scheme, and which of its nodes have two arcs of one dimension, on the left and on the right.
#[derive(Clone, Copy)]
pub struct Reading {
    pub scheme: Scheme,
    pub ltwice: [bool; 16],
    pub rtwice: [bool; 16],
}

// Reads a scheme from any bytes, one section after the other, into arrays that are blank at first. There is none if the bytes are not in the form.
pub fn read(bytes: &[u8]) -> Option<Reading>
    ensures { result ≡ reading bytes.now }
{
    let l = frame(bytes)?;
    let mut orbit = [0u8; 4];
    let second = read_orbit(bytes, l, l.first, &mut orbit)?;
    let mut kinds = [0u8; 16];
    let mut lwords = [255u8; 64];
    let mut rwords = [255u8; 64];
    let mut ltargets = [255u8; 64];
    let mut rtargets = [255u8; 64];
    let third = read_nodes(
        bytes,
        l,
        second,
        &mut kinds,
        &mut lwords,
        &mut rwords,
        &mut ltargets,
        &mut rtargets,
    )?;
    let mut donors = [0u8; 16];
    read_donors(bytes, l, second, &kinds, &mut donors)?;
    let (hook, fourth) = read_second(bytes, l, third, &kinds)?;
    let mut larcs = [0u8; 192];
    let mut ltwice = [false; 16];
    let fifth = read_arcs(
        bytes,
        l,
        &kinds,
        Side::Left,
        fourth,
        &mut larcs,
        &mut ltargets,
        &mut ltwice,
    )?;
    let mut rarcs = [0u8; 192];
    let mut rtwice = [false; 16];
    read_arcs(
        bytes,
        l,
        &kinds,
        Side::Right,
        fifth,
        &mut rarcs,
        &mut rtargets,
        &mut rtwice,
    )?;
    let scheme = Scheme {
        n: l.n,
        places: l.places,
        orbit,
        nodes: l.nodes,
        second: hook,
        kinds,
        donors,
        lwords,
        rwords,
        ltargets,
        rtargets,
        lcount: l.lcount,
        larcs,
        rcount: l.rcount,
        rarcs,
    };
    Some(Reading {
        scheme,
        ltwice,
        rtwice,
    })
}
