// The orbit type and the nodes: each is tested and stored as it is read.
ghost use Rattle.std.specs.Prelude.{◌≡◌, ℕ, ◌+◌, ◌*◌, ◌≤◌, ◌<◌, ◌↔◌, IsTrue, EachIndex, slice_index, is_some, IfSome, OnSome, length, get_or, replicate};
ghost use Rattle.base.specs.Test.{◌and◌};
ghost use Rattle.base.specs.Below.{all_below};
ghost use Rattle.base.specs.Filled.{filled, stored};
ghost use Rattle.model.specs.Bytes.{places_of, nodes_of};
ghost use Rattle.model.specs.Codes.{placed};
ghost use Rattle.model.specs.Scheme.{orbit_form, word_form, word_empty, node_form, scheme_of};
ghost use Rattle.frame.specs.Frame.{LaidOut};
ghost use Rattle.scheme.specs.Nodes.{Passed, Noded};
ghost use Rattle.scheme.specs.Words.{side_of, row, empty_at, fits_at, Placed};
ghost use Rattle.scheme.specs.Targets.{markable, marked, rowed};

use crate::side::Side;
use frame::Layout;
use frame::cursor::Cursor;
use frame::nodes::donor_bytes;

// Reads the orbit type, beginning at its count. It must ascend strictly, so it is enough to compare each dimension with the one before it.
pub(crate) fn read_orbit(
    bytes: &[u8],
    l: Layout,
    from: Cursor,
    orbit: &mut [u8; 4],
) -> Option<Cursor>
    requires laid_out { LaidOut bytes.now l }
    requires at_count { from.at ≡ 1 }
    requires orbit_blank { orbit.old ≡ replicate 4 0 }
    ensures formed { is_some result ≡ orbit_form bytes.now }
    ensures orbit_after { IfSome result (λ next. (orbit.new ≡ (scheme_of bytes.now).orbit) × (next.at ≡ 2 + places_of bytes.now)) }
{
    let (places, mut next) = from.take(bytes);
    let mut low = 0;
    for p in 0..usize::from(places) {
        let (d, after) = next.take(bytes);
        if d < low || l.n < d {
            return None;
        }
        orbit[p] = d;
        low = d + 1;
        next = after;
    }
    Some(next)
}

// Whether every byte of a word is 255.
fn is_empty(word: &[u8]) -> bool
    ensures { IsTrue result ↔ EachIndex word.now (λ k. slice_index word.now k ≡ 255) }
{
    word.iter().all(|d| *d == 255)
}

// Steps over the word at the cursor, if it is empty.
fn past_empty(bytes: &[u8], from: Cursor, places: usize) -> Option<Cursor>
    requires { from.at + places ≤ length bytes.now }
    ensures formed { is_some result ≡ all_below places (empty_at bytes.now from.at) }
    ensures after_word { IfSome result (λ next. next.at ≡ from.at + places) }
{
    let end = from.at + places;
    is_empty(&bytes[from.at..end]).then_some(Cursor { at: end })
}

// Enters byte d of a word, at position p, into the node's row of targets, which begins at `base`, if d is 255, or a dimension up to n that the word
// does not have yet.
fn mark(targets: &mut [u8; 64], base: usize, n: u8, d: u8, p: usize) -> Option<()>
    requires { (n ≤ 3) × (base + 4 ≤ 64) × (p < 4) }
    ensures fits { is_some result ≡ markable targets.old base n d }
    ensures targets_after { OnSome result (targets.new ≡ marked targets.old base d p) }
{
    if d == 255 {
        return Some(());
    }
    if n < d {
        return None;
    }
    let at = base + usize::from(d);
    if targets[at] != 255 {
        return None;
    }
    targets[at] = 16 + p as u8;
    Some(())
}

// Reads the word at the cursor into the node's rows of words and of targets, which begin at `base`.
fn read_word(
    bytes: &[u8],
    n: u8,
    places: usize,
    from: Cursor,
    words: &mut [u8; 64],
    targets: &mut [u8; 64],
    base: usize,
) -> Option<Cursor>
    requires bounds { (n ≤ 3) × (from.at + places ≤ length bytes.now) × (places ≤ 4) × (base + 4 ≤ 64) }
    requires row_clear { (length targets.old ≡ 64) × ((i : ℕ) → i < 4 → get_or targets.old (base + i) 0 ≡ 255) }
    ensures formed { is_some result ≡ all_below places (fits_at bytes.now n from.at) }
    ensures after_word { IfSome result (λ next. next.at ≡ from.at + places) }
    ensures words_after { OnSome result (words.new ≡ stored words.old base bytes.now from.at places) }
    ensures targets_after { OnSome result (targets.new ≡ rowed targets.old base bytes.now from.at places) }
{
    let mut next = from;
    for p in 0..places {
        let (d, after) = next.take(bytes);
        mark(targets, base, n, d, p)?;
        words[base + p] = d;
        next = after;
    }
    Some(next)
}

// Reads the word of node s on one side. The word of a node of the kind that may not occur there must be empty.
fn read_side(
    bytes: &[u8],
    n: u8,
    places: usize,
    s: usize,
    kind: u8,
    side: Side,
    from: Cursor,
    words: &mut [u8; 64],
    targets: &mut [u8; 64],
) -> Option<Cursor>
    requires placed { Placed bytes.now (side_of side) s kind n places from.at }
    requires words_filled { words.old ≡ filled 64 (4 * s) (row bytes.now (side_of side)) 255 }
    requires targets_filled { targets.old ≡ filled 64 (4 * s) (placed bytes.now (side_of side)) 255 }
    ensures formed { is_some result ≡ (word_form bytes.now (side_of side) s and word_empty bytes.now (side_of side) s) }
    ensures after_word { IfSome result (λ next. next.at ≡ from.at + places_of bytes.now) }
    ensures words_after { OnSome result (words.new ≡ filled 64 (4 * (s + 1)) (row bytes.now (side_of side)) 255) }
    ensures targets_after { OnSome result (targets.new ≡ filled 64 (4 * (s + 1)) (placed bytes.now (side_of side)) 255) }
{
    if kind == side.barred() {
        return past_empty(bytes, from, places);
    }
    read_word(bytes, n, places, from, words, targets, 4 * s)
}

// Reads node s, beginning at its kind, with both words, and steps over its donor if it has one.
fn read_node(
    bytes: &[u8],
    l: Layout,
    s: usize,
    from: Cursor,
    kinds: &mut [u8; 16],
    lwords: &mut [u8; 64],
    rwords: &mut [u8; 64],
    ltargets: &mut [u8; 64],
    rtargets: &mut [u8; 64],
) -> Option<Cursor>
    requires laid_out { LaidOut bytes.now l }
    requires s_bound { s < nodes_of bytes.now }
    requires before { Passed bytes.now s from.at kinds.old lwords.old rwords.old ltargets.old rtargets.old }
    ensures formed { is_some result ≡ node_form bytes.now s }
    ensures passed { IfSome result (λ next. Passed bytes.now (s + 1) next.at kinds.new lwords.new rwords.new ltargets.new rtargets.new) }
{
    let (kind, first) = from.take(bytes);
    if kind < 1 || 3 < kind {
        return None;
    }
    kinds[s] = kind;
    let places = usize::from(l.places);
    let second = read_side(
        bytes,
        l.n,
        places,
        s,
        kind,
        Side::Left,
        first,
        lwords,
        ltargets,
    )?;
    let third = read_side(
        bytes,
        l.n,
        places,
        s,
        kind,
        Side::Right,
        second,
        rwords,
        rtargets,
    )?;
    Some(Cursor {
        at: third.at + donor_bytes(u8::from(l.donors), kind),
    })
}

// Reads the nodes, beginning at their count.
pub(crate) fn read_nodes(
    bytes: &[u8],
    l: Layout,
    from: Cursor,
    kinds: &mut [u8; 16],
    lwords: &mut [u8; 64],
    rwords: &mut [u8; 64],
    ltargets: &mut [u8; 64],
    rtargets: &mut [u8; 64],
) -> Option<Cursor>
    requires laid_out { LaidOut bytes.now l }
    requires at_count { from.at ≡ 2 + places_of bytes.now }
    requires words_blank { (kinds.old ≡ replicate 16 0) × (lwords.old ≡ replicate 64 255) × (rwords.old ≡ replicate 64 255) }
    requires targets_blank { (ltargets.old ≡ replicate 64 255) × (rtargets.old ≡ replicate 64 255) }
    ensures formed { is_some result ≡ all_below (nodes_of bytes.now) (node_form bytes.now) }
    ensures noded { IfSome result (λ next. Noded bytes.now next.at kinds.new lwords.new rwords.new ltargets.new rtargets.new) }
{
    let (nodes, mut next) = from.take(bytes);
    for s in 0..usize::from(nodes) {
        next = read_node(bytes, l, s, next, kinds, lwords, rwords, ltargets, rtargets)?;
    }
    Some(next)
}
