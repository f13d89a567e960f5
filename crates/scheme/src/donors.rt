// The donors, if the first byte says that they are named: the donor of an added node is the byte after its words. A donor may be a later node, so
// donors are read once all kinds are known.
ghost use Rattle.std.specs.Prelude.{◌≡◌, true, ◌+◌, ◌<◌, is_some, IfSome, OnSome, replicate};
ghost use Rattle.base.specs.Below.{all_below};
ghost use Rattle.model.specs.Bytes.{names_donors, places_of, nodes_of};
ghost use Rattle.model.specs.Scheme.{donor_form, scheme_of};
ghost use Rattle.scheme.specs.Donors.{DonorsPlaced, Donated};

use frame::Layout;
use frame::cursor::Cursor;

// Steps over node s, which is at the cursor, and reads its donor if it is added.
fn read_donor(
    bytes: &[u8],
    l: Layout,
    s: usize,
    from: Cursor,
    kinds: &[u8; 16],
    donors: &mut [u8; 16],
) -> Option<Cursor>
    requires donors_placed { DonorsPlaced bytes.now l kinds.now }
    requires s_bound { s < nodes_of bytes.now }
    requires named { names_donors bytes.now ≡ true }
    requires before { Donated bytes.now s from.at donors.old }
    ensures formed { is_some result ≡ donor_form bytes.now s }
    ensures donated { IfSome result (λ next. Donated bytes.now (s + 1) next.at donors.new) }
{
    let past = Cursor {
        at: from.at + 1 + 2 * usize::from(l.places),
    };
    if kinds[s] != 3 {
        return Some(past);
    }
    let (donor, next) = past.take(bytes);
    if l.nodes <= donor {
        return None;
    }
    donors[s] = donor;
    (kinds[usize::from(donor)] != 3).then_some(next)
}

// Reads the donors of all nodes, beginning at the count of the nodes.
pub(crate) fn read_donors(
    bytes: &[u8],
    l: Layout,
    from: Cursor,
    kinds: &[u8; 16],
    donors: &mut [u8; 16],
) -> Option<()>
    requires donors_placed { DonorsPlaced bytes.now l kinds.now }
    requires at_count { from.at ≡ 2 + places_of bytes.now }
    requires donors_blank { donors.old ≡ replicate 16 0 }
    ensures formed { is_some result ≡ all_below (nodes_of bytes.now) (donor_form bytes.now) }
    ensures donors_after { OnSome result (donors.new ≡ (scheme_of bytes.now).donors) }
{
    if !l.donors {
        return Some(());
    }
    let (nodes, mut next) = from.take(bytes);
    for s in 0..usize::from(nodes) {
        next = read_donor(bytes, l, s, next, kinds, donors)?;
    }
    Some(())
}
