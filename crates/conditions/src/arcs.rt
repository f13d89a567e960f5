// The bytes of arcs as a scheme's value holds them.
ghost use Rattle.std.specs.Prelude.{◌≡◌, ◌<◌, ◌≤◌};
ghost use Rattle.conditions.specs.Arcs.{part_of};

// Byte f of arc a.
pub fn part(arcs: &[u8; 192], a: usize, f: usize) -> usize
    requires { (a < 64) × (f < 3) }
    ensures { (result ≡ part_of arcs.now a f) × (result ≤ 255) }
{
    usize::from(arcs[3 * a + f])
}
