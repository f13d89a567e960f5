// Where the sections of the tags and the links begin in a file of so many darts with numbers of W bytes, and how many bytes it has.
ghost use Rattle.std.specs.Prelude.{◌≡◌, ◌^◌, ◌≤◌, ◌<◌};
ghost use Rattle.model.specs.File.{tags_from, links_from, size_in};
ghost use Rattle.numbers.specs.Places.{Width};

pub fn tags_from<const W: usize>(darts: usize) -> usize
    requires { tags_from W darts < 2 ^ 63 }
    ensures { result ≡ tags_from W darts }
{
    1 + 2 * W + W * darts
}

pub fn links_from<const W: usize>(darts: usize) -> usize
    requires { links_from W darts < 2 ^ 63 }
    ensures { result ≡ links_from W darts }
{
    1 + 3 * W + (W + 4) * darts
}

pub fn size_in<const W: usize>(n: u32, darts: usize) -> usize
    requires { Width W × (n ≤ 3) × (darts < 2 ^ 32) }
    ensures { result ≡ size_in W n darts }
{
    1 + 4 * W + darts * (4 + W + W * (n as usize + 1))
}
