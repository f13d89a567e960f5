// Numbers below a bound and the lists made of them, as definitions (specs/) and laws (proofs/), and a buffer's words. This crate knows
// nothing of maps.
#![tactic(auto)]

ghost use Rattle.std.specs.Prelude.{◌≡◌, length, replicate};

// Every word becomes 0.
pub fn clear(words: &mut [u32])
    ensures { words.new ≡ replicate (length words.old) 0 }
{
    words.fill(0);
}
