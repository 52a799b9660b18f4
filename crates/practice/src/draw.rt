// Draws from a seed.
ghost use Rattle.std.specs.Prelude.{◌≡◌, ◌<◌, ◌*◌, ◌%◌, ◌^◌};
ghost use Rattle.practice.specs.Practice as P;

// The product modulo 2 to the 32: that a helper has it is a form that is prescribed.
fn wrapping_mul32(a: u32, b: u32) -> u32
    ensures { result ≡ (a * b) % 2 ^ 32 }
{
    a.wrapping_mul(b)
}

#[tactic(auto, unfolding(crate::specs::Practice::next))]
fn next(seed: u32) -> u32
    ensures { result ≡ P.next seed }
{
    wrapping_mul32(seed, 1664525).wrapping_add(1013904223)
}

// One of the numbers below `count`. The seed goes on.
#[tactic(auto, unfolding(crate::specs::Practice::draw))]
pub(crate) fn draw(seed: &mut u32, count: u32) -> u32
    requires { 0 < count }
    ensures drawn { result ≡ (P.draw count seed.old).value }
    ensures seed { seed.new ≡ (P.draw count seed.old).seed }
{
    *seed = next(*seed);
    *seed / 65536 % count
}
