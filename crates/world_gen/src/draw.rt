// Numbers that are drawn.
ghost use Rattle.std.specs.Prelude.{◌≡◌, ◌<◌};
ghost use Rattle.world_gen.specs.Draws as spec;

use rand_core::utils::NextWord;
use rand_pcg::Lcg64Xsh32;

/// The generator of a seed.
#[tactic(auto, unfolding(crate::specs::Draws::start))]
pub(crate) fn start(seed: u64) -> Lcg64Xsh32
    ensures { result ≡ spec.start seed }
{
    Lcg64Xsh32::new(seed, 54)
}

/// A number below `n`.
#[tactic(auto, unfolding(crate::specs::Draws::draw))]
pub(crate) fn draw(rng: &mut Lcg64Xsh32, n: u32) -> u32
    requires { 0 < n }
    ensures value { result ≡ (spec.draw n rng.old).value }
    ensures rest { rng.new ≡ (spec.draw n rng.old).rest }
    ensures below { result < n }
{
    rng.next_word() % n
}
