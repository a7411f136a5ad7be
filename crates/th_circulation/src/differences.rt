//! The differences of links in a phase: halved as often as it says, and rounded down.
ghost use Rattle.std.specs.Prelude.{◌≡◌, ◌<◌, length};
ghost use Rattle.th_circulation.specs.Limits.{phases};
ghost use Rattle.th_circulation.specs.Inside.Phases.{differences_in};

use th_network::Link;

/// Halves the difference of each link as often as the phase says, and takes the greatest whole number
/// that is not above it.
pub(crate) fn set_differences(links: &[Link], phase: u32, differences: &mut [i64])
    requires phase { phase < phases }
    requires each { length differences.old ≡ length links.now }
    ensures { differences.new ≡ differences_in phase links.now }
{
    for (place, link) in links.iter().enumerate() {
        differences[place] = link.diff >> phase;
    }
}
