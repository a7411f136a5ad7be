//! What residuals cost over the weights of a network's observations.
ghost use Rattle.std.specs.Prelude.{◌≡◌, ◌<◌, ◌*◌, ℕ, ℤ, List, All, length, sum_by, unsigned_abs};
ghost use Rattle.std.specs.List.{zip};
ghost use Rattle.th_blunders.specs.Residuals.{residual_limit, residuals as residuals_of};
ghost use Rattle.th_network.specs.Heights.{cost};
ghost use Rattle.th_network.specs.Networks.{weights_of};

use th_network::Network;

/// What heights cost that leave these residuals: the sum of weight times size over the observations
/// of a network. Residuals are in their order and in units of 10 nm.
pub fn cost(network: &Network, residuals: &[i64]) -> u128
    requires each { length residuals.now ≡ length network.now.observations }
    requires small { All (λ residual. unsigned_abs residual < residual_limit) residuals.now }
    ensures sum { result ≡ sum_by (λ pair. pair.0 * unsigned_abs pair.1)
        (zip (weights_of network.now) residuals.now) }
    ensures cost { (heights : List ℕ → ℤ) → residuals.now ≡ residuals_of network.now.observations heights
        → result ≡ cost network.now.observations network.now.weights heights }
{
    let weights = network.weights();
    let mut total = 0;
    for (i, residual) in residuals.iter().enumerate() {
        total += u128::from(weights[i]) * u128::from(residual.unsigned_abs());
    }
    total
}
