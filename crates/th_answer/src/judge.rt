//! What sights are judged by.
ghost use Rattle.std.specs.Prelude.{◌<◌, ◌^◌};
ghost use Rattle.std.specs.Option.{ForSome};

use crate::correcting::Readjusted;
use crate::remedies::Remedy;
use th_network::Network;

/// What sights are judged by.
#[derive(Clone, Copy)]
pub(crate) struct Judge<'a> {
    pub network: &'a Network<'a>,
    /// The residual of each observation, in units of 10 nm.
    pub residuals: &'a [i64],
    /// The limit of blunders, in units of 10 nm.
    pub limit: i64,
    /// What puts the first rows right.
    pub remedies: &'a [Remedy],
    /// The survey with each of them put right.
    pub corrected: &'a [Readjusted],
    /// Whether there is no first row, and no marked sight.
    pub is_quiet: bool,
    /// The usual weighted size, if there is one.
    pub usual: Option<u128>,
    ghost short: { ForSome usual (λ own. own < 2 ^ 96) },
}
