//! Whether a pass takes a list from the front or from the back.
ghost use Rattle.std.specs.Prelude.{◌≡◌, ◌<◌};

/// The order in which a pass goes over a list.
#[derive(Clone, Copy, Debug, PartialEq, Eq)]
pub enum Sweep {
    /// From the front.
    Forwards,
    /// From the back.
    Backwards,
}

impl Sweep {
    ghost use Rattle.th_search.specs.Sweeps.{index_at, reversed};

    /// The index, in a list of this size, to which a step leads. Steps count from 0.
    pub fn index_at(self, size: usize, step: usize) -> usize
        requires { step < size }
        ensures within { result < size }
        ensures index { result ≡ index_at self size step }
    {
        match self {
            Sweep::Forwards => step,
            Sweep::Backwards => size - 1 - step,
        }
    }

    /// The opposite order.
    pub fn reversed(self) -> Sweep
        ensures { result ≡ reversed self }
    {
        match self {
            Sweep::Forwards => Sweep::Backwards,
            Sweep::Backwards => Sweep::Forwards,
        }
    }
}
