//! What a mistake does, in one observation or in several that share it, by control and weight.
ghost use Rattle.std.specs.Prelude.{◌≡◌};
ghost use Rattle.th_reliability.specs.Mistakes.{mistake_of};
ghost use Rattle.th_reliability.specs.SharedMistakes.{shared_mistake_of};

/// The effect of a mistake in one observation.
#[derive(Clone, Copy, Debug, PartialEq, Eq)]
pub enum Mistake {
    /// The others that check the observation outweigh it: its residual is the mistake, as closely as
    /// the others' errors allow.
    Shows,
    /// The others weigh just as much: the mistake may show or hide.
    Ties,
    /// The others weigh less: the observation keeps residual 0, and others are blamed.
    Hides,
    /// Nothing checks the observation: no residual changes at all.
    Unchecked,
}

/// The effect of a mistake that several observations share, as all sights of one entry do.
#[derive(Clone, Copy, Debug, PartialEq, Eq)]
pub enum SharedMistake {
    /// The others outweigh them: each has the mistake as its residual, as closely as the others' errors
    /// allow.
    Shows,
    /// The others weigh just as much: the mistake may show, or drag points along.
    Ties,
    /// The others weigh less: the mistake moves points from their true heights.
    Drags,
    /// Nothing checks them: the mistake moves points, and no residual changes at all.
    Unchecked,
}

impl Mistake {
    /// What a mistake does in an observation with this control and weight. An observation between two
    /// benchmarks has no control, and a mistake in it shows.
    pub fn of(control: Option<u32>, weight: u32) -> Mistake
        ensures { result ≡ mistake_of control weight }
    {
        match control {
            None => Mistake::Shows,
            Some(0) => Mistake::Unchecked,
            Some(control) if control > weight => Mistake::Shows,
            Some(control) if control == weight => Mistake::Ties,
            Some(_) => Mistake::Hides,
        }
    }
}

impl SharedMistake {
    /// What a mistake does if observations with this control and weight share it.
    pub fn of(control: u32, weight: u32) -> SharedMistake
        ensures { result ≡ shared_mistake_of control weight }
    {
        if control > weight {
            SharedMistake::Shows
        } else if control == weight {
            SharedMistake::Ties
        } else if control == 0 {
            SharedMistake::Unchecked
        } else {
            SharedMistake::Drags
        }
    }
}
