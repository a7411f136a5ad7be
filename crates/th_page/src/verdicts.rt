//! The verdict: whether the sights fit, and how good that makes the heights.
ghost use Rattle.std.specs.Prelude.{◌≡◌};
ghost use Rattle.th_page.specs.Counts.{all_checked, tone_of, tone_of_verdict, verdict_of, verdict_of_fit, verdict_of_marks};
ghost use Rattle.th_page.specs.Verdicts.{tone_class, verdict_heading, wait_words};

use crate::counts::Counts;

/// What a page says of the sights as a whole.
#[derive(Clone, Copy, Debug, PartialEq, Eq)]
pub(crate) enum Verdict {
    /// No sight is marked, but none could be: there are as many sights as new points.
    Unchecked,
    /// No sight is marked, and no number explains anything; but one sight is far beyond the usual residual.
    Unlike,
    /// No sight is marked, and no number explains anything.
    Fits,
    /// No sight is marked, but more would fit if a number were another.
    Doubted,
    /// Sights are marked, and no number explains any.
    Unexplained,
    /// Each number that explains most leaves marks.
    InPart,
    /// One number explains all.
    Explained,
    /// Each of several numbers explains all.
    Undecided,
}

/// How good the heights are.
#[derive(Clone, Copy, Debug, PartialEq, Eq)]
pub(crate) enum Tone {
    /// All fits, and all is checked.
    Good,
    /// No height moves by more than the limit, but something is wrong, doubted or unchecked.
    Care,
    /// Heights move, or nobody knows by how much.
    Bad,
}

/// The verdict.
pub(crate) fn verdict_of(counts: &Counts) -> Verdict
    ensures { result ≡ verdict_of counts.now }
{
    if counts.marked > 0 {
        verdict_of_marks(counts)
    } else if counts.rows > 0 {
        Verdict::Doubted
    } else {
        verdict_of_fit(counts)
    }
}

/// The verdict where no sight is marked and no number explains anything.
fn verdict_of_fit(counts: &Counts) -> Verdict
    ensures { result ≡ verdict_of_fit counts.now }
{
    if counts.loops == 0 {
        Verdict::Unchecked
    } else if counts.has_outlier {
        Verdict::Unlike
    } else {
        Verdict::Fits
    }
}

/// The verdict where sights are marked.
fn verdict_of_marks(counts: &Counts) -> Verdict
    ensures { result ≡ verdict_of_marks counts.now }
{
    if counts.rows == 0 {
        Verdict::Unexplained
    } else if counts.explaining == 0 {
        Verdict::InPart
    } else if counts.explaining == 1 {
        Verdict::Explained
    } else {
        Verdict::Undecided
    }
}

/// How good the heights are.
pub(crate) fn tone_of(counts: &Counts) -> Tone
    ensures { result ≡ tone_of counts.now }
{
    if counts.moved > 0 {
        Tone::Bad
    } else {
        verdict_of(counts).tone(all_checked(counts))
    }
}

/// Whether something checks each sight and each keyed-in height.
pub(crate) fn all_checked(counts: &Counts) -> bool
    ensures { result ≡ all_checked counts.now }
{
    counts.unchecked_sights == 0 && counts.unchecked_entries == 0
}

impl Verdict {
    /// How good the heights are where none moves; whether all is checked.
    fn tone(self, checked: bool) -> Tone
        ensures { result ≡ tone_of_verdict checked self }
    {
        match self {
            Verdict::Fits if checked => Tone::Good,
            Verdict::Unexplained | Verdict::InPart => Tone::Bad,
            _ => Tone::Care,
        }
    }

    /// Its heading.
    pub(crate) fn heading(self) -> &'static [u8]
        ensures { result.now ≡ verdict_heading self }
    {
        match self {
            Verdict::Unchecked => b"Nothing checks these heights.",
            Verdict::Unlike => b"All sights are within the limit, but not all fit alike.",
            Verdict::Fits => b"All sights fit.",
            Verdict::Doubted => { b"All sights are within the limit, but one number may be wrong." }
            Verdict::Unexplained => b"Sights do not fit, and no one number explains it.",
            Verdict::InPart => b"Sights do not fit, and no one number explains all of it.",
            Verdict::Explained => b"One wrong number explains all that does not fit.",
            Verdict::Undecided => {
                b"One wrong number explains all that does not fit, but the books do not say which."
            }
        }
    }
}

impl Tone {
    /// The class of the verdict's element.
    pub(crate) fn class(self) -> &'static [u8]
        ensures { result.now ≡ tone_class self }
    {
        match self {
            Tone::Good => b"good",
            Tone::Care => b"care",
            Tone::Bad => b"bad",
        }
    }

    /// Not to use the heights, if they are bad.
    pub(crate) fn wait_words(self) -> &'static [u8]
        ensures { result.now ≡ wait_words self }
    {
        match self {
            Tone::Good | Tone::Care => b"",
            Tone::Bad => b" Do not use these heights yet.",
        }
    }
}
