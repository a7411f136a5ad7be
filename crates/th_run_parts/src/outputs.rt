//! The outputs of runs, and how they are named.
ghost use Rattle.std.specs.Prelude.{◌≡◌, option_map};
ghost use Rattle.th_run_parts.specs.Outputs.{ending_of, output_text};

use std::fmt;

/// What a run writes.
#[derive(Clone, Copy, Debug, PartialEq, Eq)]
pub enum Output {
    /// The list of a book's observations.
    List,
    /// The file of heights.
    Heights,
    /// The certificate.
    Certificate,
    /// The report.
    Report,
    /// The heights as GSI-16 blocks.
    Gsi,
    /// The verdict on a certificate.
    Verdict,
    /// The table of a review's points.
    Points,
    /// The table of a review's observations.
    Observations,
    /// The table of a review's entries.
    Entries,
    /// The table of a review's benchmarks.
    Benchmarks,
    /// The review for people.
    Review,
    /// What explains what does not fit, for people or as a table.
    Explanations,
    /// The book of a table of differences.
    Book,
    /// The page to hand on.
    Page,
}

impl Output {
    /// Its name in the line of a failed write.
    pub fn name(self) -> &'static str
        ensures { result.now ≡ output_text self }
    {
        match self {
            Output::List => "list",
            Output::Heights => "heights",
            Output::Certificate => "certificate",
            Output::Report => "report",
            Output::Gsi => "gsi",
            Output::Verdict => "verdict",
            Output::Points => "points",
            Output::Observations => "observations",
            Output::Entries => "entries",
            Output::Benchmarks => "reviewed benchmarks",
            Output::Review => "review",
            Output::Explanations => "explanations",
            Output::Book => "book",
            Output::Page => "page",
        }
    }

    /// How the name of its file ends, behind the prefix of its run. None for an output that goes to
    /// standard output.
    pub fn ending(self) -> Option<&'static str>
        ensures { option_map (λ own. own.now) result ≡ ending_of self }
    {
        match self {
            Output::List | Output::Verdict | Output::Explanations | Output::Book => None,
            Output::Heights => Some(".heights.csv"),
            Output::Certificate => Some(".certificate.csv"),
            Output::Report => Some(".report.txt"),
            Output::Gsi => Some(".heights.gsi"),
            Output::Points => Some(".points.csv"),
            Output::Observations => Some(".observations.csv"),
            Output::Entries => Some(".entries.csv"),
            Output::Benchmarks => Some(".benchmarks.csv"),
            Output::Review => Some(".review.txt"),
            Output::Page => Some(".html"),
        }
    }
}

impl fmt::Display for Output {
    ghost use Rattle.std.specs.Prelude.{Some};
    ghost use Rattle.th_run_parts.specs.Outputs.{output_text};

    ghost output = { λ output. Some (output_text output) };

    fn fmt<W: fmt::Write>(&self, f: &mut fmt::Formatter<W>) -> fmt::Result {
        f.write_str(self.name())
    }
}
