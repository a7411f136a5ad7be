//! Commands over the survey of books and tables, and their run.
ghost use Rattle.std.specs.Prelude.{◌≡◌, IfErr, IfOk, OnOk, false};
ghost use Rattle.th_network.specs.Networks.{Survey};
ghost use Rattle.th_run_parts.specs.Inputs.{MakesNetwork, owed_by_sources};
ghost use Rattle.th_run_parts.specs.Outcomes.{Accepted, PrintedRun};
ghost use Rattle.th_run_parts.specs.Reads.{AreReady, Run};
ghost use Rattle.th_run_parts.specs.Refused.{IsOfNetwork};
ghost use Rattle.th_run_parts.specs.Summed.{Tolds, tolds_of};
ghost use Rattle.th_run_parts.specs.Writes.{AreWritable, Texts};
ghost use Rattle.th_runs.specs.Commands.{AreFor, HasRead};
ghost use Rattle.th_tables.specs.Rows.{AreBenchmarks, AreWeights};

use std::alloc::Global;
use th_devices::{Sink, Source};
use th_inputs::Sum;
use th_network::Network;
use th_progress::Progress;
use th_run_parts::{
    BookReader, Output, OutputText, Refusal, Survey, network_of, read_summed_survey, write_outs,
};

/// A command over the survey of books and tables: what reads its books, what it writes, and its texts of a
/// network.
pub trait SurveyCommand {
    /// What reads the books, and keeps what else the texts need.
    type Reader: BookReader;

    // What it writes.
    ghost run: { Run };

    // The reader has read no book.
    ghost is_new: { Self.Reader → Type 0 };

    // Its texts of a survey, whose sources told this.
    ghost are_of: { Self → Tolds → Survey → Texts → Type 0 };

    // What the reader has noted after the texts were made.
    ghost has_noted: { Self → Tolds → Survey → Self.Reader → Type 0 };

    /// What it writes, in this order.
    fn outputs(&self) -> &'static [Output]
        ensures { result.now ≡ run.outputs };

    /// Its texts of a network. The reader has read its books, and these are the sums of its tables.
    fn texts<P: Progress>(
        &self,
        alloc: Global,
        network: &Network,
        reader: &mut Self::Reader,
        of_tables: &[Sum],
        progress: &mut P,
    ) -> Result<Vec<OutputText>, Refusal>
        requires network { MakesNetwork network.now }
        requires benchmarks { AreBenchmarks network.now.benchmarks }
        requires weights { AreWeights network.now.weights }
        requires read { (tolds : Tolds) × HasRead Self.Reader.has_read is_new tolds
            network.now.observations reader.old of_tables.now }
        ensures texts { IfOk result (λ texts. (tolds : Tolds)
            → HasRead Self.Reader.has_read is_new tolds network.now.observations reader.old of_tables.now
            → are_of self.now tolds network.now texts.items) }
        ensures noted { OnOk result ((tolds : Tolds)
            → HasRead Self.Reader.has_read is_new tolds network.now.observations reader.old of_tables.now
            → has_noted self.now tolds network.now reader.new) }
        ensures refused { IfErr result (λ own. own ≡ Refusal.NoMemory) };

    // Its texts are those of its outputs.
    ghost in_order: { (own : Self) (tolds : Tolds) (survey : Survey) (texts : Texts)
        → are_of own tolds survey texts → AreFor run texts };

    // It reads no certificate.
    ghost no_certificate: { run.has_certificate ≡ false };
}

/// Runs a command over up to `MAX_BOOKS` books, benchmarks and optional weights, and writes its texts to
/// `outs`, in the order of its outputs.
///
/// Inputs are read one after the other: the books, the benchmarks, the weights. Each is read to its end,
/// or to one byte more than it may have, before its faults are reported. The first that is refused
/// decides. The faults of the network come after those of all inputs. All texts are made in memory
/// before the first output is begun.
pub fn run_command<C: SurveyCommand, B: Source, T: Source, W: Source, K: Sink, P: Progress>(
    alloc: Global,
    command: &C,
    reader: &mut C::Reader,
    books: &mut [B],
    benchmarks: &mut T,
    weights: &mut Option<W>,
    outs: &mut [K],
    progress: &mut P,
) -> Result<(), Refusal>
    requires new { C.is_new reader.old }
    requires ready { AreReady B.state T.state W.state books.old benchmarks.old weights.old }
    requires outs { AreWritable K.state C.run.outputs outs.old }
    ensures printed { PrintedRun B.state T.state W.state K.state C.run
        (C.are_of command.now (tolds_of B.state T.state W.state books.old benchmarks.old weights.old))
        result books.old books.new benchmarks.old benchmarks.new weights.old weights.new outs.old outs.new }
    ensures noted { OnOk result ((survey : Survey)
        × Accepted (λ survey. survey) (owed_by_sources B.state T.state W.state
        books.old books.new benchmarks.old benchmarks.new weights.old weights.new) survey
        × C.has_noted command.now (tolds_of B.state T.state W.state
        books.old benchmarks.old weights.old) survey reader.new) }
{
    let mut of_tables = Vec::new(alloc);
    let survey = read_summed_survey(alloc, reader, books, benchmarks, weights, &mut of_tables)?;
    let texts = texts_of(
        alloc,
        command,
        survey,
        reader,
        of_tables.as_slice(),
        progress,
    )?;
    write_outs(outs, texts.as_slice())
}

/// The texts of a command, or the first fault of the network.
fn texts_of<C: SurveyCommand, P: Progress>(
    alloc: Global,
    command: &C,
    survey: Survey,
    reader: &mut C::Reader,
    of_tables: &[Sum],
    progress: &mut P,
) -> Result<Vec<OutputText>, Refusal>
    requires read { (tolds : Tolds) × HasRead C.Reader.has_read C.is_new tolds
        survey.observations reader.old of_tables.now }
    ensures texts { IsOfNetwork survey (λ texts. (tolds : Tolds)
        → HasRead C.Reader.has_read C.is_new tolds survey.observations reader.old of_tables.now
        → C.are_of command.now tolds survey texts.items) result }
    ensures noted { OnOk result ((tolds : Tolds)
        → HasRead C.Reader.has_read C.is_new tolds survey.observations reader.old of_tables.now
        → C.has_noted command.now tolds survey reader.new) }
{
    let Survey {
        observations,
        tables,
    } = survey;
    let network = network_of(alloc, observations, &tables.benchmarks, &tables.weights)?;
    command.texts(alloc, &network, reader, of_tables, progress)
}
