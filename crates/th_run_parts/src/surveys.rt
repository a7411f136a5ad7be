//! The survey that books and tables give, and its network.
ghost use Rattle.std.specs.Prelude.{◌≡◌, IfErr, IfOk, IfSome, OnOk, [], is_some, length};
ghost use Rattle.th_devices.specs.Devices.{IsReady};
ghost use Rattle.th_network.specs.Networks.{surveyed};
ghost use Rattle.th_run_parts.specs.Inputs.{AnswersOwed, given, given_if_any, owed_by_sources, owed_for_tables, told_by, told_if_any};
ghost use Rattle.th_run_parts.specs.Readers.{HasReadBooks};
ghost use Rattle.th_run_parts.specs.Refused.{IsOfNetwork};
ghost use Rattle.th_run_parts.specs.Reads.{AreRead, AreReady, IfPresent, IsOfInputs, IsReadFor, refused};
ghost use Rattle.th_run_parts.specs.Summed.{AreTablesSummed};

use crate::books::read_books;
use crate::inputs::{benchmarks_from, weights_from};
use crate::readers::BookReader;
use crate::refusals::Refusal;
use std::alloc::Global;
use std::marker::Model;
use th_devices::Source;
use th_inputs::{Input, Sum};
use th_network::{NetFault, Network};
use th_observations::Observation;
use th_tables::{Benchmarks, Weights};

/// The tables of a run.
#[derive(Drop)]
pub struct Tables {
    pub benchmarks: Benchmarks,
    pub weights: Weights,
}

impl Model for Tables {
    ghost use Rattle.th_run_parts.specs.Inputs.{TableRows};
    ghost use Rattle.th_tables.specs.Rows.{AreBenchmarks, AreWeights};

    ghost Value = { TableRows };

    ghost view = { λ tables. record { benchmarks = tables.benchmarks; weights = tables.weights } };

    ghost invariant = { λ tables. AreBenchmarks tables.benchmarks × AreWeights tables.weights };
}

/// What the books and the tables of a run say.
#[derive(Drop)]
pub struct Survey {
    pub observations: Vec<Observation>,
    pub tables: Tables,
}

impl Model for Survey {
    ghost use Rattle.th_network.specs.Networks.{Survey, surveyed};

    ghost Value = { Survey };

    ghost view = { λ survey.
        surveyed survey.observations.items survey.tables.benchmarks survey.tables.weights };
}

/// Reads the books and the tables of a run, up to the first that is refused.
pub fn read_survey<R: BookReader, B: Source, T: Source, W: Source>(
    alloc: Global,
    reader: &mut R,
    books: &mut [B],
    benchmarks: &mut T,
    weights: &mut Option<W>,
) -> Result<Survey, Refusal>
    requires { AreReady B.state T.state W.state books.old benchmarks.old weights.old }
    ensures answer { AnswersOwed (owed_by_sources B.state T.state W.state books.old books.new
        benchmarks.old benchmarks.new weights.old weights.new) result }
    ensures read { IfOk result (λ survey. HasReadBooks R.has_read 1 (told_by B.state books.old) []
        survey.observations reader.old reader.new) }
    ensures named { IfErr result (IsOfInputs (length books.old) (is_some weights.old)) }
    ensures sources { AreRead B.state T.state W.state (refused result) books.old books.new
        benchmarks.old benchmarks.new weights.old weights.new }
{
    read_summed_survey(
        alloc,
        reader,
        books,
        benchmarks,
        weights,
        &mut Vec::new(alloc),
    )
}

/// Reads the books and the tables of a run, as `read_survey` does, and puts the sums of the tables behind
/// others. Those of the books are the reader's.
pub fn read_summed_survey<R: BookReader, B: Source, T: Source, W: Source>(
    alloc: Global,
    reader: &mut R,
    books: &mut [B],
    benchmarks: &mut T,
    weights: &mut Option<W>,
    sums: &mut Vec<Sum>,
) -> Result<Survey, Refusal>
    requires { AreReady B.state T.state W.state books.old benchmarks.old weights.old }
    ensures answer { AnswersOwed (owed_by_sources B.state T.state W.state books.old books.new
        benchmarks.old benchmarks.new weights.old weights.new) result }
    ensures read { IfOk result (λ survey. HasReadBooks R.has_read 1 (told_by B.state books.old) []
        survey.observations reader.old reader.new) }
    ensures summed { OnOk result (AreTablesSummed (T.state benchmarks.old).left
        (told_if_any W.state weights.old) sums.old.items sums.new.items) }
    ensures named { IfErr result (IsOfInputs (length books.old) (is_some weights.old)) }
    ensures sources { AreRead B.state T.state W.state (refused result) books.old books.new
        benchmarks.old benchmarks.new weights.old weights.new }
{
    let mut observations = Vec::new(alloc);
    read_books(alloc, 1, reader, books, &mut observations)?;
    let tables = read_tables(alloc, benchmarks, weights, sums)?;
    Ok(Survey {
        observations,
        tables,
    })
}

/// Reads the tables of a run, up to the first that is refused, and puts their sums behind others.
fn read_tables<T: Source, W: Source>(
    alloc: Global,
    benchmarks: &mut T,
    weights: &mut Option<W>,
    sums: &mut Vec<Sum>,
) -> Result<Tables, Refusal>
    requires benchmarks { IsReady (T.state benchmarks.old).counts }
    requires weights { IfSome weights.old (λ own. IsReady (W.state own).counts) }
    ensures answer { AnswersOwed (owed_for_tables (given T.state benchmarks.old benchmarks.new)
        (given_if_any W.state weights.old weights.new)) result }
    ensures summed { OnOk result (AreTablesSummed (T.state benchmarks.old).left
        (told_if_any W.state weights.old) sums.old.items sums.new.items) }
    ensures named { IfErr result (IsOfInputs 0 (is_some weights.old)) }
    ensures benchmarks { IsReadFor T.state Input.Benchmarks (refused result)
        benchmarks.old benchmarks.new }
    ensures weights { IfPresent (IsReadFor W.state Input.Weights (refused result))
        weights.old weights.new }
{
    let heights = benchmarks_from(alloc, benchmarks, sums)?;
    let factors = weights_from(alloc, weights, sums)?;
    Ok(Tables {
        benchmarks: heights,
        weights: factors,
    })
}

/// The network of a survey, or the first fault that it has.
pub fn network_of<'a>(
    alloc: Global,
    observations: Vec<Observation>,
    benchmarks: &'a Benchmarks,
    weights: &'a Weights,
) -> Result<Network<'a>, Refusal>
    ensures { IsOfNetwork (surveyed observations.items benchmarks.now weights.now)
        (λ network. network ≡ surveyed observations.items benchmarks.now weights.now) result }
{
    match Network::build(alloc, observations, benchmarks, weights) {
        Ok(network) => Ok(network),
        Err(NetFault::NoMemory) => Err(Refusal::NoMemory),
        Err(fault) => Err(Refusal::Network(fault)),
    }
}
