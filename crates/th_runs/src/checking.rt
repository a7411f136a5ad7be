//! A run that checks a certificate.
ghost use Rattle.std.specs.Prelude.{◌≡◌, ◌++◌, List, IfErr, IfOk, is_some, length, map, option_map, zip};
ghost use Rattle.th_devices.specs.Devices.{IsReady};
ghost use Rattle.th_inputs.specs.Inputs.{input_lines, inputs_of};
ghost use Rattle.th_inputs.specs.declared.sums.Sum.{Sum};
ghost use Rattle.th_runs.specs.Checked.{AreSummedIfNamed, IsVerdictOn, check_text, checking, judged, verdict_on};
ghost use Rattle.th_run_parts.specs.Inputs.{MakesNetwork, claim_owed_by_sources};
ghost use Rattle.th_runs.specs.Inside.Judged.{IsJudged};
ghost use Rattle.th_run_parts.specs.Refused.{IsOfNetwork};
ghost use Rattle.th_run_parts.specs.Reads.{AreRead, AreReady, IsNamed, IsReadFor, refused};
ghost use Rattle.th_run_parts.specs.Outcomes.{SurveyOutcome};
ghost use Rattle.th_run_parts.specs.Summed.{tolds_of};
ghost use Rattle.th_run_parts.specs.Writes.{AreWritable, AreWritten};

use crate::claims::{Stated, read_stated};
use std::alloc::{AllocError, Global};
use th_certificate::Certificate;
use th_checker::laws::yes_implies_least;
use th_checker::{Verdict, check};
use th_columns::Page;
use th_devices::{Sink, Source};
use th_inputs::{NamedInputs, Sum, write_inputs};
use th_network::Network;
use th_run_parts::{Input, Output, OutputText, Refusal, SumReader, Survey, network_of, write_outs};

/// What a check writes.
pub const CHECKED: [Output; 1] = [Output::Verdict];

/// Checks a certificate against up to `MAX_BOOKS` books, benchmarks and optional weights, and writes the
/// line of the verdict.
///
/// Inputs are read one after the other: the books, the benchmarks, the weights, the certificate.
/// Each is read to its end, or to one byte more than it may have, before its faults are reported.
/// The first that is refused decides. The faults of the network come after those of all inputs. The
/// text is made in memory before the output is begun.
///
/// If the names of all inputs are given, in the order in which they are read, the line of each follows behind
/// `yes`, with the sum of the bytes that were read.
pub fn run_check<B: Source, T: Source, W: Source, C: Source, K: Sink>(
    alloc: Global,
    books: &mut [B],
    benchmarks: &mut T,
    weights: &mut Option<W>,
    certificate: &mut C,
    names: Option<&[&str]>,
    outs: &mut [K],
) -> Result<Verdict, Refusal>
    requires ready { AreReady B.state T.state W.state books.old benchmarks.old weights.old }
    requires certificate { IsReady (C.state certificate.old).counts }
    requires outs { AreWritable K.state checking.outputs outs.old }

    // What the answer means.
    ensures outcome { SurveyOutcome (λ claim. claim.survey)
        (claim_owed_by_sources B.state T.state W.state C.state books.old books.new
        benchmarks.old benchmarks.new weights.old weights.new certificate.old certificate.new)
        (λ claim. IfOk result (IsVerdictOn claim) × (sums : List Sum)
        × AreSummedIfNamed (option_map (λ own. map (λ name. name.now) own.now) names.entry)
        (tolds_of B.state T.state W.state books.old benchmarks.old weights.old)
        (C.state certificate.old).left sums
        × AreWritten K.state (refused result) (judged
        (option_map (λ own. map (λ name. name.now) own.now) names.entry) sums (verdict_on claim))
        outs.old outs.new)
        result outs.old outs.new }
    ensures named { IfErr result (IsNamed (length books.old) (is_some weights.old) checking) }

    // How the sources are read.
    ensures sources { AreRead B.state T.state W.state (refused result) books.old books.new
        benchmarks.old benchmarks.new weights.old weights.new }
    ensures certificate { IsReadFor C.state Input.Certificate (refused result)
        certificate.old certificate.new }
{
    let mut reader = SumReader::new(alloc);
    let mut others = Vec::new(alloc);
    let stated = read_stated(
        alloc,
        books,
        benchmarks,
        weights,
        certificate,
        names.is_some(),
        &mut reader,
        &mut others,
    )?;
    let judged = judge(
        alloc,
        stated,
        names,
        reader.sums.as_slice(),
        others.as_slice(),
    )?;
    let Judged { verdict, text } = judged;
    write_outs(outs, &[OutputText::new(Output::Verdict, text)])?;
    Ok(verdict)
}

/// A verdict, and what is printed.
#[derive(Drop)]
struct Judged {
    verdict: Verdict,
    text: Vec<u8>,
}

/// The verdict on what is checked, or the first fault of its network.
fn judge(
    alloc: Global,
    stated: Stated,
    names: Option<&[&str]>,
    of_books: &[Sum],
    others: &[Sum],
) -> Result<Judged, Refusal>
    ensures { IsOfNetwork stated.survey (IsJudged
        (option_map (λ own. map (λ name. name.now) own.now) names.entry)
        (of_books.now ++ others.now) stated) result }
{
    let Stated {
        survey,
        certificate,
    } = stated;
    judge_survey(alloc, survey, &certificate, names, of_books, others)
}

/// The verdict on a certificate for this survey, or the first fault of its network.
fn judge_survey(
    alloc: Global,
    survey: Survey,
    certificate: &Certificate,
    names: Option<&[&str]>,
    of_books: &[Sum],
    others: &[Sum],
) -> Result<Judged, Refusal>
    ensures { IsOfNetwork survey (IsJudged
        (option_map (λ own. map (λ name. name.now) own.now) names.entry) (of_books.now ++ others.now)
        (record { survey = survey; certificate = certificate.now })) result }
{
    let Survey {
        observations,
        tables,
    } = survey;
    let network = network_of(alloc, observations, &tables.benchmarks, &tables.weights)?;
    let verdict = judge_network(alloc, &network, certificate)?;
    let text = text_of(alloc, &verdict, names, of_books, others)?;
    Ok(Judged { verdict, text })
}

/// The verdict on a certificate for a network.
fn judge_network(
    alloc: Global,
    network: &Network,
    certificate: &Certificate,
) -> Result<Verdict, AllocError>
    requires { MakesNetwork network.now }
    ensures { IfOk result
        (IsVerdictOn (record { survey = network.now; certificate = certificate.now })) }
{
    yes_implies_least();
    let found = check(
        alloc,
        network.observations(),
        network.benchmarks(),
        network.weight_table(),
        certificate,
    )?;
    Ok(found)
}

/// What is printed of a verdict.
fn text_of(
    alloc: Global,
    verdict: &Verdict,
    names: Option<&[&str]>,
    of_books: &[Sum],
    others: &[Sum],
) -> Result<Vec<u8>, AllocError>
    ensures { IfOk result (λ text. text.items ≡ check_text
        (option_map (λ own. map (λ name. name.now) own.now) names.entry)
        (of_books.now ++ others.now) verdict.now) }
{
    let line = format!(in alloc; "{verdict}\n")?.into_bytes();
    match (names, verdict) {
        (Some(names), Verdict::Yes) => with_inputs(alloc, line.as_slice(), names, of_books, others),
        _ => Ok(line),
    }
}

/// A line, and behind it the line of each input.
fn with_inputs(
    alloc: Global,
    line: &[u8],
    names: &[&str],
    of_books: &[Sum],
    others: &[Sum],
) -> Result<Vec<u8>, AllocError>
    ensures { IfOk result (λ text. text.items ≡ line.now
        ++ input_lines (zip (map (λ name. name.now) names.now) (of_books.now ++ others.now))) }
{
    let mut sums = Vec::from_slice(alloc, of_books)?;
    sums.extend_from_slice(others)?;
    let mut page = Page::new(alloc);
    page.add(line)?;
    let inputs = NamedInputs { names, sums: &sums };
    write_inputs(alloc, &mut page, inputs)?;
    Ok(page.into_bytes())
}
