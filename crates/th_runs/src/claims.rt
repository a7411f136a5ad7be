//! What a check reads: a survey, and a certificate for it.
ghost use Rattle.std.specs.Prelude.{◌≡◌, ◌++◌, ◌∷◌, IfErr, IfOk, OnOk, [], false, is_some, length, true};
ghost use Rattle.th_devices.specs.Devices.{IsReady};
ghost use Rattle.th_inputs.specs.Sums.{sum_of};
ghost use Rattle.th_runs.specs.Checked.{checking};
ghost use Rattle.th_run_parts.specs.Inputs.{AnswersOwed, claim_owed_by_sources, given, owed_for_certificate, told_by};
ghost use Rattle.th_run_parts.specs.Readers.{HasReadBooks};
ghost use Rattle.th_run_parts.specs.Reads.{AreRead, AreReady, IsFrom, IsFromInput, IsNamed, IsReadFor, refused};
ghost use Rattle.th_run_parts.specs.Summed.{AreBooksSummed, AreOthersSummed, IsSummedNext, tolds_of};

use std::alloc::{AllocError, Global};
use std::marker::Model;
use th_certificate::{CertKind, Certificate, read_certificate};
use th_devices::Source;
use th_inputs::{Sum, add_sum};
use th_run_parts::{
    BookReader, Input, ObservationReader, Refusal, SumReader, Survey, read_summed_survey, read_text,
};

/// What is checked: a survey, and a certificate for it.
#[derive(Drop)]
pub(crate) struct Stated {
    pub survey: Survey,
    pub certificate: Certificate,
}

impl Model for Stated {
    ghost use Rattle.th_run_parts.specs.Inputs.{Claim};

    ghost Value = { Claim };

    ghost view = { λ stated. record { survey = stated.survey; certificate = stated.certificate } };
}

/// Reads the inputs of a check, up to the first that is refused. If their sums are wanted, the reader has those of the
/// books, and the other ones are put behind others.
pub(crate) fn read_stated<B: Source, T: Source, W: Source, C: Source>(
    alloc: Global,
    books: &mut [B],
    benchmarks: &mut T,
    weights: &mut Option<W>,
    certificate: &mut C,
    summed: bool,
    reader: &mut SumReader,
    others: &mut Vec<Sum>,
) -> Result<Stated, Refusal>
    requires ready { AreReady B.state T.state W.state books.old benchmarks.old weights.old }
    requires certificate { IsReady (C.state certificate.old).counts }
    ensures answer { AnswersOwed (claim_owed_by_sources B.state T.state W.state C.state
        books.old books.new benchmarks.old benchmarks.new weights.old weights.new
        certificate.old certificate.new) result }
    ensures books { OnOk result (summed ≡ true → AreBooksSummed 1 (told_by B.state books.old)
        reader.old.sums.items reader.new.sums.items) }
    ensures others { OnOk result (summed ≡ true → AreOthersSummed (tolds_of B.state T.state W.state
        books.old benchmarks.old weights.old) (C.state certificate.old).left
        others.old.items others.new.items) }
    ensures at { IfErr result IsFromInput }
    ensures named { IfErr result (IsNamed (length books.old) (is_some weights.old) checking) }
    ensures sources { AreRead B.state T.state W.state (refused result) books.old books.new
        benchmarks.old benchmarks.new weights.old weights.new }
    ensures certificate { IsReadFor C.state Input.Certificate (refused result)
        certificate.old certificate.new }
{
    if summed {
        return read_by(
            alloc,
            reader,
            books,
            benchmarks,
            weights,
            certificate,
            true,
            others,
        );
    }
    let mut plain = ObservationReader;
    read_by(
        alloc,
        &mut plain,
        books,
        benchmarks,
        weights,
        certificate,
        false,
        others,
    )
}

/// Reads the inputs of a check with this reader of books, up to the first that is refused. Puts the sums of the tables
/// behind others, and then, if it is wanted, that of the certificate.
fn read_by<R: BookReader, B: Source, T: Source, W: Source, C: Source>(
    alloc: Global,
    reader: &mut R,
    books: &mut [B],
    benchmarks: &mut T,
    weights: &mut Option<W>,
    certificate: &mut C,
    summed: bool,
    sums: &mut Vec<Sum>,
) -> Result<Stated, Refusal>
    requires ready { AreReady B.state T.state W.state books.old benchmarks.old weights.old }
    requires certificate { IsReady (C.state certificate.old).counts }
    ensures answer { AnswersOwed (claim_owed_by_sources B.state T.state W.state C.state
        books.old books.new benchmarks.old benchmarks.new weights.old weights.new
        certificate.old certificate.new) result }
    ensures read { IfOk result (λ stated. HasReadBooks R.has_read 1 (told_by B.state books.old) []
        stated.survey.observations reader.old reader.new) }
    ensures summed { OnOk result (summed ≡ true → AreOthersSummed (tolds_of B.state T.state W.state
        books.old benchmarks.old weights.old) (C.state certificate.old).left
        sums.old.items sums.new.items) }
    ensures at { IfErr result IsFromInput }
    ensures named { IfErr result (IsNamed (length books.old) (is_some weights.old) checking) }
    ensures sources { AreRead B.state T.state W.state (refused result) books.old books.new
        benchmarks.old benchmarks.new weights.old weights.new }
    ensures certificate { IsReadFor C.state Input.Certificate (refused result)
        certificate.old certificate.new }
{
    let survey = read_summed_survey(alloc, reader, books, benchmarks, weights, sums)?;
    let certificate = certificate_from(alloc, certificate, summed, sums)?;
    Ok(Stated {
        survey,
        certificate,
    })
}

/// The certificate that a source says. Its sum is put behind others, if it is wanted.
fn certificate_from<S: Source>(
    alloc: Global,
    source: &mut S,
    summed: bool,
    sums: &mut Vec<Sum>,
) -> Result<Certificate, Refusal>
    requires { IsReady (S.state source.old).counts }
    ensures answer { AnswersOwed (owed_for_certificate (given S.state source.old source.new)) result }
    ensures summed { OnOk result (summed ≡ true → IsSummedNext Input.Certificate (S.state source.old).left
        sums.old.items sums.new.items) }
    ensures at { IfErr result (IsFrom Input.Certificate) }
    ensures named { IfErr result (IsNamed 0 false checking) }
    ensures source { IsReadFor S.state Input.Certificate (refused result) source.old source.new }
{
    let text = read_text(alloc, Input::Certificate, source)?;
    add_sum_if(summed, sums, text.as_slice())?;
    match read_certificate(alloc, text.as_slice()) {
        Ok(certificate) => Ok(certificate),
        Err(fault) => match fault.kind {
            CertKind::NoMemory => Err(Refusal::NoMemory),
            _ => Err(Refusal::Certificate(fault)),
        },
    }
}

/// Puts the sum of a certificate with this text behind others, if it is wanted.
fn add_sum_if(summed: bool, sums: &mut Vec<Sum>, text: &[u8]) -> Result<(), AllocError>
    ensures { OnOk result (summed ≡ true → sums.new.items
        ≡ sums.old.items ++ sum_of Input.Certificate text.now ∷ []) }
{
    if summed {
        return add_sum(sums, Input::Certificate, text);
    }
    Ok(())
}
