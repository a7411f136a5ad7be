//! The headline of the program. A law is its contract: it calls nothing of the product.

ghost use Rattle.std.specs.Prelude.{◌≡◌, ◌⊎◌, ℕ, ℤ, List, [], None, Ok, Some, Bool};
ghost use Rattle.th_devices.specs.Spots.{file, output};
ghost use Rattle.th_network.specs.Networks.{Survey};
ghost use Rattle.th_commands.specs.Asked.{Files, adjust, check, book, book_of_heights, explain, list, mend, page, review};
ghost use Rattle.th_commands.specs.declared.plans.Plan.{Plan};
ghost use Rattle.th_program.specs.Done.{AreDone, IsAdjusted, IsInputOf, IsRun, IsExplained, IsPagedFile, IsReviewed, form_of};
ghost use Rattle.th_program.specs.Failing.{IsInClaim, IsInFiles, IsInMending};
ghost use Rattle.th_program.specs.Headline.{AskFor, IsAccepted, IsEndedAdjust, IsEndedCheck, IsUnlucky, NoneMayFail, SomeMayFail, SparesInputs};
ghost use Rattle.th_files.specs.Outputs.{spots_of, Holds};
ghost use Rattle.th_files.specs.Owed.{claim_owed, book_owed, converted_owed, mended_owed};
ghost use Rattle.th_runs.specs.Adjusted.{AreOutputs, OutTexts, adjusting};
ghost use Rattle.th_runs.specs.Checked.{IsRight, checking};
ghost use Rattle.th_run_parts.specs.Inputs.{Claim, Meets};
ghost use Rattle.th_inputs.specs.declared.inputs.Input.{Input};
ghost use Rattle.th_run_parts.specs.Booked.{booking};
ghost use Rattle.th_run_parts.specs.declared.conversions.Conversion.TheVariants.{Differences, Heights};
ghost use Rattle.th_runs.specs.Explained.{explaining};
ghost use Rattle.th_observations.specs.Observed.{Observed};
ghost use Rattle.th_runs.specs.Paged.{paging};
ghost use Rattle.th_program.specs.Accepted.{IsReadAt, OutputsSpare};
ghost use Rattle.th_report.specs.Lists.{list_text};
ghost use Rattle.th_runs.specs.Reviewed.{reviewing};
ghost use Rattle.th_runs.specs.Listed.{listing};

use th_devices::Folder;
use th_runs::laws::{
    accepted_inputs_are_refused_for_memory_alone, printed_certificate_is_accepted,
};

/// The program runs what its arguments ask for: if that is an adjustment or a check, the run ended in one
/// of the ways with which the headline begins.
pub fn run_is_as_asked<F: Folder>()
    ensures adjusted { (old new : _) (words : List (List ℕ)) (status : ℕ) (from : Files) (limit : ℤ) (prefix : List ℕ)
        → AreDone F.tells F.held F.has_failed F.failing old new words status
        → AskFor words (adjust from limit prefix)
        → IsEndedAdjust F.tells (F.failing old) (F.held old) (F.held new) from limit prefix status }
    ensures checked { (old new : _) (words : List (List ℕ)) (status : ℕ) (from : Files) (certificate : List ℕ)
        → AreDone F.tells F.held F.has_failed F.failing old new words status
        → AskFor words (check from certificate)
        → IsEndedCheck F.tells (F.failing old) (F.held old) (F.held new) from certificate status }
{}

/// The headline, over a folder.
///
/// Take an adjustment that ended, of inputs that are accepted. None of them is an output, and no device
/// of the run may fail: reading may not at the spot of an input, nor writing at that of an output. Then
/// its status is 0 or 4. With 0 the outputs hold the heights, the certificate, the report and the GSI
/// blocks of the survey that the inputs give: the lowest heights of all that keep the benchmarks and cost
/// least, shown by the printed circulation. Status 4 is for a run that is out of memory.
///
/// A check of a certificate that was printed so, with inputs that give the same survey, says yes or ends
/// with 4, if none of its devices may fail. And whatever certificate a check says yes to, its heights
/// are least.
pub fn headline<F: Folder>()
    ensures adjusted { (old new : _) (status : ℕ) (from : Files) (limit : ℤ) (prefix : List ℕ) (survey : Survey)
        → IsEndedAdjust F.tells (F.failing old) (F.held old) (F.held new) from limit prefix status
        → IsAccepted (F.held old) from survey
        → SparesInputs from prefix
        → NoneMayFail (F.failing old) (IsInFiles from) (spots_of prefix adjusting.outputs)
        → ((status ≡ 0) × IsAdjusted F.tells (F.held old) (F.held new) from limit prefix None)
        ⊎ (status ≡ 4) }
    ensures confirmed { (old new : _) (status : ℕ)
        (from : Files) (certificate : List ℕ) (survey : Survey) (limit : ℤ) (texts : OutTexts)
        → IsEndedCheck F.tells (F.failing old) (F.held old) (F.held new) from certificate status
        → IsAccepted (F.held old) from survey
        → AreOutputs survey limit texts
        → F.held old (file certificate) ≡ Some texts.certificate
        → NoneMayFail (F.failing old) (IsInClaim from certificate) (spots_of [] checking.outputs)
        → (status ≡ 0) ⊎ (status ≡ 4) }
    ensures believed { (old new : _) (from : Files) (certificate : List ℕ)
        → IsEndedCheck F.tells (F.failing old) (F.held old) (F.held new) from certificate 0
        → (claim : Claim)
        × Meets (claim_owed (F.held old) None from certificate) (Ok claim)
        × IsRight claim }
{
    headline_if_devices_may_fail::<F>();
}

/// What is left of the headline if devices may fail: status 5 is then possible, too.
pub fn headline_if_devices_may_fail<F: Folder>()
    ensures adjusted { (old new : _) (status : ℕ) (from : Files) (limit : ℤ) (prefix : List ℕ) (survey : Survey)
        → IsEndedAdjust F.tells (F.failing old) (F.held old) (F.held new) from limit prefix status
        → IsAccepted (F.held old) from survey
        → SparesInputs from prefix
        → ((status ≡ 0) × IsAdjusted F.tells (F.held old) (F.held new) from limit prefix None)
        ⊎ IsUnlucky (SomeMayFail (F.failing old)
        (IsInFiles from) (spots_of prefix adjusting.outputs)) status }
    ensures confirmed { (old new : _) (status : ℕ)
        (from : Files) (certificate : List ℕ) (survey : Survey) (limit : ℤ) (texts : OutTexts)
        → IsEndedCheck F.tells (F.failing old) (F.held old) (F.held new) from certificate status
        → IsAccepted (F.held old) from survey
        → AreOutputs survey limit texts
        → F.held old (file certificate) ≡ Some texts.certificate
        → (status ≡ 0)
        ⊎ IsUnlucky (SomeMayFail (F.failing old)
        (IsInClaim from certificate) (spots_of [] checking.outputs)) status }
{
    accepted_inputs_are_refused_for_memory_alone();
    printed_certificate_is_accepted();
}

/// No run changes an input: each file that a plan reads holds what it held before.
pub fn inputs_are_kept<F: Folder>()
    ensures { (old new : _) (asked : Plan) (status : ℕ)
        → IsRun F.tells F.held F.has_failed F.failing old new asked status
        → (which : Input) (name : List ℕ)
        → IsInputOf asked which name
        → F.held new (file name) ≡ F.held old (file name) }
{}

/// `list` of a book without a fault prints the list of its observations, or runs out of memory, if no
/// device of the run may fail.
pub fn accepted_book_is_listed<F: Folder>()
    ensures { (old new : _) (words : List (List ℕ)) (status : ℕ) (name : List ℕ)
        (observations : List Observed)
        → AreDone F.tells F.held F.has_failed F.failing old new words status
        → AskFor words (list name)
        → book_owed (F.held old) None (file name) ≡ Some (Ok observations)
        → NoneMayFail (F.failing old) (IsReadAt (file name)) (spots_of [] listing)
        → ((status ≡ 0) × Holds F.tells (F.held new) output (list_text observations))
        ⊎ (status ≡ 4) }
{}

/// `review` of accepted inputs writes the texts of their review, or runs out of memory, if no
/// device of the run may fail and no output is an input.
pub fn accepted_inputs_are_reviewed<F: Folder>()
    ensures { (old new : _) (words : List (List ℕ)) (status : ℕ)
        (from : Files) (limit : ℤ) (prefix : List ℕ) (survey : Survey)
        → AreDone F.tells F.held F.has_failed F.failing old new words status
        → AskFor words (review from limit prefix)
        → IsAccepted (F.held old) from survey
        → OutputsSpare reviewing.outputs from prefix
        → NoneMayFail (F.failing old) (IsInFiles from) (spots_of prefix reviewing.outputs)
        → ((status ≡ 0) × IsReviewed F.tells (F.held old) (F.held new) from limit prefix None)
        ⊎ (status ≡ 4) }
{
    accepted_inputs_are_refused_for_memory_alone();
}

/// `explain` of accepted inputs prints their explanation, or runs out of memory, if no device of the run
/// may fail.
pub fn accepted_inputs_are_explained<F: Folder>()
    ensures { (old new : _) (words : List (List ℕ)) (status : ℕ)
        (from : Files) (limit : ℤ) (table : Bool) (survey : Survey)
        → AreDone F.tells F.held F.has_failed F.failing old new words status
        → AskFor words (explain from limit table)
        → IsAccepted (F.held old) from survey
        → NoneMayFail (F.failing old) (IsInFiles from) (spots_of [] explaining.outputs)
        → ((status ≡ 0) × IsExplained F.tells (F.held old) (F.held new) from limit (form_of table))
        ⊎ (status ≡ 4) }
{
    accepted_inputs_are_refused_for_memory_alone();
}

/// `page` of accepted inputs writes their page, or runs out of memory, if no device of the run may fail
/// and the page is no input.
pub fn accepted_inputs_are_paged<F: Folder>()
    ensures { (old new : _) (words : List (List ℕ)) (status : ℕ)
        (from : Files) (limit : ℤ) (prefix title : List ℕ) (survey : Survey)
        → AreDone F.tells F.held F.has_failed F.failing old new words status
        → AskFor words (page from limit prefix title)
        → IsAccepted (F.held old) from survey
        → OutputsSpare paging.outputs from prefix
        → NoneMayFail (F.failing old) (IsInFiles from) (spots_of prefix paging.outputs)
        → ((status ≡ 0) × IsPagedFile F.tells (F.held old) (F.held new) from limit prefix title None)
        ⊎ (status ≡ 4) }
{
    accepted_inputs_are_refused_for_memory_alone();
}

/// `book` of a table of differences, or of a book with heights, prints the book that it gives, or runs
/// out of memory, if no device of the run may fail.
pub fn accepted_table_becomes_a_book<F: Folder>()
    ensures differences { (old new : _) (words : List (List ℕ)) (status : ℕ) (name text : List ℕ)
        → AreDone F.tells F.held F.has_failed F.failing old new words status
        → AskFor words (book name)
        → converted_owed (F.held old) None Differences name ≡ Some (Ok text)
        → NoneMayFail (F.failing old) (IsReadAt (file name)) (spots_of [] booking)
        → ((status ≡ 0) × Holds F.tells (F.held new) output text)
        ⊎ (status ≡ 4) }
    ensures heights { (old new : _) (words : List (List ℕ)) (status : ℕ) (name text : List ℕ)
        → AreDone F.tells F.held F.has_failed F.failing old new words status
        → AskFor words (book_of_heights name)
        → converted_owed (F.held old) None Heights name ≡ Some (Ok text)
        → NoneMayFail (F.failing old) (IsReadAt (file name)) (spots_of [] booking)
        → ((status ≡ 0) × Holds F.tells (F.held new) output text)
        ⊎ (status ≡ 4) }
{}

/// `mend` of a table of changes and a book prints the mended book, or runs out of memory, if there is one
/// and no device of the run may fail.
pub fn accepted_changes_mend_a_book<F: Folder>()
    ensures { (old new : _) (words : List (List ℕ)) (status : ℕ) (changes name text : List ℕ)
        → AreDone F.tells F.held F.has_failed F.failing old new words status
        → AskFor words (mend changes name)
        → mended_owed (F.held old) None changes name ≡ Some (Ok text)
        → NoneMayFail (F.failing old) (IsInMending changes name) (spots_of [] booking)
        → ((status ≡ 0) × Holds F.tells (F.held new) output text)
        ⊎ (status ≡ 4) }
{}
