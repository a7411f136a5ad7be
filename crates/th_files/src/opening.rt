//! The sources of a run, as a folder gives them.
ghost use Rattle.std.specs.Prelude.{◌≤◌, ◌≡◌, IfOk, length, map, option_map};
ghost use Rattle.th_commands.specs.PlanLimits.{max_books};
ghost use Rattle.th_commands.specs.Plans.{files};
ghost use Rattle.th_files.specs.Opened.{AreOpened, EachIsOpened, IsOpenedIfAny};
ghost use Rattle.th_files.specs.Owed.{all_names, claim_names};

use std::alloc::{AllocError, Global};
use th_commands::Inputs;
use th_devices::{Folder, Origin};

/// The sources that `adjust`, `review` and `check` read.
///
/// A run reads them before it opens an output, and keeps them until the outputs are placed. So where a
/// standard stream is closed, an input gets its number, and no output gets what is written to it. If
/// more streams are closed than there are inputs, an output has the number of standard error, and is
/// closed before a line is written there.
#[derive(Drop)]
pub struct Sources<S> {
    pub books: Vec<S>,
    pub benchmarks: S,
    pub weights: Option<S>,
}

/// The sources of the files that the inputs name.
pub fn sources_of<F: Folder>(
    alloc: Global,
    folder: &mut F,
    inputs: &Inputs<'_>,
) -> Result<Sources<F::In>, AllocError>
    ensures same { folder.new ≡ folder.old }
    ensures opened { IfOk result (λ sources. AreOpened F.In.state (F.failing folder.old).reading
        (F.held folder.old) (files inputs.now)
        sources.books.items sources.benchmarks sources.weights) }
    ensures few_books { IfOk result (λ sources. length sources.books.items ≤ max_books) }
{
    Ok(Sources {
        books: books_of(alloc, folder, inputs.books.names())?,
        benchmarks: folder.source(alloc, Origin::File(inputs.benchmarks))?,
        weights: source_if_any(alloc, folder, inputs.weights)?,
    })
}

/// The names of all files that the inputs name, in the order in which they are read.
pub fn names_of<'a>(alloc: Global, inputs: &Inputs<'a>) -> Result<Vec<&'a str>, AllocError>
    ensures { IfOk result (λ names. map (λ name. name.now) names.items ≡ all_names (files inputs.now)) }
{
    let mut names = Vec::from_slice(alloc, inputs.books.names())?;
    names.push(inputs.benchmarks)?;
    if let Some(weights) = inputs.weights {
        names.push(weights)?;
    }
    Ok(names)
}

/// The same, and the name of the certificate that a check reads last.
pub fn names_of_claim<'a>(
    alloc: Global,
    inputs: &Inputs<'a>,
    certificate: &'a str,
) -> Result<Vec<&'a str>, AllocError>
    ensures { IfOk result (λ names. map (λ name. name.now) names.items
        ≡ claim_names (files inputs.now) certificate.entry.now) }
{
    let mut names = names_of(alloc, inputs)?;
    names.push(certificate)?;
    Ok(names)
}

/// The sources of the files of these names.
fn books_of<F: Folder>(
    alloc: Global,
    folder: &mut F,
    names: &[&str],
) -> Result<Vec<F::In>, AllocError>
    ensures same { folder.new ≡ folder.old }
    ensures opened { IfOk result (λ sources. EachIsOpened F.In.state (F.failing folder.old).reading
        (F.held folder.old) (map (λ name. name.now) names.now) sources.items) }
{
    let mut sources = Vec::new(alloc);
    for name in names {
        sources.push(folder.source(alloc, Origin::File(*name))?)?;
    }
    Ok(sources)
}

/// The source of the file of this name, where there is a name.
fn source_if_any<F: Folder>(
    alloc: Global,
    folder: &mut F,
    name: Option<&str>,
) -> Result<Option<F::In>, AllocError>
    ensures same { folder.new ≡ folder.old }
    ensures opened { IfOk result (IsOpenedIfAny F.In.state (F.failing folder.old).reading
        (F.held folder.old) (option_map (λ own. own.now) name.entry)) }
{
    match name {
        Some(name) => Ok(Some(folder.source(alloc, Origin::File(name))?)),
        None => Ok(None),
    }
}
