//! How often names are used.
ghost use Rattle.std.specs.Prelude.{◌≡◌, ◌&&◌, ◌||◌, ◌++◌, ◌∷◌, [], ℕ, List, IfOk, OnOk};
ghost use Rattle.gsi_word.specs.Names.{same_name};
ghost use Rattle.th_notes.specs.Inside.Sets.{has_name};
ghost use Rattle.th_notes.specs.Uses.{goes_on};

use gsi_word::Name;
use std::alloc::{AllocError, Global};
use std::collections::BTreeSet;
use th_observations::Observation;

/// Names: all that are used, and those that are used at least twice.
#[derive(Drop)]
pub(crate) struct UsedNames {
    pub names: BTreeSet<Name>,
    pub again: BTreeSet<Name>,
}

impl UsedNames {
    ghost use Rattle.th_notes.specs.Uses.{AreUsed, all_ends, is_used_once, uses_at, uses_of};

    /// The ends of observations.
    pub fn of_ends(alloc: Global, observations: &[Observation]) -> Result<UsedNames, AllocError>
        ensures { IfOk result (AreUsed (all_ends observations.now)) }
    {
        let mut used = UsedNames::new(alloc);
        for o in observations {
            let (station, target) = o.ends();
            used.take(station)?;
            used.take(target)?;
        }
        Ok(used)
    }

    /// The stations of setups, and the targets of observations.
    pub fn of_sights(alloc: Global, observations: &[Observation]) -> Result<UsedNames, AllocError>
        ensures { IfOk result (AreUsed (uses_of observations.now)) }
    {
        let mut used = UsedNames::new(alloc);
        let mut before = None;
        for o in observations {
            used.take_sight(&before, o)?;
            before = Some(*o);
        }
        Ok(used)
    }

    /// Takes what an observation uses after the one before it.
    fn take_sight(
        &mut self,
        before: &Option<Observation>,
        o: &Observation,
    ) -> Result<(), AllocError>
        ensures { OnOk result ((names : List (List ℕ)) → AreUsed names self.old
            → AreUsed (names ++ uses_at before.now o.now) self.new) }
    {
        let (station, target) = o.ends();
        if !goes_on(before, o) {
            self.take(station)?;
        }
        self.take(target)
    }

    /// Whether a name is used once.
    pub fn has_once(&self, name: &Name) -> bool
        ensures { (names : List (List ℕ)) → AreUsed names self.now
            → result ≡ is_used_once names name.now }
    {
        self.names.contains(name) && !self.again.contains(name)
    }

    /// No names yet.
    fn new(alloc: Global) -> UsedNames
        ensures { AreUsed [] result }
    {
        UsedNames {
            names: BTreeSet::new(alloc),
            again: BTreeSet::new(alloc),
        }
    }

    /// Takes a name once more.
    fn take(&mut self, name: Name) -> Result<(), AllocError>
        ensures { OnOk result ((before : List (List ℕ)) → AreUsed before self.old
            → AreUsed (before ++ name ∷ []) self.new) }
    {
        let known = self.names.contains(&name);
        add_if(&mut self.again, known, name)?;
        self.names.insert(name)?;
        Ok(())
    }
}

/// Adds a name to a set where it is known already.
fn add_if(names: &mut BTreeSet<Name>, known: bool, name: Name) -> Result<(), AllocError>
    ensures { OnOk result ((other : List ℕ) → has_name names.new other
        ≡ (has_name names.old other || (known && same_name name other))) }
{
    if known {
        names.insert(name)?;
    }
    Ok(())
}

/// Whether an observation goes on from the one before it: from the same station in the same book.
fn goes_on(before: &Option<Observation>, o: &Observation) -> bool
    ensures { result ≡ goes_on before.now o.now }
{
    match before {
        Some(before) => before.book == o.book && before.station == o.station,
        None => false,
    }
}
