//! Statements, which are read from single records and added to a draft.
use gsi_word::Name;

/// What a record under the version row states.
#[derive(Clone, Copy, Debug, PartialEq, Eq)]
pub(crate) enum Statement {
    /// The height of a name.
    Height(Name, i64),
    /// Its lowest best height.
    Low(Name, i64),
    /// Its highest best height.
    High(Name, i64),
    /// The flow of the next observation.
    Flow(i64),
    /// The cost.
    Cost(u128),
}
