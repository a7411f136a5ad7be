//! A certificate while its records are read: what was stated, and what the next record may state.
ghost use Rattle.std.specs.Prelude.{◌≡◌, ◌≤◌, IfOk, IfSome, None, OnOk, bytes_eq, codes, if◌then◌else◌};
ghost use Rattle.th_certificate.specs.Inside.Drafts.{Follows};
ghost use Rattle.th_certificate.specs.Statements.{begun, may_have_cost, may_have_flow, may_have_height, may_have_high, may_have_low, row_in, said, statement_of, version_in, with_statement};

use crate::faults::CertKind;
use crate::heights::StatedHeights;
use crate::numbers::{cost_in, count_in, flow_in, height_in};
use crate::statements::Statement;
use gsi_word::{Name, name_of};
use std::alloc::{AllocError, Global};
use std::marker::Model;
use th_csv::Record;

/// What the records of a certificate have stated so far: the version and the count of observations,
/// the rows of each kind, and the cost if a row has stated it.
#[derive(Drop)]
pub(crate) struct Draft {
    pub version: u32,
    pub count: u32,
    pub heights: StatedHeights,
    pub low: StatedHeights,
    pub high: StatedHeights,
    pub flows: Vec<i64>,
    pub cost: Option<u128>,
}

impl Model for Draft {
    ghost use Rattle.th_certificate.specs.Inside.Drafts.{IsDraft};
    ghost use Rattle.th_certificate.specs.Statements.{Draft as Drafted};

    ghost Value = { Drafted };

    ghost view = { λ draft. record {
      version = draft.version;
      count = draft.count;
      heights = draft.heights;
      low = draft.low;
      high = draft.high;
      flows = draft.flows.items;
      cost = draft.cost;
    } };

    ghost invariant = { λ draft. IsDraft (record {
      version = draft.version;
      count = draft.count;
      heights = draft.heights;
      low = draft.low;
      high = draft.high;
      flows = draft.flows.items;
      cost = draft.cost;
    }) };
}

impl Draft {
    /// The draft of a certificate with this version row.
    pub fn begin(alloc: Global, fields: &Record) -> Result<Draft, CertKind>
        ensures { result ≡ begun fields.now }
    {
        let (kind, key, number) = fields.three().ok_or(CertKind::FieldCount)?;
        let version = version_in(kind, key).ok_or(CertKind::BadKind)?;
        let count = count_in(number)?;
        Ok(Draft {
            version,
            count,
            heights: StatedHeights::new(alloc),
            low: StatedHeights::new(alloc),
            high: StatedHeights::new(alloc),
            flows: Vec::new(alloc),
            cost: None,
        })
    }

    /// What the next record states, or the first kind of its fault.
    pub fn statement_of(&self, fields: &Record) -> Result<Statement, CertKind>
        ensures value { result ≡ statement_of self.now fields.now }
        ensures follows { IfOk result (Follows self.now) }
    {
        let (kind, key, number) = fields.three().ok_or(CertKind::FieldCount)?;
        self.said(kind, key, number)
    }

    /// What the next record states in its three fields, or the first kind of its fault.
    fn said(&self, kind: &[u8], key: &[u8], number: &[u8]) -> Result<Statement, CertKind>
        ensures { result ≡ said self.now kind.now key.now number.now }
    {
        if kind == b"H".as_slice() && self.may_have_height() {
            let (name, height) = row_in(&self.heights, key, number)?;
            Ok(Statement::Height(name, height))
        } else if kind == b"L".as_slice() && self.may_have_low() {
            let (name, height) = row_in(&self.low, key, number)?;
            Ok(Statement::Low(name, height))
        } else if kind == b"U".as_slice() && self.may_have_high() {
            let (name, height) = row_in(&self.high, key, number)?;
            Ok(Statement::High(name, height))
        } else if kind == b"F".as_slice() && self.may_have_flow() {
            let flow = flow_in(self.flows.len() as u32 + 1, key, number)?;
            Ok(Statement::Flow(flow))
        } else if kind == b"Z".as_slice() && self.may_have_cost() && key == b"cost".as_slice() {
            Ok(Statement::Cost(cost_in(number)?))
        } else {
            Err(CertKind::BadKind)
        }
    }

    /// Whether a height may come next.
    fn may_have_height(&self) -> bool
        ensures { result ≡ may_have_height self.now }
    {
        self.cost.is_none() && self.flows.is_empty() && self.high.is_empty() && self.low.is_empty()
    }

    /// Whether a lowest best height may come next.
    fn may_have_low(&self) -> bool
        ensures { result ≡ may_have_low self.now }
    {
        self.may_have_high() && self.high.is_empty()
    }

    /// Whether a highest best height may come next.
    fn may_have_high(&self) -> bool
        ensures { result ≡ may_have_high self.now }
    {
        self.cost.is_none() && self.flows.is_empty() && self.version == 2
    }

    /// Whether a flow may come next.
    fn may_have_flow(&self) -> bool
        ensures { result ≡ may_have_flow self.now }
    {
        self.cost.is_none() && (self.flows.len() as u32) < self.count
    }

    /// Whether the cost may come next.
    fn may_have_cost(&self) -> bool
        ensures { result ≡ may_have_cost self.now }
    {
        self.cost.is_none() && self.flows.len() as u32 == self.count
    }

    /// Adds what a record of `content` states. After an error nothing is known of the draft.
    pub fn add(
        &mut self,
        alloc: Global,
        content: &[u8],
        statement: Statement,
    ) -> Result<(), AllocError>
        requires { Follows self.old statement }
        ensures { OnOk result (self.new ≡ with_statement self.old statement) }
    {
        match statement {
            Statement::Height(name, height) => self.heights.add(alloc, content, name, height)?,
            Statement::Low(name, height) => self.low.add(alloc, content, name, height)?,
            Statement::High(name, height) => self.high.add(alloc, content, name, height)?,
            Statement::Flow(flow) => self.flows.push(flow)?,
            Statement::Cost(cost) => self.cost = Some(cost),
        }
        Ok(())
    }
}

/// The version that a version row states in its key, if it is 1 or 2.
fn version_in(kind: &[u8], key: &[u8]) -> Option<u32>
    ensures version { result ≡ (if bytes_eq kind.now (codes "V") then version_in key.now else None) }
    ensures known { IfSome result (λ version. (1 ≤ version) × (version ≤ 2)) }
{
    if kind != b"V".as_slice() {
        None
    } else if key == b"1".as_slice() {
        Some(1)
    } else if key == b"2".as_slice() {
        Some(2)
    } else {
        None
    }
}

/// The name and the height that a row states. No earlier row of its kind has the name.
fn row_in(earlier: &StatedHeights, key: &[u8], number: &[u8]) -> Result<(Name, i64), CertKind>
    ensures { result ≡ row_in earlier.now key.now number.now }
{
    let name = name_of(key).ok_or(CertKind::BadName)?;
    if earlier.height_of(&name).is_some() {
        return Err(CertKind::BadName);
    }
    Ok((name, height_in(number)?))
}
