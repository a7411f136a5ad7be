//! How remarks are collected.
ghost use Rattle.std.specs.Prelude.{◌≡◌, ◌<◌, ◌↔◌, All, IfOk, IsTrue, None, length, unsigned_abs};
ghost use Rattle.th_blunders.specs.Residuals.{residual_limit};
ghost use Rattle.th_remarks.specs.Remarks.{AreOfResiduals, AreOfSurvey, IsSilent};

use crate::cases::alike_in;
use crate::collected::Remarks;
use crate::heights::ManyHeights;
use crate::marked::marks_of;
use crate::outlying::outlier_of;
use crate::repeats::repeats_in;
use std::alloc::{AllocError, Global};
use th_network::Network;

impl Remarks {
    /// No remarks.
    pub fn none(alloc: Global) -> Remarks
        ensures { IsSilent result }
    {
        Remarks {
            repeats: Vec::new(alloc),
            heights: None,
            marks: None,
            outlier: None,
            alike: Vec::new(alloc),
        }
    }

    /// The remarks on a network and on residuals of its observations, in their order. They and the limit of
    /// blunders are in units of 10 nm. Only an allocation can fail.
    pub fn of(
        alloc: Global,
        network: &Network,
        residuals: &[i64],
        limit: i64,
    ) -> Result<Remarks, AllocError>
        requires each { length residuals.now ≡ length network.now.observations }
        requires small { All (λ residual. unsigned_abs residual < residual_limit) residuals.now }
        ensures survey { IfOk result (AreOfSurvey network.now) }
        ensures residuals { IfOk result (AreOfResiduals network.now residuals.now limit) }
        ensures heights { IfOk result (λ own. own.heights ≡ None) }
    {
        let observations = network.observations();
        let repeats = repeats_in(alloc, observations)?;
        let alike = alike_in(alloc, network)?;
        let outlier = outlier_of(alloc, network, residuals, limit)?;
        Ok(Remarks {
            repeats,
            heights: None,
            marks: marks_of(observations, residuals, limit),
            outlier,
            alike,
        })
    }

    /// The same remarks, with this one on heights.
    pub fn with_heights(self, heights: Option<ManyHeights>) -> Remarks
        ensures repeats { result.repeats ≡ self.repeats }
        ensures heights { result.heights ≡ heights }
        ensures marks { result.marks ≡ self.marks }
        ensures outlier { result.outlier ≡ self.outlier }
        ensures alike { result.alike ≡ self.alike }
    {
        let Remarks {
            repeats,
            marks,
            outlier,
            alike,
            ..
        } = self;
        Remarks {
            repeats,
            heights,
            marks,
            outlier,
            alike,
        }
    }

    /// Whether nothing is remarked.
    pub fn is_silent(&self) -> bool
        ensures { IsTrue result ↔ IsSilent self.now }
    {
        self.repeats.is_empty()
            && self.heights.is_none()
            && self.marks.is_none()
            && self.outlier.is_none()
            && self.alike.is_empty()
    }
}
