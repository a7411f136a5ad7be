//! How many bytes, flows and digits a certificate may have.
use th_network::MAX_OBSERVATIONS;

/// The most bytes that a certificate may have.
pub const MAX_CERTIFICATE: usize = 8_388_608;

/// The most flows that a certificate may have.
pub const MAX_FLOWS: u32 = MAX_OBSERVATIONS as u32;

/// The most digits that a count, a flow and its number may have, leading zeros included.
pub(crate) const MAX_DIGITS: usize = 9;

/// The most digits that a cost may have, leading zeros included.
pub(crate) const MAX_COST_DIGITS: usize = 30;
