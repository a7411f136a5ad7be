//! Help against the faults of networks.
ghost use Rattle.std.specs.Prelude.{◌≡◌};
ghost use Rattle.th_messages.specs.Networks.{network_help};

use th_network::NetFault;

/// What helps against a fault of a network.
pub fn network_help(fault: NetFault) -> &'static str
    ensures { result.now ≡ network_help fault }
{
    match fault {
        NetFault::TooManyObservations =>
            "a network has at most 40,000 observations: adjust it in parts",
        NetFault::TooManyPoints => "a network has at most 4,000 points: adjust it in parts",
        NetFault::NoMemory => "this is no fault of the network",
        NetFault::NoBenchmark(_) =>
            "no chain of sights leads from this point to a benchmark: compare the names in books and table",
    }
}
