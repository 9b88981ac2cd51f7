// What stands in the arrays that Rust and C are given: the numbers of each answer, in a row.
#![tactic(auto)]

ghost use Rattle.std.specs.Prelude.{◌≡◌};
ghost use Rattle.export_arrays.specs.Networks.{network_of};

pub mod bodies;
pub mod entries;
pub mod steps;

use types::Network;

// The network that a number of C stands for.
#[tactic(auto, unfolding(crate::specs::Networks::network_of))]
pub fn network_of(mainnet: u8) -> Network
    ensures { result ≡ network_of mainnet }
{
    match mainnet {
        0 => Network::Testnet,
        _ => Network::Mainnet,
    }
}
