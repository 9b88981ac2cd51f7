// What `build` is given, from the numbers that Rust and C pass.
#![tactic(auto)]

ghost use Rattle.std.specs.Prelude.{Ok, Err, cond, ◌≡◌};
ghost use Rattle.wire.specs.declared.Refusal.TheVariants.{BadTable};
ghost use Rattle.export_config.specs.Configs.{mode_of, address_from, address_numbers, config_read};

use handshake_build::Config;
use handshake_features_write::Mode;
use types::{Address, Network, ProxyMode, Version};
use wire::Refusal;

// light is 0 for a full node, verifying 0 for one that does not verify. The address is as haspeljo_parse gives it;
// BadTable where the kind is not 0, 4 or 6, or an IPv4 address has a number above 32 bits or a low half. The fourteen
// parameters are those of the C interface: haspeljo_build passes each.
#[tactic(auto, unfolding(crate::specs::Configs::config_read, crate::specs::Configs::is_set))]
pub fn config_from(
    network: Network,
    light: u8,
    state_type_id: u8,
    verifying: u8,
    blocks_to_keep: i32,
    major: u8,
    minor: u8,
    patch: u8,
    kind: u8,
    high: u64,
    low: u64,
    port: u16,
    timestamp: u64,
    session: i64,
) -> Result<Config, Refusal>
    ensures { result ≡ config_read network light state_type_id verifying blocks_to_keep major minor patch kind high low port timestamp session }
{
    let address = address_from(kind, high, low, port)?;
    let mode = Mode {
        proxy: mode_of(light),
        state_type_id,
        verifying: verifying != 0,
        blocks_to_keep,
    };
    let version = Version::new(major, minor, patch);
    Ok(Config {
        network,
        mode,
        version,
        address,
        timestamp,
        session,
    })
}

// C's number for the mode.
#[tactic(auto, unfolding(crate::specs::Configs::mode_of))]
fn mode_of(light: u8) -> ProxyMode
    ensures { result ≡ mode_of light }
{
    match light {
        0 => ProxyMode::Full,
        _ => ProxyMode::Light,
    }
}

// The address as haspeljo_parse gives it, or none.
#[tactic(auto, unfolding(crate::specs::Configs::address_from, crate::specs::Configs::address_numbers))]
fn address_from(kind: u8, high: u64, low: u64, port: u16) -> Result<Address, Refusal>
    ensures { result ≡ cond (address_numbers kind high low) (Ok (address_from kind high low port)) (Err BadTable) }
{
    match kind {
        0 => Ok(Address::None),
        4 if low == 0 => match u32::try_from(high) {
            Ok(ip) => Ok(Address::V4(ip, port)),
            Err(_) => Err(Refusal::BadTable),
        },
        6 => Ok(Address::V6(high, low, port)),
        _ => Err(Refusal::BadTable),
    }
}
