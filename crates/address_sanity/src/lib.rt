// Classifier for addresses that have no business being gossiped as a public peer, after address_sanity.rs.
// A test compares prefixes: 172.16.0.0/12 is `ip >> 20 == 0xac10 >> 4`, the first 12 bits of 172.16. The tests of a list of ranges stand in the
// table's order, and `|` joins them to one value.
#![tactic(auto)]

ghost use Rattle.std.specs.Prelude.{◌≡◌, ◌+◌, ◌*◌, ◌^◌};
ghost use Rattle.address_sanity.specs.Ranges.{always_v4, always_v6, mainnet_v4, mainnet_v6};
ghost use Rattle.address_sanity.specs.Bogus.{bogus, is_mainnet, some_contains};

use types::{Address, Network};

// Whether the address is not a routable public peer's on the network.
pub fn is_bogus_address(addr: Address, network: Network) -> bool
    ensures { result ≡ bogus addr network }
{
    let mainnet = is_mainnet(network);
    match addr {
        Address::None => false,
        Address::V4(ip, _) => is_always_bogus_v4(ip) | mainnet & is_mainnet_only_bogus_v4(ip),
        Address::V6(high, low, _) => is_always_bogus_v6(high, low)
            | mainnet & is_mainnet_only_bogus_v6(high, low),
    }
}

fn is_mainnet(network: Network) -> bool
    ensures { result ≡ is_mainnet network }
{
    network == Network::Mainnet
}

fn is_always_bogus_v4(ip: u32) -> bool
    ensures { result ≡ some_contains 32 always_v4 ip }
{
    (ip >> 24 == 127) // 127.0.0.0/8
        | (ip >> 16 == 0xa9fe) // 169.254.0.0/16
        | (ip >> 28 == 224 >> 4) // 224.0.0.0/4
        | (ip >> 28 == 240 >> 4) // 240.0.0.0/4
        | (ip == 0) // 0.0.0.0/32
        | (ip >> 17 == 0xc612 >> 1) // 198.18.0.0/15
}

fn is_always_bogus_v6(high: u64, low: u64) -> bool
    ensures { result ≡ some_contains 128 always_v6 (high * 2 ^ 64 + low) }
{
    (high == 0) & ((low == 1) | (low == 0)) // ::1/128, ::/128
        | (high >> 56 == 0xff) // ff00::/8
        | (high >> 54 == 0xfe80 >> 6) // fe80::/10
        | (high == 0) & (low >> 32 == 0xffff) // ::ffff:0:0/96
}

fn is_mainnet_only_bogus_v4(ip: u32) -> bool
    ensures { result ≡ some_contains 32 mainnet_v4 ip }
{
    (ip >> 24 == 10) // 10.0.0.0/8
        | (ip >> 20 == 0xac10 >> 4) // 172.16.0.0/12
        | (ip >> 16 == 0xc0a8) // 192.168.0.0/16
        | (ip >> 22 == 0x6440 >> 6) // 100.64.0.0/10
        | (ip >> 8 == 0xc0_0002) // 192.0.2.0/24
        | (ip >> 8 == 0xc6_3364) // 198.51.100.0/24
        | (ip >> 8 == 0xcb_0071) // 203.0.113.0/24
}

// No prefix of these is longer than 64 bits, so the low half is not looked at.
fn is_mainnet_only_bogus_v6(high: u64, low: u64) -> bool
    ensures { result ≡ some_contains 128 mainnet_v6 (high * 2 ^ 64 + low) }
{
    (high >> 57 == 0xfc00 >> 9) // fc00::/7
        | (high >> 32 == 0x2001_0db8) // 2001:db8::/32
        | (high >> 44 == 0x3fff_0) // 3fff::/20
}
