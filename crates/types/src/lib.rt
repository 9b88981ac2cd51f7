// The types that the codec's crates share, after types.rs: the network and its magic, the protocol version and its order, an
// address, the proxy mode, and the two kinds of place with the one conversion between them.
#![tactic(auto)]

ghost use Rattle.std.specs.Prelude.{◌≡◌};
ghost use Rattle.types.specs.Magic.{magic_of};
ghost use Rattle.types.specs.Order.{below, eip37_min};
ghost use Rattle.types.specs.Places.{located};

use wire::Refusal;

#[derive(Clone, Copy, PartialEq, Eq)]
pub enum Network {
    Mainnet,
    Testnet,
}

impl Network {
    pub fn magic(self) -> [u8; 4]
        ensures { result ≡ magic_of self }
    {
        match self {
            Network::Mainnet => [1, 0, 2, 4],
            Network::Testnet => [2, 3, 2, 3],
        }
    }
}

// Protocol version as three bytes: major.minor.patch. The derived order compares them in this order.
#[derive(Clone, Copy, PartialEq, Eq, PartialOrd, Ord)]
pub struct Version {
    pub major: u8,
    pub minor: u8,
    pub patch: u8,
}

impl Version {
    pub fn new(major: u8, minor: u8, patch: u8) -> Self
        ensures { result ≡ record { major = major; minor = minor; patch = patch } }
    {
        Self {
            major,
            minor,
            patch,
        }
    }

    // The least version that a handshake may have.
    pub const EIP37_MIN: Version = Version {
        major: 4,
        minor: 0,
        patch: 100,
    };

    pub fn eip37_min() -> Self
        ensures { result ≡ eip37_min }
    {
        Version::EIP37_MIN
    }

    // Whether this version is below other.
    #[tactic(auto, unfolding(crate::specs::Order::then_by, crate::specs::Order::below))]
    pub fn lt(self, other: Version) -> bool
        ensures { result ≡ below self other }
    {
        self < other
    }
}

// An address and its port, or none, which is a case of its own, as `address_of` of handshake/Entry has it. The address's
// bytes are one big-endian number, of IPv6 two: the high half, then the low half.
#[derive(Clone, Copy, PartialEq, Eq)]
pub enum Address {
    None,
    V4(u32, u16),
    V6(u64, u64, u16),
}

// What a handshake advertises: a full archival node, or one bootstrapped by NiPoPoW.
#[derive(Clone, Copy, PartialEq, Eq)]
pub enum ProxyMode {
    Full,
    Light,
}

// A place in the stream.
#[derive(Clone, Copy, PartialEq, Eq)]
pub struct StreamPlace(pub usize);

// A place in a message body.
#[derive(Clone, Copy, PartialEq, Eq)]
pub struct BodyPlace(pub usize);

// What is read of a body and the place where it ends there, or the refusal.
pub type BodyRead<T> = Result<(T, BodyPlace), Refusal>;

// What is read of the stream and the place where it ends there, or the refusal.
pub type StreamRead<T> = Result<(T, StreamPlace), Refusal>;

impl BodyPlace {
    // This place of a body of length bytes that begins at start, as a place in the stream.
    #[tactic(auto, unfolding(crate::specs::Places::located))]
    pub fn in_stream(self, start: StreamPlace, length: usize) -> Result<StreamPlace, Refusal>
        ensures { result ≡ located start length self }
    {
        let place = self.0;
        let from = start.0;
        let room = usize::MAX - from;
        if length < place || room < length {
            return Err(Refusal::Outside);
        }
        Ok(StreamPlace(from + place))
    }
}
