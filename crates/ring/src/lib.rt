// The ring (document 01, "The ring"): three kinds of number, the schemes, positions, and the distance clockwise.
#![tactic(auto)]

ghost use Rattle.std.specs.Prelude.{◌≡◌, ◌^◌, ◌<◌, ◌∷◌};
ghost use Rattle.ring.specs.Fnv.{mixed, mixed_all, fnv, four_bytes};
ghost use Rattle.ring.specs.Scheme.{known, position, positions};
ghost use Rattle.ring.specs.Clockwise.{clockwise};

#[derive(Clone, Copy, Debug, PartialEq, Eq, PartialOrd, Ord)]
pub struct TabletNumber(pub u32);

#[derive(Clone, Copy, Debug, PartialEq, Eq, PartialOrd, Ord)]
pub struct RelayNumber(pub u32);

#[derive(Clone, Copy, Debug, PartialEq, Eq, PartialOrd, Ord)]
pub struct Position(pub u32);

// How many numbers, and so positions, there are; and the greatest.
pub const NUMBERS: u64 = 4294967296;

pub const TOP_NUMBER: u32 = 4294967295;

// The most places of each table that may be lent, and the greatest limit that a relay may have ("The lent tables").
pub const MOST_RELAYS: usize = 256;

pub const MOST_TABLETS: usize = 4096;

pub const MOST_LIMIT: u32 = 4096;

const RELAY_TAG: u8 = 0x52;

const TABLET_TAG: u8 = 0x54;

// One byte of FNV-1a.
#[tactic(auto, unfolding(crate::specs::Fnv::mixed))]
pub fn mix(hash: u32, byte: u8) -> u32
    ensures { result ≡ mixed hash byte }
{
    (hash ^ u32::from(byte)).wrapping_mul(16777619)
}

// FNV-1a over bytes, from a hash of what stands before them on.
#[tactic(auto, using(crate::proofs::Folded::mixed_all_is))]
fn mix_all(hash: u32, bytes: &[u8]) -> u32
    ensures { result ≡ mixed_all hash bytes.now }
{
    bytes.iter().fold(hash, |h, byte| mix(h, *byte))
}

// FNV-1a over the bytes of a slice.
#[tactic(auto, unfolding(crate::specs::Fnv::fnv))]
pub fn hash(bytes: &[u8]) -> u32
    ensures { result ≡ fnv bytes.now }
{
    mix_all(2166136261, bytes)
}

// FNV-1a over a tag and a number, lowest byte first.
#[tactic(auto, unfolding(crate::specs::Fnv::fnv, crate::specs::Fnv::mixed_all, crate::specs::Fnv::four_bytes))]
fn hash_number(tag: u8, n: u32) -> u32
    ensures { result ≡ fnv (tag ∷ four_bytes n) }
{
    mix_all(mix(2166136261, tag), &n.to_le_bytes())
}

// Is there such a scheme? A scheme stays a number, here and in every call: a call is given any number and refuses what is none, which theorems
// say of any number.
#[tactic(auto, unfolding(crate::specs::Scheme::known))]
pub fn scheme_known(scheme: u32) -> bool
    ensures { result ≡ known scheme }
{
    scheme == 0 || scheme == 1
}

// Where a number stands on the ring: the one place that tells the schemes apart.
#[tactic(auto, unfolding(crate::specs::Scheme::position))]
fn place(scheme: u32, tag: u8, n: u32) -> Position
    ensures { result.0 ≡ position scheme tag n }
{
    if scheme == 0 {
        Position(n)
    } else {
        Position(hash_number(tag, n))
    }
}

// Where a relay stands, and a tablet. Two functions, since a tag belongs to a kind of number: one for any kind would want a trait for it.
#[tactic(auto, unfolding(crate::specs::Scheme::positions))]
pub fn relay_at(scheme: u32, r: RelayNumber) -> Position
    ensures { result.0 ≡ (positions scheme).relay_at r.0 }
{
    place(scheme, RELAY_TAG, r.0)
}

#[tactic(auto, unfolding(crate::specs::Scheme::positions))]
pub fn tablet_at(scheme: u32, t: TabletNumber) -> Position
    ensures { result.0 ≡ (positions scheme).tablet_at t.0 }
{
    place(scheme, TABLET_TAG, t.0)
}

// How far the other position is clockwise from the one, past the top of the ring too.
#[tactic(auto, unfolding(crate::specs::Clockwise::clockwise))]
pub fn clockwise(one: Position, other: Position) -> u32
    ensures { result ≡ clockwise one.0 other.0 }
{
    other.0.wrapping_sub(one.0)
}
