// A roster's bytes (document 01, "Roster file"): numbers in bytes, entries in blocks, and the trailer that says how many there are.
#![tactic(auto)]

ghost use Rattle.std.specs.Prelude.{◌≡◌, ◌+◌, ◌*◌, ◌≤◌, ◌<◌, length};
ghost use Rattle.write.specs.Tables.{flat};
ghost use Rattle.layout.specs.Numbers.{number_bytes, number_at};
ghost use Rattle.layout.specs.Roster.{trailer_bytes, field, entry_bytes, shaped, block};
ghost use Rattle.layout.specs.Opened.{trailer_of};

const NUMBER_BYTES: usize = 4;

pub const ENTRY_BYTES: usize = 8;

const TRAILER_BYTES: usize = 20;

// ---- numbers

#[tactic(auto, unfolding(crate::specs::Numbers::number_at))]
pub fn number_at(bytes: &[u8], at: usize) -> u32
    requires { at + number_bytes ≤ length bytes.now }
    ensures { result ≡ number_at bytes.now at }
{
    u32::from_le_bytes([bytes[at], bytes[at + 1], bytes[at + 2], bytes[at + 3]])
}

// ---- the blocks

// So many entries, from an offset on, as a table: two numbers to a place.
pub fn entries(bytes: &[u8], at: usize, count: usize, table: &mut [u32])
    requires { (at + entry_bytes * count ≤ length bytes.now) × (length table.old ≡ 2 * count) }
    ensures { table.new ≡ flat (block bytes.now at count) }
{
    for i in 0..count {
        table[2 * i] = number_at(bytes, at + ENTRY_BYTES * i);
        table[2 * i + 1] = number_at(bytes, at + ENTRY_BYTES * i + NUMBER_BYTES);
    }
}

// ---- the trailer

// How many entries there are, and the scheme.
#[derive(Clone, Copy)]
pub struct Trailer {
    pub relays: usize,
    pub tablets: usize,
    pub scheme: u32,
}

// Field k of the trailer, counted from 0. By its offset, as document 01 counts from the end: five chunks of four have to be tied to it first.
#[tactic(auto, unfolding(crate::specs::Roster::field))]
fn field(bytes: &[u8], k: usize) -> u32
    requires { (trailer_bytes ≤ length bytes.now) × (k < 5) }
    ensures { result ≡ field bytes.now k }
{
    number_at(bytes, bytes.len() - TRAILER_BYTES + NUMBER_BYTES * k)
}

// Is the shape right of so many bytes, with these distances from the end back to the blocks and these counts?
#[tactic(auto, unfolding(crate::specs::Roster::shaped))]
fn shaped(
    len: usize,
    relay_distance: usize,
    relays: usize,
    tablet_distance: usize,
    tablets: usize,
) -> bool
    ensures { result ≡ shaped len relay_distance relays tablet_distance tablets }
{
    relays <= ring::MOST_RELAYS
        && tablets <= ring::MOST_TABLETS
        && tablet_distance == TRAILER_BYTES + ENTRY_BYTES * tablets
        && relay_distance == tablet_distance + ENTRY_BYTES * relays
        && len == relay_distance
}

// What the trailer of any bytes says: `Ok` where the shape is right, and else `Err` with what it says all the same. Bytes that are too short
// for a trailer say zeros.
#[tactic(auto, unfolding(crate::specs::Opened::trailer_of, crate::specs::Opened::long_trailer, crate::specs::Opened::opened, crate::specs::Opened::unopened, crate::specs::Roster::shape_right))]
pub fn open(bytes: &[u8]) -> Result<Trailer, Trailer>
    ensures { result ≡ trailer_of bytes.now }
{
    if bytes.len() < TRAILER_BYTES {
        return Err(Trailer {
            relays: 0,
            tablets: 0,
            scheme: 0,
        });
    }
    let relay_distance = field(bytes, 0) as usize;
    let relays = field(bytes, 1) as usize;
    let tablet_distance = field(bytes, 2) as usize;
    let tablets = field(bytes, 3) as usize;
    let scheme = field(bytes, 4);
    let trailer = Trailer {
        relays,
        tablets,
        scheme,
    };
    if shaped(
        bytes.len(),
        relay_distance,
        relays,
        tablet_distance,
        tablets,
    ) {
        Ok(trailer)
    } else {
        Err(trailer)
    }
}
