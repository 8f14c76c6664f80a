// What a call leaves for a list of move records (document 01, "Forms for each place"): its moves as numbers, and each of them as a record.
#![tactic(auto)]

ghost use Rattle.std.specs.Prelude.{◌≡◌, ◌+◌, ◌*◌, ◌<◌, length};
ghost use Rattle.ring.specs.Most.{most_tablets};
ghost use Rattle.records.specs.Record.{move_at};
ghost use Rattle.records.specs.Works.{Works};

// Move i of the numbers.
pub fn move_at(numbers: &[u32; tables::MOVE_NUMBERS], i: usize) -> rule::Move
    requires { 3 * i + 2 < 3 * most_tablets }
    ensures { result ≡ move_at numbers.now i }
{
    let j = 3 * i;
    rule::Move {
        tablet: ring::TabletNumber(numbers[j]),
        old: ring::RelayNumber(numbers[j + 1]),
        new: ring::RelayNumber(numbers[j + 2]),
    }
}

// So many records are written for a call with this reply.
pub fn made(reply: rule::Reply) -> usize
    ensures { result ≡ reply.moves }
{
    reply.moves as usize
}

// The call on the tables, for a move list with so many places. Its moves are written into the numbers; no tally is lent to it.
// The slices stay apart, as `calls::call` takes them for C.
pub fn work_on(
    scheme: u32,
    relays: &mut [u32],
    tablets: &mut [u32],
    numbers: &mut [u32],
    room: usize,
    c: rule::Call,
) -> rule::Reply
    requires { length numbers.old ≡ 3 * most_tablets }
    ensures { Works scheme relays.old tablets.old room c result numbers.new
        relays.new tablets.new }
{
    // More places than a full move list has are of no use.
    let places = room.min(ring::MOST_TABLETS);
    let moves = &mut numbers[..3 * places];
    calls::call(scheme, relays, tablets, moves, &mut [], c)
}
