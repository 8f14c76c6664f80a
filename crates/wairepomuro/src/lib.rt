// The library for C, and for whatever calls C: one exported function to each call. `include/wairepomuro.h` is the manual. A slice is a pointer
// and a length, the reply is four numbers, and no function asks anything of what is lent to it.
#![tactic(auto)]

ghost use Rattle.std.specs.Prelude.{List, ◌≡◌, ℕ};
ghost use Rattle.rule.specs.declared.Call.TheVariants.{Add, Remove, Set, Enrol, Withdraw, Find};
ghost use Rattle.rule.specs.Refusals.{number_of};
ghost use Rattle.promise.specs.Promise.{Answers};
ghost use Rattle.meaning.specs.Meaning.{tables_refusal};
ghost use Rattle.call_start.specs.Promise.{lists};
ghost use Rattle.wairepomuro.specs.Promise.{served_call, served_sheet, served_reading, Shares, Spans, refusal_of};

// Are these right tables? Answers with the number of the refusal that every call would give for them: 0, 1 or 2.
#[unsafe(no_mangle)]
pub extern "C" fn wairepomuro_check(scheme: u32, relays: &[u32], tablets: &[u32]) -> u32
    ensures { result ≡ number_of (tables_refusal scheme relays.now tablets.now) }
{
    u32::from(call_start::check(scheme, relays, tablets))
}

#[unsafe(no_mangle)]
pub extern "C" fn wairepomuro_add(
    scheme: u32,
    relays: &mut [u32],
    tablets: &mut [u32],
    moves: &mut [u32],
    tally: &mut [u32],
    relay: u32,
    limit: u32,
    reply: &mut [u32; 4],
) -> u32
    ensures { Answers (served_call scheme relays.old tablets.old moves.old
        tally.old (Add (record { 0 = relay }) limit))
        result ((lists relays.new tablets.new moves.new, tally.new), reply.new) }
{
    let r = ring::RelayNumber(relay);
    let made = calls::add(scheme, relays, tablets, moves, tally, r, limit);
    reply::hand_out(reply, made)
}

#[unsafe(no_mangle)]
pub extern "C" fn wairepomuro_remove(
    scheme: u32,
    relays: &mut [u32],
    tablets: &mut [u32],
    moves: &mut [u32],
    tally: &mut [u32],
    relay: u32,
    reply: &mut [u32; 4],
) -> u32
    ensures { Answers (served_call scheme relays.old tablets.old moves.old
        tally.old (Remove (record { 0 = relay })))
        result ((lists relays.new tablets.new moves.new, tally.new), reply.new) }
{
    let r = ring::RelayNumber(relay);
    let made = calls::remove(scheme, relays, tablets, moves, tally, r);
    reply::hand_out(reply, made)
}

#[unsafe(no_mangle)]
pub extern "C" fn wairepomuro_set(
    scheme: u32,
    relays: &mut [u32],
    tablets: &mut [u32],
    moves: &mut [u32],
    tally: &mut [u32],
    relay: u32,
    limit: u32,
    reply: &mut [u32; 4],
) -> u32
    ensures { Answers (served_call scheme relays.old tablets.old moves.old
        tally.old (Set (record { 0 = relay }) limit))
        result ((lists relays.new tablets.new moves.new, tally.new), reply.new) }
{
    let r = ring::RelayNumber(relay);
    let made = calls::set(scheme, relays, tablets, moves, tally, r, limit);
    reply::hand_out(reply, made)
}

#[unsafe(no_mangle)]
pub extern "C" fn wairepomuro_enrol(
    scheme: u32,
    relays: &[u32],
    tablets: &mut [u32],
    moves: &mut [u32],
    tally: &mut [u32],
    tablet: u32,
    reply: &mut [u32; 4],
) -> u32
    ensures { Answers (served_call scheme relays.now tablets.old moves.old
        tally.old (Enrol (record { 0 = tablet })))
        result ((lists relays.now tablets.new moves.new, tally.new), reply.new) }
{
    let t = ring::TabletNumber(tablet);
    let made = calls::enrol(scheme, relays, tablets, moves, tally, t);
    reply::hand_out(reply, made)
}

#[unsafe(no_mangle)]
pub extern "C" fn wairepomuro_withdraw(
    scheme: u32,
    relays: &[u32],
    tablets: &mut [u32],
    moves: &mut [u32],
    tally: &mut [u32],
    tablet: u32,
    reply: &mut [u32; 4],
) -> u32
    ensures { Answers (served_call scheme relays.now tablets.old moves.old
        tally.old (Withdraw (record { 0 = tablet })))
        result ((lists relays.now tablets.new moves.new, tally.new), reply.new) }
{
    let t = ring::TabletNumber(tablet);
    let made = calls::withdraw(scheme, relays, tablets, moves, tally, t);
    reply::hand_out(reply, made)
}

#[unsafe(no_mangle)]
pub extern "C" fn wairepomuro_find(
    scheme: u32,
    relays: &[u32],
    tablets: &[u32],
    tally: &mut [u32],
    tablet: u32,
    reply: &mut [u32; 4],
) -> u32
    ensures { (moves : List ℕ) → Answers
        (served_call scheme relays.now tablets.now moves tally.old
        (Find (record { 0 = tablet })))
        result ((lists relays.now tablets.now moves, tally.new), reply.new) }
{
    let t = ring::TabletNumber(tablet);
    let made = calls::find(scheme, relays, tablets, tally, t);
    reply::hand_out(reply, made)
}

// The number that answers what was made: the refusal's, or that of done.
fn answer(made: Result<u32, rule::Refusal>) -> u32
    ensures { result ≡ number_of (refusal_of made) }
{
    u32::from(made.err().unwrap_or(rule::Refusal::Done))
}

// Every relay's limit with balance p/q.
#[unsafe(no_mangle)]
pub extern "C" fn wairepomuro_balance(
    p: u32,
    q: u32,
    tablets: u32,
    relays: u32,
    limit: &mut u32,
) -> u32
    ensures { Shares p q tablets relays result limit.new }
{
    let made = balance::balance(p, q, tablets, relays);
    *limit = made.unwrap_or(0);
    answer(made)
}

// The sheet of these tables.
#[unsafe(no_mangle)]
pub extern "C" fn wairepomuro_sheet(
    scheme: u32,
    relays: &[u32],
    tablets: &[u32],
    sheet: &mut [u32],
) -> u32
    ensures { Answers (served_sheet scheme relays.now tablets.now sheet.old) result
        sheet.new }
{
    let made = sheet::sheet(scheme, relays, tablets, sheet);
    u32::from(made.refusal)
}

// Where one relay's stretch of the sheet starts, and how long it is.
#[unsafe(no_mangle)]
pub extern "C" fn wairepomuro_stretch(
    scheme: u32,
    relays: &[u32],
    tablets: &[u32],
    sheet: &[u32],
    relay: u32,
    start: &mut usize,
) -> usize
    ensures { Spans scheme relays.now tablets.now sheet.now relay result
        start.new }
{
    let r = ring::RelayNumber(relay);
    let span = stretch::bounds(scheme, relays, tablets, sheet, r);
    *start = span.from;
    span.to - span.from
}

// A roster read into the tables.
#[unsafe(no_mangle)]
pub extern "C" fn wairepomuro_read(
    bytes: &[u8],
    relays: &mut [u32],
    tablets: &mut [u32],
    scheme: &mut u32,
) -> u32
    ensures { Answers (served_reading bytes.now relays.old tablets.old)
        result ((relays.new, tablets.new), scheme.new) }
{
    let made = roster::read(bytes, relays, tablets);
    *scheme = made.unwrap_or(0);
    answer(made)
}
