// The six calls, each of which also brings the lent tally up to date, and the six as one (document 01, "Replies", "Sheet, balance, tally"). A tally
// is four numbers; one of another length is left as it is, and the call does and replies the same.
#![tactic(auto)]

ghost use Rattle.std.specs.Prelude.{List, ℕ};
ghost use Rattle.rule.specs.declared.Call.TheVariants.{Add, Remove, Set, Enrol, Withdraw, Find};
ghost use Rattle.promise.specs.Promise.{Answers};
ghost use Rattle.call_start.specs.Promise.{lists};
ghost use Rattle.calls.specs.Promise.{counted_after};

// Each is written out: enrol, withdraw and find are lent tables to read alone, and find no move list, so no one function can make all six and count
// them; and the slices stay apart as C lends them.
pub fn add(
    scheme: u32,
    relays: &mut [u32],
    tablets: &mut [u32],
    moves: &mut [u32],
    tally: &mut [u32],
    r: ring::RelayNumber,
    limit: u32,
) -> rule::Reply
    ensures { Answers (counted_after scheme relays.old tablets.old moves.old
        tally.old (Add r limit))
        result (lists relays.new tablets.new moves.new, tally.new) }
{
    let reply = relay_calls::add(scheme, relays, tablets, moves, r, limit);
    tally::count(tally, rule::Call::Add(r, limit), reply);
    reply
}

pub fn remove(
    scheme: u32,
    relays: &mut [u32],
    tablets: &mut [u32],
    moves: &mut [u32],
    tally: &mut [u32],
    r: ring::RelayNumber,
) -> rule::Reply
    ensures { Answers (counted_after scheme relays.old tablets.old moves.old
        tally.old (Remove r))
        result (lists relays.new tablets.new moves.new, tally.new) }
{
    let reply = relay_calls::remove(scheme, relays, tablets, moves, r);
    tally::count(tally, rule::Call::Remove(r), reply);
    reply
}

pub fn set(
    scheme: u32,
    relays: &mut [u32],
    tablets: &mut [u32],
    moves: &mut [u32],
    tally: &mut [u32],
    r: ring::RelayNumber,
    limit: u32,
) -> rule::Reply
    ensures { Answers (counted_after scheme relays.old tablets.old moves.old
        tally.old (Set r limit))
        result (lists relays.new tablets.new moves.new, tally.new) }
{
    let reply = relay_calls::set(scheme, relays, tablets, moves, r, limit);
    tally::count(tally, rule::Call::Set(r, limit), reply);
    reply
}

pub fn enrol(
    scheme: u32,
    relays: &[u32],
    tablets: &mut [u32],
    moves: &mut [u32],
    tally: &mut [u32],
    t: ring::TabletNumber,
) -> rule::Reply
    ensures { Answers (counted_after scheme relays.now tablets.old moves.old
        tally.old (Enrol t))
        result (lists relays.now tablets.new moves.new, tally.new) }
{
    let reply = enrol::enrol(scheme, relays, tablets, moves, t);
    tally::count(tally, rule::Call::Enrol(t), reply);
    reply
}

pub fn withdraw(
    scheme: u32,
    relays: &[u32],
    tablets: &mut [u32],
    moves: &mut [u32],
    tally: &mut [u32],
    t: ring::TabletNumber,
) -> rule::Reply
    ensures { Answers (counted_after scheme relays.now tablets.old moves.old
        tally.old (Withdraw t))
        result (lists relays.now tablets.new moves.new, tally.new) }
{
    let reply = withdraw::withdraw(scheme, relays, tablets, moves, t);
    tally::count(tally, rule::Call::Withdraw(t), reply);
    reply
}

// A find lends no move list: its promise holds of every one.
pub fn find(
    scheme: u32,
    relays: &[u32],
    tablets: &[u32],
    tally: &mut [u32],
    t: ring::TabletNumber,
) -> rule::Reply
    ensures { (moves : List ℕ) → Answers
        (counted_after scheme relays.now tablets.now moves tally.old (Find t))
        result (lists relays.now tablets.now moves, tally.new) }
{
    let reply = find::find(scheme, relays, tablets, t);
    tally::count(tally, rule::Call::Find(t), reply);
    reply
}

// Any of the six.
pub fn call(
    scheme: u32,
    relays: &mut [u32],
    tablets: &mut [u32],
    moves: &mut [u32],
    tally: &mut [u32],
    c: rule::Call,
) -> rule::Reply
    ensures { Answers (counted_after scheme relays.old tablets.old moves.old
        tally.old c)
        result (lists relays.new tablets.new moves.new, tally.new) }
{
    match c {
        rule::Call::Add(r, limit) => add(scheme, relays, tablets, moves, tally, r, limit),
        rule::Call::Remove(r) => remove(scheme, relays, tablets, moves, tally, r),
        rule::Call::Set(r, limit) => set(scheme, relays, tablets, moves, tally, r, limit),
        rule::Call::Enrol(t) => enrol(scheme, relays, tablets, moves, tally, t),
        rule::Call::Withdraw(t) => withdraw(scheme, relays, tablets, moves, tally, t),
        rule::Call::Find(t) => find(scheme, relays, tablets, tally, t),
    }
}
