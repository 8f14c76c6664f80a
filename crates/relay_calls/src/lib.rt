// The three calls about a relay (document 01, "The rule of placement", "Replies"), on lent numbers: add one, remove one, set one's limit.
// Nothing lent is written before the last refusal is decided.
#![tactic(auto)]

ghost use Rattle.std.specs.Prelude.{ℕ, ◌≤◌, length};
ghost use Rattle.rule.specs.declared.Call.{Call};
ghost use Rattle.rule.specs.declared.Call.TheVariants.{Add, Remove, Set};
ghost use Rattle.promise.specs.Promise.{Answers};
ghost use Rattle.call_start.specs.Promise.{lists, after, Ends};
ghost use Rattle.relay_edit.specs.Edited.{own_numbers, Edits};
ghost use Rattle.relay_calls.specs.Finish.{Replaced, Comes};

// The lent table becomes the call's own, as far as it is long.
fn put_back(relays: &mut [u32], own: &[u32; tables::RELAY_NUMBERS])
    requires { length relays.old ≤ own_numbers }
    ensures { Replaced own.now relays.old relays.new }
{
    let n = relays.len();
    relays.copy_from_slice(&own[..n]);
}

// What every call about a relay ends in, from its edit on: the plan, and where that is not refused the writing. What is refused writes nothing.
fn finish(
    relays: &mut [u32],
    tablets: &mut [u32],
    moves: &mut [u32],
    r: ring::RelayNumber,
    edit: Result<relay_edit::Edit, rule::Refusal>,
) -> Result<rule::Reply, rule::Refusal>
    requires { Comes relays.old tablets.old r.0 edit }
    ensures { (s : ℕ) (c : Call) → Edits s relays.old tablets.old c r.0 edit
        → Ends (after s relays.old tablets.old moves.old c) result (lists relays.new tablets.new moves.new) }
{
    let e = edit?;
    let places = moves.len() / 3;
    let relay = plan::work_out(&e.relays, tablets, &e.around, e.n, e.m, places)?;
    let count = plan::carry_out(&e.relays, &relay, tablets, moves, e.m);
    put_back(relays, &e.relays);
    Ok(rule::Reply {
        refusal: rule::Refusal::Done,
        relay: r,
        passed: 0,
        moves: count as u32,
    })
}

pub fn add(
    scheme: u32,
    relays: &mut [u32],
    tablets: &mut [u32],
    moves: &mut [u32],
    r: ring::RelayNumber,
    limit: u32,
) -> rule::Reply
    ensures { Answers (after scheme relays.old tablets.old moves.old
        (Add r limit))
        result (lists relays.new tablets.new moves.new) }
{
    let edit = relay_edit::edit_add(scheme, relays, tablets, r, limit);
    finish(relays, tablets, moves, r, edit).unwrap_or_else(rule::bare_reply)
}

pub fn remove(
    scheme: u32,
    relays: &mut [u32],
    tablets: &mut [u32],
    moves: &mut [u32],
    r: ring::RelayNumber,
) -> rule::Reply
    ensures { Answers (after scheme relays.old tablets.old moves.old
        (Remove r))
        result (lists relays.new tablets.new moves.new) }
{
    let edit = relay_edit::edit_remove(scheme, relays, tablets, r);
    finish(relays, tablets, moves, r, edit).unwrap_or_else(rule::bare_reply)
}

pub fn set(
    scheme: u32,
    relays: &mut [u32],
    tablets: &mut [u32],
    moves: &mut [u32],
    r: ring::RelayNumber,
    limit: u32,
) -> rule::Reply
    ensures { Answers (after scheme relays.old tablets.old moves.old
        (Set r limit))
        result (lists relays.new tablets.new moves.new) }
{
    let edit = relay_edit::edit_set(scheme, relays, tablets, r, limit);
    finish(relays, tablets, moves, r, edit).unwrap_or_else(rule::bare_reply)
}
