// What a relay call comes to before the tablets are placed (document 01, "Replies"): a refusal from 1 to 7, or the relay table as it is to be,
// made in a table of the call's own, with its relays in ring order and the tablets' homes. Nothing lent is written here.
#![tactic(auto)]

mod found;
mod refused;

ghost use Rattle.std.specs.Prelude.{◌≤◌, length};
ghost use Rattle.rule.specs.declared.Call.TheVariants.{Add, Remove, Set};
ghost use Rattle.relay_edit.specs.Edited.{own_numbers, Copied, Edits};

// How many relays and tablets there are to be, the relay table, and those relays in ring order with the tablets' homes. Arrays with a
// count: memory is fixed, with no heap.
#[derive(Drop)]
pub struct Edit {
    pub n: usize,
    pub m: usize,
    pub relays: [u32; tables::RELAY_NUMBERS],
    pub around: ring_edit::Around,
}

fn copied(relays: &[u32]) -> [u32; tables::RELAY_NUMBERS]
    requires { length relays.now ≤ own_numbers }
    ensures { Copied relays.now result }
{
    let mut own = [0; tables::RELAY_NUMBERS];
    own[..relays.len()].copy_from_slice(relays);
    own
}

// ---- the three edits

pub fn edit_add(
    scheme: u32,
    relays: &[u32],
    tablets: &[u32],
    r: ring::RelayNumber,
    limit: u32,
) -> Result<Edit, rule::Refusal>
    ensures { Edits scheme relays.now tablets.now (Add r limit) r.0 result }
{
    let f = found::find_relay(scheme, relays, tablets, r)?;
    let full = tables::places(relays) <= f.n;
    refused::add_refusal(r, limit, f.there, full)?;
    let mut own = copied(relays);
    write::insert(&mut own, f.n, f.at, r.0, limit);
    let q = ring::relay_at(scheme, r);
    let around = ring_edit::put_in(scheme, tablets, f.around, f.n, f.m, f.at, q);
    Ok(Edit {
        n: f.n + 1,
        m: f.m,
        relays: own,
        around,
    })
}

pub fn edit_remove(
    scheme: u32,
    relays: &[u32],
    tablets: &[u32],
    r: ring::RelayNumber,
) -> Result<Edit, rule::Refusal>
    ensures { Edits scheme relays.now tablets.now (Remove r) r.0 result }
{
    let f = found::find_relay(scheme, relays, tablets, r)?;
    refused::remove_refusal(r, f.there)?;
    let mut own = copied(relays);
    write::delete(&mut own, f.n, f.at);
    let n = f.n - 1;
    Ok(Edit {
        n,
        m: f.m,
        relays: own,
        around: ring_edit::take_out(f.around, n, f.m, f.at),
    })
}

pub fn edit_set(
    scheme: u32,
    relays: &[u32],
    tablets: &[u32],
    r: ring::RelayNumber,
    limit: u32,
) -> Result<Edit, rule::Refusal>
    ensures { Edits scheme relays.now tablets.now (Set r limit) r.0 result }
{
    let f = found::find_relay(scheme, relays, tablets, r)?;
    refused::set_refusal(r, limit, f.there)?;
    let mut own = copied(relays);
    write::change(&mut own, f.n, f.at, limit);
    Ok(Edit {
        n: f.n,
        m: f.m,
        relays: own,
        around: f.around,
    })
}
