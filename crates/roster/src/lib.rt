// Reading a roster (document 01, "Roster file"). The blocks are read into scratch and checked there; nothing lent is written before the last
// refusal is decided.
#![tactic(auto)]

ghost use Rattle.std.specs.Prelude.{◌≡◌, true, false, ◌≤◌, length, IfErr, MatchResult};
ghost use Rattle.ring.specs.Scheme.{known};
ghost use Rattle.rule.specs.declared.Refusal.TheVariants.{RosterContentWrong};
ghost use Rattle.rule.specs.Refusals.{is_done};
ghost use Rattle.promise.specs.Promise.{Answers};
ghost use Rattle.write.specs.Tables.{filled};
ghost use Rattle.roster.specs.Content.{tables_fit};
ghost use Rattle.roster.specs.Reading.{refusal, reading_of, after};
ghost use Rattle.roster.specs.Inner.{Open, full_tables, Room, TakenOver, NotTaken};

// ---- refusals

// Can these tables take n relays and m tablets?
#[tactic(auto, unfolding(crate::specs::Content::tables_fit))]
fn tables_fit(n: usize, m: usize, relays: &[u32], tablets: &[u32]) -> bool
    ensures { result ≡ tables_fit n m relays.now tablets.now }
{
    tables::fits(relays, ring::MOST_RELAYS)
        && tables::fits(tablets, ring::MOST_TABLETS)
        && n <= tables::places(relays)
        && m <= tables::places(tablets)
}

// The trailer of a roster that these tables can take, or the first refusal but for the content's.
#[tactic(auto, unfolding(crate::specs::Reading::refusal, rule::specs::Refusals::first_bar, rule::specs::Refusals::is_done, layout::specs::Opened::trailer_of, layout::specs::Opened::long_trailer, layout::specs::Opened::opened, layout::specs::Roster::shape_right))]
fn trailer(bytes: &[u8], relays: &[u32], tablets: &[u32]) -> Result<layout::Trailer, rule::Refusal>
    ensures { MatchResult result (λ t. Open bytes.now relays.now tablets.now t)
        (λ why. (refusal bytes.now relays.now tablets.now ≡ why) × (is_done why ≡ false)) }
{
    let t = layout::open(bytes).or(Err(rule::Refusal::RosterShapeWrong))?;
    if !ring::scheme_known(t.scheme) {
        return Err(rule::Refusal::SchemeUnknown);
    }
    if !tables_fit(t.relays, t.tablets, relays, tablets) {
        return Err(rule::Refusal::OutputUnfit);
    }
    Ok(t)
}

// Are these right tables, with an entry in every place?
#[tactic(auto, unfolding(crate::specs::Inner::full_tables))]
fn full_tables(scheme: u32, relays: &[u32], tablets: &[u32]) -> bool
    requires { known scheme ≡ true }
    ensures { result ≡ full_tables scheme relays.now tablets.now }
{
    let mut survey = survey::Survey::new();
    match call_start::look_into(scheme, relays, tablets, &mut survey) {
        Ok(()) => survey.n == tables::places(relays) && survey.m == tables::places(tablets),
        Err(_) => false,
    }
}

// ---- writing

// A block in front of a table, and zeros in every place left over.
#[tactic(auto, unfolding(write::specs::Tables::filled))]
fn fill_table(table: &mut [u32], block: &[u32])
    requires { length block.now ≤ length table.old }
    ensures { table.new ≡ filled (length table.old) block.now }
{
    table[..block.len()].copy_from_slice(block);
    table[block.len()..].fill(0);
}

// ---- the call

// The roster's entries into scratch, and from there, if they are full tables, into the lent tables.
fn take_over(
    bytes: &[u8],
    t: &layout::Trailer,
    own_relays: &mut [u32],
    own_tablets: &mut [u32],
    relays: &mut [u32],
    tablets: &mut [u32],
) -> Result<(), rule::Refusal>
    requires { (known t.now.scheme ≡ true) × Room bytes.now t.now.relays t.now.tablets own_relays.old own_tablets.old relays.old
        tablets.old }
    ensures { MatchResult result (λ _. TakenOver bytes.now t.now relays.old tablets.old relays.new tablets.new)
        (λ why. (why ≡ RosterContentWrong) × NotTaken bytes.now t.now relays.old tablets.old relays.new tablets.new) }
{
    layout::entries(bytes, 0, t.relays, own_relays);
    layout::entries(
        bytes,
        layout::ENTRY_BYTES * t.relays,
        t.tablets,
        own_tablets,
    );
    if !full_tables(t.scheme, own_relays, own_tablets) {
        return Err(rule::Refusal::RosterContentWrong);
    }
    fill_table(relays, own_relays);
    fill_table(tablets, own_tablets);
    Ok(())
}

// A roster from any bytes into lent tables: its scheme, or why it is refused.
#[tactic(auto, using(crate::proofs::Outcomes::open_few))]
pub fn read(bytes: &[u8], relays: &mut [u32], tablets: &mut [u32]) -> Result<u32, rule::Refusal>
    ensures answers { Answers (after bytes.now relays.old tablets.old)
        (reading_of result) (relays.new, tablets.new) }
    ensures refused { IfErr result (λ why. is_done why ≡ false) }
{
    let t = trailer(bytes, relays, tablets)?;
    // Arrays, since the project has no heap.
    let mut own_relays = [0u32; tables::RELAY_NUMBERS];
    let mut own_tablets = [0u32; tables::TABLET_NUMBERS];
    take_over(
        bytes,
        &t,
        &mut own_relays[..2 * t.relays],
        &mut own_tablets[..2 * t.tablets],
        relays,
        tablets,
    )?;
    Ok(t.scheme)
}
