// Where a number stands in a lent table, or would stand: a search by halves over the numbers, which rise.
#![tactic(auto)]

ghost use Rattle.std.specs.Prelude.{◌≡◌, true, false, ◌≤◌, MatchResult};
ghost use Rattle.rule.specs.declared.Refusal.TheVariants.{Done};
ghost use Rattle.rule.specs.Refusals.{is_done};
ghost use Rattle.tables.specs.Table.{places_of, number_in};
ghost use Rattle.meaning.specs.Ascending.{Ascending};
ghost use Rattle.lookup.specs.Spot.{Sought, there_in, missing};

// The place of x among the first n numbers of a table, or the one that it would have.
pub fn spot(table: &[u32], n: usize, x: u32) -> Result<usize, usize>
    requires { (n ≤ places_of table.now) × Ascending (number_in table.now) n }
    ensures { MatchResult result (λ at. Sought table.now n x true at) (λ at. Sought table.now n x false at) }
{
    let (places, _) = table.as_chunks::<2>();
    places[..n].binary_search_by_key(&x, |place| place[0])
}

// The place of a number that must be there, or why the call is refused.
#[tactic(auto, using(crate::proofs::There::absent_refused))]
pub fn found(table: &[u32], n: usize, x: u32) -> Result<usize, rule::Refusal>
    requires { (n ≤ places_of table.now) × Ascending (number_in table.now) n }
    ensures { MatchResult result
        (λ at. (missing x (there_in table.now n x) ≡ Done) × Sought table.now n x true at)
        (λ why. (missing x (there_in table.now n x) ≡ why) × (is_done why ≡ false)) }
{
    match spot(table, n, x) {
        Ok(at) => Ok(at),
        Err(_) => Err(missing(x)),
    }
}

// Why a call about a number that is not there is refused.
fn missing(number: u32) -> rule::Refusal
    ensures { result ≡ missing number false }
{
    if number == 0 {
        rule::Refusal::NumberZero
    } else {
        rule::Refusal::NotThere
    }
}
