// The types that document 01's definitions speak of. What a call is to do stands in `specs/`, the laws of placement in `proofs/`.
#![tactic(auto)]

ghost use Rattle.std.specs.Prelude.{◌≡◌};
ghost use Rattle.rule.specs.Refusals.{number_of, is_done, bare_reply};

// Why a call did nothing ("Replies"), or that it is done: a case like the others, since the paper's table has a number for it (`number_of`) and C gets
// a reply's four numbers. Inside, what can be refused is a `Result`, whose refusal is never `Done`.
#[derive(Clone, Copy, Debug, PartialEq, Eq)]
pub enum Refusal {
    Done,
    SchemeUnknown,
    TablesNotRight,
    NumberZero,
    TooLarge,
    NotThere,
    ThereAlready,
    NoUnusedPlace,
    LimitsTooSmall,
    MoveListTooShort,
    RosterShapeWrong,
    RosterContentWrong,
    OutputUnfit,
}

// A call on the lent tables. `Add` and `Set` bring the relay's limit.
#[derive(Clone, Copy, Debug, PartialEq, Eq)]
pub enum Call {
    Add(ring::RelayNumber, u32),
    Remove(ring::RelayNumber),
    Set(ring::RelayNumber, u32),
    Enrol(ring::TabletNumber),
    Withdraw(ring::TabletNumber),
    Find(ring::TabletNumber),
}

// What a call replies. `moves` is how many; the moves themselves stand in the lent list.
#[derive(Clone, Copy, Debug, PartialEq, Eq)]
pub struct Reply {
    pub refusal: Refusal,
    pub relay: ring::RelayNumber,
    pub passed: u32,
    pub moves: u32,
}

// One move of a move list.
#[derive(Clone, Copy, Debug, PartialEq, Eq)]
pub struct Move {
    pub tablet: ring::TabletNumber,
    pub old: ring::RelayNumber,
    pub new: ring::RelayNumber,
}

// What a station counts.
#[derive(Clone, Copy, Debug, PartialEq, Eq)]
pub struct Tally {
    pub enrolments: u32,
    pub withdrawals: u32,
    pub moves: u32,
    pub refusals: u32,
}

// The number that the paper's table gives.
impl From<Refusal> for u32 {
    ghost from_gives = { λ refusal number. number ≡ number_of refusal };

    fn from(refusal: Refusal) -> u32 {
        match refusal {
            Refusal::Done => 0,
            Refusal::SchemeUnknown => 1,
            Refusal::TablesNotRight => 2,
            Refusal::NumberZero => 3,
            Refusal::TooLarge => 4,
            Refusal::NotThere => 5,
            Refusal::ThereAlready => 6,
            Refusal::NoUnusedPlace => 7,
            Refusal::LimitsTooSmall => 8,
            Refusal::MoveListTooShort => 9,
            Refusal::RosterShapeWrong => 10,
            Refusal::RosterContentWrong => 11,
            Refusal::OutputUnfit => 12,
        }
    }
}

// Is the call done, and not refused?
#[tactic(auto, unfolding(crate::specs::Refusals::is_done))]
pub fn done(refusal: Refusal) -> bool
    ensures { result ≡ is_done refusal }
{
    matches!(refusal, Refusal::Done)
}

// A reply that bears its refusal alone, whether the call is done or refused.
pub fn bare_reply(refusal: Refusal) -> Reply
    ensures { result ≡ bare_reply refusal }
{
    Reply {
        refusal,
        relay: ring::RelayNumber(0),
        passed: 0,
        moves: 0,
    }
}
