// What a line of input means (document 01, "A drill to prove"; docs/DECISIONS.md, reading 9).
#![tactic(auto)]

ghost use Rattle.std.specs.Prelude.{◌≡◌, ◌+◌, ◌*◌, ◌<◌, [], ◌∷◌, Some, SomeIff, IfSome, length};
ghost use Rattle.std.specs.List.{position_from};
ghost use Rattle.line.specs.Decimal.{leading_zero, digits_of, decimal_of};
ghost use Rattle.line.specs.Line.{is_space, words, with_one, with_two, said, meaning_of, scheme_of};

// ---- decimals

// The number with one digit more behind it, where it is no greater than the greatest.
fn with_digit(value: u32, digit: u8) -> Option<u32>
    ensures { SomeIff result (value * 10 + digit < 4294967296) (value * 10 + digit) }
{
    value.checked_mul(10)?.checked_add(u32::from(digit))
}

// The number that these bytes are, leading zeros taken.
fn value(word: &[u8]) -> Option<u32>
    ensures { result ≡ digits_of 0 word.now }
{
    let mut value: u32 = 0;
    for byte in word {
        if !byte.is_ascii_digit() {
            return None;
        }
        value = with_digit(value, *byte - b'0')?;
    }
    Some(value)
}

// A zero in front of others.
#[tactic(auto, using(crate::proofs::Decimals::leading_short, crate::proofs::Decimals::leading_long))]
fn leading_zero(word: &[u8]) -> bool
    ensures { result ≡ leading_zero word.now }
{
    matches!(word, [b'0', _, ..])
}

// The plain decimal that a word is.
#[tactic(auto, using(crate::proofs::Decimals::decimal_empty, crate::proofs::Decimals::decimal_zero, crate::proofs::Decimals::decimal_digits))]
fn decimal(word: &[u8]) -> Option<u32>
    ensures { result ≡ decimal_of word.now }
{
    if word.is_empty() || leading_zero(word) {
        return None;
    }
    value(word)
}

// ---- calls

// A letter with one number behind it.
#[tactic(auto, unfolding(crate::specs::Line::with_one))]
fn with_one(letter: u8, n: u32) -> Option<rule::Call>
    ensures { result ≡ with_one letter (Some n) }
{
    match letter {
        b'r' => Some(rule::Call::Remove(ring::RelayNumber(n))),
        b'e' => Some(rule::Call::Enrol(ring::TabletNumber(n))),
        b'w' => Some(rule::Call::Withdraw(ring::TabletNumber(n))),
        b'f' => Some(rule::Call::Find(ring::TabletNumber(n))),
        _ => None,
    }
}

// A letter with two numbers behind it.
#[tactic(auto, unfolding(crate::specs::Line::with_two))]
fn with_two(letter: u8, n: u32, limit: u32) -> Option<rule::Call>
    ensures { result ≡ with_two letter (Some n) (Some limit) }
{
    match letter {
        b'a' => Some(rule::Call::Add(ring::RelayNumber(n), limit)),
        b's' => Some(rule::Call::Set(ring::RelayNumber(n), limit)),
        _ => None,
    }
}

// Where the first space stands.
fn space_at(rest: &[u8]) -> Option<usize>
    ensures value { result ≡ position_from is_space 0 rest.now }
    ensures within { IfSome result (λ end. end < length rest.now) }
{
    rest.iter().position(|byte| *byte == b' ')
}

// A letter with what stands behind it and its space.
fn with_rest(letter: u8, rest: &[u8]) -> Option<rule::Call>
    ensures { result ≡ said ((letter ∷ []) ∷ words rest.now) }
{
    let Some(end) = space_at(rest) else {
        return with_one(letter, decimal(rest)?);
    };
    let first = decimal(&rest[..end])?;
    let second = decimal(&rest[end + 1..])?;
    with_two(letter, first, second)
}

// The call that a line means.
pub fn meaning(line: &[u8]) -> Option<rule::Call>
    ensures { result ≡ meaning_of line.now }
{
    match line {
        [letter, b' ', rest @ ..] => with_rest(*letter, rest),
        _ => None,
    }
}

// ---- the first line

// The scheme that a line names.
pub fn scheme_of(line: &[u8]) -> Option<u32>
    ensures { result ≡ scheme_of line.now }
{
    let scheme = decimal(line.strip_prefix(b"scheme ")?)?;
    if ring::scheme_known(scheme) {
        Some(scheme)
    } else {
        None
    }
}
