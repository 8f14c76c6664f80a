// Bytes put into a lent slice, as far as it has room: of a line that is read, and of an answer to it (document 01, "A drill to prove").
#![tactic(auto)]

ghost use Rattle.std.specs.Prelude.{[], ◌∷◌, ◌≡◌};
ghost use Rattle.text.specs.Puts.{Puts};

// One byte, where there is room. Answers with the place behind it.
pub fn put_byte(out: &mut [u8], at: usize, b: u8) -> usize
    ensures { Puts out.old at (b ∷ []) out.new result }
{
    if at < out.len() {
        out[at] = b;
        return at + 1;
    }
    out.len()
}
