// Numbers in decimal digits, as bytes. `Put` speaks of `out.old`, the place and `out.new`: a struct of the buffer and its end would have to
// keep all three, and `Display` would give no place.
#![tactic(auto)]

ghost use Rattle.std.specs.Prelude.{◌≡◌, ◌+◌, ◌≤◌, length};
ghost use Rattle.std.proofs.lemmas.List.Edits.{sets};
ghost use Rattle.decimals.specs.Digits.{decimal};
ghost use Rattle.decimals.specs.Texts.{Put};

// Puts the digits of a number from `at` on, after those of its tenth; returns the place after them.
#[tactic(auto, using(crate::proofs::Putting::length_one, crate::proofs::Putting::length_more, crate::proofs::Putting::put_digit, crate::proofs::Putting::put_last))]
fn put_digits(x: u32, at: usize, out: &mut [u8]) -> usize
    requires { at + length (decimal x) ≤ length out.old }
    ensures value { result ≡ at + length (decimal x) }
    ensures out_after { out.new ≡ sets out.old at (decimal x) }
{
    if x < 10 {
        out[at] = b'0' + x as u8;
        return at + 1;
    }
    let end = put_digits(x / 10, at, out);
    out[end] = b'0' + (x % 10) as u8;
    end + 1
}

// Puts the decimal digits of a number from `at` on, ten at most; returns the place after them.
#[tactic(auto, using(crate::proofs::Numbers::decimal_short, crate::proofs::Putting::put_word))]
pub fn put_number(x: u32, at: usize, out: &mut [u8]) -> usize
    requires { at + 10 ≤ length out.old }
    ensures { Put 10 out.old at (decimal x) out.new result }
{
    put_digits(x, at, out)
}
