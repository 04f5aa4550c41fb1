// Decimal numbers put into a lent output.
ghost use Rattle.std.specs.Prelude.{◌+◌, ◌≤◌, length};
ghost use Rattle.records.specs.Put.{Adds, HasRoom};
ghost use Rattle.text.specs.Text.{decimal_of};

use records::output::Output;

// The digits of a number: those of its tenth, where it has more than one, and then the last. It calls itself, since the
// last digit is the one that is known first.
#[tactic(auto, using(crate::proofs::Laws::one_length, crate::proofs::Laws::more_length))]
fn put_digits(out: &mut Output, x: usize)
    requires { HasRoom out.old (length (decimal_of x)) }
    ensures { Adds out.old (decimal_of x) out.new }
{
    if x < 10 {
        out.put_byte(b'0' + x as u8);
    } else {
        put_digits(out, x / 10);
        out.put_byte(b'0' + (x % 10) as u8);
    }
}

// A number in decimal, where there is room for twenty digits: no number has more.
#[tactic(auto, using(crate::proofs::Laws::twenty_most))]
pub fn put_decimal(out: &mut Output, x: usize)
    requires { HasRoom out.old 20 }
    ensures put { Adds out.old (decimal_of x) out.new }
    ensures most { out.new.at ≤ out.old.at + 20 }
{
    put_digits(out, x);
}
