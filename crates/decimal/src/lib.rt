// The number that a text is in decimal digits.
#![tactic(auto)]

ghost use Rattle.std.specs.Prelude.{◌≡◌, ◌+◌, ◌*◌, min, ◌≤◌, ◌<◌};
ghost use Rattle.decimal.specs.Decimal.{number_in};

// The digit 0.
const NOUGHT: u8 = b'0';

// How many digits there are.
const TEN: usize = 10;

// A number with one digit more, or `none` where that is less.
fn appended(n: usize, digit: usize, none: usize) -> usize
    requires n_bound { n ≤ 4294967296 }
    requires digit_bound { digit < 10 }
    ensures { result ≡ min (10 * n + digit) none }
{
    none.min(TEN * n + digit)
}

// The number that a text is, where it has digits alone, one at least, and is at most `most`; else one more than that.
pub fn number_in(text: &[u8], most: u32) -> usize
    ensures { result ≡ number_in text.now most }
{
    let none = most as usize + 1;
    if text.is_empty() {
        return none;
    }
    let mut n = 0;
    for c in text {
        if !c.is_ascii_digit() {
            return none;
        }
        n = appended(n, (*c - NOUGHT) as usize, none);
    }
    n
}
