// Whether a part is blank. Each function ends at the first number that is not 0, and so after one step of a good message.

#![tactic(auto)]

ghost use Rattle.std.specs.Prelude.{◌≡◌};
ghost use Rattle.blank.specs.Blank.{blank};

// A packed part as it came.
pub fn bytes(part: &[u8]) -> bool
    ensures { result ≡ blank part.now }
{
    part.iter().all(|x| *x == 0)
}

// Numbers that are about to be packed.
pub fn numbers(xs: &[u32]) -> bool
    ensures { result ≡ blank xs.now }
{
    xs.iter().all(|x| *x == 0)
}
