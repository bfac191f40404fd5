// An exported answer: a refusal's number in the upper half of a u64, a length in the lower.
ghost use Rattle.std.specs.Prelude.{◌≡◌};
ghost use Rattle.host.specs.Answers.{packed};

use keycode::{Refusal, number_of};

// Where the number begins.
const HALF: u64 = 0x1_0000_0000;

// Every exported function's answer goes to C through here.
pub(crate) fn told(answer: Result<usize, Refusal>) -> u64
    ensures { result ≡ packed answer }
{
    match answer {
        Ok(length) => length as u64,
        Err(refusal) => u64::from(number_of(refusal)) * HALF,
    }
}
