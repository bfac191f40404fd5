// Numbers and bytes in hex digits. A byte that is no digit counts as one all the same: the requests are our own.
ghost use Rattle.std.specs.Prelude.{◌<◌};

// By hand: `to_digit` refuses a byte that is no digit, and here it counts as one.
fn nibble(digit: u8) -> u8
    ensures { result < 16 }
{
    let above = if digit <= b'9' {
        digit.wrapping_sub(b'0')
    } else {
        digit.wrapping_sub(b'a' - 10)
    };
    above % 16
}

// The byte of two digits; one alone is the first of them.
fn byte_of(pair: &[u8]) -> u8 {
    match pair {
        [high, low, ..] => nibble(*high) * 16 + nibble(*low),
        [high] => nibble(*high) * 16,
        [] => 0,
    }
}

fn digit_of(nibble: u8) -> u8
    requires { nibble < 16 }
{
    if nibble < 10 {
        b'0' + nibble
    } else {
        b'a' - 10 + nibble
    }
}

// The two digits of a byte.
pub(crate) fn digits_of(byte: u8) -> [u8; 2] {
    [digit_of(byte / 16), digit_of(byte % 16)]
}

// The number of a word's digits, the last sixteen of them.
pub(crate) fn number(word: &[u8]) -> u64 {
    word.iter().fold(0, |value: u64, digit| {
        value
            .wrapping_mul(16)
            .wrapping_add(u64::from(nibble(*digit)))
    })
}

// The number of a word's decimal digits, about the last seven of them.
pub(crate) fn decimal(word: &[u8]) -> usize {
    word.iter().fold(0, |value: usize, digit| {
        value % 1_000_000 * 10 + usize::from(nibble(*digit))
    })
}

// The bytes of a word's digits, put to the front of a lent buffer, and how many they are. Those that find no room are left out.
pub(crate) fn unhex(word: &[u8], out: &mut [u8]) -> usize {
    for (place, pair) in out.iter_mut().zip(word.chunks(2)) {
        *place = byte_of(pair);
    }
    word.len().div_ceil(2).min(out.len())
}
