// Signed numbers and float patterns as unsigned numbers that sort as they do.
ghost use Rattle.std.specs.Prelude.{◌≡◌};
ghost use Rattle.codecs.specs.Signs.{biased, unbiased, flipped, unflipped};

const SIGN: u64 = 1 << 63;

// An i64 with its sign bit flipped.
pub fn bias(v: i64) -> u64
    ensures { result ≡ biased v }
{
    v.cast_unsigned() ^ SIGN
}

pub fn unbias(m: u64) -> i64
    ensures { result ≡ unbiased m }
{
    (m ^ SIGN).cast_signed()
}

// A float's pattern: all bits inverted where the sign is set, else the sign bit flipped.
pub fn flip(w: u64) -> u64
    ensures { result ≡ flipped w }
{
    if w < SIGN { w ^ SIGN } else { !w }
}

pub fn unflip(m: u64) -> u64
    ensures { result ≡ unflipped m }
{
    if m < SIGN { !m } else { m ^ SIGN }
}
