// The value length of an entry: 32 bits, read as an i32, whose sign tells a tombstone. Only a length that passed the sign test becomes
// a usize.
ghost use Rattle.std.specs.Prelude.{◌≡◌};
ghost use Rattle.bitcask.specs.entry.Length.{length_of};

// The value length that 32 bits of the log state as two's complement; None where it is negative, as any tombstone's. Callers meet no
// signed number.
pub(crate) fn value_len(raw: u32) -> Option<usize>
    ensures { result ≡ length_of raw }
{
    usize::try_from(raw.cast_signed()).ok()
}
