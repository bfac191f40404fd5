// The thirteen refusals with their numbers. Every call of every layer refuses by one of these; `number_of` of specs/Refusals.antt has
// the same numbers for the contracts.
ghost use Rattle.std.specs.Prelude.{◌≡◌};
ghost use Rattle.keycode.specs.Refusals.{number_of};

#[derive(Clone, Copy, Debug, PartialEq, Eq)]
pub enum Refusal {
    Absent = 1,
    ReadOnly = 2,
    NotOpen = 3,
    KeyTooLong = 4,
    ValueTooLong = 5,
    Conflict = 6,
    LogFull = 7,
    TableFull = 8,
    TooManyOpen = 9,
    NoSuchVersion = 10,
    VersionsSpent = 11,
    BadStore = 12,
    BadRequest = 13,
}

pub fn number_of(r: Refusal) -> u8
    ensures { result ≡ number_of r }
{
    r as u8
}
