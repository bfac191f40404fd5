// The test of UTF-8. A whole slice is std's to test; a string whose bytes come one by one, as its escapes are read, goes by a state,
// which says what bytes the sequence at hand still wants. Every state and every range is that of the Unicode Standard's table, as
// specs/Utf8.antt has it.
ghost use Rattle.std.specs.Prelude.{◌≡◌};
ghost use Rattle.keycode.specs.Tests.{pick};
ghost use Rattle.codecs.specs.Utf8.{span, table, within, begun, fed, ended, well_formed, never};
ghost use Rattle.codecs.specs.States.{awaited_by};

#[derive(Clone, Copy, Debug, PartialEq, Eq)]
pub enum State {
    // between two sequences
    Start,
    // so many bytes 80..BF are to come
    One,
    Two,
    Three,
    // A0..BF, and one more
    AfterE0,
    // 80..9F, and one more
    AfterEd,
    // 90..BF, and two more
    AfterF0,
    // 80..8F, and two more
    AfterF4,
    // no bytes can mend it
    Lost,
}

// The state after the first byte of a sequence.
fn begin(b: u8) -> State
    ensures { awaited_by result ≡ begun table b }
{
    match b {
        0..=0x7f => State::Start,
        0xc2..=0xdf => State::One,
        0xe0 => State::AfterE0,
        0xe1..=0xec | 0xee..=0xef => State::Two,
        0xed => State::AfterEd,
        0xf0 => State::AfterF0,
        0xf1..=0xf3 => State::Three,
        0xf4 => State::AfterF4,
        _ => State::Lost,
    }
}

// The state `then` behind a byte of a range. A pattern over both state and byte would be no plainer: it leaves two rests for each state.
fn inside(b: u8, low: u8, high: u8, then: State) -> State
    ensures { awaited_by result ≡ pick (within (span low high) b) (awaited_by then) never }
{
    if (low..=high).contains(&b) {
        then
    } else {
        State::Lost
    }
}

// The state after one byte more.
pub fn feed(state: State, b: u8) -> State
    ensures { awaited_by result ≡ fed (awaited_by state) b }
{
    match state {
        State::Start => begin(b),
        State::One => inside(b, 0x80, 0xbf, State::Start),
        State::Two => inside(b, 0x80, 0xbf, State::One),
        State::Three => inside(b, 0x80, 0xbf, State::Two),
        State::AfterE0 => inside(b, 0xa0, 0xbf, State::One),
        State::AfterEd => inside(b, 0x80, 0x9f, State::One),
        State::AfterF0 => inside(b, 0x90, 0xbf, State::Two),
        State::AfterF4 => inside(b, 0x80, 0x8f, State::Two),
        State::Lost => State::Lost,
    }
}

// The sequence at hand is whole.
pub fn closed(state: State) -> bool
    ensures { result ≡ ended (awaited_by state) }
{
    state == State::Start
}

// A string is well-formed UTF-8.
pub fn is_utf8(s: &[u8]) -> bool
    ensures { result ≡ well_formed s.now }
{
    std::str::from_utf8(s).is_ok()
}
