// Standard input, line by line, into a lent buffer: a script may have any length, a line that of the buffer.
use crate::lines::run_line;
use crate::spelling::show::text;
use crate::store::Store;
use keycode::parts::clip;

// A line has no end where the buffer has one.
#[derive(Clone, Copy, Debug, PartialEq, Eq)]
struct TooLong;

fn next_byte() -> Option<u8> {
    let mut byte = [0u8; 1];
    (io::read_full(0, &mut byte) != 0).then_some(byte[0])
}

// How many bytes the next line has, its end not counted; None where no line ends any more. By hand: the buffer is the caller's, and a line
// is at most as long as it is, so no library reader, which makes its own.
fn read_line(line: &mut [u8]) -> Result<Option<usize>, TooLong> {
    for (n, place) in line.iter_mut().enumerate() {
        match next_byte() {
            None => return Ok(None),
            Some(b'\n') => return Ok(Some(n)),
            Some(byte) => *place = byte,
        }
    }
    Err(TooLong)
}

// A proved loop has to end, and nothing says that an input does: it has a number of turns that no run uses up.
pub fn run_input(line: &mut [u8]) {
    let mut store = Store::empty();
    for _ in 0..u64::MAX {
        match read_line(line) {
            Ok(Some(n)) => {
                run_line(clip(line, 0, n), &mut store);
                text(b"\n");
            }
            Ok(None) => return,
            Err(TooLong) => {
                text(b"LINE TOO LONG");
                return;
            }
        }
    }
}
