// What the calls that give a handle answer.
ghost use Rattle.std.specs.Prelude.{◌≡◌};
ghost use Rattle.mvcc.specs.request.Given.{begun_of};

use crate::handle::Handle;
use bitcask::Used;
use keycode::Refusal;

// The used length then, and the handle. An answer with the handle beside it, and not a handle within the answer: a refusal comes with the
// blank handle too, as the promises of these calls say by `blank`.
#[derive(Clone, Copy, Debug, PartialEq, Eq)]
pub struct Begun {
    pub answer: Result<Used, Refusal>,
    pub handle: Handle,
}

impl From<Result<(Used, Handle), Refusal>> for Begun {
    ghost from_gives = { λ given begun. begun ≡ begun_of given };

    fn from(given: Result<(Used, Handle), Refusal>) -> Begun {
        match given {
            Ok((used, handle)) => Begun {
                answer: Ok(used),
                handle,
            },
            Err(refusal) => Begun {
                answer: Err(refusal),
                handle: Handle::blank(),
            },
        }
    }
}
