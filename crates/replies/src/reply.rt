// What a command is answered: what it gave, or why it is not served.
ghost use Rattle.std.specs.Prelude.{◌≡◌};
ghost use Rattle.replies.specs.declared.reply.Failure.TheVariants.{Refused as RefusedWith};
ghost use Rattle.replies.specs.Replies.{failure_of};

use refusals::Refusal;
use script::UnescapeError;
use solo::solo::Committed;

// What a command gave: an engine was opened, a transaction committed, or a number is shown.
#[derive(Clone, Copy)]
pub enum Reply {
    Joined,
    Committed(Committed),
    Number(i64),
}

// Why a command is not served.
#[derive(Clone, Copy)]
pub enum Failure {
    NotUnderstood,
    EngineOpen,
    NoEngine,
    NoSuchNumber,
    Refused(Refusal),
}

// What the engine refuses is not served.
impl From<Refusal> for Failure {
    ghost from_gives = { λ refusal f. f ≡ RefusedWith refusal };

    fn from(refusal: Refusal) -> Failure {
        Failure::Refused(refusal)
    }
}

// A text with a bad escape is not understood; where there is no memory to read it, that is the refusal without a number.
impl From<UnescapeError> for Failure {
    ghost from_gives = { λ error f. f ≡ failure_of error };

    fn from(error: UnescapeError) -> Failure {
        match error {
            UnescapeError::BadEscape => Failure::NotUnderstood,
            UnescapeError::Memory => Failure::Refused(Refusal::Memory),
        }
    }
}
