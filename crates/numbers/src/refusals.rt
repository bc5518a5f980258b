// Why a call is refused, and the number that a call answers.
ghost use Rattle.std.specs.Prelude.{◌≡◌};
ghost use Rattle.numbers.specs.Outcome.{code_of, number_of};
ghost use Rattle.numbers.specs.Refusal.{lower};

// The words of the table of numbers. As a byte each is its number.
#[derive(Clone, Copy, PartialEq, Eq)]
pub enum Refusal {
    Length = 1,
    Damaged = 2,
    Garbled = 3,
    Stranger = 4,
    OutOfTurn = 5,
    NoSuchObject = 6,
    EightOpen = 7,
    NoQuorum = 8,
    UsedUp = 9,
    Busy = 10,
    NotReady = 11,
    PoolFull = 12,
    Closed = 13,
    Bounds = 14,
    TallyTwice = 15,
}

impl From<Refusal> for u8 {
    ghost from_gives = { λ r n. n ≡ code_of r };

    fn from(refusal: Refusal) -> u8 {
        refusal as u8
    }
}

// The number that a call answers: its refusal's, or 0 where it is taken. Ruled out: 0 for a refusal; the number of another one.
pub fn number<T: Drop>(outcome: Result<T, Refusal>) -> u8
    ensures { result ≡ number_of outcome }
{
    match outcome {
        Ok(_) => 0,
        Err(refusal) => u8::from(refusal),
    }
}

// Of what two tests came to, the refusal with the lower number. Ruled out: the one with the higher number; none where one of them refuses.
#[tactic(auto, unfolding(crate::specs::Refusal::lower))]
pub fn first_refusal(a: Result<(), Refusal>, b: Result<(), Refusal>) -> Result<(), Refusal>
    ensures { number_of result ≡ lower (number_of a) (number_of b) }
{
    match (a, b) {
        (Err(x), Err(y)) => Err(if u8::from(x) < u8::from(y) { x } else { y }),
        (Ok(()), _) => b,
        (_, Ok(())) => a,
    }
}
