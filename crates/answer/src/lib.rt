// Why a call is refused, and the number of each answer.
#![tactic(auto)]

ghost use Rattle.std.specs.Prelude.{◌≡◌, ◌≤◌};
ghost use Rattle.answer.specs.Answer.{refusal_of, number_of, last_step_number};

// Why a call was refused, by the number that C is told.
#[derive(Clone, Copy, PartialEq, Eq)]
pub enum Refusal {
    Size = 1,
    Malformed = 2,
    Ended = 3,
    Waiting = 4,
    OffKernel = 5,
    Unknown = 6,
    BadCsr = 7,
    BadTarget = 8,
    Outside = 9,
    Differing = 10,
    SplitOpen = 11,
    NotWaiting = 12,
    BadCard = 13,
    Crossing = 14,
    Clashing = 15,
    BadSheet = 16,
    NoSteps = 17,
}

impl Refusal {
    // The number by which a caller in C knows it.
    pub fn number(self) -> u32
        ensures { result ≡ refusal_of self }
    {
        self as u32
    }
}

// The number of a call's answer, whatever it leaves: 0 where it is done.
pub fn number<T>(answer: &Result<T, Refusal>) -> u32
    ensures { result ≡ number_of answer.now }
{
    match answer {
        Ok(_) => 0,
        Err(why) => why.number(),
    }
}

// The answer that has the number, of those that a step or a run can answer: the way back from what C is told.
pub fn answer_of(code: u32) -> Result<(), Refusal>
    requires { code ≤ last_step_number }
    ensures { number_of result ≡ code }
{
    match code {
        0 => Ok(()),
        1 => Err(Refusal::Size),
        2 => Err(Refusal::Malformed),
        3 => Err(Refusal::Ended),
        4 => Err(Refusal::Waiting),
        5 => Err(Refusal::OffKernel),
        6 => Err(Refusal::Unknown),
        7 => Err(Refusal::BadCsr),
        8 => Err(Refusal::BadTarget),
        9 => Err(Refusal::Outside),
        10 => Err(Refusal::Differing),
        11 => Err(Refusal::SplitOpen),
        12 => Err(Refusal::NotWaiting),
        13 => Err(Refusal::BadCard),
        14 => Err(Refusal::Crossing),
        _ => Err(Refusal::Clashing),
    }
}
