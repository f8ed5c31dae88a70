// A call's answer as C takes it: as a number, or as one number of two parts, the call's number and its value.
#![tactic(auto)]

ghost use Rattle.std.specs.Prelude.{◌≡◌};
ghost use Rattle.refusal.specs.Answer.{number};
ghost use Rattle.answers.specs.Word.{answer_word};

use refusal::Refusal;

// The number of a call: 0 where it is accepted, else the refusal's.
pub fn number(answer: Result<(), Refusal>) -> u32
    ensures { result ≡ number answer }
{
    match answer {
        Ok(()) => 0,
        Err(refusal) => u32::from(refusal.number()),
    }
}

// The number in the low 32 bits, the value in the high 32.
pub fn word(answer: Result<u32, Refusal>) -> u64
    ensures { result ≡ answer_word answer }
{
    match answer {
        Ok(value) => u64::from(value) << 32,
        Err(refusal) => u64::from(refusal.number()),
    }
}
