// What a case says of its call, what the call says, and the answer to the case.
use crate::Said;
use cases::answer::Answer;
use cases::lent::holding;
use decide::Refusal;
use drawing::Choice;
use scan::answer::Drawn;

/// The choice of a number: 0 is over, any other number under.
pub fn choice_of(number: u32) -> Choice {
    if number == 0 {
        Choice::Over
    } else {
        Choice::Under
    }
}

/// What a drawing says.
pub fn drawn(answer: Result<Drawn, Refusal>) -> Said {
    answer.map(|counts| (counts.answer, counts.new_cells))
}

/// What a check of a patch or a solid says.
pub fn checked(verdict: Result<(), Refusal>) -> Said {
    verdict.map(|_| (0, 0))
}

/// What a call said, and what the lent bytes hold.
pub fn held(said: Said, lent: &[u8]) -> Answer<5> {
    match said {
        Ok((number, new_cells)) => holding(b'A', number, new_cells, lent),
        Err(refusal) => holding(b'R', u32::from(refusal), 0, lent),
    }
}

/// What the first of two calls said, if they agree, and what its lent bytes hold.
pub fn held_if(agree: bool, said: Said, lent: &[u8]) -> Answer<5> {
    if agree {
        held(said, lent)
    } else {
        holding(b'N', 0, 0, lent)
    }
}
