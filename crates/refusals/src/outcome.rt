// What a call on a state hands back: the state goes in by value and comes out by value, beside what the call answers.
ghost use Rattle.refusals.specs.Outcomes.{Gives, Keeps};

use crate::Refusal;

// A state after a call, or as it was where the call is refused, and what the call answers.
#[derive(Clone, Copy)]
pub struct Outcome<S, A> {
    pub state: S,
    pub answer: Result<A, Refusal>,
}

impl<S: Copy, A: Copy> Outcome<S, A> {
    // Accepted: a new state, and what is answered.
    pub fn given(state: S, value: A) -> Outcome<S, A>
        ensures { Gives state value result }
    {
        Outcome {
            state,
            answer: Ok(value),
        }
    }

    // Refused: the state that was handed in, and why.
    pub fn kept(state: S, why: Refusal) -> Outcome<S, A>
        ensures { Keeps state why result }
    {
        Outcome {
            state,
            answer: Err(why),
        }
    }
}
