// The station clock: a record that is stepped by one second, by value or where it stands.
#![tactic(auto)]

ghost use Rattle.std.specs.Prelude.{◌≡◌};
ghost use Rattle.refusals.specs.Numbers.{outcome};
ghost use Rattle.clock.specs.Stepping.{clock_second, step_of};
ghost use Rattle.clock.specs.Answers.{in_numbers};

use record::Record;
use record::next::next_second;
use refusals::Refusal;

#[derive(Clone, Copy, Debug, PartialEq, Eq)]
pub struct Clock {
    pub rec: Record,
}

// The clock after a step, and what the step tells.
#[derive(Clone, Copy, Debug, PartialEq, Eq)]
pub struct Stepped {
    pub clock: Clock,
    pub answer: Result<(), Refusal>,
}

// The next second of a record that can be a clock's. The refusals of the next second are lower than 14, so they come first.
fn clock_second(rec: Record) -> Result<Record, Refusal>
    ensures { outcome result ≡ clock_second rec }
{
    let next = next_second(rec)?;
    match rec {
        Record::TimeOnly(_, _) => Err(Refusal::NoDate),
        Record::Dated(_, _, _, _, _) => Ok(next),
    }
}

impl Clock {
    // A refused clock comes back as it was.
    pub fn step(self) -> Stepped
        ensures { in_numbers result ≡ step_of self }
    {
        match clock_second(self.rec) {
            Ok(next) => Stepped {
                clock: Clock { rec: next },
                answer: Ok(()),
            },
            Err(refusal) => Stepped {
                clock: self,
                answer: Err(refusal),
            },
        }
    }
}

// Steps the caller's own clock where it stands.
pub fn step_in_place(clock: &mut Clock) -> Result<(), Refusal>
    ensures { (clock.new ≡ (step_of clock.old).clock) × (outcome result ≡ (step_of clock.old).answer) }
{
    let stepped = clock.step();
    *clock = stepped.clock;
    stepped.answer
}

// The step in place for callers that hold the clock by value: it is lent for the step and handed back.
pub fn in_place(mut clock: Clock) -> Stepped
    ensures { in_numbers result ≡ step_of clock }
{
    let answer = step_in_place(&mut clock);
    Stepped { clock, answer }
}
