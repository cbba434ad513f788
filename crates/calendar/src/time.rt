// The time of day.
ghost use Rattle.std.specs.Prelude.{◌≡◌};
ghost use Rattle.calendar_rules.specs.TimeOfDay.{time_in_range, second_of_day, next_second};
ghost use Rattle.refusals.specs.Numbers.{outcome};
ghost use Rattle.calendar_rules.specs.Answers.{next_second_answer};

pub use calendar_rules::time::{NextSecond, Time};
use refusals::Refusal;

// Whether the day has this time. Its seconds end at 59.
pub fn time_in_range(time: Time) -> bool
    ensures { result ≡ time_in_range time }
{
    time.hour <= 23 && time.minute <= 59 && time.second <= 59
}

// How many seconds of the day have gone by; 6 for a time that the day does not have.
pub fn second_of_day(time: Time) -> Result<u32, Refusal>
    ensures { outcome result ≡ second_of_day time }
{
    if !time_in_range(time) {
        return Err(Refusal::OutOfRange);
    }
    Ok(3600 * time.hour as u32 + 60 * time.minute as u32 + time.second as u32)
}

// The next second, with the carry to the next day; 6 for a time that the day does not have.
pub fn next_second(time: Time) -> Result<NextSecond, Refusal>
    ensures { next_second_answer result ≡ next_second time }
{
    if !time_in_range(time) {
        return Err(Refusal::OutOfRange);
    }
    let Time {
        hour,
        minute,
        second,
    } = time;
    if second < 59 {
        return Ok(NextSecond::SameDay(Time {
            hour,
            minute,
            second: second + 1,
        }));
    }
    if minute < 59 {
        return Ok(NextSecond::SameDay(Time {
            hour,
            minute: minute + 1,
            second: 0,
        }));
    }
    if hour < 23 {
        return Ok(NextSecond::SameDay(Time {
            hour: hour + 1,
            minute: 0,
            second: 0,
        }));
    }
    Ok(NextSecond::NextDay(Time {
        hour: 0,
        minute: 0,
        second: 0,
    }))
}
