// Local seconds and UTC seconds, each a count of its own from 1 January 1980, 00:00, and the season shift between them.
// Nothing here knows a record, so that the rule for a record may ask for the shift.
ghost use Rattle.std.specs.Prelude.{◌≡◌};
ghost use Rattle.record_rules.specs.Season.{season_shift, to_utc};
ghost use Rattle.refusals.specs.Numbers.{outcome};

pub use record_rules::season::{Count, LocalSeconds, UtcSeconds};
use refusals::Refusal;

// The calendar has 36,525 days of 86,400 seconds.
const CALENDAR_SECONDS: u32 = 36525 * 86400;

// How far local time is ahead of UTC.
fn season_shift(daylight: bool) -> u32
    ensures { result ≡ season_shift daylight }
{
    if daylight { 7200 } else { 3600 }
}

// The season shift is the only way from local seconds to UTC seconds.
pub fn to_utc(local: LocalSeconds, daylight: bool) -> Result<UtcSeconds, Refusal>
    ensures { outcome result ≡ to_utc local daylight }
{
    let shift = season_shift(daylight);
    if local.0 < shift || CALENDAR_SECONDS <= local.0 - shift {
        return Err(Refusal::OutsideCalendar);
    }
    Ok(UtcSeconds(local.0 - shift))
}
