//! Offsets from UTC as they are written.
ghost use Rattle.std.specs.Prelude.{◌≡◌, ◌<◌, IfSome};
ghost use Rattle.plan_times.specs.Zones as spec;
ghost use Rattle.plan_times.specs.Zones.{IsOffset};

/// The minutes east of Greenwich that a text says, from -1439 to 1439. None where it is neither `UTC` nor `UTC` with a
/// sign, two digits of hours below 24 and two digits of minutes below 60.
#[tactic(auto, unfolding(crate::specs::Zones::east_of))]
pub fn east_of(text: &str) -> Option<i16>
    ensures value { result ≡ spec.east_of text.now }
    ensures small { IfSome result IsOffset }
{
    match text.as_bytes().strip_prefix(b"UTC")? {
        [] => Some(0),
        [sign, digits @ ..] => signed(*sign, digits),
    }
}

/// The minutes behind a sign: `+` is east.
fn signed(sign: u8, digits: &[u8]) -> Option<i16>
    ensures value { result ≡ spec.signed sign digits.now }
    ensures small { IfSome result IsOffset }
{
    let minutes = minutes_of(digits)?;
    match sign {
        b'+' => Some(minutes as i16),
        b'-' => Some(-(minutes as i16)),
        _ => None,
    }
}

/// Two digits of hours and two of minutes, in minutes.
#[tactic(auto, unfolding(crate::specs::Zones::minutes_of))]
fn minutes_of(digits: &[u8]) -> Option<u16>
    ensures value { result ≡ spec.minutes_of digits.now }
    ensures small { IfSome result (λ m. m < 1440) }
{
    let [tens, ones, minute_tens, minute_ones] = digits else {
        return None;
    };
    let hours = two_digits(*tens, *ones)?;
    let minutes = two_digits(*minute_tens, *minute_ones)?;
    if hours >= 24 || minutes >= 60 {
        return None;
    }
    Some(60 * u16::from(hours) + u16::from(minutes))
}

fn two_digits(tens: u8, ones: u8) -> Option<u8>
    ensures value { result ≡ spec.two_digits tens ones }
    ensures small { IfSome result (λ n. n < 100) }
{
    if !tens.is_ascii_digit() || !ones.is_ascii_digit() {
        return None;
    }
    Some(10 * (tens - b'0') + (ones - b'0'))
}
