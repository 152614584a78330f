//! Checks of one parameter each. A job calls them in order, so the least bad parameter is reported.

ghost use Rattle.std.specs.Prelude.{◌≡◌, ◌<◌, ◌≤◌, ◌^◌, length, pos, true, false, MatchResult};
ghost use Rattle.std.specs.Prelude.{IfOk, OnOk, IfErr};
ghost use Rattle.job_shared.specs.Params.{param, is_param, natural_param};

use job::BadParam;

/// The parameter at an index, if it exists and is from `low` to `high`.
pub fn whole_param(params: &[i64], index: u8, low: i64, high: i64) -> Result<i64, BadParam>
    ensures ok { IfOk result (λ z. (is_param params.now index low high ≡ true)
        × (z ≡ param params.now index)) }
    ensures err { IfErr result (λ bad. (is_param params.now index low high ≡ false)
        × (bad.index ≡ index)) }
{
    let place = usize::from(index);
    if place < params.len() && low <= params[place] && params[place] <= high {
        Ok(params[place])
    } else {
        Err(BadParam { index })
    }
}

/// The same for natural numbers.
pub fn wide_param(params: &[i64], index: u8, low: u64, high: u64) -> Result<u64, BadParam>
    requires order { low ≤ high }
    requires fits { high < 2 ^ 63 }
    ensures ok { IfOk result (λ n. (is_param params.now index (pos low) (pos high) ≡ true)
        × (n ≡ natural_param params.now index low high)) }
    ensures err { IfErr result (λ bad. (is_param params.now index (pos low) (pos high) ≡ false)
        × (bad.index ≡ index)) }
    ensures range { IfOk result (λ n. n ≤ high) }
{
    let number = whole_param(params, index, low as i64, high as i64)?;
    Ok(number as u64)
}

/// The same for natural numbers of 32 bits.
pub fn natural_param(params: &[i64], index: u8, low: u32, high: u32) -> Result<u32, BadParam>
    ensures ok { IfOk result (λ n. (is_param params.now index (pos low) (pos high) ≡ true)
        × (n ≡ natural_param params.now index low high)) }
    ensures err { IfErr result (λ bad. (is_param params.now index (pos low) (pos high) ≡ false)
        × (bad.index ≡ index)) }
    ensures range { IfOk result (λ n. (low ≤ n) × (n ≤ high)) }
{
    let number = whole_param(params, index, i64::from(low), i64::from(high))?;
    Ok(number as u32)
}

/// Refuses any parameter at this index: there are too many.
pub fn no_more_params(params: &[i64], index: u8) -> Result<(), BadParam>
    ensures ok { OnOk result (length params.now ≤ index) }
    ensures err { IfErr result (λ bad. (index < length params.now) × (bad.index ≡ index)) }
{
    if params.len() > usize::from(index) {
        Err(BadParam { index })
    } else {
        Ok(())
    }
}
