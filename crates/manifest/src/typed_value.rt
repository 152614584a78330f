//! Reads the values at single keys, and checks for each its presence, its kind and its range.
ghost use Rattle.std.specs.Prelude.{◌≡◌, ℕ, ◌<◌, ◌≤◌, ◌^◌, Some, None, Bool, true, false, List};
ghost use Rattle.std.specs.Prelude.{IfOk, IfErr, is_some, option_map, pos};
ghost use Rattle.det_values.specs.Limits.{is_event_name};
ghost use Rattle.toml.specs.Data.{string, integer, get, at};
ghost use Rattle.manifest.specs.Limits.{is_platform_name, is_policy};
ghost use Rattle.manifest.specs.Tree.{to_member, to_item, step, count_of, whole_of, number_of};
ghost use Rattle.manifest.specs.Tree.{text_of};
ghost use Rattle.manifest.specs.Keys.{text, any_whole, whole, array_up_to, section};
ghost use Rattle.manifest.specs.Faults.{fault_by};
ghost use Rattle.manifest.specs.KeyReaders.{seen, IsJudged};
ghost use Rattle.manifest.specs.Meaning.{policy_of};

use crate::{Key, ManifestFault, PlatformName};
use det_values::{EventName, Policy};
use toml::Value;

/// A member of a table that was found.
pub(crate) fn member<'t>(parent: Option<&'t Value>, word: &str) -> Option<&'t Value>
    ensures { seen result ≡ step (to_member word.now) (seen parent.entry) }
{
    match parent {
        Some(parent) => parent.get(word),
        None => None,
    }
}

/// An item of an array that was found.
pub(crate) fn item<'t>(parent: Option<&'t Value>, index: u16) -> Option<&'t Value>
    ensures { seen result ≡ step (to_item index) (seen parent.entry) }
{
    match parent {
        Some(parent) => parent.get(usize::from(index)),
        None => None,
    }
}

/// A text, or None if the key is absent.
pub(crate) fn text<'t>(found: Option<&'t Value>, key: Key) -> Result<Option<&'t str>, ManifestFault>
    ensures fault { IfErr result (λ f. (needed : Bool) (fits : List ℕ → Bool)
        → fault_by key needed (text fits) (seen found.entry) ≡ Some f) }
    ensures value { IfOk result (λ t. seen found.entry ≡ option_map (λ s. string s.now) t) }
{
    match found {
        None => Ok(None),
        Some(value) => match value.as_str() {
            Some(text) => Ok(Some(text)),
            None => Err(ManifestFault::WrongKind(key)),
        },
    }
}

/// A required text.
pub(crate) fn needed_text<'t>(found: Option<&'t Value>, key: Key) -> Result<&'t str, ManifestFault>
    ensures fault { IfErr result (λ f. (fits : List ℕ → Bool)
        → fault_by key true (text fits) (seen found.entry) ≡ Some f) }
    ensures value { IfOk result (λ t. seen found.entry ≡ Some (string t.now)) }
{
    match text(found, key)? {
        Some(text) => Ok(text),
        None => Err(ManifestFault::Missing(key)),
    }
}

/// The name of an event, which is required.
pub(crate) fn event_name(found: Option<&Value>, key: Key) -> Result<EventName, ManifestFault>
    ensures judged { IsJudged result (fault_by key true (text is_event_name) (seen found.entry))
        (text_of (seen found.entry)) }
    ensures name { IfOk result (λ n. is_event_name n ≡ true) }
{
    match EventName::from_bytes(needed_text(found, key)?.as_bytes()) {
        Some(name) => Ok(name),
        None => Err(ManifestFault::OutOfRange(key)),
    }
}

/// A policy, which is Last if the key is absent.
pub(crate) fn policy(found: Option<&Value>, key: Key) -> Result<Policy, ManifestFault>
    ensures { IsJudged result (fault_by key false (text is_policy) (seen found.entry))
        (policy_of (text_of (seen found.entry))) }
{
    match text(found, key)? {
        None | Some("last") => Ok(Policy::Last),
        Some("fresh") => Ok(Policy::Fresh),
        Some(_) => Err(ManifestFault::OutOfRange(key)),
    }
}

/// The name of a platform, or None if the key is absent and not required.
pub(crate) fn platform_name(
    found: Option<&Value>,
    key: Key,
    needed: bool,
) -> Result<Option<PlatformName>, ManifestFault>
    ensures { IsJudged result (fault_by key needed (text is_platform_name) (seen found.entry))
        (option_map (λ d. text_of (Some d)) (seen found.entry)) }
{
    match text(found, key)? {
        None if needed => Err(ManifestFault::Missing(key)),
        None => Ok(None),
        Some(text) => match PlatformName::from_bytes(text.as_bytes()) {
            Some(name) => Ok(Some(name)),
            None => Err(ManifestFault::OutOfRange(key)),
        },
    }
}

/// A required whole number.
pub(crate) fn whole(found: Option<&Value>, key: Key) -> Result<i64, ManifestFault>
    ensures judged { IsJudged result (fault_by key true any_whole (seen found.entry))
        (whole_of (seen found.entry)) }
    ensures is_whole { IfOk result (λ z. seen found.entry ≡ Some (integer z)) }
    ensures fault { IfErr result (λ f. (least : ℕ) (most : ℕ)
        → fault_by key true (whole least most) (seen found.entry) ≡ Some f) }
{
    match found {
        None => Err(ManifestFault::Missing(key)),
        Some(value) => match value.as_integer() {
            Some(number) => Ok(number),
            None => Err(ManifestFault::WrongKind(key)),
        },
    }
}

/// A required whole number from `least` to `most`.
pub(crate) fn number(
    found: Option<&Value>,
    key: Key,
    least: u64,
    most: u64,
) -> Result<u64, ManifestFault>
    ensures judged { IsJudged result (fault_by key true (whole least most) (seen found.entry))
        (number_of (seen found.entry)) }
    ensures least { IfOk result (λ n. least ≤ n) }
    ensures most { IfOk result (λ n. n ≤ most) }
{
    match u64::try_from(whole(found, key)?) {
        Ok(number) if least <= number && number <= most => Ok(number),
        _ => Err(ManifestFault::OutOfRange(key)),
    }
}

/// The number of items of an array, 0 if the key is absent.
#[tactic(auto, using(crate::proofs::Lengths::length_of_view))]
pub(crate) fn count(found: Option<&Value>, key: Key, most: u16) -> Result<u16, ManifestFault>
    ensures judged { IsJudged result (fault_by key false (array_up_to most) (seen found.entry))
        (count_of (seen found.entry)) }
    ensures most { IfOk result (λ n. n ≤ most) }
{
    match found {
        None => Ok(0),
        Some(value) => match value.as_array() {
            Some(array) if array.len() <= usize::from(most) => Ok(array.len() as u16),
            Some(_) => Err(ManifestFault::OutOfRange(key)),
            None => Err(ManifestFault::WrongKind(key)),
        },
    }
}

/// Whether a table is there.
pub(crate) fn section(found: Option<&Value>, key: Key) -> Result<bool, ManifestFault>
    ensures { IsJudged result (fault_by key false section (seen found.entry))
        (is_some (seen found.entry)) }
{
    match found {
        None => Ok(false),
        Some(value) if value.is_table() => Ok(true),
        Some(_) => Err(ManifestFault::WrongKind(key)),
    }
}

/// Checks that a required table is there.
pub(crate) fn needed_section(found: Option<&Value>, key: Key) -> Result<(), ManifestFault>
    ensures fault { IfErr result (λ f. fault_by key true section (seen found.entry) ≡ Some f) }
    ensures fits { IfOk result (λ _. fault_by key true section (seen found.entry) ≡ None) }
{
    match found {
        None => Err(ManifestFault::Missing(key)),
        Some(value) if value.is_table() => Ok(()),
        Some(_) => Err(ManifestFault::WrongKind(key)),
    }
}
