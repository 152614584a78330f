//! The events of a manifest.
ghost use Rattle.std.specs.Prelude.{◌≡◌, ◌≤◌, length, IfOk, bytes_eq};
ghost use Rattle.std.specs.List.{list_any, All};
ghost use Rattle.toml.specs.View.{view};
ghost use Rattle.manifest.specs.Limits.{IsEvent};
ghost use Rattle.manifest.specs.Groups.{events_keys};
ghost use Rattle.manifest.specs.Keys.{event_keys, found};
ghost use Rattle.manifest.specs.Faults.{first_fault, first_duplicate};
ghost use Rattle.manifest.specs.Tree.{count_of};
ghost use Rattle.manifest.specs.KeyReaders.{IsJudged, IsRead};
ghost use Rattle.manifest.specs.Meaning.{events_of, event_at};

use crate::typed_value::{count, event_name, item, member, needed_section, number, policy};
use crate::{Key, ManifestError, ManifestFault};
use det_values::{EventSpec, Events};
use std::alloc::Global;
use toml::Value;

fn read_event(tree: &Value, i: u16) -> Result<EventSpec, ManifestFault>
    ensures judged { IsJudged result (first_fault (view tree.now) (event_keys i))
        (event_at (view tree.now) i) }
    ensures range { IfOk result IsEvent }
{
    let event = item(tree.get("event"), i);
    needed_section(event, Key::EventItem(i))?;
    let name = event_name(member(event, "name"), Key::EventName(i))?;
    let capacity = number(member(event, "capacity"), Key::EventCapacity(i), 1, 1024)?;
    let policy = policy(member(event, "policy"), Key::EventPolicy(i))?;
    Ok(EventSpec {
        capacity: capacity as u16,
        name,
        policy,
    })
}

/// The events, none if the key is absent.
#[tactic(auto, using(crate::proofs::Steps::events_fault, crate::proofs::Steps::values_step))]
pub(crate) fn read_events(alloc: Global, tree: &Value) -> Result<Events, ManifestError>
    ensures read { IsRead result (first_fault (view tree.now) (events_keys (view tree.now)))
        (events_of (view tree.now)) }
    ensures range { IfOk result (All IsEvent) }
    ensures count { IfOk result (λ events.
        length events ≡ count_of (found (view tree.now) Key.Event)) }
{
    let count = count(tree.get("event"), Key::Event, 256)?;
    let mut events = Events::new(alloc);
    for i in 0..count {
        events.push(read_event(tree, i)?)?;
    }
    Ok(events)
}

/// Whether one of these events has the same name as another one.
fn is_named_in(other: &EventSpec, events: &[EventSpec]) -> bool
    ensures { result ≡ list_any (λ e. bytes_eq e.name other.now.name) events.now }
{
    let name = other.name.as_slice();
    events.iter().any(|event| event.name.as_slice() == name)
}

/// The least number, from 0, of an event whose name an earlier event has. All pairs are compared:
/// there are at most 256 events.
#[tactic(auto, using(crate::proofs::Steps::duplicate_step))]
pub(crate) fn duplicate_event(events: &[EventSpec]) -> Option<u16>
    requires { length events.now ≤ 256 }
    ensures { result ≡ first_duplicate events.now }
{
    for (i, event) in events.iter().enumerate() {
        if is_named_in(event, &events[..i]) {
            return Some(i as u16);
        }
    }
    None
}
