//! Unknown keys: those that no table of a manifest has.
ghost use Rattle.std.specs.Prelude.{◌≡◌, ℕ, ◌≤◌, ◌<◌, ◌^◌, List, option_map, length, take, min};
ghost use Rattle.std.specs.Prelude.{◌||◌, bytes_eq, codes};
ghost use Rattle.toml.specs.View.{view, table_view};
ghost use Rattle.manifest.specs.KeyReaders.{seen};
ghost use Rattle.manifest.specs.KeyReaders.{is_top_word, is_event_word, is_need_word, with_zeros};
ghost use Rattle.manifest.specs.Unknown.{unknown_key, is_known, unknown_in, unknown_at};
ghost use Rattle.manifest.specs.Unknown.{unknown_events, first_unknown};

use crate::typed_value::item;
use toml::{Table, Value};

/// A table of a manifest. Events are numbered from 0.
#[derive(Clone, Copy, Debug, PartialEq, Eq, Drop)]
pub enum KeyTable {
    Top,
    Event(u16),
    InitNeeds,
    RunNeeds,
}

/// A key that its table doesn't know: at most its first 64 bytes, filled up with zeros, and their
/// number.
#[derive(Clone, Copy, Debug, PartialEq, Eq, Drop)]
pub struct UnknownKey {
    pub table: KeyTable,
    pub bytes: [u8; 64],
    pub len: u8,
}

fn first_bytes(key: &[u8]) -> &[u8]
    ensures bytes { result.now ≡ take 64 key.now }
    ensures short { length result.now ≤ 64 }
{
    if key.len() <= 64 { key } else { &key[..64] }
}

fn with_zeros(first: &[u8]) -> [u8; 64]
    requires { length first.now ≤ 64 }
    ensures { result ≡ with_zeros first.now }
{
    let mut bytes = [0; 64];
    bytes[..first.len()].copy_from_slice(first);
    bytes
}

impl UnknownKey {
    #[tactic(auto, using(crate::proofs::Unknowns::in_zeros))]
    fn new(table: KeyTable, key: &[u8]) -> UnknownKey
        ensures { result ≡ unknown_key table key.now }
    {
        let first = first_bytes(key);
        UnknownKey {
            table,
            bytes: with_zeros(first),
            len: first.len() as u8,
        }
    }

    /// The bytes of the key, at most the first 64.
    pub fn as_slice(&self) -> &[u8]
        ensures { result.now ≡ take (min self.now.len 64) self.now.bytes }
    {
        &self.bytes[..usize::from(self.len).min(64)]
    }
}

/// Whether a manifest may lack the key. This is a function of its own, since one chain of eight
/// tests makes the search for a proof several times as long.
fn is_optional_word(key: &str) -> bool
    ensures { result ≡ (bytes_eq key.now (codes "params") || bytes_eq key.now (codes "event")
        || bytes_eq key.now (codes "platform")
        || bytes_eq key.now (codes "init_needs") || bytes_eq key.now (codes "run_needs")) }
{
    key == "params"
        || key == "event"
        || key == "platform"
        || key == "init_needs"
        || key == "run_needs"
}

fn is_top_word(key: &str) -> bool
    ensures { result ≡ is_top_word key.now }
{
    key == "job" || key == "cycle_time_ns" || key == "workers" || is_optional_word(key)
}

fn is_event_word(key: &str) -> bool
    ensures { result ≡ is_event_word key.now }
{
    key == "name" || key == "capacity" || key == "policy"
}

fn is_need_word(key: &str) -> bool
    ensures { result ≡ is_need_word key.now }
{
    key == "instructions"
        || key == "sequential_begin"
        || key == "sequential_end"
        || key == "speedup_thousandths"
}

impl KeyTable {
    #[tactic(auto, using(crate::proofs::Unknowns::known_top, crate::proofs::Unknowns::known_event, crate::proofs::Unknowns::known_init, crate::proofs::Unknowns::known_run))]
    fn knows(self, key: &str) -> bool
        ensures { result ≡ is_known self key.now }
    {
        match self {
            KeyTable::Top => is_top_word(key),
            KeyTable::Event(_) => is_event_word(key),
            KeyTable::InitNeeds | KeyTable::RunNeeds => is_need_word(key),
        }
    }

    /// The least key of these members that the table doesn't know.
    fn unknown_in(self, members: &Table) -> Option<UnknownKey>
        ensures { result
            ≡ option_map (unknown_key self) (unknown_in self (table_view members.now)) }
    {
        'each_member: for (key, _) in members {
            if !self.knows(key.as_str()) {
                return Some(UnknownKey::new(self, key.as_bytes()));
            }
        }
        None
    }

    /// The same in a value that was found, if it is a table.
    fn unknown_at(self, found: Option<&Value>) -> Option<UnknownKey>
        ensures { result ≡ unknown_at self (seen found.entry) }
    {
        match found {
            None => None,
            Some(value) => match value.as_table() {
                None => None,
                Some(members) => self.unknown_in(members),
            },
        }
    }
}

#[tactic(auto, using(crate::proofs::Unknowns::events_step))]
fn unknown_events(tree: &Value, count: u16) -> Option<UnknownKey>
    ensures { result ≡ unknown_events (view tree.now) 0 count }
{
    let events = tree.get("event");
    'each_event: for i in 0..count {
        if let Some(key) = KeyTable::Event(i).unknown_at(item(events, i)) {
            return Some(key);
        }
    }
    None
}

/// The first unknown key of a manifest with `count` events.
pub(crate) fn first_unknown(tree: &Value, count: u16) -> Option<UnknownKey>
    ensures { result ≡ first_unknown (view tree.now) count }
{
    if let Some(key) = KeyTable::Top.unknown_at(Some(tree)) {
        return Some(key);
    }
    if let Some(key) = unknown_events(tree, count) {
        return Some(key);
    }
    if let Some(key) = KeyTable::InitNeeds.unknown_at(tree.get("init_needs")) {
        return Some(key);
    }
    KeyTable::RunNeeds.unknown_at(tree.get("run_needs"))
}
