//! Faults of a manifest, by C's numbers.
ghost use Rattle.std.specs.Prelude.{◌≡◌, Some};
ghost use Rattle.c_types.specs.ManifestFaults.{key_of, table_of, fault_of};
ghost use Rattle.manifest.specs.declared.manifest_fault.ManifestFault.TheVariants as faults;

use c_types::DetManifestFault;
use manifest::{Key, KeyTable, ManifestFault, NeedKey, UnknownKey};

/// The number of a key, and that of its event or parameter.
fn key_numbers(key: Key) -> (u8, u16)
    ensures { key_of result.0 result.1 ≡ Some key }
{
    match key {
        Key::Job => (1, 0),
        Key::CycleTime => (2, 0),
        Key::Workers => (3, 0),
        Key::Params => (4, 0),
        Key::Param(n) => (5, n),
        Key::Event => (6, 0),
        Key::EventItem(n) => (7, n),
        Key::EventName(n) => (8, n),
        Key::EventCapacity(n) => (9, n),
        Key::EventPolicy(n) => (10, n),
        Key::Platform => (11, 0),
        Key::InitNeeds => (12, 0),
        Key::InitNeed(NeedKey::Instructions) => (13, 0),
        Key::InitNeed(NeedKey::SequentialBegin) => (14, 0),
        Key::InitNeed(NeedKey::SequentialEnd) => (15, 0),
        Key::InitNeed(NeedKey::Speedup) => (16, 0),
        Key::RunNeeds => (17, 0),
        Key::RunNeed(NeedKey::Instructions) => (18, 0),
        Key::RunNeed(NeedKey::SequentialBegin) => (19, 0),
        Key::RunNeed(NeedKey::SequentialEnd) => (20, 0),
        Key::RunNeed(NeedKey::Speedup) => (21, 0),
    }
}

/// The number of the table's key, and that of its event.
fn table_numbers(table: KeyTable) -> (u8, u16)
    ensures { table_of result.0 result.1 ≡ Some table }
{
    match table {
        KeyTable::Top => (0, 0),
        KeyTable::Event(n) => (7, n),
        KeyTable::InitNeeds => (12, 0),
        KeyTable::RunNeeds => (17, 0),
    }
}

fn in_fault(reason: u8, key: u8, number: u16) -> DetManifestFault
    ensures reason { result.reason ≡ reason }
    ensures key { result.key ≡ key }
    ensures number { result.number ≡ number }
{
    DetManifestFault {
        text: [0; 64],
        number,
        reason,
        key,
        text_len: 0,
    }
}

fn at_key(reason: u8, at: Key) -> DetManifestFault
    ensures reason { result.reason ≡ reason }
    ensures key { key_of result.key result.number ≡ Some at }
{
    let (key, number) = key_numbers(at);
    in_fault(reason, key, number)
}

fn unknown_key(unknown: UnknownKey) -> DetManifestFault
    ensures { fault_of result ≡ Some (faults.UnknownKey unknown) }
{
    let (key, number) = table_numbers(unknown.table);
    let text = unknown.bytes;
    DetManifestFault {
        text,
        number,
        reason: 6,
        key,
        text_len: unknown.len,
    }
}

/// The struct of a fault.
pub(crate) fn fault_struct(fault: ManifestFault) -> DetManifestFault
    ensures { fault_of result ≡ Some fault }
{
    match fault {
        ManifestFault::TooLong => in_fault(1, 0, 0),
        ManifestFault::NotToml => in_fault(2, 0, 0),
        ManifestFault::Missing(key) => at_key(3, key),
        ManifestFault::WrongKind(key) => at_key(4, key),
        ManifestFault::OutOfRange(key) => at_key(5, key),
        ManifestFault::UnknownKey(key) => unknown_key(key),
        ManifestFault::DuplicateEvent(number) => in_fault(7, 0, number),
        ManifestFault::UnknownJob => in_fault(8, 0, 0),
    }
}
