//! A manifest that was read, and the first fault of one that can't be.
ghost use Rattle.std.specs.Prelude.{◌≡◌};
ghost use Rattle.c_types.specs.ManifestFaults.{key_of, table_of};

use crate::profile::DetEvent;
use manifest::{Key, KeyTable, ManifestFault, NeedKey, Needs, UnknownKey};

/// The resources that an initialisation or a cycle needs, if `there`. The speedup is in
/// thousandths.
#[repr(C)]
#[derive(Drop)]
pub struct DetNeeds {
    pub instructions: u64,
    pub sequential_begin: u64,
    pub sequential_end: u64,
    pub speedup: u32,
    pub there: bool,
}

/// A manifest. Only the first `.._count` items and the first `.._len` bytes count. The job is the
/// text of the key `job`. `job_len` is 65 if that text has more than 64 bytes, as no name of a job
/// has. `platform_len` is 0 if the manifest names no platform.
#[repr(C)]
#[derive(Drop)]
pub struct DetManifest {
    /// In nanoseconds.
    pub cycle_time: u64,
    pub init_needs: DetNeeds,
    pub run_needs: DetNeeds,
    pub params: [i64; 16],
    pub events: [DetEvent; 256],
    pub workers: u32,
    pub param_count: u16,
    pub event_count: u16,
    pub job: [u8; 64],
    pub platform: [u8; 64],
    pub job_len: u8,
    pub platform_len: u8,
}

/// Why a manifest isn't taken. The reason is 1 for a text that is too long, 2 for one that is no
/// TOML, 3 for a missing key, 4 for a value of a wrong kind, 5 for one out of its range, 6 for an
/// unknown key, 7 for the name of an earlier event, 8 for an unknown job, 9 for a bad parameter.
/// `key` has a number for each key, `number` its event or parameter, and `text` the unknown key.
/// For an unknown key, `key` is the number of its table: 0 at the top, else that of the table's
/// key.
#[repr(C)]
#[derive(Drop)]
pub struct DetManifestFault {
    pub text: [u8; 64],
    pub number: u16,
    pub reason: u8,
    pub key: u8,
    pub text_len: u8,
}

fn key(number: u8, item: u16) -> Option<Key>
    ensures { result ≡ key_of number item }
{
    match number {
        1 => Some(Key::Job),
        2 => Some(Key::CycleTime),
        3 => Some(Key::Workers),
        4 => Some(Key::Params),
        5 => Some(Key::Param(item)),
        6 => Some(Key::Event),
        7 => Some(Key::EventItem(item)),
        8 => Some(Key::EventName(item)),
        9 => Some(Key::EventCapacity(item)),
        10 => Some(Key::EventPolicy(item)),
        11 => Some(Key::Platform),
        12 => Some(Key::InitNeeds),
        13 => Some(Key::InitNeed(NeedKey::Instructions)),
        14 => Some(Key::InitNeed(NeedKey::SequentialBegin)),
        15 => Some(Key::InitNeed(NeedKey::SequentialEnd)),
        16 => Some(Key::InitNeed(NeedKey::Speedup)),
        17 => Some(Key::RunNeeds),
        18 => Some(Key::RunNeed(NeedKey::Instructions)),
        19 => Some(Key::RunNeed(NeedKey::SequentialBegin)),
        20 => Some(Key::RunNeed(NeedKey::SequentialEnd)),
        21 => Some(Key::RunNeed(NeedKey::Speedup)),
        _ => None,
    }
}

fn table(number: u8, item: u16) -> Option<KeyTable>
    ensures { result ≡ table_of number item }
{
    match number {
        0 => Some(KeyTable::Top),
        7 => Some(KeyTable::Event(item)),
        12 => Some(KeyTable::InitNeeds),
        17 => Some(KeyTable::RunNeeds),
        _ => None,
    }
}

impl DetNeeds {
    ghost use Rattle.c_types.specs.ManifestFaults.{needs_of};

    /// The needs, if they are there.
    pub fn needs(&self) -> Option<Needs>
        ensures { result ≡ needs_of self.now }
    {
        if !self.there {
            return None;
        }
        Some(Needs {
            instructions: self.instructions,
            sequential_begin: self.sequential_begin,
            sequential_end: self.sequential_end,
            speedup: self.speedup,
        })
    }
}

impl DetManifestFault {
    ghost use Rattle.c_types.specs.ManifestFaults.{unknown_key_of, fault_of};

    fn unknown_key(&self) -> Option<UnknownKey>
        ensures { result ≡ unknown_key_of self.now }
    {
        let table = table(self.key, self.number)?;
        Some(UnknownKey {
            table,
            bytes: self.text,
            len: self.text_len,
        })
    }

    /// The fault of the manifest. None if the numbers are those of no fault, and for a bad
    /// parameter.
    pub fn fault(&self) -> Option<ManifestFault>
        ensures { result ≡ fault_of self.now }
    {
        let key = key(self.key, self.number);
        match self.reason {
            1 => Some(ManifestFault::TooLong),
            2 => Some(ManifestFault::NotToml),
            3 => Some(ManifestFault::Missing(key?)),
            4 => Some(ManifestFault::WrongKind(key?)),
            5 => Some(ManifestFault::OutOfRange(key?)),
            6 => Some(ManifestFault::UnknownKey(self.unknown_key()?)),
            7 => Some(ManifestFault::DuplicateEvent(self.number)),
            8 => Some(ManifestFault::UnknownJob),
            _ => None,
        }
    }
}
