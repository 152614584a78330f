//! The two tables of needs, which have the same keys.
ghost use Rattle.std.specs.Prelude.{◌≡◌, ◌≤◌, true, IfOk};
ghost use Rattle.std.specs.Option.{ForSome};
ghost use Rattle.toml.specs.View.{view};
ghost use Rattle.manifest.specs.Limits.{IsNeeds};
ghost use Rattle.manifest.specs.Tree.{number_of};
ghost use Rattle.manifest.specs.Keys.{needs_keys, found, has};
ghost use Rattle.manifest.specs.Faults.{first_fault, fault_at};
ghost use Rattle.manifest.specs.KeyReaders.{seen, section_key, need_key, need_least};
ghost use Rattle.manifest.specs.KeyReaders.{need_most, IsJudged};
ghost use Rattle.manifest.specs.Meaning.{needs_of};

use crate::typed_value::{member, number, section};
use crate::{Key, ManifestFault, NeedKey, Needs};
use toml::Value;

/// The initialisation or a run, each of which has a table of needs.
#[derive(Clone, Copy, Drop)]
pub(crate) enum Stage {
    Init,
    Run,
}

impl Stage {
    fn section_key(self) -> Key
        ensures { result ≡ section_key self }
    {
        match self {
            Stage::Init => Key::InitNeeds,
            Stage::Run => Key::RunNeeds,
        }
    }

    fn need_key(self, need: NeedKey) -> Key
        ensures { result ≡ need_key self need }
    {
        match self {
            Stage::Init => Key::InitNeed(need),
            Stage::Run => Key::RunNeed(need),
        }
    }

    /// The value at the table's key, if there is one.
    fn section(self, tree: &Value) -> Option<&Value>
        ensures { seen result ≡ found (view tree.now) (section_key self) }
    {
        match self {
            Stage::Init => tree.get("init_needs"),
            Stage::Run => tree.get("run_needs"),
        }
    }

    /// Whether the table is there. A value of another kind is a fault.
    #[tactic(auto, using(crate::proofs::NeedKeys::section_fault))]
    fn is_there(self, tree: &Value) -> Result<bool, ManifestFault>
        ensures { IsJudged result (fault_at (view tree.now) (section_key self))
            (has (view tree.now) (section_key self)) }
    {
        section(self.section(tree), self.section_key())
    }

    /// The number at a key of the table. The table must be there.
    fn need(self, tree: &Value, need: NeedKey) -> Result<u64, ManifestFault>
        requires { has (view tree.now) (section_key self) ≡ true }
        ensures judged { IsJudged result (fault_at (view tree.now) (need_key self need))
            (number_of (found (view tree.now) (need_key self need))) }
        ensures least { IfOk result (λ n. need_least need ≤ n) }
        ensures most { IfOk result (λ n. n ≤ need_most need) }
    {
        let found = member(self.section(tree), need.word());
        number(found, self.need_key(need), need.least(), need.most())
    }

    /// The needs in the table, or None if its key is absent.
    pub(crate) fn read_needs(self, tree: &Value) -> Result<Option<Needs>, ManifestFault>
        ensures judged { IsJudged result (first_fault (view tree.now)
            (needs_keys (section_key self) (need_key self)))
            (needs_of (view tree.now) (section_key self) (need_key self)) }
        ensures range { IfOk result (λ needs. ForSome needs IsNeeds) }
    {
        if !self.is_there(tree)? {
            return Ok(None);
        }
        let instructions = self.need(tree, NeedKey::Instructions)?;
        let sequential_begin = self.need(tree, NeedKey::SequentialBegin)?;
        let sequential_end = self.need(tree, NeedKey::SequentialEnd)?;
        let speedup = self.need(tree, NeedKey::Speedup)?;
        Ok(Some(Needs {
            instructions,
            sequential_begin,
            sequential_end,
            speedup: speedup as u32,
        }))
    }
}
