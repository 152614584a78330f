//! The last keys of a manifest: the platform and the tables of needs.
ghost use Rattle.std.specs.Prelude.{◌≡◌, ◌||◌, IfOk};
ghost use Rattle.std.specs.Option.{ForSome};
ghost use Rattle.toml.specs.View.{view};
ghost use Rattle.manifest.specs.Limits.{IsNeeds};
ghost use Rattle.manifest.specs.Keys.{has};
ghost use Rattle.manifest.specs.Faults.{first_fault};
ghost use Rattle.manifest.specs.KeyReaders.{IsJudged};
ghost use Rattle.manifest.specs.Groups.{last_keys, hardware_in};

use crate::stage::Stage;
use crate::typed_value::platform_name;
use crate::{Key, ManifestFault, Needs, PlatformName};
use toml::Value;

/// The platform, and what is needed of it.
#[derive(Drop)]
pub(crate) struct Hardware {
    pub(crate) platform: Option<PlatformName>,
    pub(crate) init_needs: Option<Needs>,
    pub(crate) run_needs: Option<Needs>,
}

/// Whether a table of needs is there. If so, the platform is required.
fn has_needs(tree: &Value) -> bool
    ensures { result ≡ (has (view tree.now) Key.InitNeeds || has (view tree.now) Key.RunNeeds) }
{
    tree.get("init_needs").is_some() || tree.get("run_needs").is_some()
}

impl Hardware {
    #[tactic(auto, using(crate::proofs::Order::last_fault))]
    pub(crate) fn read(tree: &Value) -> Result<Hardware, ManifestFault>
        ensures judged { IsJudged result (first_fault (view tree.now) last_keys)
            (hardware_in (view tree.now)) }
        ensures init_needs { IfOk result (λ hardware. ForSome hardware.init_needs IsNeeds) }
        ensures run_needs { IfOk result (λ hardware. ForSome hardware.run_needs IsNeeds) }
    {
        let platform = platform_name(tree.get("platform"), Key::Platform, has_needs(tree))?;
        let init_needs = Stage::Init.read_needs(tree)?;
        let run_needs = Stage::Run.read_needs(tree)?;
        Ok(Hardware {
            platform,
            init_needs,
            run_needs,
        })
    }
}
