//! The parameters of a manifest.
ghost use Rattle.std.specs.Prelude.{◌≡◌};
ghost use Rattle.toml.specs.View.{view};
ghost use Rattle.manifest.specs.Groups.{params_keys};
ghost use Rattle.manifest.specs.Faults.{first_fault};
ghost use Rattle.manifest.specs.KeyReaders.{IsRead};
ghost use Rattle.manifest.specs.Meaning.{params_of};

use crate::typed_value::{count, item, whole};
use crate::{Key, ManifestError};
use det_values::Params;
use std::alloc::Global;
use toml::Value;

/// The parameters, none if the key is absent.
#[tactic(auto, using(crate::proofs::Steps::params_fault, crate::proofs::Steps::values_step))]
pub(crate) fn read_params(alloc: Global, tree: &Value) -> Result<Params, ManifestError>
    ensures { IsRead result (first_fault (view tree.now) (params_keys (view tree.now)))
        (params_of (view tree.now)) }
{
    let list = tree.get("params");
    let count = count(list, Key::Params, 16)?;
    let mut params = Params::new(alloc);
    for i in 0..count {
        params.push(whole(item(list, i), Key::Param(i))?)?;
    }
    Ok(params)
}
