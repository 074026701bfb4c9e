// Names with their types, by which resources of all types stand in one map.
ghost use Rattle.std.specs.Prelude.{◌≡◌, string_bytes, IfOk, IfErr};
ghost use Rattle.xds_sources.specs.Keys.{key};

use std::alloc::Global;
use xds_resource::{Refusal, TypeName};

/// A name with its type, as `cluster NAME`. In ascending order keys of a type stand together, in the order of types.
pub fn key_of(alloc: Global, kind: TypeName, name: &str) -> Result<String, Refusal>
    ensures ok { IfOk result (λ t. string_bytes t ≡ key kind name.now) }
    ensures refused { IfErr result (λ e. e ≡ Refusal.OutOfMemory) }
{
    let word = kind.word();
    Ok(format!(in alloc; "{word} {name}")?)
}
