// Values with many parts. Of a type parameter, a drop is one step to the proof: of a stream or of catalogues it is
// many, with a fork at each. So where such values are dropped, it is here, or by a call of `drop`.
ghost use Rattle.std.specs.Prelude.{◌≡◌, Ok, IfOk, IfErr};
ghost use Rattle.xds_resource.specs.declared.refusal.Refusal.TheVariants.{OutOfMemory};

use xds_resource::Refusal;

/// Puts a value in the place of another.
pub fn put<V: Drop>(place: &mut V, value: V)
    ensures { place.new ≡ value }
{
    *place = value;
}

/// The values of five calls that only `OutOfMemory` refuses, where none of them is.
pub fn five<A: Drop, B: Drop, C: Drop, D: Drop, E: Drop>(
    cluster: Result<A, Refusal>,
    endpoint: Result<B, Refusal>,
    listener: Result<C, Refusal>,
    route: Result<D, Refusal>,
    secret: Result<E, Refusal>,
) -> Result<(A, B, C, D, E), Refusal>
    requires cluster { IfErr cluster (λ e. e ≡ OutOfMemory) }
    requires endpoint { IfErr endpoint (λ e. e ≡ OutOfMemory) }
    requires listener { IfErr listener (λ e. e ≡ OutOfMemory) }
    requires route { IfErr route (λ e. e ≡ OutOfMemory) }
    requires secret { IfErr secret (λ e. e ≡ OutOfMemory) }
    ensures cluster { IfOk result (λ p. cluster ≡ Ok p.0) }
    ensures endpoint { IfOk result (λ p. endpoint ≡ Ok p.1) }
    ensures listener { IfOk result (λ p. listener ≡ Ok p.2) }
    ensures route { IfOk result (λ p. route ≡ Ok p.3) }
    ensures secret { IfOk result (λ p. secret ≡ Ok p.4) }
    ensures refused { IfErr result (λ e. e ≡ OutOfMemory) }
{
    Ok((cluster?, endpoint?, listener?, route?, secret?))
}
