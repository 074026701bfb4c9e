// What several parts of a world use.
ghost use Rattle.std.specs.Prelude.{◌≡◌, is_some};

/// Whether there is a value, which is dropped.
pub fn is_there<T: Drop>(value: Option<T>) -> bool
    ensures { result ≡ is_some value }
{
    value.is_some()
}
