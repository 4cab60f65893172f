//! The least byte at which something fails.
ghost use Rattle.std.specs.Prelude.{◌≡◌};
ghost use Rattle.schema_build.specs.Least.{sooner as sooner_of, at_if as at_if_of};

/// The lesser of two bytes, as far as there are any.
pub fn sooner(left: Option<u32>, right: Option<u32>) -> Option<u32>
    ensures { result ≡ sooner_of left right }
{
    match (left, right) {
        (None, byte) | (byte, None) => byte,
        (Some(a), Some(b)) => Some(if b < a { b } else { a }),
    }
}

/// A byte, where something fails there.
pub fn at_if(fails: bool, byte: u32) -> Option<u32>
    ensures { result ≡ at_if_of fails byte }
{
    if fails { Some(byte) } else { None }
}
