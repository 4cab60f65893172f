//! Division of whole numbers, rounded down.
ghost use Rattle.std.specs.Prelude.{◌≡◌, ◌≢◌, pos};
ghost use Rattle.ev_value.specs.Division.{floor_quotient, floor_rest, FloorDivides};

/// The law of division: the dividend is the divisor times the quotient and a rest that has the divisor's sign and is
/// smaller, and no other two numbers are so.
pub fn floor_divides()
    ensures { FloorDivides }
{}

/// The quotient of `a` by `b` rounded down, and the rest. In 128 bits neither overflows.
pub fn floor_division(a: i64, b: i64) -> (i128, i128)
    requires { b ≢ pos 0 }
    ensures quotient { result.0 ≡ floor_quotient a b }
    ensures rest { result.1 ≡ floor_rest a b }
{
    let a = a as i128;
    let b = b as i128;
    if b > 0 {
        (a.div_euclid(b), a.rem_euclid(b))
    } else {
        ((-a).div_euclid(-b), -(-a).rem_euclid(-b))
    }
}
