//! Fuel.

ghost use Rattle.std.specs.Prelude.{◌≡◌, ◌+◌, ◌<◌, ◌↔◌, OnOk, OnErr, IsErr, Err};

use crate::fault::Stop;

/// Takes units of fuel. Where fewer are left the answer is `Spent`, and none is left.
#[inline(always)]
pub fn take(fuel: &mut u64, units: u64) -> Result<(), Stop>
    ensures ok { OnOk result (fuel.new + units ≡ fuel.old) }
    ensures spent { IsErr result ↔ (fuel.old < units) }
    ensures cause { OnErr result (result ≡ Err Stop.Spent) }
    ensures empty { OnErr result (fuel.new ≡ 0) }
{
    let left = *fuel;
    if left < units {
        *fuel = 0;
        return Err(Stop::Spent);
    }
    *fuel = left - units;
    Ok(())
}
