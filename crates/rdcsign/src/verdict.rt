//! Which flops read across resets.

ghost use Rattle.std.specs.Prelude.{◌≡◌, List};
ghost use Rattle.thin_form.specs.Formula.{Formula};
ghost use Rattle.thin_form.specs.Netlist.{flop_of};
ghost use Rattle.rdcsign.specs.Origin.{allows};

use crate::origin::Origin;
use thin_form::Flop;

/// Whether a flop that reads sources of this origin reads nothing that another reset may unsettle.
pub fn is_same_edge(flop: Flop, origin: Origin) -> bool
    ensures { (known : List Formula) → result ≡ allows (flop_of known flop) origin }
{
    match origin {
        Origin::Ports => true,
        Origin::Flops(pin, high) => flop.pin == pin && flop.high == high,
        Origin::Mixed => false,
    }
}
