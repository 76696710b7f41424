// What every refusal is, whichever layer names it.
ghost use Rattle.std.specs.Prelude.{◌≡◌, ℕ};
ghost use Rattle.refusal.specs.declared.layer.Layer.{Layer as Layers};
ghost use Rattle.refusal.specs.declared.values.Values.{Values as Told};

use crate::layer::Layer;
use crate::values::Values;

// A refusal: the number of its cause in the table of refusals, the layer that names it, and the values that it tells.
pub trait Refusal {
    ghost number_of: { Self → ℕ };

    ghost layer_of: { Self → Layers };

    ghost values_of: { Self → Told };

    fn number(&self) -> u8
        ensures { result ≡ number_of self.now };

    // The layer that the number names: a carried refusal's own.
    fn layer(&self) -> Layer
        ensures { result ≡ layer_of self.now };

    fn values(&self) -> Values
        ensures { result ≡ values_of self.now };
}
