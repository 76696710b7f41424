// Making a set of any five bytes that keep its rule.
ghost use Rattle.std.specs.Prelude.{◌≡◌};
ghost use Rattle.mode.specs.Set.{new_set, shown_result};

use crate::fault::ModeFault;
use crate::set::ParameterSet;
use crate::set::field::SetField;

impl ParameterSet {
    // The set of these fields, or refusal 4 with the first field that breaks the rule.
    pub fn new(
        code: u8,
        width: u8,
        nonce: u8,
        tag: u8,
        param: u8,
    ) -> Result<ParameterSet, ModeFault>
        ensures { shown_result result ≡ new_set code width nonce tag param }
    {
        if code != 1 && code != 2 {
            return Err(ModeFault::Set(SetField::Code));
        }
        if width != 8 && width != 16 {
            return Err(ModeFault::Set(SetField::Width));
        }
        if nonce < 1 || nonce > width - 2 {
            return Err(ModeFault::Set(SetField::Nonce));
        }
        if tag < 1 || tag > width {
            return Err(ModeFault::Set(SetField::Tag));
        }
        Ok(ParameterSet {
            code,
            width,
            nonce,
            tag,
            param,
        })
    }
}
