// Ciphers and modes by their names.
use crate::input::Input;
use crate::line::{Case, CaseFault};
use aes::aes128::Aes128;
use any::ciphers::OneOf;
use any::modes::Either;
use cipher::keyed::{Keyed, Schedule};
use cipher::meter::Meter;
use cloc::cloc::Cloc;
use led::led80::Led80;
use present::present80::Present80;
use silc::silc::Silc;
use twine::twine80::Twine80;

pub type AnyCipher = OneOf<Aes128, Present80, Led80, Twine80>;

pub type AnyMode = Either<Cloc<Meter<AnyCipher>>, Silc<Meter<AnyCipher>>>;

// A cipher under the key of the next input.
fn read_key<S: Schedule<K, B> + Drop, const K: usize, const B: usize>(
    case: &mut Case,
) -> Result<Keyed<S, K, B>, CaseFault> {
    let key = case.bytes(Input::Key)?;
    let mut cipher = Keyed::new();
    cipher
        .set_key(key.as_slice())
        .map_err(|_| CaseFault::Bad(Input::Key))?;
    Ok(cipher)
}

// The cipher that this input names, under the key behind it.
pub fn read_cipher(case: &mut Case, input: Input) -> Result<AnyCipher, CaseFault> {
    Ok(match case.text(input)? {
        "AES-128" => OneOf::First(read_key(case)?),
        "PRESENT-80" => OneOf::Second(read_key(case)?),
        "LED-80" => OneOf::Third(read_key(case)?),
        "TWINE-80" => OneOf::Fourth(read_key(case)?),
        _ => return Err(CaseFault::Bad(input)),
    })
}

// A meter over the cipher of the next inputs, with this quota.
fn read_meter<F: FnOnce(&mut Case) -> Result<u64, CaseFault>>(
    case: &mut Case,
    quota: F,
) -> Result<Meter<AnyCipher>, CaseFault>
    requires { F.IsAlwaysCallable quota }
{
    let cipher = read_cipher(case, Input::Cipher)?;
    Ok(Meter::new(cipher, quota(case)?))
}

// The mode of the next inputs, over such a meter.
fn read_mode<F: FnOnce(&mut Case) -> Result<u64, CaseFault>>(
    case: &mut Case,
    quota: F,
) -> Result<AnyMode, CaseFault>
    requires { F.IsAlwaysCallable quota }
{
    match case.text(Input::Mode)? {
        "CLOC" => Ok(Either::First(Cloc::new(read_meter(case, quota)?))),
        "SILC" => Ok(Either::Second(Silc::new(read_meter(case, quota)?))),
        _ => Err(CaseFault::Bad(Input::Mode)),
    }
}

// The mode of the next inputs, with the quota behind them.
pub fn read_metered(case: &mut Case) -> Result<AnyMode, CaseFault> {
    read_mode(case, |case| case.number(Input::Quota))
}

// The mode of the next inputs, without end.
pub fn read_endless(case: &mut Case) -> Result<AnyMode, CaseFault> {
    read_mode(case, |_| Ok(u64::MAX))
}
