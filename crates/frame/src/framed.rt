// A scheme over a cipher, as a mode.
ghost use Rattle.std.specs.Prelude.{◌≡◌, ◌≤◌, ◌++◌, IfOk, Ok, Err};
ghost use Rattle.refusal.specs.Cause.{first, unless};
ghost use Rattle.mode.specs.Causes.{fit_causes, left_causes, Fits};
ghost use Rattle.std.proofs.Common.{rules};
ghost use Rattle.frame.specs.Framed.{framed};
ghost use Rattle.frame.specs.Sound.{framed_lawful};

use crate::message::{open_message, seal_message};
use crate::scheme::Scheme;
use cipher::interface::{Allowance, Cipher};
use mode::checks::{check_fit, check_left, check_limits, check_work};
use mode::count::RunCount;
use mode::fault::ModeFault;
use mode::interface::Mode;
use mode::set::ParameterSet;
use mode::work::Wiped;
use std::marker::PhantomData;

// The scheme over this cipher. What is left of its allowance is the cipher's.
#[derive(Drop)]
pub struct Framed<S, C> {
    cipher: C,
    scheme: PhantomData<S>,
}

impl<S: Scheme, C: Cipher> Framed<S, C> {
    pub fn new(cipher: C) -> Self
        ensures { result.cipher ≡ cipher }
    {
        Framed {
            cipher,
            scheme: PhantomData,
        }
    }

    // Takes the mode off the cipher.
    pub fn into_cipher(self) -> C
        ensures { result ≡ self.cipher }
    {
        let Framed { cipher, scheme: _ } = self;
        cipher
    }

    // Kept: the lengths one by one, as the checks take them.
    // Checks 7 to 11 of a call on a message, and the count of runs that it makes if it is accepted.
    fn admit(
        &self,
        set: &ParameterSet,
        nonce: usize,
        label: usize,
        text: usize,
        out: usize,
        tag: usize,
    ) -> Result<u64, ModeFault>
        ensures answers { result ≡ unless (first (fit_causes S.code (C.Cipher.width self.now.cipher) «set».now nonce label text out tag ++ left_causes (S.full_runs (C.Cipher.width self.now.cipher) label text) (C.Allowance.remaining self.now.cipher))) Err (Ok (S.full_runs (C.Cipher.width self.now.cipher) label text)) }
        ensures fits { IfOk result (λ _. Fits S.code (C.Cipher.width self.now.cipher) «set».now nonce label text out tag) }
        ensures left { IfOk result (λ n. n ≤ C.Allowance.remaining self.now.cipher) }
    {
        let b = self.cipher.width();
        check_fit(S::code(), b as u8, set, nonce, label, text, out, tag)?;
        let count = S::full_count(b, label, text);
        check_left(count, self.cipher.left())?;
        Ok(count)
    }
}

impl<S: Scheme, C: Cipher> Allowance for Framed<S, C> {
    ghost remaining = { λ m. C.Allowance.remaining m.cipher };

    ghost bounded = { Prim.search rules };

    fn left(&self) -> u64 {
        self.cipher.left()
    }
}

impl<S: Scheme, C: Cipher> Mode for Framed<S, C> {
    ghost meaning = { λ m. framed (C.Cipher.width m.cipher) (C.Cipher.E m.cipher) (S.PRF (C.Cipher.width m.cipher) (C.Cipher.E m.cipher)) S.code (S.HASH (C.Cipher.width m.cipher) (C.Cipher.E m.cipher)) (S.full_runs (C.Cipher.width m.cipher)) (S.wrong_tag_runs (C.Cipher.width m.cipher)) };

    ghost lawful = { λ m. framed_lawful (C.Cipher.width m.cipher) (C.Cipher.E m.cipher) (S.PRF (C.Cipher.width m.cipher) (C.Cipher.E m.cipher)) (S.HASH (C.Cipher.width m.cipher) (C.Cipher.E m.cipher)) S.code (S.hash_runs (C.Cipher.width m.cipher)) (S.tag_runs (C.Cipher.width m.cipher)) (S.full_runs (C.Cipher.width m.cipher)) (S.wrong_tag_runs (C.Cipher.width m.cipher)) (C.Cipher.widths m.cipher) (S.tags (C.Cipher.width m.cipher) (C.Cipher.E m.cipher) (C.Cipher.widths m.cipher) (C.Cipher.blocks m.cipher)) (S.runs (C.Cipher.width m.cipher)) };

    fn code(&self) -> u8 {
        S::code()
    }

    fn width(&self) -> u8 {
        self.cipher.width() as u8
    }

    fn count(&self, which: RunCount, label: usize, contents: usize) -> Result<u64, ModeFault> {
        check_limits(label, contents)?;
        let b = self.cipher.width();
        match which {
            RunCount::Sealing | RunCount::Opening => Ok(S::full_count(b, label, contents)),
            RunCount::WrongTag => Ok(S::wrong_tag_count(b, label, contents)),
        }
    }

    fn seal(
        &mut self,
        set: &ParameterSet,
        nonce: &[u8],
        label: &[u8],
        contents: &[u8],
        out: &mut [u8],
        tag: &mut [u8],
        work: &mut [u8],
    ) -> Result<u64, ModeFault> {
        check_work(work.len())?;
        let guard = Wiped { bytes: work };
        let count = self.admit(
            set,
            nonce.len(),
            label.len(),
            contents.len(),
            out.len(),
            tag.len(),
        )?;
        let b = self.cipher.width();
        let (state, rest) = guard.bytes.split_at_mut(b);
        let (base, _) = rest.split_at_mut(b);
        S::hash(&mut self.cipher, state, set.param(), nonce, label)?;
        seal_message::<S, C>(&mut self.cipher, contents, out, tag, state, base)?;
        Ok(count)
    }

    fn open(
        &mut self,
        set: &ParameterSet,
        nonce: &[u8],
        label: &[u8],
        ciphertext: &[u8],
        tag: &[u8],
        out: &mut [u8],
        work: &mut [u8],
    ) -> Result<u64, ModeFault> {
        check_work(work.len())?;
        let guard = Wiped { bytes: work };
        let count = self.admit(
            set,
            nonce.len(),
            label.len(),
            ciphertext.len(),
            out.len(),
            tag.len(),
        )?;
        let b = self.cipher.width();
        let (state, rest) = guard.bytes.split_at_mut(b);
        let (base, _) = rest.split_at_mut(b);
        S::hash(&mut self.cipher, state, set.param(), nonce, label)?;
        let same = open_message::<S, C>(&mut self.cipher, ciphertext, tag, out, state, base)?;
        if !same {
            return Err(ModeFault::Tag(S::wrong_tag_count(b, label.len(), ciphertext.len())));
        }
        Ok(count)
    }
}
