// CLOC as a mode.
ghost use Rattle.std.specs.Prelude.{ℕ, ◌+◌, max};
ghost use Rattle.blocks.specs.Blocks.{parts};
ghost use Rattle.cloc.specs.Cloc.{HASH, PRF, full_runs, wrong_tag_runs, cloc_of};
ghost use Rattle.cloc.specs.Sizes.{length_PRF};
ghost use Rattle.cloc.specs.Undoing.{cloc_framed, cloc_runs};

use crate::subroutines::{absorb_ozp, bind_nonce, finish, start};
use blocks::steps::{count_blocks, run_one};
use blocks::tweaks::{apply_f2, apply_g1};
use cipher::fault::CipherFault;
use cipher::interface::{Allowance, Cipher};
use frame::framed::Framed;
use frame::scheme::Scheme;

// CLOC over this cipher. What is left of its allowance is the cipher's.
pub type Cloc<C> = Framed<ClocScheme, C>;

// HASH and PRF of CLOC. What runs the cipher hands its fault on; under what the trait requires there is none.
pub struct ClocScheme;

impl Scheme for ClocScheme {
    ghost code = { 1 };

    ghost HASH = { HASH };

    ghost PRF = { PRF };

    ghost hash_runs = { λ b a. max 1 (parts b a) };

    ghost tag_runs = { λ b x. 1 + parts b x };

    ghost full_runs = { full_runs };

    ghost wrong_tag_runs = { wrong_tag_runs };

    ghost mode = { cloc_of };

    fn code() -> u8 {
        1
    }

    fn full_count(width: usize, label: usize, contents: usize) -> u64 {
        (count_blocks(width, label).max(1) + 1 + 2 * count_blocks(width, contents)) as u64
    }

    fn wrong_tag_count(width: usize, label: usize, contents: usize) -> u64 {
        (count_blocks(width, label).max(1) + 1 + count_blocks(width, contents)) as u64
    }

    fn hash<C: Cipher>(
        cipher: &mut C,
        state: &mut [u8],
        param: u8,
        nonce: &[u8],
        label: &[u8],
    ) -> Result<(), CipherFault> {
        let b = state.len();
        if label.len() <= b {
            start(cipher, state, label)?;
            bind_nonce(state, param, nonce, label.len() == b);
            return Ok(());
        }
        let (first, others) = label.split_at(b);
        start(cipher, state, first)?;
        let full = absorb_ozp(cipher, state, others)?;
        run_one(cipher, state)?;
        bind_nonce(state, param, nonce, full);
        Ok(())
    }

    fn tag<C: Cipher>(cipher: &mut C, state: &mut [u8], text: &[u8]) -> Result<(), CipherFault> {
        if text.is_empty() {
            apply_g1(state);
            return run_one(cipher, state);
        }
        apply_f2(state);
        run_one(cipher, state)?;
        let full = absorb_ozp(cipher, state, text)?;
        finish(state, full);
        run_one(cipher, state)
    }

    ghost means = { cloc_framed };

    ghost runs = { cloc_runs };

    ghost tags = { λ b E w k t param N A C l n. length_PRF b E w k t param N A C l };
}
