// SILC as a mode.
ghost use Rattle.std.specs.Prelude.{ℕ, ◌+◌, ◌-◌};
ghost use Rattle.blocks.specs.Blocks.{parts};
ghost use Rattle.silc.specs.Silc.{HASH, PRF, silc_runs, silc_of};
ghost use Rattle.silc.specs.Sound.{silc_split, silc_framed, length_tag};

use crate::subroutines::chain_text;
use blocks::padding::write_nonce;
use blocks::steps::{count_blocks, run_one};
use blocks::tweaks::apply_g;
use cipher::fault::CipherFault;
use cipher::interface::{Allowance, Cipher};
use frame::framed::Framed;
use frame::scheme::Scheme;

// SILC over this cipher. What is left of its allowance is the cipher's.
pub type Silc<C> = Framed<SilcScheme, C>;

// HASH and PRF of SILC. What runs the cipher hands its fault on; under what the trait requires there is none.
pub struct SilcScheme;

impl Scheme for SilcScheme {
    ghost code = { 2 };

    ghost HASH = { HASH };

    ghost PRF = { PRF };

    ghost hash_runs = { λ b a. 1 + parts b a };

    ghost tag_runs = { λ b x. 2 + parts b x };

    ghost full_runs = { silc_runs };

    ghost wrong_tag_runs = { λ b a x. silc_runs b a x - parts b x };

    ghost mode = { silc_of };

    fn code() -> u8 {
        2
    }

    fn full_count(width: usize, label: usize, contents: usize) -> u64 {
        (count_blocks(width, label) + 3 + 2 * count_blocks(width, contents)) as u64
    }

    fn wrong_tag_count(width: usize, label: usize, contents: usize) -> u64 {
        (count_blocks(width, label) + 3 + count_blocks(width, contents)) as u64
    }

    #[tactic(auto, unfolding(crate::specs::Silc::HASH))]
    fn hash<C: Cipher>(
        cipher: &mut C,
        state: &mut [u8],
        param: u8,
        nonce: &[u8],
        label: &[u8],
    ) -> Result<(), CipherFault> {
        write_nonce(state, param, nonce);
        chain_text(cipher, state, label)
    }

    #[tactic(auto, unfolding(crate::specs::Silc::PRF))]
    fn tag<C: Cipher>(cipher: &mut C, state: &mut [u8], text: &[u8]) -> Result<(), CipherFault> {
        apply_g(state);
        chain_text(cipher, state, text)?;
        run_one(cipher, state)
    }

    ghost means = { silc_framed };

    ghost runs = { silc_split };

    ghost tags = { length_tag };
}
