// Writing a tube, past every check.
ghost use Rattle.std.specs.Prelude.{◌≡◌, ◌++◌, length, drop, Ok};
ghost use Rattle.cipher.specs.Left.{spent};
ghost use Rattle.tube.specs.Write.{nonce_of};
ghost use Rattle.sender.specs.Send.{Passes, sealed_tube, tube_size};

use crate::sending::Sending;
use crate::sent::Sent;
use mode::fault::ModeFault;
use mode::interface::Mode;
use tube::limits::{MAX_NONCE, MAX_TAG};
use tube::writing::{enclose, fill};

impl Sending {
    // The tube of label and contents under the next number.
    pub(crate) fn write_tube<M: Mode>(
        &self,
        mode: &mut M,
        label: &[u8],
        contents: &[u8],
        out: &mut [u8],
        work: &mut [u8],
    ) -> Result<Sent, ModeFault>
        requires work { length work.old ≡ 64 }
        requires passes { Passes (M.Mode.meaning mode.old) (M.Allowance.remaining mode.old) self.now.«set» self.now.next (length label.now) (length contents.now) (length out.old) }
        ensures answers { result ≡ Ok (record { len = tube_size self.now.«set» (length label.now) (length contents.now); count = (M.Mode.meaning mode.old).seal_runs (length label.now) (length contents.now) }) }
        ensures out { out.new ≡ sealed_tube (M.Mode.meaning mode.old) self.now.«set» (nonce_of self.now.«set».nonce self.now.next) label.now contents.now ++ drop (tube_size self.now.«set» (length label.now) (length contents.now)) out.old }
        ensures left { M.Allowance.remaining mode.new ≡ spent (M.Allowance.remaining mode.old) ((M.Mode.meaning mode.old).seal_runs (length label.now) (length contents.now)) }
        ensures same { M.Mode.meaning mode.new ≡ M.Mode.meaning mode.old }
    {
        // Kept: an array of the most bytes, here and for the tag, of which a part is used, since nothing is allocated.
        let mut store = [0; MAX_NONCE];
        let nonce = &mut store[..self.set.nonce()];
        fill(self.next, nonce);
        self.seal_tube(mode, nonce, label, contents, out, work)
    }

    // The same under the nonce given: the ciphertext is sealed into its place, the other sections are written around it.
    fn seal_tube<M: Mode>(
        &self,
        mode: &mut M,
        nonce: &[u8],
        label: &[u8],
        contents: &[u8],
        out: &mut [u8],
        work: &mut [u8],
    ) -> Result<Sent, ModeFault>
        requires work { length work.old ≡ 64 }
        requires nonce { length nonce.now ≡ self.now.«set».nonce }
        requires passes { Passes (M.Mode.meaning mode.old) (M.Allowance.remaining mode.old) self.now.«set» self.now.next (length label.now) (length contents.now) (length out.old) }
        ensures answers { result ≡ Ok (record { len = tube_size self.now.«set» (length label.now) (length contents.now); count = (M.Mode.meaning mode.old).seal_runs (length label.now) (length contents.now) }) }
        ensures out { out.new ≡ sealed_tube (M.Mode.meaning mode.old) self.now.«set» nonce.now label.now contents.now ++ drop (tube_size self.now.«set» (length label.now) (length contents.now)) out.old }
        ensures left { M.Allowance.remaining mode.new ≡ spent (M.Allowance.remaining mode.old) ((M.Mode.meaning mode.old).seal_runs (length label.now) (length contents.now)) }
        ensures same { M.Mode.meaning mode.new ≡ M.Mode.meaning mode.old }
    {
        let set = &self.set;
        let text = contents.len();
        let at = 18 + nonce.len() + label.len();
        let to = at + text;
        let mut store = [0; MAX_TAG];
        let tag = &mut store[..set.tag()];
        let count = mode.seal(set, nonce, label, contents, &mut out[at..to], tag, work)?;
        let wrote = enclose(set.code(), set.param(), nonce, label, text, tag, out);
        let len = wrote.unwrap();
        Ok(Sent { len, count })
    }
}
