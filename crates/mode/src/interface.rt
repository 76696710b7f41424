// What every mode is: an authenticated cipher over some block cipher, with what it computes and how many cipher runs that takes.
ghost use Rattle.std.specs.Prelude.{◌≡◌, length};
ghost use Rattle.mode.specs.Counting.{counted};
ghost use Rattle.mode.specs.Meaning.{Meaning, Lawful};
ghost use Rattle.mode.specs.Opening.{open_verdict, open_answer, open_out, open_left};
ghost use Rattle.mode.specs.Sealing.{seal_verdict, seal_answer, seal_out, seal_tag, seal_left};
ghost use Rattle.mode.specs.Work.{work_after};

use crate::count::RunCount;
use crate::fault::ModeFault;
use crate::set::ParameterSet;
use cipher::interface::Allowance;

// A mode (of operation) for authenticated encryption. To seal is to encrypt the contents (plaintext) and to authenticate them together
// with the label (associated data); to open is to check the tag, and only then to decrypt. What is left of its allowance is what is left
// of its cipher's.
pub trait Mode: Allowance {
    ghost meaning: { Self → Meaning };

    fn code(&self) -> u8
        ensures { result ≡ (meaning self.now).code };

    fn width(&self) -> u8
        ensures { result ≡ (meaning self.now).width };

    // How many cipher runs a call makes on a label and contents of these lengths.
    fn count(&self, which: RunCount, label: usize, contents: usize) -> Result<u64, ModeFault>
        ensures { result ≡ counted (meaning self.now) which label contents };

    // Kept: the inputs of an authenticated cipher one by one, here and in `open`, as its callers have them; the parts are lent. Each clause
    // spells out how the call comes out, since no two clauses share a name for it.
    // Writes ciphertext and tag, and answers the count of cipher runs. A refusal leaves both parts and the allowance as they were.
    fn seal(
        &mut self,
        set: &ParameterSet,
        nonce: &[u8],
        label: &[u8],
        contents: &[u8],
        out: &mut [u8],
        tag: &mut [u8],
        work: &mut [u8],
    ) -> Result<u64, ModeFault>
        ensures answers { result ≡ seal_answer (seal_verdict (meaning self.old) (Self.Allowance.remaining self.old) «set».now nonce.now label.now contents.now (length out.old) (length tag.old) (length work.old)) }
        ensures out { out.new ≡ seal_out (seal_verdict (meaning self.old) (Self.Allowance.remaining self.old) «set».now nonce.now label.now contents.now (length out.old) (length tag.old) (length work.old)) out.old }
        ensures tag { tag.new ≡ seal_tag (seal_verdict (meaning self.old) (Self.Allowance.remaining self.old) «set».now nonce.now label.now contents.now (length out.old) (length tag.old) (length work.old)) tag.old }
        ensures left { Self.Allowance.remaining self.new ≡ seal_left (seal_verdict (meaning self.old) (Self.Allowance.remaining self.old) «set».now nonce.now label.now contents.now (length out.old) (length tag.old) (length work.old)) (Self.Allowance.remaining self.old) }
        ensures work { work.new ≡ work_after work.old }
        ensures same { meaning self.new ≡ meaning self.old };

    // Checks the tag, then writes the contents, and answers the count of cipher runs. A refusal leaves the part as it was, and, but for
    // that of a wrong tag, the allowance.
    fn open(
        &mut self,
        set: &ParameterSet,
        nonce: &[u8],
        label: &[u8],
        ciphertext: &[u8],
        tag: &[u8],
        out: &mut [u8],
        work: &mut [u8],
    ) -> Result<u64, ModeFault>
        ensures answers { result ≡ open_answer (open_verdict (meaning self.old) (Self.Allowance.remaining self.old) «set».now nonce.now label.now ciphertext.now tag.now (length out.old) (length work.old)) }
        ensures out { out.new ≡ open_out (open_verdict (meaning self.old) (Self.Allowance.remaining self.old) «set».now nonce.now label.now ciphertext.now tag.now (length out.old) (length work.old)) out.old }
        ensures left { Self.Allowance.remaining self.new ≡ open_left (open_verdict (meaning self.old) (Self.Allowance.remaining self.old) «set».now nonce.now label.now ciphertext.now tag.now (length out.old) (length work.old)) (Self.Allowance.remaining self.old) }
        ensures work { work.new ≡ work_after work.old }
        ensures same { meaning self.new ≡ meaning self.old };

    ghost lawful: { (m : Self) → Lawful (meaning m) };
}
