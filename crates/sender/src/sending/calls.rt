// The calls of a sending end.
ghost use Rattle.std.specs.Prelude.{◌≡◌, length, take, IfOk, Ok, Err, OnOk};
ghost use Rattle.refusal.specs.Cause.{first, unless};
ghost use Rattle.mode.specs.Work.{work_after};
ghost use Rattle.sender.specs.Carry.{Carries};
ghost use Rattle.sender.specs.New.{new_sending, shown};
ghost use Rattle.sender.specs.Send.{send_causes, send_verdict, send_answer, send_out, send_left, send_next, Passes};

use crate::sending::Sending;
use crate::sent::Sent;
use link::fault::EndFault;
use link::numbers::last_number;
use mode::checks::{check_left, check_limits, check_set, check_work};
use mode::count::RunCount;
use mode::fault::ModeFault;
use mode::interface::Mode;
use mode::set::ParameterSet;
use mode::work::Wiped;

impl Sending {
    // An end whose first tube takes the number start, or refusal 5.
    pub fn new(set: ParameterSet, start: u64) -> Result<Sending, EndFault>
        ensures { shown result ≡ new_sending «set» start }
    {
        let last = last_number(&set);
        if start < 1 || start > last {
            return Err(EndFault::Start(start));
        }
        Ok(Sending { set, next: start })
    }

    // Checks 7, 9, 13, 10 and 11.
    fn check<M: Mode>(
        &self,
        mode: &M,
        label: usize,
        contents: usize,
        room: usize,
    ) -> Result<(), EndFault>
        ensures answers { result ≡ unless (first (send_causes (M.Mode.meaning mode.now) (M.Allowance.remaining mode.now) self.now.«set» self.now.next label contents room 64)) Err (Ok tt) }
        ensures admits { OnOk result (Passes (M.Mode.meaning mode.now) (M.Allowance.remaining mode.now) self.now.«set» self.now.next label contents room) }
    {
        check_set(mode.code(), mode.width(), &self.set)?;
        check_limits(label, contents)?;
        let last = last_number(&self.set);
        if self.next > last {
            return Err(EndFault::Last(last));
        }
        let size = 22 + self.set.nonce() + self.set.tag() + label + contents;
        if size > room {
            return Err(EndFault::Mode(ModeFault::Part(size)));
        }
        let runs = mode.count(RunCount::Sealing, label, contents)?;
        check_left(runs, mode.left())?;
        Ok(())
    }

    // Writes one tube under the next number into the first bytes of the output part. A refusal uses up no number, and leaves the output
    // part and the allowance as they were.
    pub fn send<M: Mode>(
        &mut self,
        mode: &mut M,
        label: &[u8],
        contents: &[u8],
        out: &mut [u8],
        work: &mut [u8],
    ) -> Result<Sent, EndFault>
        ensures answers { result ≡ send_answer (send_verdict (M.Mode.meaning mode.old) (M.Allowance.remaining mode.old) self.old.«set» self.old.next label.now contents.now (length out.old) (length work.old)) }
        ensures out { out.new ≡ send_out (send_verdict (M.Mode.meaning mode.old) (M.Allowance.remaining mode.old) self.old.«set» self.old.next label.now contents.now (length out.old) (length work.old)) out.old }
        ensures left { M.Allowance.remaining mode.new ≡ send_left (send_verdict (M.Mode.meaning mode.old) (M.Allowance.remaining mode.old) self.old.«set» self.old.next label.now contents.now (length out.old) (length work.old)) (M.Allowance.remaining mode.old) }
        ensures next { self.new.next ≡ send_next (send_verdict (M.Mode.meaning mode.old) (M.Allowance.remaining mode.old) self.old.«set» self.old.next label.now contents.now (length out.old) (length work.old)) self.old.next }
        ensures kept { self.new.«set» ≡ self.old.«set» }
        ensures work { work.new ≡ work_after work.old }
        ensures same { M.Mode.meaning mode.new ≡ M.Mode.meaning mode.old }
        ensures carries { IfOk result (λ x. Carries (M.Mode.meaning mode.old) self.old.«set» self.old.next label.now contents.now (take x.len out.new)) }
    {
        check_work(work.len())?;
        let guard = Wiped { bytes: work };
        self.check(mode, label.len(), contents.len(), out.len())?;
        let sent = self.write_tube(mode, label, contents, out, guard.bytes)?;
        self.next += 1;
        Ok(sent)
    }
}
