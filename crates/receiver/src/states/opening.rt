// Making a receiving end, and opening a tube.
ghost use Rattle.std.specs.Prelude.{◌≡◌, length, IfOk};
ghost use Rattle.mode.specs.Work.{work_after};
ghost use Rattle.receiver.specs.Open.{answer_of, out_of, left_of};
ghost use Rattle.receiver.specs.Step.{Made, verdict_at, answered, Kept, Fits, Due};
ghost use Rattle.receiver.specs.Run.{Opens, GoesOn, Keeps, event_of, state_of, listening};

use crate::answer::Opened;
use crate::states::checks::{admit, finish};
use crate::states::{Holding, Listening};
use ledger::ledger::Ledger;
use link::fault::EndFault;
use link::numbers::last_number;
use mode::checks::{check_set, check_work};
use mode::interface::Mode;
use mode::set::ParameterSet;
use mode::work::Wiped;

impl Listening {
    // An end that takes every number up to the floor as signed, and no other. Refused by 5 where the floor is above the last number.
    pub fn new(set: ParameterSet, floor: u64) -> Result<Listening, EndFault>
        ensures { Made «set» floor result }
    {
        let ledger = Ledger::new(floor, last_number(&set)).ok_or(EndFault::Start(floor))?;
        Ok(Listening { set, ledger })
    }

    // Hands the contents of a tube over: writes them into the first bytes of `out`, and holds the tube's number until it is signed or
    // given back. A refused open writes nothing and goes on listening. In either case the work memory is zeros afterwards, but for
    // refusal 6. Whatever calls led to this end, the promises hold of them and of this open.
    pub fn open<M: Mode>(
        self,
        mode: &mut M,
        tube: &[u8],
        out: &mut [u8],
        work: &mut [u8],
    ) -> Result<(Holding, Opened), (Listening, EndFault)>
        ensures did { Opens (M.Mode.meaning mode.old) (M.Allowance.remaining mode.old) self tube.now out.old work.old result out.new work.new (M.Allowance.remaining mode.new) }
        ensures same { M.Mode.meaning mode.new ≡ M.Mode.meaning mode.old }
        ensures fits { Fits (length tube.now) (length out.old) (answered result) }
        ensures runs { GoesOn (M.Mode.meaning mode.old) (listening self) (M.Allowance.remaining mode.old) (event_of tube.now out.old work.old (answered result) out.new) (state_of result) (M.Allowance.remaining mode.new) }
        ensures promise { Keeps (M.Mode.meaning mode.old) (listening self) (M.Allowance.remaining mode.old) (event_of tube.now out.old work.old (answered result) out.new) (M.Allowance.remaining mode.new) }
    {
        let answer = self.opened(mode, tube, out, work);
        self.moved(answer)
    }

    // An open but for the move: the answer, or the first cause in order.
    fn opened<M: Mode>(
        &self,
        mode: &mut M,
        tube: &[u8],
        out: &mut [u8],
        work: &mut [u8],
    ) -> Result<Opened, EndFault>
        ensures answers { result ≡ answer_of (verdict_at (M.Mode.meaning mode.old) (M.Allowance.remaining mode.old) self.now tube.now (length out.old) (length work.old)) }
        ensures out { out.new ≡ out_of (verdict_at (M.Mode.meaning mode.old) (M.Allowance.remaining mode.old) self.now tube.now (length out.old) (length work.old)) out.old }
        ensures left { M.Allowance.remaining mode.new ≡ left_of (verdict_at (M.Mode.meaning mode.old) (M.Allowance.remaining mode.old) self.now tube.now (length out.old) (length work.old)) (M.Allowance.remaining mode.old) }
        ensures work { work.new ≡ work_after work.old }
        ensures same { M.Mode.meaning mode.new ≡ M.Mode.meaning mode.old }
        ensures due { IfOk result (λ a. Due self.now.ledger a.number) }
        ensures fits { Fits (length tube.now) (length out.old) result }
    {
        check_work(work.len())?;
        let guard = Wiped { bytes: work };
        check_set(mode.code(), mode.width(), &self.set)?;
        let read = admit(&self.set, &self.ledger, tube)?;
        finish(mode, &self.set, read, tube, out, guard.bytes)
    }

    // Holding the number answered, or listening as before.
    fn moved(
        self,
        answer: Result<Opened, EndFault>,
    ) -> Result<(Holding, Opened), (Listening, EndFault)>
        requires { IfOk answer (λ a. Due self.ledger a.number) }
        ensures { (answered result ≡ answer) × Kept self result }
    {
        match answer {
            Ok(opened) => Ok((
                Holding {
                    end: self,
                    number: opened.number,
                },
                opened,
            )),
            Err(fault) => Err((self, fault)),
        }
    }
}
