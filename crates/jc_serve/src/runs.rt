//! Runs to breakpoints, forwards and backwards.

ghost use Rattle.std.specs.Prelude.{◌≡◌, ℕ, List, ◌+◌, ◌-◌, ◌<◌, ◌≤◌, length, All, IfOk, IfSome};
ghost use Rattle.jc_rules.specs.declared.limits.TheConstants.{MAX_BREAKS};
ghost use Rattle.jc_printer.specs.Canon.{AreNamed};
ghost use Rattle.jc_session.specs.AnswerOf.{AllNamed};
ghost use Rattle.jc_debug.specs.Invariant.{IsDebugger};
ghost use Rattle.jc_replies.specs.ReplyTexts.{move_answer};
ghost use Rattle.jc_replies.specs.AnswerOf.{background_of};
ghost use Rattle.jc_requests.specs.Asked as K;
ghost use Rattle.jc_session.specs.Requests as Q;
ghost use Rattle.jc_serve.specs.AnswerOf.{IsInService, LeadsTo};
ghost use Rattle.jc_serve.specs.Answers.{at_mark, at_start};
ghost use Rattle.jc_serve.specs.InMemory.{IsBehind};
ghost use Rattle.jc_serve.specs.Moves.{ArePaired, IsMovedTo, IsNamedBy, GoesForward, RunsForward, RunsBackward};

use crate::marks::named;
use crate::served::Served;
use jc_answers::{Member, refused};
use jc_debug::{DebugFault, RunEnd};
use jc_replies::{answer_of, position_with};
use jc_rules::Refusal;
use jc_session::Reply;
use std::alloc::{AllocError, Global};

impl Served {
    fn position(&self) -> u64
        ensures position { result ≡ length self.now.here.traces }
        ensures trail { IsDebugger self.now.here }
    {
        self.here.position()
    }

    /// How many events the schedule has.
    fn events(&self) -> u64
        ensures { result ≡ length self.now.here.schedule }
    {
        self.here.schedule().len() as u64
    }

    /// The least place of a breakpoint that names the position, where `aside` is before the event that led there.
    fn named(&self, alloc: Global) -> Result<Option<usize>, AllocError>
        requires { IsBehind self.now.aside self.now.here }
        ensures { IfOk result (IsNamedBy self.now.here self.now.marks.items) }
    {
        named(alloc, &self.aside, &self.here, self.marks.as_slice())
    }

    /// The least place of a breakpoint that names the position, which isn't 0.
    fn named_here(&mut self, alloc: Global) -> Result<Option<usize>, AllocError>
        requires paired { ArePaired self.old }
        requires later { 0 < length self.old.here.traces }
        ensures named { IfOk result (IsNamedBy self.new.here self.new.marks.items) }
        ensures moved { IfOk result (λ _. IsMovedTo self.old self.new (length self.old.here.traces)) }
        ensures trail { IsDebugger self.new.here }
    {
        let n = self.position();
        self.bring_aside(n - 1)?;
        self.named(alloc)
    }

    /// Makes the next event. Returns how a run ends there, if one does.
    fn forward(&mut self, alloc: Global) -> Result<Option<RunEnd>, AllocError>
        requires paired { ArePaired self.old }
        requires few { length self.old.marks.items ≤ MAX_BREAKS }
        requires more { length self.old.here.traces < length self.old.here.schedule }
        ensures { IfOk result (GoesForward self.old self.new) }
    {
        match self.here.step(1) {
            Ok(()) => {}
            Err(DebugFault::Stuck(stuck)) => return Ok(Some(RunEnd::Stuck(stuck))),
            Err(DebugFault::Memory) => return Err(AllocError),
            Err(DebugFault::Refused(_)) => unreachable!(),
        }
        match self.named_here(alloc)? {
            Some(place) => Ok(Some(RunEnd::Break(place as u16 + 1))),
            None => Ok(None),
        }
    }

    /// Makes events up to the first of: a later position that a breakpoint names, an event that is stuck, the
    /// schedule's end. It isn't at the end.
    fn run(&mut self, alloc: Global) -> Result<RunEnd, AllocError>
        requires paired { ArePaired self.old }
        requires few { length self.old.marks.items ≤ MAX_BREAKS }
        requires more { length self.old.here.traces < length self.old.here.schedule }
        ensures { IfOk result (RunsForward self.old self.new) }
    {
        'events: while self.position() < self.events() {
            if let Some(end) = self.forward(alloc)? {
                return Ok(end);
            }
        }
        Ok(RunEnd::End)
    }

    /// Goes back to the last position before its own and behind 0 that a breakpoint names, and returns the place of the
    /// least such one; or goes to position 0. It isn't there.
    fn run_back(&mut self, alloc: Global) -> Result<Option<usize>, AllocError>
        requires paired { ArePaired self.old }
        requires later { 0 < length self.old.here.traces }
        ensures { IfOk result (RunsBackward self.old self.new) }
    {
        'positions: while self.position() > 1 {
            self.here.back(1);
            if let Some(place) = self.named_here(alloc)? {
                return Ok(Some(place));
            }
        }
        self.here.back(1);
        Ok(None)
    }

    /// Runs, and returns what is answered then.
    pub(crate) fn run_answer(&mut self, alloc: Global) -> Result<Vec<u8>, AllocError>
        requires { IsInService self.old }
        ensures { IfOk result (λ answer. (text : List ℕ)
            → LeadsTo text self.old (K.of_session Q.run) self.new answer.items) }
    {
        if self.position() == self.events() {
            return refused(alloc, Refusal::AtEnd);
        }
        let end = self.run(alloc)?;
        let at = self.position();
        let reply = Reply::Ran { at, end };
        answer_of(
            alloc,
            &self.here,
            self.scenario.given.as_slice(),
            b"".as_slice(),
            &reply,
        )
    }

    /// The position, to which a run back led that ended so.
    fn back_answer(&self, alloc: Global, end: Option<usize>) -> Result<Vec<u8>, AllocError>
        requires few { IfSome end (λ place. place < MAX_BREAKS) }
        requires all { AllNamed self.now.here }
        requires given { All (λ e. AreNamed e (length self.now.here.net.names)) self.now.scenario.given.items }
        ensures { IfOk result (λ answer. answer.items
            ≡ move_answer (background_of self.now.scenario.given.items self.now.here) (length self.now.here.traces)
            (at_mark end) (at_start end)) }
    {
        let given = self.scenario.given.as_slice();
        match end {
            Some(place) => {
                let number = Member::number("break", place as u64 + 1);
                position_with(alloc, &self.here, given, number, Member::absent())
            }
            None => {
                let start = Member::text("start", b"true".as_slice());
                position_with(alloc, &self.here, given, Member::absent(), start)
            }
        }
    }

    /// Runs back, and returns what is answered then.
    pub(crate) fn back_run_answer(&mut self, alloc: Global) -> Result<Vec<u8>, AllocError>
        requires { IsInService self.old }
        ensures { IfOk result (λ answer. (text : List ℕ) → LeadsTo text self.old K.back_run self.new answer.items) }
    {
        if self.position() == 0 {
            return refused(alloc, Refusal::AtStart);
        }
        let end = self.run_back(alloc)?;
        self.back_answer(alloc, end)
    }
}
