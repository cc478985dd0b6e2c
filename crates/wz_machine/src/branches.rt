//! Branches, returns, and the end of a block or a function (Core Specification 2.0, sections 4.4.8
//! to 4.4.10).

ghost use Rattle.std.specs.Prelude.{◌≡◌, ◌+◌, ◌≤◌, ◌<◌, [], ◌∷◌, Some, length, map, reverse, slice_get, MatchBool};
ghost use Rattle.wz_machine.specs.Kept.{entry_of, entry_kind};
ghost use Rattle.wz_machine.specs.Stacks.{CallEntry, LoopEntry, IsStacked};
ghost use Rattle.wz_machine.specs.Landing.{landing, ending, IsLeft, IsAgain};
ghost use Rattle.wz_machine.specs.Advance.{StaysWithin};
ghost use Rattle.wz_machine.specs.Turns.{Turned, TurnedAnywhere, JumpTurned, ReturnTurned, own_of};

use crate::room::move_down;
use crate::stacks::{Kind, Opened, Stacks};
use crate::turn::Turn;
use wz_code::Instr;

/// The entry of this label among the innermost one and those around it.
#[inline]
fn entry_at<'m>(outer: &[Opened<'m>], top: Opened<'m>, label: usize) -> Opened<'m>
    requires { label ≤ length outer.now }
    ensures { slice_get (entry_of top.entry ∷ reverse (map entry_of outer.now)) label ≡
        Some (entry_of result) }
{
    if label == 0 {
        return top;
    }
    outer[outer.len() - label]
}

/// Whether this is a call with another number of values than its results.
#[inline]
fn has_other(kind: Kind<'_>, count: usize, results: usize) -> bool
    ensures { MatchBool result ((entry_kind kind.entry ≡ CallEntry) × (count ≡ results → ⊥))
        (entry_kind kind.entry ≡ CallEntry → count ≡ results) }
{
    match kind {
        Kind::Call => count != results,
        Kind::Block => false,
        Kind::Loop(_) => false,
    }
}

impl<'m> Stacks<'m> {
    /// Leaves all entries up to that of this label. The last `count` of `have` values go along.
    #[inline]
    fn leave(&mut self, label: usize, target: Opened<'m>, have: usize, count: usize)
        requires parent { label < length self.old.outer }
        requires target { slice_get (self.old.top ∷ self.old.outer) label ≡
            Some (entry_of target) }
        requires values { have ≤ length self.old.values }
        requires carried { target.base + count ≤ have }
        ensures { IsLeft self.old label target.entry.base have count self.new }
    {
        let at = self.outer.len() - label - 1;
        let parent = self.outer[at];
        move_down(&mut self.values, target.base, have - count, count);
        self.outer.truncate(at);
        self.top = parent;
        self.have = target.base + count;
    }

    /// Leaves the innermost entry. The last `count` of `have` values go along.
    #[inline(always)]
    fn leave_last(&mut self, have: usize, count: usize)
        requires parent { 0 < length self.old.outer }
        requires values { have ≤ length self.old.values }
        requires carried { self.old.top.base + count ≤ have }
        ensures { IsLeft self.old 0 self.old.top.base have count self.new }
    {
        let base = self.top.base;
        move_down(&mut self.values, base, have - count, count);
        let parent = self.outer.take_last();
        self.top = parent;
        self.have = base + count;
    }

    /// Begins the loop of this label anew. The last `count` of `have` values go along.
    #[inline]
    fn begin_again(
        &mut self,
        label: usize,
        target: Opened<'m>,
        again: &'m [Instr],
        have: usize,
        count: usize,
    )
        requires label { label < length self.old.outer }
        requires target { slice_get (self.old.top ∷ self.old.outer) label ≡
            Some (entry_of target) }
        requires again { entry_kind target.kind ≡ LoopEntry again.now }
        requires values { have ≤ length self.old.values }
        requires carried { target.base + count ≤ have }
        ensures { IsAgain self.old label (entry_of target.entry) again.now have count self.new }
    {
        move_down(&mut self.values, target.base, have - count, count);
        let around = self.outer.len() - label;
        self.outer.truncate(around);
        self.top = target;
        self.top.rest = again;
        self.have = target.base + count;
    }

    /// How many entries stand around the innermost one.
    #[inline]
    fn around(&self) -> usize
        ensures { result ≡ length self.now.outer }
    {
        self.outer.len()
    }

    /// Where the innermost entry's own values begin.
    #[inline]
    fn height(&self) -> usize
        ensures { result ≡ self.now.top.height }
    {
        self.top.height
    }

    /// The entry that a branch to this label goes to.
    #[inline]
    fn target(&self, label: usize) -> Opened<'m>
        requires { label ≤ self.now.top.depth }
        ensures here { slice_get (self.now.top ∷ self.now.outer) label ≡ Some (entry_of result) }
        ensures within { label ≤ length self.now.outer }
        ensures falls { result.base ≤ self.now.top.height }
    {
        entry_at(&self.outer, self.top, label)
    }

    /// Branches to the label of this number, with what the innermost block has of so many values.
    pub fn branch(&mut self, label: usize, have: usize) -> Turn
        requires label { label ≤ self.old.top.depth }
        requires own { self.old.top.height ≤ have }
        requires values { have ≤ length self.old.values }
        ensures { Turned
            (landing label self.old.top self.old.outer self.old.values (own_of self.old have))
            self.old result self.new }
    {
        let target = self.target(label);
        let count = target.arity;
        if have - self.height() < count {
            return Turn::NoRule;
        }
        if label == self.around() {
            return Turn::Ends {
                at: have - count,
                count,
            };
        }
        match target.kind {
            Kind::Call => self.leave(label, target, have, count),
            Kind::Block => self.leave(label, target, have, count),
            Kind::Loop(again) => self.begin_again(label, target, again, have, count),
        }
        Turn::Went
    }

    /// The innermost entry.
    #[inline]
    pub fn innermost(&self) -> Opened<'m>
        ensures entry { entry_of result ≡ self.now.top }
        ensures kind { entry_kind result.kind ≡ self.now.top.kind }
        ensures rest { result.rest.now ≡ self.now.top.rest }
        ensures arity { result.arity ≡ self.now.top.arity }
        ensures base { result.base ≤ result.height }
        ensures height { result.height ≡ self.now.top.height }
        ensures within { result.height ≤ length self.now.values }
        ensures depth { result.depth ≡ self.now.top.depth }
        ensures stacked { IsStacked self.now }
    {
        self.top
    }

    /// How many values there are.
    #[inline]
    pub fn used(&self) -> usize
        ensures count { result ≡ length self.now.values }
        ensures own { self.now.top.height ≤ result }
        ensures stacked { IsStacked self.now }
    {
        self.have
    }

    /// Leaves the innermost block or function at its end.
    #[inline(always)]
    pub fn finish(&mut self) -> Turn
        requires { self.old.top.rest ≡ [] }
        ensures { TurnedAnywhere self.old result self.new }
    {
        let top = self.innermost();
        let have = self.used();
        let count = have - top.height;
        if has_other(top.kind, count, top.arity) {
            return Turn::NoRule;
        }
        if self.around() == 0 {
            return Turn::Ends {
                at: top.height,
                count,
            };
        }
        self.leave_last(have, count);
        Turn::Went
    }

    /// The same where it has no more instructions and stands within another, so that the term goes
    /// on.
    #[inline(always)]
    pub fn ends(&mut self) -> bool
        ensures { MatchBool result (StaysWithin self.old self.new) (self.new ≡ self.old) }
    {
        let top = self.innermost();
        if !top.rest.is_empty() {
            return false;
        }
        let have = self.used();
        let count = have - top.height;
        if has_other(top.kind, count, top.arity) {
            return false;
        }
        if self.around() == 0 {
            return false;
        }
        self.leave_last(have, count);
        true
    }

    /// Branches to the label of this number, where there is one.
    pub fn jump(&mut self, label: usize, have: usize) -> Turn
        requires own { self.old.top.height ≤ have }
        requires values { have ≤ length self.old.values }
        ensures { JumpTurned self.old label have result self.new }
    {
        let top = self.innermost();
        if label > top.depth {
            return Turn::NoRule;
        }
        self.branch(label, have)
    }

    /// Returns from the function.
    pub fn go_back(&mut self, have: usize) -> Turn
        requires own { self.old.top.height ≤ have }
        requires values { have ≤ length self.old.values }
        ensures { ReturnTurned self.old have result self.new }
    {
        let top = self.innermost();
        self.branch(top.depth, have)
    }
}
