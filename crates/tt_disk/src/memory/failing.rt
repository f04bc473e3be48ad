//! Which calls of a device in memory fail. A device begins each call by `begin`, which counts the call and says whether it
//! is to fail, and ends it by `end`, which counts the failure, if it failed.
ghost use Rattle.std.specs.Prelude.{◌≡◌, ◌==◌, ℕ, nat_le, false, IsErr, IsOk, MatchResult, OnErr, OnOk};
ghost use Rattle.std.specs.List.{list_any};
ghost use Rattle.tt_disk.specs.Faults.{HasCause};
ghost use Rattle.tt_disk.specs.Failing.{plan_of, fails_at, fails_next, calls_made, calls_failed, calls_unnoted, counted, UnlessNoted};

use crate::Failed;

/// The calls of a device in memory: how many were made, which are to fail, and how many failed. A count stops at the
/// greatest `u64`.
#[derive(Drop)]
pub struct FailingCalls {
    plan: Plan,
    made: u64,
    failed: u64,
    unnoted: u64,
}

// Why a call that changes a file failed.
#[derive(Clone, Copy)]
pub(super) enum Failure {
    // Its step was noted, so a crash may leave it done.
    Noted,
    // Its step was not noted: memory for that was wanting, or a write would have ended too far.
    NotNoted,
}

// Which calls are to fail, by their numbers. The first call is number 0.
#[derive(Drop)]
enum Plan {
    Never,
    From(u64),
    At(Vec<u64>),
}

impl FailingCalls {
    /// No call was made, and none is to fail.
    pub fn never() -> FailingCalls
        ensures plan { (number : ℕ) → fails_at result number ≡ false }
        ensures made { calls_made result ≡ 0 }
        ensures failed { calls_failed result ≡ 0 }
        ensures unnoted { calls_unnoted result ≡ 0 }
    {
        FailingCalls::with_plan(Plan::Never)
    }

    /// No call was made. The call of this number, the first being 0, and all later ones are to fail.
    pub fn from_call(first: u64) -> FailingCalls
        ensures plan { (number : ℕ) → fails_at result number ≡ nat_le first number }
        ensures made { calls_made result ≡ 0 }
        ensures failed { calls_failed result ≡ 0 }
        ensures unnoted { calls_unnoted result ≡ 0 }
    {
        FailingCalls::with_plan(Plan::From(first))
    }

    /// No call was made. The calls of these numbers, the first being 0, are to fail.
    pub fn at_calls(numbers: Vec<u64>) -> FailingCalls
        ensures plan { (number : ℕ) → fails_at result number ≡ list_any (λ call. call == number) numbers.items }
        ensures made { calls_made result ≡ 0 }
        ensures failed { calls_failed result ≡ 0 }
        ensures unnoted { calls_unnoted result ≡ 0 }
    {
        FailingCalls::with_plan(Plan::At(numbers))
    }

    /// Counts a call that begins, and answers whether it is to fail.
    pub fn begin(&mut self) -> bool
        ensures fails { result ≡ fails_next self.old }
        ensures plan { plan_of self.new ≡ plan_of self.old }
        ensures made { calls_made self.new ≡ counted (calls_made self.old) }
        ensures failed { calls_failed self.new ≡ calls_failed self.old }
        ensures unnoted { calls_unnoted self.new ≡ calls_unnoted self.old }
    {
        let fails = match &self.plan {
            Plan::Never => false,
            Plan::From(first) => self.made >= *first,
            Plan::At(numbers) => numbers.contains(&self.made),
        };
        self.made = self.made.saturating_add(1);
        fails
    }

    /// Counts a failure where the call that ends failed, and hands its answer on.
    pub fn end<T>(&mut self, answer: Result<T, Failed>) -> Result<T, Failed>
        ensures answer { result ≡ answer }
        ensures plan { plan_of self.new ≡ plan_of self.old }
        ensures made { calls_made self.new ≡ calls_made self.old }
        ensures ok { OnOk result (calls_failed self.new ≡ calls_failed self.old) }
        ensures err { OnErr result (calls_failed self.new ≡ counted (calls_failed self.old)) }
        ensures unnoted { calls_unnoted self.new ≡ calls_unnoted self.old }
        ensures cause { HasCause (Unit {0}) (calls_failed self.old) (calls_failed self.new) result }
    {
        if answer.is_err() {
            self.failed = self.failed.saturating_add(1);
        }
        answer
    }

    // Counts a failure as `end` does, and whether the step of the call was noted.
    pub(super) fn end_change(&mut self, answer: Result<(), Failure>) -> Result<(), Failed>
        ensures answer { MatchResult answer (λ _. IsOk result) (λ _. IsErr result) }
        ensures plan { plan_of self.new ≡ plan_of self.old }
        ensures made { calls_made self.new ≡ calls_made self.old }
        ensures ok { OnOk result (calls_failed self.new ≡ calls_failed self.old) }
        ensures err { OnErr result (calls_failed self.new ≡ counted (calls_failed self.old)) }
        ensures unnoted { UnlessNoted answer (calls_unnoted self.new ≡ counted (calls_unnoted self.old)) }
        ensures cause { HasCause (Unit {0}) (calls_failed self.old) (calls_failed self.new) result }
    {
        match answer {
            Ok(()) => self.end(Ok(())),
            Err(Failure::Noted) => self.end(Err(Failed)),
            Err(Failure::NotNoted) => {
                self.unnoted = self.unnoted.saturating_add(1);
                self.end(Err(Failed))
            }
        }
    }

    /// How many calls were made, those that failed included.
    pub fn made(&self) -> u64
        ensures { result ≡ calls_made self.now }
    {
        self.made
    }

    /// How many calls that failed left a crash nothing of what they would have changed: memory was wanting, or a write would have
    /// ended too far.
    pub fn unnoted(&self) -> u64
        ensures { result ≡ calls_unnoted self.now }
    {
        self.unnoted
    }

    fn with_plan(plan: Plan) -> FailingCalls
        ensures plan { plan_of result ≡ plan }
        ensures made { calls_made result ≡ 0 }
        ensures failed { calls_failed result ≡ 0 }
        ensures unnoted { calls_unnoted result ≡ 0 }
    {
        FailingCalls {
            plan,
            made: 0,
            failed: 0,
            unnoted: 0,
        }
    }
}
