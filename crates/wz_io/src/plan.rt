//! Which later calls of the files in memory are to fail.

ghost use Rattle.std.specs.Prelude.{◌≡◌};
ghost use Rattle.wz_io.specs.Plan.{is_listed, failure_after_call, after_call};

/// The kinds of calls of `Files`.
#[derive(Clone, Copy, Debug, PartialEq, Eq)]
pub enum CallKind {
    OpenInput,
    Read,
    Create,
    Write,
    Close,
}

/// A call that is to fail. `calls` counts the calls of its kind up to and with it, and is 0 once
/// it was made.
#[derive(Clone, Copy, Debug)]
pub struct Failure {
    pub kind: CallKind,
    pub calls: u32,
}

fn count_failure(failure: Failure, kind: CallKind) -> Failure
    ensures { result ≡ failure_after_call kind failure }
{
    if failure.kind == kind {
        Failure {
            kind: failure.kind,
            calls: failure.calls.saturating_sub(1),
        }
    } else {
        failure
    }
}

fn count_down(plan: &mut [Failure], kind: CallKind)
    ensures { plan.new ≡ after_call plan.old kind }
{
    for failure in plan.iter_mut() {
        *failure = count_failure(*failure, kind);
    }
}

/// Counts the call, and says whether it is to fail.
pub fn count_call(plan: &mut Vec<Failure>, kind: CallKind) -> bool
    ensures listed { result ≡ is_listed plan.old.items kind }
    ensures counted { plan.new.items ≡ after_call plan.old.items kind }
{
    let listed = plan
        .iter()
        .any(|failure| failure.kind == kind && failure.calls == 1);
    count_down(plan, kind);
    listed
}
