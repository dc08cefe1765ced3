//! The verdict on several files.

ghost use Rattle.std.specs.Prelude.{◌≡◌};
ghost use Rattle.std.specs.List.{list_any};
ghost use Rattle.rc_check.specs.Verdicts.{is_failed, is_warned, status_from, status_of};

/// What came of looking at a file.
#[derive(Clone, Copy)]
pub enum Verdict {
    /// There is nothing to say.
    Well,
    /// It is accepted, and has warnings.
    Warned,
    /// It is not accepted, has no form that was asked for, or can't be read.
    Failed,
}

impl Verdict {
    fn is_warned(self) -> bool
        ensures { result ≡ is_warned self }
    {
        matches!(self, Verdict::Warned)
    }

    fn is_failed(self) -> bool
        ensures { result ≡ is_failed self }
    {
        matches!(self, Verdict::Failed)
    }
}

/// The exit status after these verdicts, where warnings count or do not.
pub fn status_of(verdicts: &[Verdict], warnings_count: bool) -> u8
    ensures { result ≡ status_of verdicts.now warnings_count }
{
    status_from(any_failed(verdicts), any_warned(verdicts), warnings_count)
}

fn any_failed(verdicts: &[Verdict]) -> bool
    ensures { result ≡ list_any is_failed verdicts.now }
{
    verdicts.iter().any(|verdict| verdict.is_failed())
}

fn any_warned(verdicts: &[Verdict]) -> bool
    ensures { result ≡ list_any is_warned verdicts.now }
{
    verdicts.iter().any(|verdict| verdict.is_warned())
}

/// The exit status, by whether a file has failed, whether one has warnings, and whether these count.
fn status_from(is_failed: bool, is_warned: bool, warnings_count: bool) -> u8
    ensures { result ≡ status_from is_failed is_warned warnings_count }
{
    if is_failed {
        1
    } else if !is_warned {
        0
    } else if warnings_count {
        2
    } else {
        0
    }
}
