// The answer to a question about an instant.
ghost use Rattle.std.specs.Prelude.{◌≡◌};
ghost use Rattle.reasons.specs.Taking.{named_of};
ghost use Rattle.foldheron.specs.Reasons.{reason_values, named_owed};

use reaction::Stopped;
use refusals::Why;

// The statement that is the reason; QUESTION, where the thing asked about is not so.
pub(crate) fn of_named(named: Option<usize>) -> Result<usize, Stopped>
    ensures { reason_values result ≡ named_owed (named_of named) }
{
    named.ok_or(Stopped::Refused(Why::Question.at(0)))
}
