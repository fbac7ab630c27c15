//! Which answers deny or refuse their lines.
ghost use Rattle.std.specs.Prelude.{◌≡◌};
ghost use Rattle.tg_text.specs.Refusing.{says_denial, says_refusal};

use crate::answer::Answer;
use tg_model::Reply;

/// Whether the answer denies or refuses its line.
pub fn is_refusal(answer: &Answer) -> bool
    ensures { result ≡ says_refusal answer.now }
{
    match answer {
        Answer::Reply(reply) => is_denial(reply),
        Answer::Collected(_) => false,
        Answer::Refused(_) => true,
    }
}

// Whether the reply says that a command was denied, or that no vertex could be made.
fn is_denial(reply: &Reply) -> bool
    ensures { result ≡ says_denial reply.now }
{
    match reply {
        Reply::Done | Reply::Name(_) | Reply::Values(_) | Reply::Edges(_) => false,
        Reply::Denied(_) | Reply::VerticesFull | Reply::WorkersFull => true,
    }
}
