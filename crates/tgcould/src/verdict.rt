//! The exit status, which is 0 only if all policies are kept, and 3 if the script's own lines were denied.
ghost use Rattle.std.specs.Prelude.{◌≡◌, ◌<◌, ◌↔◌, ℕ, List, Option, IfOk, IsTrue};
ghost use Rattle.std.specs.List.{All};
ghost use Rattle.tg_plain.specs.Past.{IsGiven};
ghost use Rattle.tgcould.specs.Policies.{IsKeptPolicy, texts_of};
ghost use Rattle.tgcould.specs.Supposed.{IsSupposed};
ghost use Rattle.tgcould.specs.Verdict.{AreKept, FailsPolicies, IsVerdict, IsVerdictOnGiven};

use crate::answers::Answers;
use crate::checks::are_made;
use crate::options::{ASK, COMMAND_LINE, NEVER, allows_denied, has_policy, questions_in};
use crate::refused::report;
use crate::supposed::{Supposed, suppose};
use clap::ArgMatches;
use std::fs::Files;
use tg_could::Scene;
use tg_model::Picture;
use tg_plain::{Outcome, PlainFault, PlainOptions, RefusedLine, read_options};

// The status if a line of the script was denied or refused, and there is a policy that doesn't allow it.
const REFUSED_LINES: u8 = 3;

/// Answers what is asked on the graph that a script or a history leaves. The words say what is read, and what a script
/// runs on. Reports the script's lines that were denied or refused. Returns the exit status. If it is 0, all policies
/// are kept. It is 3 exactly if there is a policy, no line may be denied, and a line was denied or refused.
pub fn status_of<R: AllocGlobal + Print + Eprint + Input + Files>(
    rt: &R,
    matches: &ArgMatches,
    supposed: &Supposed,
) -> Result<u8, PlainFault>
    requires { IsSupposed matches.now supposed.now }
    ensures { IfOk result (IsVerdictOnGiven R.Reader.remaining matches.now) }
{
    status_given(rt, matches, supposed, read_options(matches))
}

// The exit status with these options. Their kept file is read, or else standard input.
fn status_given<R: AllocGlobal + Print + Eprint + Input + Files>(
    rt: &R,
    matches: &ArgMatches,
    supposed: &Supposed,
    options: PlainOptions,
) -> Result<u8, PlainFault>
    requires { IsSupposed matches.now supposed.now }
    ensures { IfOk result (λ status. (known : Option (List ℕ)) × IsGiven R.Reader.remaining options.entry.kept known × IsVerdict options.entry matches.now known status) }
{
    let Outcome {
        picture,
        boxes,
        refused,
    } = Outcome::given(rt, COMMAND_LINE.name, options)?;
    let fails = fails_policies(matches, refused.as_slice());
    report(rt, refused.as_slice(), fails)?;
    let status = status_on(rt, matches, supposed, picture, boxes)?;
    Ok(last_status(fails, status))
}

// The exit status. It is that of the answers, unless lines of the script fail the policies.
fn last_status(fails: bool, status: u8) -> u8
    requires { status < 3 }
    ensures zero { result ≡ 0 → status ≡ 0 }
    ensures refused { (result ≡ 3) ↔ IsTrue fails }
{
    if fails { REFUSED_LINES } else { status }
}

// Whether there is a policy, no line may be denied, and some were denied or refused.
fn fails_policies(matches: &ArgMatches, refused: &[RefusedLine]) -> bool
    ensures { IsTrue result ↔ FailsPolicies matches.now refused.now }
{
    has_policy(matches) && !allows_denied(matches) && !refused.is_empty()
}

// Answers it on a picture, with what is supposed. So many boxes are left, or `None` if they have no end. Returns the
// exit status.
fn status_on<R: AllocGlobal + Print + Eprint>(
    rt: &R,
    matches: &ArgMatches,
    supposed: &Supposed,
    picture: Picture,
    boxes: Option<u64>,
) -> Result<u8, PlainFault>
    ensures { IfOk result (λ status. (status ≡ 0 → AreKept matches.now supposed.now picture) × (status < 3)) }
{
    if !are_made(rt, picture.made(), supposed) {
        return Ok(2);
    }
    let picture = suppose(picture, supposed.edges.as_slice())?;
    let scene = Scene {
        picture: &picture,
        silent: supposed.silent.as_slice(),
    };
    print_answers(rt, matches, &scene, boxes)
}

// Prints the answers. So many boxes are left, or `None` if they have no end. Returns the exit status.
fn print_answers<R: AllocGlobal + Print + Eprint>(
    rt: &R,
    matches: &ArgMatches,
    scene: &Scene,
    boxes: Option<u64>,
) -> Result<u8, PlainFault>
    ensures { IfOk result (λ status. (status ≡ 0 → All (IsKeptPolicy scene.now.picture.now scene.now.silent.now) (texts_of matches.now NEVER.now)) × (status < 3)) }
{
    let mut answers = Answers::new(rt.alloc(), boxes, questions_in(matches));
    answers.add_all(scene, matches, ASK, false);
    answers.add_all(scene, matches, NEVER, true);
    answers.print(rt)
}
