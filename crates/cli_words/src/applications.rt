//! The applications of `clap` that read the words of each command.
ghost use Rattle.std.specs.Prelude.{◌≡◌, ◌≢◌, List, [], Option, true, false, map, IfOk, MatchOption, string_bytes};
ghost use Rattle.cli_words.specs.Commands.{session_app, serve_app, option_named};
ghost use Rattle.clap.specs.Words.{app_of, rule_of, fault_of, found_of, is_simple, is_simple_and_free, matches_of, rows_of};

use clap::error::ErrorKind;
use clap::{Arg, ArgMatches, Command as Application};
use lib_base::Memory;
use std::alloc::Global;

/// What reads the words of a session.
pub(crate) fn session_application<'a>(alloc: Global) -> Result<Application<'a>, Memory>
    ensures { IfOk result (λ application. app_of application ≡ session_app) }
{
    let application = Application::new(alloc, "session").disable_help_flag(true);
    let application = application.arg(option(alloc, "workers"))?;
    Ok(application.arg(option(alloc, "requests"))?)
}

/// What reads the words of serving.
pub(crate) fn serve_application<'a>(alloc: Global) -> Result<Application<'a>, Memory>
    ensures { IfOk result (λ application. app_of application ≡ serve_app) }
{
    let application = Application::new(alloc, "serve").disable_help_flag(true);
    let application = application.arg(option(alloc, "connections"))?;
    let application = application.arg(option(alloc, "workers"))?;
    Ok(application.arg(option(alloc, "requests"))?)
}

/// An option of that name with one value, used once at most.
fn option<'a>(alloc: Global, name: &'a str) -> Arg<'a>
    ensures rule { rule_of result ≡ option_named name.entry.now }
    ensures own { result.global ≡ false }
{
    Arg::new(alloc, name).long(name)
}

/// What the application reads from the words, of which the first is its own name; None exactly where
/// it refuses them.
pub(crate) fn read_matches<'a>(
    application: Application<'a>,
    words: &'a [String],
) -> Result<Option<ArgMatches<'a>>, Memory>
    requires { is_simple_and_free (app_of application) ≡ true }
    ensures { IfOk result (λ found. MatchOption found
        (fault_of (app_of application.entry) (map string_bytes words.entry.now) ≢ [])
        (λ matches. (fault_of (app_of application.entry) (map string_bytes words.entry.now) ≡ [])
        × (rows_of (found_of matches) ≡ matches_of (app_of application.entry) (map string_bytes words.entry.now)))) }
{
    match application.try_get_matches_from(words) {
        Ok(matches) => Ok(Some(matches)),
        Err(error) if error.kind() == ErrorKind::OutOfMemory => Err(Memory),
        Err(_) => Ok(None),
    }
}
