// The options of a command, put over the settings of its job.
ghost use Rattle.std.specs.Prelude.{◌≡◌};
ghost use Rattle.jet_cli.specs.Refusals.{with_options};

use crate::Options;
use jet_plan::Settings;

/// The settings, with the numbers that options give in place of the job's own.
pub(crate) fn with_options(options: &Options, settings: Settings) -> Settings
    ensures { result ≡ with_options options.now settings }
{
    let mut settings = settings;
    settings.workers = options.workers.unwrap_or(settings.workers);
    settings.members = options.members.unwrap_or(settings.members);
    settings.ring = options.ring.unwrap_or(settings.ring);
    settings
}
