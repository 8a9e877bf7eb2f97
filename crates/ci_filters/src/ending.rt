ghost use Rattle.std.specs.Prelude.{◌≡◌};
ghost use Rattle.ci_filters.specs.Formats.{has_ending};

use ci_base::PathText;

/// Whether the name of the path's document ends so.
pub fn has_ending(ending: &str, path: &PathText) -> bool
    ensures { result ≡ has_ending ending.now path.now }
{
    path.last_part().as_bytes().ends_with(ending.as_bytes())
}
