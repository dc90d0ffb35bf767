ghost use Rattle.std.specs.Prelude.{◌≡◌};
ghost use Rattle.programs.specs.Starts.{asks_for_help};

// Is the first of the arguments after the program's name `--help`?
pub fn asks_for_help(paths: &[String]) -> bool
    ensures { result ≡ asks_for_help paths.now }
{
    paths.first().is_some_and(|path| path.as_str() == "--help")
}
