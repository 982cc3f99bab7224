//! A consequence of all definitions together, as a function that does nothing.

ghost use Rattle.std.specs.Prelude.{◌<◌, ◌^◌, ℕ, Bool, List, length};
ghost use Rattle.um_line.specs.Line.{IsRunLine, IsToRun};
ghost use Rattle.um_line.specs.declared.line.Line as lines;
ghost use Rattle.um_runner.specs.RunnerLines.{TellsRunner};

/// The words of a runner, after `run`, mean nothing but to run exactly their command, with their entries or those of the
/// number's file, under their number.
pub fn a_runner_s_words_are_run()
    ensures { (has_file : Bool) (folder : List ℕ) (number : ℕ) (entries command words : List (List ℕ)) (line : lines.Line) → length words < 2 ^ 64
        → TellsRunner has_file folder number entries command words → IsRunLine words line → IsToRun has_file folder number entries command line }
{}
