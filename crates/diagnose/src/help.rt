// What the argument `--help` prints.
pub const HELP: &str = "diagnose answers commands on a sheet.

It reads a sheet, an empty line, and commands, one to a line, from the standard input:

    diagnose < examples/boiler.session

    present NAME      NAME is seen
    absent NAME       NAME is not there
    withdraw          takes the latest observation back
    list              lists the explanations of what is observed
    list N            lists the first N of them
    judge NAME..      do these names fit all clauses, and is it an explanation?
    reasons NAME..    why is each of these names needed?

Each command is printed after >, and under it what it is answered. For a text that is no sheet, refused and a number is
printed, and what is wrong is told on the standard error.

explain --help tells what a sheet is. More is told in README.md and docs/PROGRAMS.md.
";
