// What the argument `--help` prints.
pub const HELP: &str = "check_sheet prints the clauses of a sheet in words.

It reads a sheet from the standard input, and nothing else:

    check_sheet < examples/no-picture.sheet

prints how many names and clauses there are, and each clause with its line, as

    line 3: nopic -> psu | tuner | card

For a text that is no sheet, refused and a number is printed, and what is wrong is told on the standard error.

explain lists the explanations of a sheet. More is told in README.md and docs/SHEETS.md.
";
