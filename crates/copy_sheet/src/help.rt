// What the argument `--help` prints.
pub const HELP: &str =
    "copy_sheet reads a sheet from the standard input, and writes it again from its clauses:

    copy_sheet < examples/no-picture.sheet

prints the bytes that it read. For a text that is no sheet, refused and a number is printed, and what is wrong is told
on the standard error.

explain lists the explanations of a sheet. More is told in README.md and docs/WRITING.md.
";
