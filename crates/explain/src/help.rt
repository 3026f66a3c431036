// What the argument `--help` prints.
pub const HELP: &str = "explain lists the explanations of a fault.

It reads a sheet from the standard input, and nothing else:

    explain < examples/no-picture.sheet

The first line of a sheet has names of symptoms and faults. Each later line is a clause, with one value for each name:
b for \"if\", h for \"then one of these\", and . for neither. Between two names or values stands one space. So

    nopic psu tuner
    h . .
    b h h

says that there is no picture, and that then the power supply or the tuner has failed. An explanation is a smallest set
of names that fits all clauses. For each one a line is printed, with 1 for each name that is in it:

    nopic psu tuner
    1 1 0
    1 0 1
    end

The last line is end, or more where there are others after 256 of them. For a text that is no sheet, refused and a number
is printed, and what is wrong is told on the standard error.

check_sheet prints the clauses of a sheet in words, copy_sheet writes a sheet again, and diagnose takes observations and
questions. More is told in README.md and docs/PROGRAMS.md, and there are sheets in examples/.
";
