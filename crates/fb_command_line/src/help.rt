//! What help says after the options: what a command reads and writes, an example, and its exit statuses.

/// Of `fusion` itself.
pub(crate) const FUSION: &str = "\
`fusion COMMAND --help` tells what a command reads and writes, with an example.

Example:
  fusion decode --graph examples/line/graph.json --shots examples/line/shots.01 --format 01

Exit status:
  0  the command came to its end, and all is well
  1  decode, predict: some shot has no correction; check: some row is bad, or there are more or fewer rows than shots
  2  an input is refused: standard error has the name of the rule that it breaks, and the place
  3  a file can't be opened or read
  4  standard output can't be written
  5  memory ran out
  6  the command line is invalid, or asks for help";

/// Of `decode`.
pub(crate) const DECODE: &str = "\
NAME is a file, or `-` for standard input. At most one NAME may be `-`.

The report goes to standard output: a row for each shot, in order, then a line that begins with `done`. A report without
that line is unfinished. Weights are even whole numbers from -1073741824 to 1073741824, without a unit.

Example:
  fusion decode --graph examples/line/graph.json --shots examples/line/shots.01 --format 01

Exit status:
  0  every shot has a correction
  1  some shot has none: its row is `odd`
  2  the graph, the plan or a shot is refused: standard error has the rule that it breaks, and the place
  3  a file can't be opened or read
  4  standard output can't be written
  5  memory ran out
  6  the command line is invalid, or asks for help";

/// Of `check`.
pub(crate) const CHECK: &str = "\
NAME is a file, or `-` for standard input. At most one NAME may be `-`.

A line for each row goes to standard output: `shot K good`, or `shot K bad` and the first rule that the row breaks. A
last line counts rows, shots and bad rows.

Example:
  fusion check --graph examples/line/graph.json --shots examples/line/shots.01 --format 01 --report examples/line/report.txt

Exit status:
  0  every row is good, and there is one for each shot
  1  some row is bad, or there are more or fewer rows than shots
  2  the graph, the report or a shot is refused: standard error has the rule that it breaks, and the place
  3  a file can't be opened or read
  4  standard output can't be written
  5  memory ran out
  6  the command line is invalid, or asks for help";

/// Of `plan`.
pub(crate) const PLAN: &str = "\
NAME is a file, or `-` for standard input.

The plan goes to standard output, in JSON: `decode` takes it as the plan of this graph. It cuts the graph by layers: the
layer of a vertex is how many edges lead to it from the least vertex of its component. K units need at least 2 * K - 1
layers, if K is above 1.

Example:
  fusion plan --graph examples/line/graph.json --units 2

Exit status:
  0  the plan is written
  2  the graph is refused, or has too few layers: standard error has the rule that it breaks, and the place
  3  a file can't be opened or read
  4  standard output can't be written
  5  memory ran out
  6  the command line is invalid, or asks for help";

/// Of `predict`.
pub(crate) const PREDICT: &str = "\
NAME is a file, or `-` for standard input. At most one NAME may be `-`.

A record of bits for each row goes to standard output, once the whole report is read: a bit for each observable, set if an
odd number of the row's edges are in it. A row without a correction sets none. No row is judged: use `check` first.

Example:
  fusion predict --graph examples/line/graph.json --observables examples/line/observables.json --report examples/line/report.txt --to 01

Exit status:
  0  every row has a correction
  1  some row has none: it is `odd`
  2  the graph, the observables or the report is refused: standard error has the rule that it breaks, and the place
  3  a file can't be opened or read
  4  standard output can't be written
  5  memory ran out
  6  the command line is invalid, or asks for help";

/// Of `sample`.
pub(crate) const SAMPLE: &str = "\
No file is read. The lattice has T * D * (D + 1) vertices, at most 1048576, and U units need at least 2 * U - 1 rounds.
An edge weighs 20 in a round and 28 from a round to the next. The sums over all shots go to standard output, in four
lines.

Example, with each edge hit at a rate of 1 %:
  fusion sample --distance 5 --rounds 5 --units 2 --rate 10486 --start 0 --shots 100

Exit status:
  0  all shots are decoded
  2  the lattice is too large, or has too few rounds for its units
  4  standard output can't be written
  5  memory ran out
  6  the command line is invalid, or asks for help";
