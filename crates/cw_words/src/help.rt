//! The texts that the help prints after the commands and options.

/// Follows the list of commands in the help of the program.
pub const OF_PROGRAM: &str = "\
A program is written in a small integer profile of Cilk: cilk_spawn, cilk_sync,
cilk_for and cilk_scope over integers and arrays. 'region NAME { .. }' marks a
part of the source, and scale reports it in a row with the tag NAME.
LANGUAGE.md describes the language, GUIDE.md how to read a report, and examples/
has programs to begin with. They are in PREFIX/share/doc/cilkwork if the program
is installed in PREFIX/bin, and in docs/ and examples/ of the repository.
'cilkwork COMMAND --help' describes one command. FILE - is standard input.
Without a command, the program runs the source on standard input without ARGS.

Standard output:
  check    'ok' if the source compiles
  run      the printed values, the final value of each reducer and the value of
           main, one on each line
  scale    a table of work, span and parallelism of the run and of each region
  sites    a table of calls, work and span of each call in the source
  gain     a table of the spans that the run would have if a function cost
           nothing, for the functions with the largest own spans
  greedy   the number of steps that the run takes on P processors
  speedup  a table of steps and speedups on 1, 2, 4, .. processors
  page     an HTML page that draws all reports of the run
A table is CSV; its first line names the columns. --table aligns the columns of
scale, sites, gain and speedup instead. Work, span, limit and burden are numbers
of instructions.

Every command accepts these words, too, anywhere among the others:
  --explain   after the line on standard error, explains why the source was
              rejected or the run trapped, and shows the relevant lines
  -h, --help  describes the command
As the only word, -V or --version prints the name and the version.

A number is one or more decimal digits; leading zeros are allowed:
  P         1 to 1000000
  ARGS      0 to 9223372036854775807, one for each parameter of main
  --limit   1 to 4611686018427387904; a run that needs all of the default takes
            some seconds
  --burden  0 to 1000000000; a burdened span adds it for each charged edge, as
            if another processor had stolen the continuation
  --edges   spawn charges each edge to a continuation; both also charges each
            edge from the end of a spawned call to its join
  --workers 1 to 64; the number of threads that execute the run. No report
            depends on it
  --top     1 to 64
  --processors  1 to 1000000; the largest number that speedup and page report

Exit status and standard error (L is a line of the source):
  0                     the report is on standard output
  2  refused 1 line L   a byte that starts no token or is above 127, or a number
                        above 9223372036854775807
  2  refused 2 line L   a token that cannot be there, or the source ends too
                        early
  2  refused 3 line L   the source breaks a rule of names and types
  2  refused 4 line L   the source breaks a rule of ownership
  2  refused 5 line L   the source or the program exceeds a limit on its size
  2  refused 6          the verifier rejects the code
  3  trap C line L      C is 1 overflow, 2 division by zero, 3 index outside an
                        array, 4 array length, 5 iterations of a loop, 6 depth
                        of calls
  4  over limit         the run costs more than its limit
  4  too many strands   greedy: the run has more than 1000000 strands
  5  arguments          wrong number of arguments for main, a number that is
                        malformed or out of range, --edges other than spawn or
                        both, or words that are not text
  5  file               the source cannot be opened or read
  5  error: ..          words that the command does not accept
  6  memory             out of memory
  7  write failed       standard output does not accept the whole report";

/// Follows the options in the help of `check`.
pub const OF_CHECK: &str = "\
Prints 'ok' if the source compiles. Takes no arguments of main and runs nothing.
--explain explains why the source was rejected. 'cilkwork --help' lists the exit
statuses and the lines on standard error.";

/// Follows the options in the help of `run`.
pub const OF_RUN: &str = "\
Prints each printed value on a line, then the final value of each reducer of the
source ('sum NAME = V' or 'max NAME = V', and 'max NAME = none' if nothing
updated it), then 'return V' with the value V of main. If the run traps, only
the values that were printed before are on standard output. --burden and --edges
have no effect here.

--explain explains why the source was rejected or the run trapped. 'cilkwork
--help' describes ARGS and numbers, and lists the exit statuses.";

/// Follows the options in the help of `scale`.
pub const OF_SCALE: &str = "\
Prints a table as CSV, and nothing of what the program prints. The first line
names the columns. The second line, with an empty tag, is the whole run. Then
each region has a line, in the order of the source, even if it was never
executed; it sums the executions that are inside no other execution of the tag.
  tag                   the name of the region
  work                  executed instructions
  span                  instructions on a longest path
  parallelism           work divided by span, three digits, rounded down; 0.000
                        if the span is 0
  burdened_span         the span if each continuation edge of a path costs the
                        burden; with --edges both, each return edge, too
  burdened_parallelism  work divided by burdened span, rounded in the same way
GUIDE.md explains how to read them; 'cilkwork --help' says where it is.

--explain explains why the source was rejected or the run trapped. 'cilkwork
--help' describes ARGS and numbers, and lists the exit statuses.";

/// Follows the options in the help of `sites`.
pub const OF_SITES: &str = "\
Prints a table as CSV, and nothing of what the program prints. The first line
names the columns. The second line, site 0, is main itself. Then each call in
the source has a line, in the order of the source, even if it was never made.
  site      0, or the number of the call in the source, from 1
  kind      root for site 0, otherwise spawn or call
  line      the line of the call; for site 0 the line of the word main
  callee    the function that is called
  calls     the number of these calls
  own_work  instructions of these calls, without the calls inside them
  own_span  the part of own_work that is on a longest path of the whole run
  work      instructions of these calls, with the calls inside them
  span      the sum of the spans of these calls
work and span leave out a call that is inside another call of the same site. The
own work of all sites adds up to the work of the run, and their own span to its
span. --burden and --edges have no effect here.
GUIDE.md explains how to read them; 'cilkwork --help' says where it is.

--explain explains why the source was rejected or the run trapped. 'cilkwork
--help' describes ARGS and numbers, and lists the exit statuses.";

/// Follows the options in the help of `gain`.
pub const OF_GAIN: &str = "\
Prints a table as CSV, and nothing of what the program prints. The first line
names the columns. The second line, without a name, is the whole run as it is.
Then each function with an own span has a line, the largest own span first, at
most as many functions as --top says.
  function               its name
  line                   the line of its head
  calls                  the number of its calls
  own_work               instructions of these calls, without the calls inside
                         them
  own_span               the part of own_work that is on a longest path
  span_if_free           the span of the run if the function's own instructions
                         cost nothing
  parallelism_if_free    work divided by span_if_free, three digits, rounded
                         down; 0.000 if span_if_free is 0
  burdened_span_if_free  the burdened span of the run in the same case
A faster function cannot reduce the span below span_if_free. The table does not
show what running calls in parallel would gain that now run one after another.
Each reported function takes one more run, by one thread.
GUIDE.md explains how to read them; 'cilkwork --help' says where it is.

--explain explains why the source was rejected or the run trapped. 'cilkwork
--help' describes ARGS and numbers, and lists the exit statuses.";

/// Follows the options in the help of `greedy`.
pub const OF_GREEDY: &str = "\
Prints a table as CSV, and nothing of what the program prints. The first line
names the columns, the second line is the whole run.
  processors  P
  work        executed instructions
  span        instructions on a longest path
  greedy      steps of the greedy schedule on P processors
A strand is a part of the run without a call, spawn or join in it. It is ready
if it is not done and all strands with an edge into it are done. In each step
the first P ready strands in serial order execute one instruction each, or all
of them if there are fewer. The steps are at least work / P and at least the
span; P times the steps are at most the work plus P - 1 times the span. More
than 1000000 strands are too many.
GUIDE.md explains how to read it; 'cilkwork --help' says where it is.

--explain explains why the source was rejected or the run trapped. 'cilkwork
--help' describes P, ARGS and numbers, and lists the exit statuses.";

/// Follows the options in the help of `page`.
pub const OF_PAGE: &str = "\
Prints one HTML file that needs no other file and no network: what limits the
run, its speedup by number of processors, where work and span go by function and
by call site, the regions, the source, the output of the program and the reports
as text. It draws them with JavaScript; without it, the source and the reports
are readable. The page compares the run with an earlier page that you open in
it. The output is cut after its last line within 1 MiB. --top acts as in gain,
--processors as in speedup, --burden and --edges as in scale. If the run does
not return, there is no page: standard error has the same line as for run.
  cilkwork page FILE ARGS > page.html

--explain explains why the source was rejected or the run trapped. 'cilkwork
--help' describes ARGS and numbers, and lists the exit statuses.";

/// Follows the options in the help of `speedup`.
pub const OF_SPEEDUP: &str = "\
Prints a table as CSV, and nothing of what the program prints. The first line
names the columns. Then each power of two below --processors has a line, and
--processors itself has the last line.
  processors        P
  steps             steps of the greedy schedule on P processors, as greedy
                    reports them; empty if the run has more than 1000000 strands
  speedup           work divided by steps, three digits, rounded down; empty if
                    steps is
  speedup_bound     the minimum of P and work divided by span: no schedule is
                    faster
  burdened_steps    work plus P - 1 times the burdened span, divided by P and
                    rounded down: an estimate for a run in which steals cost
                    time
  burdened_speedup  work divided by burdened_steps, rounded in the same way
Work and span are those of scale; --burden and --edges act as in scale.
GUIDE.md explains how to read them; 'cilkwork --help' says where it is.

--explain explains why the source was rejected or the run trapped. 'cilkwork
--help' describes ARGS and numbers, and lists the exit statuses.";
