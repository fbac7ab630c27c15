//! The texts of the help, and the version.

/// The version of all that this repository has. The file `VERSION` says the same.
pub const VERSION: &str = "0.4.0";

pub const ABOUT: &str = "Runs a script on an object store whose access control is proved

Reads a script from standard input, runs it line by line, and writes one line of reply for each command to standard
output. A worker is an active subject. Workers make objects and further workers, hold rights over them, and pass rights
on by the rules of the take-grant model. A command that the rules don't allow is denied, and changes nothing.";

pub const WORKERS: &str =
    "Sets how many workers there are at first, from 1 to 64. Their names are 0, 1, 2
and so on [default: 2]";

pub const HELPERS: &str =
    "Sets how many threads a collection may use, from 1 to 8. Each thread takes the
rows of eight workers at a time. A small heap is collected faster by one
thread [default: 1]";

pub const VERTICES: &str = "Sets how many vertices may ever be made, from 1 to 16777216. Workers are
vertices too, so the number must be at least that of --workers
[default: 1000000]";

pub const BLOCKS: &str =
    "Sets how many blocks of 64 cells the heap may have, from 1 to 65536. The heap
needs the blocks that live cells fill, and one more for each worker. 65536
blocks held 3595117 vertices at once [default: 4096]";

pub const STOCK: &str =
    "Names the boxes that new vertices take, first to last, as letters. A vertex with
box c keeps the last number that was written. Box s keeps the sum of all, m
the greatest, and l the last four. A number after a letter gives so many of
these boxes, of at most 100000 in all [default: no box]";

pub const RACE: &str =
    "Runs the lines of each worker on a thread of its own. Collections are lines of
the first worker, and use the threads of --helpers. Lines of different workers
may run in any order. The replies are written after all threads have ended, in
the order of the script. After them comes 'entries N audit ok' [default: one
thread runs all lines]";

pub const ENTRIES: &str =
    "Writes the text of the history, which tgaudit reads, in the place of replies.
It has the opening, each command that was answered with its reply after ' = ',
and the number of these commands [default: replies]";

pub const WHY: &str =
    "Writes why a line is bad, as a second line of standard error [default: only the
number of the line]";

pub const STRICT: &str =
    "Reports each line that is denied or refused on standard error, with its number
and its reply. If there is such a line, the exit status is 3 in the place of 0.
--race can't be given with it [default: status 0]";

pub const RESUME: &str =
    "Goes on from the history in FILE, and not from a new store. FILE has a text as
--entries writes it, or the head of a part and the entries since. FILE decides
who the workers are, what they store, and how many vertices may ever be made.
If --workers or --vertices is given, its number has to be that of FILE. An
edge line is a bad line. --stock names the boxes that are left. The output
with --entries goes on with the text of FILE. With --race the workers are the
active subjects at the end of FILE [default: a new store]";

pub const KEEP: &str =
    "Keeps the store in FILE. If FILE isn't there, it is begun. Else the run goes on
from it: FILE decides who the workers are, what they store, and how many vertices
may ever be made. If --workers or --vertices is given, its number has to be that
of FILE. An edge line is then a bad line, and --stock names the boxes that are
left. A reply is written after its entry is on the disk. --race, --resume and
--entries can't be given with it [default: the store isn't kept]";

pub const MANUAL: &str = "Script:
  A script has one command a line, and at most 1048576 bytes. A line has at most 256 bytes, and one space between words.
  X, Y and Z are names of vertices, and V is a number. RIGHTS are letters out of r (read), w (write), t (take), g (grant),
  a (append), l (inspect), u and v (both free), in this order.

  edge X Y RIGHTS      worker X starts with RIGHTS over worker Y. Edges come before all other lines, and have no reply
  X create RIGHTS      X makes an object with the next box of the stock, and has RIGHTS over it
  X spawn RIGHTS       X makes a worker with the next box of the stock, and has RIGHTS over it
  X take Y Z RIGHTS    X has t over Y, and gets RIGHTS that Y has over Z
  X grant Y Z RIGHTS   X has g over Y, and gives Y RIGHTS that X has over Z
  X remove Y RIGHTS    X gives up RIGHTS that it has over Y
  X read Y             X has r over Y, and is shown the numbers that Y stores
  X write Y V          X has w over Y, and writes V to Y
  X append Y V         X has a over Y, and adds V to the log that Y stores
  X inspect Y          X has l over Y, and is shown the edges of Y
  X list               X is shown its own edges
  X retire             X is no longer a worker. Its edges and numbers stay while a worker reaches X
  full                 a full collection frees each vertex that no worker reaches. The reply has the number of the others
  minor                a nursery collection frees some of the newest vertices that no worker reaches

  Any other line is a bad line, and the run stops there. --why writes the reason. It is of one of these kinds:
    words     the line is blank or a comment, its first words aren't listed above, or a word is missing or too many
    spaces    there is a tab, a second space, or a space before or after the words
    bytes     there is a capital letter, a byte order mark, or a carriage return before the end of the line
    numbers   a number has a sign or a leading zero, or is over 18446744073709551615
    rights    a right isn't one of the letters, comes twice, or is out of their order
    edges     an edge comes after another line, has an end that is no worker, or goes from a worker to itself. With
              --resume each edge line is a bad line
    end       the last line has no line feed

Replies:
  Each command has a reply of one line. Without --race it is written before the program waits for more input, on pipes too.

  ok                   the command was served. What it asked for comes after 'ok': a name, numbers, or edges as NAME:RIGHTS
  denied RULE X->Y R   the rule needs the rights R on the edge from X to Y, which lacks them
  denied RULE distinct two of the three vertices are the same
  denied append law    Y stores no log
  refused memory       memory ran out. The line can be tried again
  refused heap         no block is left. More are given by --blocks, and a 'full' may free some
  refused vertices     no name is left. More are given by --vertices
  refused stock        no box is left. More are given by --stock
  refused workers      64 workers are active
  refused worker       X isn't a worker, or isn't one any more
  refused threads      a thread of a collection couldn't be started. Fewer are asked for by --helpers

Going on:
  With --resume FILE the script goes on from a history. FILE has its text, whose form tgaudit --help shows. It begins with
  an opening, or with the head of a part. The active subjects at its end are the workers. With --entries the output has
  the entries of the script, and the number of all entries of the text. With --race 'entries N audit ok' has the number of
  all entries of the text too. If FILE can't be taken, no script is read.

  --resume: line L: ..         line L of FILE isn't as asked. 'tgaudit < FILE' says what it has to be
  --resume: no room ..         --blocks has fewer blocks than the history needs, or memory ran out
  --resume: the snapshot ..    the head of the part has no line 'worker N', so nobody can act
  --race: nobody is active ..  no subject is active at the end of FILE, so no thread runs a line
  --workers N differs ..       FILE names another number of workers at its head
  --vertices N differs ..      FILE has another limit of vertices

Keeping:
  With --keep FILE the entries of each line are on the disk before its reply is written. The lines that came at once share a
  write and a sync. The end of the input closes FILE. 'tgaudit FILE' audits it, and shows its history.

  --keep: FILE: ..             FILE can't be begun or opened, or can't be written any more. No reply was written since
  --workers N differs ..       FILE names another number of workers
  --vertices N differs ..      FILE has another limit of vertices

Exit status:
  0  the whole script was run
  1  the run stopped. Standard error has one line that says where and why
  2  the words of the command line were not accepted
  3  --strict was given, the whole script was run, and a line was denied or refused

Example:
  printf '0 create rw\\n0 list\\n' | tgstore --workers 1 --stock c
  writes 'ok 1' and 'ok 1:rw'.

  tgstore --entries --stock c < one.txt > history.txt
  tgstore --entries --stock c --resume history.txt < two.txt > more.txt
  cat more.txt >> history.txt
  runs two scripts after one another. history.txt then has the entries of both.";
