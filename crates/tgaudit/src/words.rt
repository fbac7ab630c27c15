//! The words of the command line.

/// The version of all that this repository has. The file `VERSION` says the same.
pub const VERSION: &str = "0.4.0";

/// The help.
pub const HELP: &str =
    "Audits the text of a history: its opening, and a line for each entry with its reply

Reads a text from standard input. It has a line with its form, an opening, a line for each entry, and the number of
entries. tgaudit replays the entries on the plain graph of the opening, and compares each reply. It writes 'audit ok, N
entries' if every reply is the answer of the rules. Otherwise standard error names the first line at fault. Lines are
counted from 1, and entries from 0.

More entries may come after the number of entries, and then their new number. So a host can end the text after each
flush, and go on with it later.

A history can be cut into parts. A later part has a head in the place of the opening. The head begins with a snapshot,
which has what the active subjects reach after the entries before. Its last line has the SHA-256 of all bytes of the
part before. tgaudit --snapshot prints the head for the part before. So each part is audited alone. The head of a part
is right if tgaudit printed the same one for the part before.

The memory of tgaudit grows with what the subjects reach, with the edges of the opening and with the lines of the
snapshot. It does not grow with the entries.

With names of files tgaudit reads kept files in the place of standard input. A kept file has the lines of one history, as
a store puts them there while it runs. Each line has a checksum, which also covers the checksum of the line before. Each
FILE is audited by itself, and is only read. If all is well, tgaudit writes how many entries and batches FILE has, its last
line, and whether the last run was closed. A batch is what one write and one sync put into FILE. If a crash cut the last
lines off, tgaudit reports them and leaves them out. That is no fault. Otherwise standard error names the line at fault and
the byte at which it begins, counted from 0. tgaudit takes memory for all of FILE.

Usage: tgaudit [OPTIONS]
       tgaudit FILE..
       tgaudit --front FILE

Options:
      --snapshot      Prints the head of the next part in the place of the number of entries [default: the number]
      --after <FILE>  Checks too that the head of the part has the SHA-256 of FILE [default: the sum is not compared]
      --front <FILE>  Writes the whole lines of the kept file FILE up to a damage, or up to an end that was cut off, as
                      they are in FILE. No line is audited [default: FILE is audited]
  -h, --help          Print help
  -V, --version       Print version

The form:
  kovshenul entries 1         the first line
  opening WORKERS VERTICES    workers at first, from 1 to 64, and vertices that may ever be made, up to 2^48
  worker c0                   for each worker: what it stores
  edge 0 1 rw                 for each edge between workers
  0 create r c0 = ok 5        for each entry: a line of a script, what a new vertex stores, and the reply
  entries N                   the last line: how many entries this text has. Such a line may also come before and between
                              the entries. It has the number of entries before it in this text

  What a vertex stores is the letter of its law and its numbers. c7 is a cell, s7 a sum, and m7 a maximum. l4:1,2 is a log
  of at most 4 numbers, and l4 is an empty one.

The form of the head of a part:
  kovshenul picture 1         the first line
  made MADE VERTICES ENTRIES  vertices made so far, vertices that may ever be made, and entries before
  worker N                    for each active subject, by rising names: its name
  vertex N c0                 for each vertex that these reach, by rising names: its name, and what it stores
  edge N N rw                 for each edge of these, by rising ends
  picture N                   the last line of the snapshot: how many lines of vertices and edges there are
  sha256 SUM                  the SHA-256 of all bytes of the part before, as 64 digits in lower case. This line may be
                              left out

The form of a kept file:
  kovshenul kept 1 @c4b942f6  the first line
  TEXT @SUM                   for each other line of the history's text: the first line of a batch
  TEXT #SUM                   another line of a batch
  entries N @SUM              a mark: how many entries come before it. A run that is closed puts it twice, and ends the file
                              after it

  SUM is the CRC-32 of gzip, as eight digits, of the digits of the line before and TEXT. For the first line the digits
  before are 00000000. After the lines of a run that wasn't closed come zeros.

Faults:
  line L: bad line            it is none of these, or may not stand there; or the number of entries is wrong
  line L: vertex N needs ..   a line of a snapshot isn't as asked. Vertices, subjects and edges are counted from 0
  line L: bad entry N         its worker is no active subject, its value fits no law, or the reply isn't the rules'. N
                              counts the entries before the snapshot too
  line L: the end is cut off  the text ends within line L, or in front of it and not after a line 'entries N'
  the head has ..             with --after: all entries are legal, and the head has no sum or not that of FILE
  line L, at byte B, is ..    the line of a kept file isn't whole, and a later batch is there: bytes were altered or lost
  line L, at byte B: ..       the line of a kept file is whole, and is a bad line or has a bad entry
  the opening is cut off ..   a kept file ends within its opening. The store had not begun to serve
  the first line isn't ..     the file is no kept file, or one of another version

Exit status:
  0  all entries are legal, also if the last lines of a FILE were cut off
  1  a line or a sum is at fault, a FILE is damaged, reading or writing failed, or memory ran out. Of several FILEs one
     is enough
  2  the words of the command line were not accepted

Example:
  printf 'kovshenul entries 1\\nopening 1 9\\nworker c0\\n0 create r c5 = ok 1\\n0 read 1 = ok 5\\nentries 2\\n' | tgaudit
  writes 'audit ok, 2 entries'.

  tgaudit --snapshot < part1.txt > part2.txt
  makes the head of the next part. Its entries come after that.

  tgaudit --after part1.txt < part2.txt
  audits the next part, and checks that its head has the sum of part1.txt.

  tgaudit --front damaged.kept > front.kept
  writes the lines before the damage to a file that can be opened.
";

/// How the program is called.
pub const USAGE: &str = "Usage: tgaudit [OPTIONS] <TEXT
       tgaudit FILE..
       tgaudit --front FILE";

/// The line that is printed after a fault of the words.
pub const MORE: &str = "For more information, try '--help'.";

/// The rule for the sum.
pub const OF_A_SUM: &str =
    "after the snapshot comes 'sha256 SUM', with the SHA-256 of all bytes of the file of the part before, as 64 digits in lower case; tgaudit --snapshot prints it";

/// The rule for the end.
pub const OF_THE_END: &str =
    "the last line is 'entries N', with the number of entries and a line feed";
