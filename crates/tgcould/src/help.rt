//! The texts of the help.

pub const ABOUT: &str = "Answers whether x could ever come to hold a right over y

Reads a script of tgstore from standard input and runs it. Or it reads the text of a history, as tgstore --entries
writes it, and replays it. With --kept it reads the history of a kept file, as a store that runs puts it there. Then it
answers questions about the graph that is left: could x come to hold a right over y, by any commands of the active
subjects? Name each subject that you trust as silent. A silent subject gives no command. Both answers, 'never' and 'could',
are proved.";

pub const STOCK: &str =
    "Names the boxes that new vertices take, as --stock of tgstore does [default:
cells without end]";

pub const SILENT: &str = "Names a subject that gives no command, as the host itself. May be given
several times [default: no subject]";

pub const AS_IF: &str = "Supposes that X has RIGHTS over Y too, so that you can ask about a grant
before you make it. May be given several times [default: no edge]";

pub const ASK: &str = "Asks a question, as '3 r 7'. May be given several times";

pub const NEVER: &str =
    "Asks a question too, and ends with status 1 unless the answer is 'never'. May
be given several times";

pub const ALLOW_DENIED: &str =
    "Lets --never pass although a line of the script was denied or refused. Without
it the status is 3 then";

pub const ADVICE: &str =
    "put a question or an edge in quotes, as in --ask '3 r 7'. A script comes from standard input, as in < script.txt, and a kept file by --kept FILE";

pub const MANUAL: &str = "Questions:
  X and Y are names of vertices. RIGHT is one letter of r w t g a l u v. The word 'new' in the place of a name is the next
  vertex that is made. A name that isn't made yet is asked about as a vertex that an acting subject may make.

  'X RIGHT Y'     could X come to hold RIGHT over Y?
  '* RIGHT Y'     who could come to hold it?
  'X * *'         which rights could X come to hold, and over whom?

  An acting subject is an active subject that isn't silent, or a subject that is spawned on the way. All of them work
  together. They create, spawn, take, grant, give up and retire as they like.

  A line of the script that is denied or refused changes nothing. Standard error reports each such line, with its number
  and the reason. With --stock each create and spawn takes the next box, and is refused if none is left.

Answers:
  never           X never holds it, whatever the acting subjects do
  now             X holds it
  could           X holds it after the lines that follow. Each of them is a command of an acting subject
  could, with N names more
                  X could hold it if --vertices were larger by N. Y is made, and fewer than 64 names are left besides X
  open            tgcould doesn't know. Take it for 'could'. Either over 65536 other names come before a name that isn't
                  made, or X could hold it after lines that aren't shown. The second case needs 64 names that are left
                  besides X, and isn't known to come about

  An answer to 'who' is names, or 'nobody'. Among the names 'new' stands for each vertex that is made later. An answer to
  'which' is NAME:RIGHTS for each vertex, or 'nothing'. What isn't listed never comes about. What is listed has one of the
  other answers, and a question of its own says which.

  With several questions each answer begins with its question, as '3 r 7: could', and ends with an empty line. The answers
  of --ask come first, then those of --never. The lines of a 'could' are lines of a script. Run after yours, they give X
  the right. Each create and spawn among them takes a box. If --stock has too few, standard error says how many more it
  needs. A line that needs an edge of --as-if is served only if that edge is there.

  The answers are about the graph alone, which has no heap. So a 'full' in the script frees nothing here, and a vertex that
  it would free is answered about as it was.

Histories:
  The text of a history begins with 'kovshenul entries 1', or with the snapshot of an earlier graph. So the answers are
  about a store that exists. A text that tgaudit refuses is refused with the same message. The history decides --workers
  and --vertices: leave them out, or give its own numbers. --stock isn't accepted with a history. A denied entry doesn't
  fail a policy. A vertex that the snapshot doesn't show, and that no entry makes, holds nothing.

  With --kept FILE the history is that of the kept file FILE, and standard input isn't read. FILE is only read, and a store
  may use it meanwhile. The answers are about the lines of FILE that were whole when FILE was read. If a crash cut the last
  lines off, standard error says so, and the lines before them count. A FILE that tgaudit FILE refuses is refused. Standard
  error then names FILE and the line, and says what would be right. tgcould takes memory for FILE, its text and its entries.

What is no right:
  tgcould answers about rights. A worker also learns from names, from refusals for room, from the number of a 'full' and
  from time. What workers tell one another by reading and writing is no right either.

Policies:
  Keep a file of questions, one a line, and test each script against it in bash:
    mapfile -t policy < policy.txt
    tgcould --silent 0 \"${policy[@]/#/--never=}\" < script.txt
  No question at all is an error. So an empty file never passes for a policy. The status is 3 if a line of the script was
  denied or refused, because the answers are about a graph without it. If such a line is meant, give --allow-denied.

Exit status:
  0  every question was answered, and each answer to --never is 'never'
  1  an answer to --never isn't 'never', or the run stopped. Standard error says which or why
  2  the words of the command line were not accepted
  3  there is a --never without --allow-denied, and a line of the script was denied or refused

Example:
  printf 'edge 0 1 g\\n0 create rw\\n' | tgcould --silent 0 --ask '1 w 2'
  writes 'never'. Without --silent 0 it writes lines by which 0 hands w on.";
