// The texts that are printed on request.
ghost use Rattle.std.specs.Prelude.{◌≡◌};
ghost use Rattle.cli_words.specs.Pages.{page_text};

use crate::command::Page;

const OVERVIEW: &str = "special asks external special remotes of git-annex.\n\
    \n\
    special check PROGRAM KEY                           ask whether a remote has the content of KEY\n\
    special info PROGRAM [KEY]                          ask a remote about itself, and where it has KEY\n\
    special init PROGRAM UUID KEEP [NAME=VALUE ..]      set a remote up\n\
    special run --program PROGRAM --uuid UUID [OPTIONS] store, get, check and drop, as the lines of the input say\n\
    special audit                                       check the journal of a run, which is the input\n\
    special recover JOURNAL [KEEP]                      print the answers of a run that was cut off, and keep what it set\n\
    special rehearse SEED TASKS [world]                 do made-up tasks over remotes in memory\n\
    special COMMAND --help                              describe that command\n\
    special --help                                      print this text\n\
    special --version                                   print the version\n\
    \n\
    PROGRAM speaks the protocol of external special remotes on its standard input and output. It is a path or a name\n\
    in PATH, and gets no arguments. A script in the current folder is ./remote.sh.\n\
    \n\
    Example:\n\
    \n\
    U=6f9619ff-8b86-d011-b42d-00cf4fc964ff\n\
    special init annex-remote-dir $U folder.keep directory=$HOME/contents\n\
    echo \"store WORM-s6--hello hello.txt\" | special run --program annex-remote-dir --uuid $U --keep folder.keep\n\
    \n\
    Statuses:\n\
    \n\
    0  all went well\n\
    1  a task failed\n\
    2  special: usage. The words are wrong. Common causes: --chunk 1M (write 1048576), an option given twice, an invalid\n\
    \x20  UUID\n\
    3  special: line N: REASON. Line N of the input is invalid\n\
    4  special: input failed. The input couldn't be read\n\
    5  writing the output failed\n\
    6  special: keep .. or special: file failed. KEEP or the journal file can't be read or written, KEEP is in use or has\n\
    \x20  changed since the run of JOURNAL began, or the folder of --work can't be made\n\
    7  special: memory. There wasn't enough memory\n\
    \n\
    At 2, 3, 4, 6 and 7 a second line on standard error says what is wrong. Lines that begin special: note: say what to\n\
    do next, such as why PROGRAM couldn't be started, and change no status.\n";

const CHECK: &str = "special check PROGRAM KEY\n\
    \n\
    Starts PROGRAM, which speaks the protocol of external special remotes on its standard input and output, and asks\n\
    it whether it has the content of KEY. Prints one line: 1 present, 1 absent, 1 unknown with what the remote says, or\n\
    1 and why there is no answer: unsupported, notprepared, ended, foul, unsent, startfault or memory.\n\
    The status is 0 if the content is there.\n";

const INFO: &str = "special info PROGRAM [KEY]\n\
    \n\
    Starts PROGRAM, which speaks the protocol of external special remotes on its standard input and output, and asks\n\
    it for its configs, its cost, its availability and its infos, whether it can export, and, if KEY is given, where the\n\
    content of KEY is. Prints the answers: config NAME DESCRIPTION, cost NUMBER, availability global or local, info\n\
    NAME=VALUE, export supported, and whereis TEXT or whereis failure; or configs, cost, availability, infos, export or\n\
    whereis, and unsupported. If an answer doesn't come, one line says why: ended, foul, unsent, notprepared or\n\
    startfault, and nothing follows it.\n\
    The status is 0 if the remote answered everything.\n";

const INIT: &str = "special init PROGRAM UUID KEEP [NAME=VALUE ..]\n\
    \n\
    Starts PROGRAM once and asks it to set its remote up, with each VALUE as the config value NAME. NAME ends at the\n\
    first =; if a NAME is given twice, the later value counts. Prints one line: initialized, failed with what the remote\n\
    says, unsupported, or why there is no answer.\n\
    \n\
    UUID  the remote's UUID\n\
    KEEP  the file that keeps the settings and what the remote sets, for run --keep. It is read first if it is there\n\
    \n\
    The status is 0 if the remote is initialized; then KEEP was written. Otherwise KEEP is unchanged.\n";

const RUN: &str = "special run --program PROGRAM --uuid UUID [OPTIONS]\n\
    \n\
    Does the tasks of the input, with PROGRAM as the remote. Each line of the input is a task: store KEY FILE,\n\
    get KEY FILE, check KEY or drop KEY; or, for the names that a remote exports to, with a tab for TAB, xstore KEY FILE\n\
    TAB NAME, xget KEY FILE TAB NAME, xcheck KEY NAME, xdrop KEY NAME or xrename KEY NAME TAB NEW. When all are done, it\n\
    prints one line for each, in order: its number and its answer.\n\
    \n\
    --program PROGRAM  the program that serves the remote\n\
    --uuid UUID        the remote's UUID\n\
    --jobs NUMBER      how many tasks are done at a time, 1 to 64 (default 4)\n\
    --chunk BYTES      the size of the chunks that files are stored in, at most 1099511627776; 0: whole files (default 0)\n\
    --name NAME        the remote's name (default remote)\n\
    --gitdir FOLDER    the repository's git directory (default .git)\n\
    --keep FILE        the kept file, which is read before the tasks and written after them (default: none)\n\
    --journal FILE     the file to which the journal of the run is written after the tasks; it is overwritten\n\
    \x20                  (default: none)\n\
    --work FOLDER      the folder for files in transit; it is made if its parent is there (default .)\n\
    --starts NUMBER    how often PROGRAM may be started, 1 to 16 (default 3)\n\
    --again NUMBER     how often a task that lost its child may be run again, 0 to 8 (default 0)\n\
    \n\
    Files and folders are relative to the current folder, in which PROGRAM runs too. Numbers are plain digits:\n\
    --chunk 1048576, and not 1M.\n\
    \n\
    Example:\n\
    \n\
    printf 'store WORM-s6--hello hello.txt\\nget WORM-s6--hello again.txt\\n' > tasks\n\
    special run --program annex-remote-dir --uuid 6f9619ff-8b86-d011-b42d-00cf4fc964ff --keep folder.keep < tasks\n\
    \n\
    Answers:\n\
    \n\
    stored, got               done\n\
    dropped, renamed          done\n\
    present, absent           the remote has the content, or doesn't have it\n\
    unknown TEXT              the remote can't tell now\n\
    failed TEXT               the remote said that it failed\n\
    size N, hash HEX          the file, or what was fetched, doesn't match the key\n\
    nofile, filefault         there is no such file, or it couldn't be read or written\n\
    unsupported               the remote doesn't know the request\n\
    notprepared TEXT          the remote can't get ready\n\
    startfault                PROGRAM couldn't be started; special: note: on standard error says why\n\
    nochild                   all starts are used up, and the task lost no child\n\
    ended WHY, foul LINE      the remote's process ended, or broke the protocol with LINE\n\
    unsent, memory            a write to the remote failed, or there wasn't enough memory\n\
    \n\
    The status is 0 if each answer is stored, got, present, dropped or renamed, and 1 otherwise. It is 3 if special: line\n\
    N: REASON was printed, and nothing was started. REASON word: the line doesn't begin with a task's word in lower case;\n\
    key: there is no key after it; unsendable: the key holds a space or a control character, as in lines that end with\n\
    CRLF; chunkkey: it is the key of a chunk; file: a FILE is missing; name: a NAME or NEW is missing, or holds a tab;\n\
    many, long and large: there are too many lines, or too many bytes.\n";

const AUDIT: &str = "special audit\n\
    \n\
    Reads the text of a run, as run --journal writes it, from the input, and checks its journal. Prints one line: legal,\n\
    or wrong with the place of the first entry that isn't allowed, counted from 0, and the number of its kind. If entries\n\
    are missing at the end, these numbers are that of the entries and 0.\n\
    The status is 0 if the journal is legal. A line that can't be part of such a text is refused with status 3.\n";

const RECOVER: &str = "special recover JOURNAL [KEEP]\n\
    \n\
    Reads JOURNAL, the text of a run, which may be cut off anywhere, and prints a line for each task, in order: its number\n\
    and its answer, as run prints it, or open if it has none. What follows the last line end is ignored. The entries are\n\
    checked as audit does, but none may be missing at the end. If one isn't allowed, only wrong is printed, with its place,\n\
    counted from 0, and the number of its kind.\n\
    \n\
    JOURNAL  the file that run --journal wrote\n\
    KEEP     the kept file of that run. It is replaced by what was known after the last entry: the settings that the run\n\
    \x20        began with, what the remote set, and the notes of chunks. If KEEP holds neither what the run began with nor\n\
    \x20        this already, it is left as it is, and special: keep changed is printed\n\
    \n\
    The status is 0 if each answer is stored, got, present, dropped or renamed, and 1 if a task failed or is open, and\n\
    after wrong. A line that can't be part of such a text is refused with status 3. If KEEP has changed, is in use or can't\n\
    be written, the answers are printed, and the status is 6. If the text ends before its line begin, nothing was begun:\n\
    nothing is printed, KEEP is left as it is, and the status is 0.\n";

const REHEARSE: &str = "special rehearse SEED TASKS [world]\n\
    \n\
    Does TASKS tasks, generated from the number SEED, with four workers and remotes in memory, and audits the journal.\n\
    No program is started, and no file is read or written. Prints a line for each of stored, got, present, absent,\n\
    dropped, failed and other, with the number of tasks with that answer, and last what audit prints. The same words\n\
    print the same.\n\
    \n\
    SEED   0 to 4294967295\n\
    TASKS  1 to 65536\n\
    world  host, remotes and the pipes between them are one state, which SEED moves on, one move after the other; no\n\
    \x20      thread is started. Before the last line stands equal, with the number of tasks that got what matches their keys\n\
    \n\
    The status is 0 if other is 0 and the journal is legal, and with world, if also each task is answered and equal is the\n\
    number of got.\n";

const VERSION: &str = "special 0.1.0\n";

impl Page {
    /// The text itself.
    pub fn text(self) -> &'static str
        ensures { result.now ≡ page_text self }
    {
        match self {
            Page::Overview => OVERVIEW,
            Page::Check => CHECK,
            Page::Info => INFO,
            Page::Init => INIT,
            Page::Run => RUN,
            Page::Audit => AUDIT,
            Page::Recover => RECOVER,
            Page::Rehearse => REHEARSE,
            Page::Version => VERSION,
        }
    }
}
